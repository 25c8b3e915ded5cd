// Compares the proved functions with a list of the original's answers, read from standard input.
#![tactic(auto)]

mod forms;
mod headers;
mod list;
mod regions;
mod sizes;

ghost use Rattle.std.specs.Prelude.{◌≤◌, IfOk, length};

use list::Tally;
use std::io;
use std::io::Read;

// One more than the largest length of a list, in bytes.
const ROOM: usize = 262_144;

fn report(rt: &impl Print, name: &str, t: Tally) -> io::Result<()> {
    println!(rt; "{name}: {} rows, {} differ", t.rows, t.differ)
}

// A list, and the rows that are compared so far.
#[derive(Drop)]
struct Comparison<'a, P> {
    rt: &'a P,
    text: &'a [u8],
    known: Tally,
}

impl<P: Print> Comparison<'_, P> {
    // Compares and reports the rows with a name. `agrees`: whether the proved function returns the answer in a row for the
    // arguments in the row.
    fn compare<F: Fn(&[i64]) -> bool>(&mut self, name: &str, agrees: F) -> io::Result<()>
        requires { F.IsAlwaysCallable agrees }
    {
        let t = list::rows_of(self.text, name.as_bytes(), &agrees);
        self.known = self.known.plus(t);
        report(self.rt, name, t)
    }

    fn regions(&mut self) -> io::Result<()> {
        self.compare("is_empty", regions::is_empty)?;
        self.compare("right", regions::right)?;
        self.compare("bottom", regions::bottom)?;
        self.compare("contains", regions::contains)?;
        self.compare("translate", regions::translate)?;
        self.compare("intersection", regions::intersection)?;
        self.compare("pad", regions::pad)?;
        self.compare("downsample", regions::downsample)?;
        self.compare("container_aligned", regions::container_aligned)
    }

    fn sizes(&mut self) -> io::Result<()> {
        self.compare("mirror", sizes::mirror)?;
        self.compare("group_sizes", sizes::group_sizes)?;
        self.compare("split_block", sizes::split_block)
    }

    fn headers(&mut self) -> io::Result<()> {
        self.compare("read_half", headers::read_half)?;
        self.compare("read_gabor", headers::read_gabor)?;
        self.compare("read_epf", headers::read_epf)?;
        self.compare("read_filters", headers::read_filters)
    }
}

// Reports each subject, the rows with an unknown name, and the total.
fn replay(rt: &impl Print, text: &[u8]) -> io::Result<()> {
    let mut list = Comparison {
        rt,
        text,
        known: Tally::default(),
    };
    list.regions()?;
    list.sizes()?;
    list.headers()?;
    let known = list.known;
    let unknown = list::unknown(list::rows(text), known.rows);
    report(rt, "unknown", unknown)?;
    report(rt, "total", known.plus(unknown))
}

// Reads until `out` is full or the input ends, which `read_exact` would refuse. The number is how many bytes at the
// start of `out` were read.
// Form: each call says how many bytes it read, and the loop ends where one has none, so no range counts the calls.
fn read_full<R: Read>(input: &mut R, out: &mut [u8]) -> io::Result<usize>
    ensures { IfOk result (λ n. n ≤ length out.new) }
{
    let mut count = 0;
    while count < out.len() {
        let n = input.read(&mut out[count..])?;
        if n == 0 {
            break;
        }
        count += n;
    }
    Ok(count)
}

fn main(rt: HostRuntime) -> io::Result<()> {
    let mut text = [0u8; ROOM];
    let count = read_full(&mut rt.stdin(), &mut text)?;
    if ROOM <= count {
        return println!(rt; "the list is too long");
    }
    replay(&rt, &text[..count])
}
