// A list has one row per line: a name, then numbers, separated by single spaces. Empty lines and lines that start with
// # are not rows.

#[derive(Clone, Copy, Default)]
pub struct Tally {
    pub rows: u64,
    pub differ: u64,
}

const MOST_NUMBERS: usize = 1024;

impl Tally {
    // No list is long enough for a sum to wrap.
    pub fn plus(self, more: Tally) -> Tally {
        Tally {
            rows: self.rows.wrapping_add(more.rows),
            differ: self.differ.wrapping_add(more.differ),
        }
    }
}

// Rows with an unknown name count as different.
pub fn unknown(rows: u64, known: u64) -> Tally {
    let unknown = rows.saturating_sub(known);
    Tally {
        rows: unknown,
        differ: unknown,
    }
}

// Reads the numbers of a line into the start of `out`; none if a word is no number, or the line has too many.
fn read<'a>(words: &[u8], out: &'a mut [i64]) -> Option<&'a [i64]> {
    let count = words.split(|byte| *byte == b' ').count();
    let row = out.get_mut(..count)?;
    for (number, word) in row.iter_mut().zip(words.split(|byte| *byte == b' ')) {
        *number = replay_text::number_of(word)?;
    }
    Some(row)
}

// Whether the numbers after a row's name agree; a space stands before each.
// Form: this and each function that hands `agrees` on ask (`requires`) that it may be called: no type says so of a closure.
fn agrees_on<F: Fn(&[i64]) -> bool>(rest: &[u8], agrees: &F) -> bool
    requires { F.IsAlwaysCallable agrees.now }
{
    let [b' ', words @ ..] = rest else {
        return false;
    };
    let mut numbers = [0i64; MOST_NUMBERS];
    read(words, &mut numbers).is_some_and(|row| agrees(row))
}

fn is_row(line: &[u8]) -> bool {
    !matches!(line, [] | [b'#', ..])
}

// The tally of a line: one row if its first word is the name, and none otherwise.
// Form: the clause as at `agrees_on`.
fn row_of<F: Fn(&[i64]) -> bool>(line: &[u8], name: &[u8], agrees: &F) -> Tally
    requires { F.IsAlwaysCallable agrees.now }
{
    match line.split_at_checked(replay_text::end_of(line, 0, b' ')) {
        Some((word, rest)) if word == name => Tally {
            rows: 1,
            differ: u64::from(!agrees_on(rest, agrees)),
        },
        _ => Tally::default(),
    }
}

// Compares the rows with this name.
// Form: the clause as at `agrees_on`.
pub fn rows_of<F: Fn(&[i64]) -> bool>(text: &[u8], name: &[u8], agrees: &F) -> Tally
    requires { F.IsAlwaysCallable agrees.now }
{
    let mut tally = Tally::default();
    for line in text.split(|byte| *byte == b'\n') {
        tally = tally.plus(row_of(line, name, agrees));
    }
    tally
}

// Counts all rows.
pub fn rows(text: &[u8]) -> u64 {
    text.split(|byte| *byte == b'\n')
        .filter(|line| is_row(line))
        .count() as u64
}
