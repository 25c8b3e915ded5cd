// One axis of a region: the positions p with start ≤ p < end, on integers wide enough that nothing overflows.
#![tactic(auto)]

pub mod overlap;

ghost use Rattle.std.specs.Prelude.{◌≡◌, ◌+◌, ◌≤◌, ◌<◌, ◌^◌, min, pos, ◌+ℤ◌, ◌*ℤ◌};
ghost use Rattle.std.specs.Int.Signed.{mag};
ghost use Rattle.region_interval.specs.Integers.{floor_div, ceil_div};
ghost use Rattle.region_interval.specs.Interval.{span_of, extent, moved, padded, reaching, shrunk, aligned};

#[derive(Clone, Copy, Debug, PartialEq, Eq)]
pub struct Span {
    pub start: i64,
    pub end: i64,
}

impl Span {
    // The distance of the ends: the number of positions, if the start is not after the end.
    pub fn extent(self) -> u64
        ensures { result ≡ extent self }
    {
        self.end.abs_diff(self.start)
    }
}

// `len` positions from `start`.
#[derive(Clone, Copy, Debug, PartialEq, Eq)]
pub struct Axis {
    pub start: i32,
    pub len: u32,
}

// Alignments are 2^0 to 2^13.
pub const LARGEST_EXPONENT: u32 = 13;

// A block is 2^3 samples wide.
const BLOCK_EXPONENT: u32 = 3;

// start + len
fn end_of(start: i32, len: u32) -> i64
    ensures { (result ≡ start +ℤ pos len) × (mag result < 0x2_0000_0000) }
{
    i64::from(start) + i64::from(len)
}

// x / 2^f, rounded toward minus infinity.
fn floor_shift(x: i64, f: u32) -> i64
    requires { f < 64 }
    ensures { (result ≡ floor_div x (2 ^ f)) × (mag result ≤ mag x) }
{
    x >> f
}

// x / 2^f, rounded toward plus infinity.
fn ceil_shift(x: i64, f: u32) -> i64
    requires { (f < 64) × (mag x < 0x8_0000_0000) }
    ensures { (result ≡ ceil_div x (2 ^ f)) × (mag result ≤ mag x + 2) }
{
    -floor_shift(-x, f)
}

// q * 2^f
fn multiple(q: i64, f: u32) -> i64
    requires { (f < 14) × (mag q < 0x8_0000_0000) }
    ensures { result ≡ q *ℤ pos (2 ^ f) }
{
    q * (1i64 << f)
}

impl Axis {
    pub fn span(self) -> Span
        ensures { result ≡ span_of self.start self.len }
    {
        Span {
            start: i64::from(self.start),
            end: end_of(self.start, self.len),
        }
    }

    // Both ends moved by d.
    pub fn moved(self, d: i32) -> Span
        ensures { result ≡ moved d (span_of self.start self.len) }
    {
        let by = i64::from(d);
        Span {
            start: i64::from(self.start) + by,
            end: end_of(self.start, self.len) + by,
        }
    }

    // n more positions at each end.
    pub fn padded(self, n: u32) -> Span
        ensures { result ≡ padded n (span_of self.start self.len) }
    {
        let by = i64::from(n);
        Span {
            start: i64::from(self.start) - by,
            end: end_of(self.start, self.len) + by,
        }
    }

    // n more positions at each end, and the start then moved down to a multiple of 8.
    pub fn reaching(self, n: u32) -> Span
        ensures { result ≡ reaching n 8 (span_of self.start self.len) }
    {
        let by = i64::from(n);
        let from = i64::from(self.start) - by;
        let to = end_of(self.start, self.len) + by;
        Span {
            start: multiple(floor_shift(from, BLOCK_EXPONENT), BLOCK_EXPONENT),
            end: to,
        }
    }

    // The cells of 2^f positions that the span touches. An f over 63 counts as 63.
    pub fn shrunk(self, f: u32) -> Span
        ensures { result ≡ shrunk (2 ^ min f 63) (span_of self.start self.len) }
    {
        let by = f.min(63);
        Span {
            start: floor_shift(i64::from(self.start), by),
            end: ceil_shift(end_of(self.start, self.len), by),
        }
    }

    // The span extended to multiples of 2^f. An f over 13 counts as 13.
    pub fn aligned(self, f: u32) -> Span
        ensures { result ≡ aligned (2 ^ min f 13) (span_of self.start self.len) }
    {
        let by = f.min(LARGEST_EXPONENT);
        Span {
            start: multiple(floor_shift(i64::from(self.start), by), by),
            end: multiple(ceil_shift(end_of(self.start, self.len), by), by),
        }
    }
}
