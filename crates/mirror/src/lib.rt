// The mirrored index of an integer among n samples (Specification 8.1).
#![tactic(auto)]

ghost use Rattle.std.specs.Prelude.{◌≡◌, pos};
ghost use Rattle.std.specs.Int.Signed.{mag};
ghost use Rattle.std.proofs.Math.IntN.{sub_ℕ};
ghost use Rattle.refusals.specs.Checks.{first_of};
ghost use Rattle.refusals.specs.Refusals.{number_of, IsOutcome};
ghost use Rattle.refusals.specs.Answered.{value_or};
ghost use Rattle.mirror.specs.Mirror.{mirror};
ghost use Rattle.mirror.specs.Outcome.{mirror_checks};

use limits::MAX_SIDE;
use refusals::{Refusal, number_of};

// Form: a region's left and top have limits of the same value (`region_axis`), but in another row of Specification 4.1 and
// with another refusal.
const MIN_OFFSET: isize = -1_048_576;

const MAX_OFFSET: isize = 1_048_576;

// The mirrored place, counted from 0; 0 in a refused call.
// Form: C's answer, a number with zeros beside a refusal; Rust callers get the `Result`. `LengthAnswer` of `cut_write` has
// fields of these types too, but a length of a file.
#[repr(C)]
#[derive(Clone, Copy)]
pub struct MirrorAnswer {
    pub number: u32,
    pub index: usize,
}

// The answer at the C boundary stands here, since `mirror_outcome` of specs/ names it.
// Form: one impl for each of C's structs, since an impl that a macro writes is refused.
impl From<Result<usize, Refusal>> for MirrorAnswer {
    ghost from_gives = { λ r a. a ≡ record { number = number_of r; index = value_or 0 r } };

    fn from(answer: Result<usize, Refusal>) -> MirrorAnswer {
        MirrorAnswer {
            number: number_of(answer),
            index: answer.unwrap_or_default(),
        }
    }
}

// The mirrored index of a number that is not negative. Laps of n indices ascend and descend alternately.
fn reflected(index: usize, n: usize) -> usize
    ensures { result ≡ mirror (pos index) n }
{
    if index < n {
        return index;
    }
    if n == 0 {
        return 0;
    }
    let lap = index / n;
    let inner = index % n;
    if lap.is_multiple_of(2) {
        inner
    } else {
        n - 1 - inner
    }
}

// The mirrored index of x - back among n samples, 0 if n is 0.
pub fn mirrored(x: usize, back: usize, n: usize) -> usize
    ensures { result ≡ mirror (sub_ℕ x back) n }
{
    if back <= x {
        return reflected(x - back, n);
    }
    reflected(back - x - 1, n)
}

// The offset, or -1 - offset if it is negative: both have the same mirrored index.
fn unsigned(offset: isize) -> usize
    ensures { result ≡ mag offset }
{
    if offset < 0 {
        return (-(offset + 1)) as usize;
    }
    offset as usize
}

// The mirrored index of an offset among len samples, or refusal 9 outside the limits of Specification 4.1.
pub fn mirror(offset: isize, len: usize) -> Result<usize, Refusal>
    ensures { IsOutcome result (first_of (mirror_checks offset len)) (mirror offset len) }
{
    if len < 1 || MAX_SIDE < len {
        return Err(Refusal::OutOfRange);
    }
    if offset < MIN_OFFSET || MAX_OFFSET < offset {
        return Err(Refusal::OutOfRange);
    }
    Ok(reflected(unsigned(offset), len))
}
