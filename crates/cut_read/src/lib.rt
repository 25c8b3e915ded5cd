// Reading a cut file: how many rectangles and planes it has, the region of one rectangle, and its samples (Specification 16).
#![tactic(auto)]

ghost use Rattle.std.specs.Prelude.{◌≡◌, length};
ghost use Rattle.refusals.specs.Checks.{first_of};
ghost use Rattle.refusals.specs.Refusals.{IsOutcome};
ghost use Rattle.cut_file.specs.Read.{count_in, file_checks, region_checks, read_checks};
ghost use Rattle.cut_read.specs.Outcome.{count_answer_of, cut_in, cut_answer_of, read_outcome};

use byteorder::{ByteOrder, LittleEndian};
use cut_bytes::{u16_at, u32_at};
use cut_file::{MARKER_LENGTH, check_file, entry_at, planes_in, region_in, sample_count};
use refusals::{Refusal, number_of};
use region::Region;

// How many rectangles a file has; 0 in a refused call.
// Form: C's answer, a number with zeros beside a refusal; Rust callers get the `Result`. `MarginAnswer` of `run_passes` has
// fields of these types too, but a margin.
#[repr(C)]
#[derive(Clone, Copy)]
pub struct CountAnswer {
    pub number: u32,
    pub count: u32,
}

// A rectangle of a file: its region, and the number of planes, which the rectangles of a file share.
#[derive(Clone, Copy, Default)]
pub struct Cut {
    pub region: Region,
    pub planes: u32,
}

// The region of a rectangle, and the number of planes.
// Form: C's answer, a number with zeros beside a refusal; Rust callers get the `Result`.
#[repr(C)]
#[derive(Clone, Copy)]
pub struct CutAnswer {
    pub number: u32,
    pub region: Region,
    pub planes: u32,
}

// The answer at the C boundary stands here, since the theorem of `cut_round` speaks of it.
// Form: one impl for each of C's structs, since an impl that a macro writes is refused.
impl From<Result<u32, Refusal>> for CountAnswer {
    ghost from_gives = { λ counted answer. answer ≡ count_answer_of counted };

    fn from(counted: Result<u32, Refusal>) -> CountAnswer {
        CountAnswer {
            number: number_of(counted),
            count: counted.unwrap_or_default(),
        }
    }
}

// The answer at the C boundary stands here, since the theorem of `cut_round` speaks of it.
// Form: one impl for each of C's structs, since an impl that a macro writes is refused.
impl From<Result<Cut, Refusal>> for CutAnswer {
    ghost from_gives = { λ found answer. answer ≡ cut_answer_of found };

    fn from(found: Result<Cut, Refusal>) -> CutAnswer {
        let cut = found.unwrap_or_default();
        CutAnswer {
            number: number_of(found),
            region: cut.region,
            planes: cut.planes,
        }
    }
}

// The number of rectangles in a file.
pub fn cut_count(file: &[u8]) -> Result<u32, Refusal>
    ensures { IsOutcome result (first_of (file_checks file.now)) (count_in file.now) }
{
    check_file(file)?;
    Ok(u16_at(file, MARKER_LENGTH))
}

// The region of rectangle k, counted from 0, and the number of planes.
pub fn cut_region(file: &[u8], k: u32) -> Result<Cut, Refusal>
    ensures { IsOutcome result (first_of (region_checks file.now k)) (cut_in file.now k) }
{
    let count = cut_count(file)?;
    if count <= k {
        return Err(Refusal::OutOfRange);
    }
    Ok(Cut {
        region: region_in(file, k),
        planes: planes_in(file),
    })
}

// The region of rectangle k and the number of planes, and its samples, as bit patterns, plane after plane.
pub fn read_cut(file: &[u8], k: u32, samples: &mut [u32]) -> Result<Cut, Refusal>
    ensures answer { IsOutcome result (first_of (read_checks file.now k (length samples.old))) (cut_in file.now k) }
    ensures stored { samples.new ≡ (read_outcome file.now k samples.old).samples }
{
    let cut = cut_region(file, k)?;
    if sample_count(cut.planes, cut.region) != Some(samples.len()) {
        return Err(Refusal::WrongLength);
    }
    let at = u32_at(file, entry_at(k)) as usize;
    LittleEndian::read_u32_into(&file[at..at + 4 * samples.len()], samples);
    Ok(cut)
}
