// Operations that return a region (region.rs of the original). Each function checks the given regions and its result
// against the limits of Specification 4.1.
#![tactic(auto)]

ghost use Rattle.std.specs.Prelude.{◌≡◌, T};
ghost use Rattle.refusals.specs.Checks.{first_of};
ghost use Rattle.refusals.specs.Refusals.{number_of, IsOutcome};
ghost use Rattle.refusals.specs.Answered.{value_or};
ghost use Rattle.region.specs.Measures.{bounds_fit};
ghost use Rattle.region.specs.Regions.{region_of, zero_region};
ghost use Rattle.region.specs.Answers.{pair_checks};
ghost use Rattle.region_arithmetic.specs.Arithmetic.{translated, intersected, padded_by, downsampled, aligned_to};
ghost use Rattle.region_arithmetic.specs.Answers.{region_number, made_checks, setting_checks, is_factor, is_alignment};

use refusals::{Refusal, number_of};
use region::Region;
use region_axis::check_span;
use region_interval::overlap::{meet, vacant};
use region_interval::{LARGEST_EXPONENT, Span};

// A region made from others; zeros in a refused call.
// Form: C's answer, a number with zeros beside a refusal; Rust callers get the `Result`. `CutAnswer` of `cut_read` has the
// same fields, but C's interface names two structs.
#[repr(C)]
#[derive(Clone, Copy)]
pub struct RegionAnswer {
    pub number: u32,
    pub region: Region,
}

// The answer at the C boundary stands here, since definitions of the loupe name it.
// Form: one impl for each of C's structs, since an impl that a macro writes is refused.
impl From<Result<Region, Refusal>> for RegionAnswer {
    ghost from_gives = { λ made a. a ≡ record { number = number_of made; region = value_or zero_region made } };

    fn from(made: Result<Region, Refusal>) -> RegionAnswer {
        RegionAnswer {
            number: number_of(made),
            region: made.unwrap_or_default(),
        }
    }
}

const LARGEST_FACTOR: u32 = 16;

const LARGEST_ALIGNMENT: u32 = 1 << LARGEST_EXPONENT;

// The region of these columns and rows if it is within the limits, or refusal 4.
#[tactic(auto, using(region_axis::proofs::Laws::axis_none, region::proofs::Laws::bounds_spans), unfolding(crate::specs::Answers::region_number))]
fn check_made(x: Span, y: Span) -> Result<Region, Refusal>
    ensures { IsOutcome result (region_number (region_of x y)) (region_of x y) }
{
    let Some(across) = check_span(x) else {
        return Err(Refusal::OutOfLimits);
    };
    let Some(down) = check_span(y) else {
        return Err(Refusal::OutOfLimits);
    };
    Ok(Region {
        left: across.start,
        top: down.start,
        width: across.len,
        height: down.len,
    })
}

fn is_alignment(grid_dim: u32) -> bool
    ensures { result ≡ is_alignment grid_dim }
{
    grid_dim.is_power_of_two() && grid_dim <= LARGEST_ALIGNMENT
}

// The region moved by (x, y), or refusal 4.
pub fn translate(r: Region, x: i32, y: i32) -> Result<Region, Refusal>
    ensures { IsOutcome result (first_of (made_checks r (translated x y r))) (translated x y r) }
{
    r.check_bounds()?;
    check_made(r.columns().moved(x), r.rows().moved(y))
}

// The intersection of two regions within the limits.
#[tactic(auto, unfolding(crate::specs::Arithmetic::intersected))]
fn common(a: Region, b: Region) -> Result<Region, Refusal>
    requires { T (bounds_fit a) × T (bounds_fit b) }
    ensures { IsOutcome result 0 (intersected a b) }
{
    let x = meet(a.columns().span(), b.columns().span());
    let y = meet(a.rows().span(), b.rows().span());
    if vacant(x) || vacant(y) {
        return Ok(Region::default());
    }
    check_made(x, y)
}

// The intersection, zeros if it is empty, or refusal 4.
pub fn intersection(a: Region, b: Region) -> Result<Region, Refusal>
    ensures { IsOutcome result (first_of (pair_checks a b)) (intersected a b) }
{
    a.check_bounds()?;
    b.check_bounds()?;
    common(a, b)
}

// The region with `size` more columns and rows on every side, or refusal 4.
#[tactic(auto, using(crate::proofs::Answers::result_checked), unfolding(crate::specs::Arithmetic::padded_by))]
pub fn pad(r: Region, size: u32) -> Result<Region, Refusal>
    ensures { IsOutcome result (first_of (made_checks r (padded_by size r))) (padded_by size r) }
{
    r.check_bounds()?;
    check_made(r.columns().padded(size), r.rows().padded(size))
}

// The cells of 2^factor × 2^factor positions that the region touches, or refusal 4 or 9.
pub fn downsample(r: Region, factor: u32) -> Result<Region, Refusal>
    ensures { IsOutcome result (first_of (setting_checks r (is_factor factor) (downsampled factor r))) (downsampled factor r) }
{
    r.check_bounds()?;
    if LARGEST_FACTOR < factor {
        return Err(Refusal::OutOfRange);
    }
    check_made(r.columns().shrunk(factor), r.rows().shrunk(factor))
}

// The smallest region around r whose edges are multiples of `grid_dim`, or refusal 4 or 9.
pub fn container_aligned(r: Region, grid_dim: u32) -> Result<Region, Refusal>
    ensures { IsOutcome result (first_of (setting_checks r (is_alignment grid_dim) (aligned_to grid_dim r))) (aligned_to grid_dim r) }
{
    r.check_bounds()?;
    if !is_alignment(grid_dim) {
        return Err(Refusal::OutOfRange);
    }
    let exponent = grid_dim.trailing_zeros();
    check_made(r.columns().aligned(exponent), r.rows().aligned(exponent))
}
