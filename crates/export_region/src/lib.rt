// The C boundary of regions: each function passes its arguments on to one function of the library.
// Form: the C interface has a number, with zeros beside a refusal, and one impl makes each of its structs, since an impl that
// a macro writes is refused.
#![tactic(auto)]

ghost use Rattle.std.specs.Prelude.{◌≡◌, false, pos};
ghost use Rattle.refusals.specs.Refusals.{number_of};
ghost use Rattle.refusals.specs.Answered.{value_or};
ghost use Rattle.region_arithmetic.specs.Answers.{translate_outcome, intersection_outcome, pad_outcome};
ghost use Rattle.region_arithmetic.specs.Answers.{downsample_outcome, aligned_outcome};
ghost use Rattle.export_region.specs.Answers.{is_empty_outcome, right_outcome, bottom_outcome, contains_outcome};

use refusals::{Refusal, number_of};
use region::Region;
use region_arithmetic::RegionAnswer;

// Whether a test of regions holds; false in a refused call.
#[repr(C)]
#[derive(Clone, Copy)]
pub struct BoolAnswer {
    pub number: u32,
    pub holds: bool,
}

impl From<Result<bool, Refusal>> for BoolAnswer {
    ghost from_gives = { λ r a. a ≡ record { number = number_of r; holds = value_or false r } };

    fn from(answer: Result<bool, Refusal>) -> BoolAnswer {
        BoolAnswer {
            number: number_of(answer),
            holds: answer.unwrap_or_default(),
        }
    }
}

// The first column right of a region or the first row below it; 0 in a refused call.
#[repr(C)]
#[derive(Clone, Copy)]
pub struct EdgeAnswer {
    pub number: u32,
    pub edge: i32,
}

impl From<Result<i32, Refusal>> for EdgeAnswer {
    ghost from_gives = { λ r a. a ≡ record { number = number_of r; edge = value_or (pos 0) r } };

    fn from(answer: Result<i32, Refusal>) -> EdgeAnswer {
        EdgeAnswer {
            number: number_of(answer),
            edge: answer.unwrap_or_default(),
        }
    }
}

// Returns whether a region is empty: its width or height is 0.
// Numbers: 0; 4 if the region is outside the limits: a side over 16,384, or left or top outside -1,048,576 to
// 1,048,576. A refused call returns false.
#[unsafe(no_mangle)]
pub extern "C" fn restoration_region_is_empty(r: Region) -> BoolAnswer
    ensures { result ≡ is_empty_outcome r }
{
    BoolAnswer::from(r.is_empty())
}

// Returns the first column right of a region: left + width.
// Numbers: 0; 4 if the region is outside the limits (see `restoration_region_is_empty`). A refused call returns edge
// 0.
#[unsafe(no_mangle)]
pub extern "C" fn restoration_region_right(r: Region) -> EdgeAnswer
    ensures { result ≡ right_outcome r }
{
    EdgeAnswer::from(r.right())
}

// Returns the first row below a region: top + height.
// Numbers: 0; 4 if the region is outside the limits (see `restoration_region_is_empty`). A refused call returns edge
// 0.
#[unsafe(no_mangle)]
pub extern "C" fn restoration_region_bottom(r: Region) -> EdgeAnswer
    ensures { result ≡ bottom_outcome r }
{
    EdgeAnswer::from(r.bottom())
}

// Returns whether region `r` contains region `target`. An empty target is always contained.
// Numbers: 0; 4 if either region is outside the limits (see `restoration_region_is_empty`). A refused call returns
// false.
#[unsafe(no_mangle)]
pub extern "C" fn restoration_region_contains(r: Region, target: Region) -> BoolAnswer
    ensures { result ≡ contains_outcome r target }
{
    BoolAnswer::from(r.contains(target))
}

// Moves a region by `x` columns and `y` rows.
// Numbers: 0; 4 if the region or the moved region is outside the limits (see `restoration_region_is_empty`). A
// refused call returns the region 0, 0, 0, 0.
#[unsafe(no_mangle)]
#[tactic(auto, unfolding(region_arithmetic::specs::Answers::region_answer))]
pub extern "C" fn restoration_region_translate(r: Region, x: i32, y: i32) -> RegionAnswer
    ensures { result ≡ translate_outcome r x y }
{
    RegionAnswer::from(region_arithmetic::translate(r, x, y))
}

// Returns the intersection of two regions. If they only touch or are apart, it is the region 0, 0, 0, 0.
// Numbers: 0; 4 if either region is outside the limits (see `restoration_region_is_empty`). A refused call returns
// the region 0, 0, 0, 0.
#[unsafe(no_mangle)]
#[tactic(auto, unfolding(region_arithmetic::specs::Answers::region_answer))]
pub extern "C" fn restoration_region_intersection(a: Region, b: Region) -> RegionAnswer
    ensures { result ≡ intersection_outcome a b }
{
    RegionAnswer::from(region_arithmetic::intersection(a, b))
}

// Extends a region by `size` samples on each of its four sides.
// Numbers: 0; 4 if the region or the padded region is outside the limits (see `restoration_region_is_empty`). A
// refused call returns the region 0, 0, 0, 0.
#[unsafe(no_mangle)]
#[tactic(auto, unfolding(region_arithmetic::specs::Answers::region_answer))]
pub extern "C" fn restoration_region_pad(r: Region, size: u32) -> RegionAnswer
    ensures { result ≡ pad_outcome r size }
{
    RegionAnswer::from(region_arithmetic::pad(r, size))
}

// Downsamples a region by 2^factor: left and top are divided by 2^factor and rounded toward minus infinity, right and
// bottom are divided and rounded toward plus infinity.
// Numbers: 0; 4 if the region is outside the limits (see `restoration_region_is_empty`), or if the factor is in range
// and the result is outside them; 9 if the factor is over 16. If several apply, the lowest is returned. A refused
// call returns the region 0, 0, 0, 0.
#[unsafe(no_mangle)]
#[tactic(auto, unfolding(region_arithmetic::specs::Answers::region_answer))]
pub extern "C" fn restoration_region_downsample(r: Region, factor: u32) -> RegionAnswer
    ensures { result ≡ downsample_outcome r factor }
{
    RegionAnswer::from(region_arithmetic::downsample(r, factor))
}

// Extends a region to the smallest one around it whose left, top, right and bottom are multiples of `grid_dim`.
// Numbers: 0; 4 if the region is outside the limits (see `restoration_region_is_empty`), or if `grid_dim` is in range
// and the result is outside them; 9 if `grid_dim` is not a power of two from 1 to 8,192. If several apply, the lowest
// is returned. A refused call returns the region 0, 0, 0, 0.
#[unsafe(no_mangle)]
#[tactic(auto, unfolding(region_arithmetic::specs::Answers::region_answer))]
pub extern "C" fn restoration_region_container_aligned(r: Region, grid_dim: u32) -> RegionAnswer
    ensures { result ≡ aligned_outcome r grid_dim }
{
    RegionAnswer::from(region_arithmetic::container_aligned(r, grid_dim))
}
