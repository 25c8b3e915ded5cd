// The position of a filter region in an image region, and whether it starts at multiples of 8.
#![tactic(auto)]

ghost use Rattle.std.specs.Prelude.{◌≡◌, ◌≤◌};
ghost use Rattle.refusals.specs.Checks.{first_of};
ghost use Rattle.refusals.specs.Refusals.{number_of, IsOutcome};
ghost use Rattle.region_placement.specs.Placed.{placed_checks, place_of};
ghost use Rattle.region_placement.specs.Blocks.{clamp_to_zero, on_block, on_blocks};

use limits::BLOCK;
use refusals::Refusal;
use region::Region;

// Columns and rows from the image region's corner.
// Form: `Grid`, `Split`, `CountAnswer` and `MarginAnswer` have two `u32` too, but no columns and rows of samples.
#[derive(Clone, Copy, Debug, PartialEq, Eq)]
pub struct Place {
    pub x: u32,
    pub y: u32,
}

// The position of a filter region in an image region: 4 if either is outside the limits, 5 if the filter region is
// not inside the image region.
pub fn placed(image: Region, filter: Region) -> Result<Place, Refusal>
    ensures { IsOutcome result (first_of (placed_checks image filter)) (place_of image filter) }
{
    if !image.picture_fits() || !filter.picture_fits() {
        return Err(Refusal::OutOfLimits);
    }
    if !image.surrounds(filter) {
        return Err(Refusal::NotInside);
    }
    Ok(Place {
        x: region_axis::offset(image.left, filter.left),
        y: region_axis::offset(image.top, filter.top),
    })
}

// A left or top, 0 if it is negative.
pub fn clamp_to_zero(z: i32) -> usize
    ensures { (result ≡ clamp_to_zero z) × (result ≤ 4294967296) }
{
    if z < 0 { 0 } else { z as usize }
}

// Whether a left or top is not negative and a multiple of 8.
fn on_block(z: i32) -> bool
    ensures { result ≡ on_block z }
{
    0 <= z && clamp_to_zero(z) % BLOCK == 0
}

// Whether a region starts at multiples of 8.
pub fn on_blocks(r: Region) -> bool
    ensures { result ≡ on_blocks r }
{
    on_block(r.left) && on_block(r.top)
}
