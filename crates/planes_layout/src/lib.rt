// The layout of a filter region in the planes of an image region, which every pass uses.
#![tactic(auto)]

ghost use Rattle.refusals.specs.Checks.{first_of};
ghost use Rattle.refusals.specs.Refusals.{IsOutcome};
ghost use Rattle.region_placement.specs.Placed.{placed_checks};
ghost use Rattle.planes_layout.specs.Outcome.{layout_of};

use planes::{Layout, Size};
use refusals::Refusal;
use region::Region;
use region_placement::placed;

// The layout, or refusal: 4 if a region is outside the limits, 5 if the filter region is not inside the image region.
#[tactic(auto, unfolding(crate::specs::Outcome::layout_of))]
pub fn layout_of(image: Region, filter: Region, full: bool) -> Result<Layout, Refusal>
    ensures { IsOutcome result (first_of (placed_checks image filter)) (layout_of image filter full) }
{
    let at = placed(image, filter)?;
    Ok(Layout {
        image: Size {
            width: image.width as usize,
            height: image.height as usize,
        },
        left: at.x as usize,
        top: at.y as usize,
        width: filter.width as usize,
        height: filter.height as usize,
        full,
    })
}
