// The rectangle of a picture that the filters need for a wanted one (Specification 17.1 to 17.3).
#![tactic(auto)]

ghost use Rattle.std.specs.Prelude.{◌≡◌};
ghost use Rattle.refusals.specs.Checks.{first_of};
ghost use Rattle.refusals.specs.Refusals.{IsOutcome};
ghost use Rattle.region_interval.specs.Interval.{span_of, reaching};
ghost use Rattle.region_interval.specs.Overlap.{meet};
ghost use Rattle.loupe_region.specs.Widened.{widened};
ghost use Rattle.loupe_region.specs.Outcome.{bad_wanted, off_blocks, rectangle_checks, widened_checks, widened_region};
ghost use Rattle.loupe_region.specs.Fits.{WantedFits};

use planes::planes_fit;
use refusals::Refusal;
use region::Region;
use region_axis::check_span;
use region_interval::overlap::meet;
use region_interval::{Axis, Span};
use region_placement::on_blocks;
use run_passes::Settings;

// What the loupe shows: the filter region of a whole picture, the wanted rectangle of it, the number of planes, 1 or 3,
// and the settings of the filters.
#[repr(C)]
#[derive(Clone, Copy)]
pub struct LoupeSetup {
    pub whole: Region,
    pub wanted: Region,
    pub planes: u32,
    pub settings: Settings,
}

// One axis of the widened rectangle: what the wanted positions need, clipped to the whole.
fn clipped(wanted: Axis, margin: u32, whole: Axis) -> Span
    ensures { result ≡ meet (reaching margin 8 (span_of wanted.start wanted.len)) (span_of whole.start whole.len) }
{
    meet(wanted.reaching(margin), whole.span())
}

fn widened(whole: Region, wanted: Region, margin: u32) -> Region
    requires { WantedFits whole wanted }
    ensures { result ≡ widened margin whole wanted }
{
    let x = check_span(clipped(wanted.columns(), margin, whole.columns())).unwrap();
    let y = check_span(clipped(wanted.rows(), margin, whole.rows())).unwrap();
    Region {
        left: x.start,
        top: y.start,
        width: x.len,
        height: y.len,
    }
}

impl LoupeSetup {
    // Whether the wanted rectangle is empty or reaches outside the whole.
    fn bad_wanted(self) -> bool
        ensures { result ≡ bad_wanted self.whole self.wanted }
    {
        self.wanted.width == 0 || self.wanted.height == 0 || !self.whole.surrounds(self.wanted)
    }

    // Whether the EPF runs and the whole does not start at multiples of 8.
    fn off_blocks(self) -> bool
        ensures { result ≡ off_blocks self }
    {
        self.settings.iterations_fit() && self.settings.epf_on() && !on_blocks(self.whole)
    }
}

// The rectangle whose planes `loupe_smooth` takes, whatever their number, or refusal 4, 15, 6 or 9.
pub fn widened_rectangle(s: LoupeSetup) -> Result<Region, Refusal>
    ensures { IsOutcome result (first_of (rectangle_checks s)) (widened_region s) }
{
    if !s.whole.picture_fits() {
        return Err(Refusal::OutOfLimits);
    }
    if !s.wanted.rectangle_fits() {
        return Err(Refusal::OutOfLimits);
    }
    if s.bad_wanted() {
        return Err(Refusal::WantedOutside);
    }
    if s.off_blocks() {
        return Err(Refusal::NotOnBlocks);
    }
    let margin = s.settings.margin()?;
    Ok(widened(s.whole, s.wanted, margin))
}

// The rectangle whose planes `loupe_smooth` takes, or refusal 4, 15, 6 or 9.
pub fn loupe_widened(s: LoupeSetup) -> Result<Region, Refusal>
    ensures { IsOutcome result (first_of (widened_checks s)) (widened_region s) }
{
    let region = widened_rectangle(s)?;
    if !planes_fit(s.planes) {
        return Err(Refusal::OutOfRange);
    }
    Ok(region)
}
