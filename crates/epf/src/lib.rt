// One step of the edge-preserving filter over rows of the result region; the filter region lies anywhere inside the
// image region.
#![tactic(auto)]

ghost use Rattle.std.specs.Prelude.{◌≡◌, ◌≤◌, length};
ghost use Rattle.refusals.specs.Checks.{first_of};
ghost use Rattle.refusals.specs.Refusals.{number_of};
ghost use Rattle.planes.specs.Band.{passed};
ghost use Rattle.planes.specs.Fits.{LayoutFits, BandFits};
ghost use Rattle.planes_layout.specs.Outcome.{PassOutcome};
ghost use Rattle.epf_step.specs.Steps.{standard_limit};
ghost use Rattle.epf_tiles.specs.Tile.{step_over};
ghost use Rattle.epf_tiles.specs.Region.{RegionFits};
ghost use Rattle.epf.specs.Outcome.{step_checks, epf_outcome};

use epf_step::LAST_STEP;
use epf_tiles::Step;
use epf_tiles::strips::filter_region;
use limits::BLOCK;
use planes::{Layout, filter_row, planes_fit, rows_fit};
use planes_layout::layout_of;
use planes_outside::copy_outside;
use refusals::{Refusal, flag_fits, flag_set};
use region::Region;
use region_placement::{clamp_to_zero, on_blocks};

// 0.3 (Specification 11.4): a sigma below this copies the sample. Bits 3E99999A.
const COPYING_LIMIT: f32 = 0.3;

// The settings of one step of the edge-preserving filter. `multiplier` is the step's scale: `pass0_sigma_scale`, 1 or
// `pass2_sigma_scale` for steps 0, 1 or 2. `border_sad_mul` multiplies it at the borders of blocks.
#[repr(C)]
#[derive(Clone, Copy)]
pub struct EpfStep {
    pub step: u32,
    pub channel_scale: [f32; 3],
    pub multiplier: f32,
    pub border_sad_mul: f32,
}

// Checks the filter region's corner, the lengths, the number of planes, the step, the flag and the rows.
// Form: the three numbers are as C hands them, and are tested here. `LayoutFits` is a clause and no ghost field of
// `Layout`, since a layout may hold any numbers: `set_fits` and all that tests by it take such a one too.
#[tactic(auto, using(crate::proofs::Fits::size_rules), unfolding(crate::specs::Outcome::step_checks))]
fn check_pass(
    l: Layout,
    filter: Region,
    planes: u32,
    preserve_outside: u32,
    step: usize,
    from: usize,
    to: usize,
    sigmas: &[f32],
    src: &[f32],
    dst: &[f32],
) -> Result<(), Refusal>
    requires { LayoutFits l }
    ensures { number_of result
        ≡ first_of (step_checks planes l filter preserve_outside step from to (length sigmas.now) (length src.now) (length dst.now)) }
{
    if !on_blocks(filter) {
        return Err(Refusal::NotOnBlocks);
    }
    let blocks = l.height.div_ceil(BLOCK) * l.width.div_ceil(BLOCK);
    if sigmas.len() != blocks {
        return Err(Refusal::WrongLength);
    }
    if !planes_fit(planes) {
        return Err(Refusal::OutOfRange);
    }
    let size = planes as usize * l.image.height * l.image.width;
    if src.len() != size || dst.len() != size {
        return Err(Refusal::WrongLength);
    }
    if LAST_STEP < step || !flag_fits(preserve_outside) || !rows_fit(l, from, to) {
        return Err(Refusal::OutOfRange);
    }
    Ok(())
}

impl From<EpfStep> for Step {
    ghost from_gives = { λ s t. t ≡ record {
      step = s.step;
      scales = s.channel_scale;
      scale = s.multiplier;
      edge = s.border_sad_mul;
      limit = standard_limit;
    } };

    fn from(s: EpfStep) -> Step {
        let scales = s.channel_scale;
        Step {
            step: s.step as usize,
            scales,
            scale: s.multiplier,
            edge: s.border_sad_mul,
            limit: COPYING_LIMIT,
        }
    }
}

// Writes rows `from` up to `to` of the result region: copies outside the filter region, then filtered samples inside
// it.
// Form: the parameters are what `copy_outside` and then `filter_region` take; a struct of them would be made in `epf_pass` and
// taken apart here.
fn epf_band(
    src: &[f32],
    dst: &mut [f32],
    l: Layout,
    n: usize,
    s: Step,
    sigmas: &[f32],
    top: usize,
    from: usize,
    to: usize,
)
    requires band_fits { BandFits l n from to src.now dst.old }
    requires region_fits { RegionFits l n s top (length dst.old) (length sigmas.now) }
    ensures { dst.new ≡ passed n l from to (step_over n l s top sigmas.now src.now)
        src.now dst.old }
{
    copy_outside(src, dst, l, n, from, to);
    let first = filter_row(l, from);
    let last = filter_row(l, to);
    filter_region(dst, src, l, n, s, sigmas, top, first, last);
}

// Applies a step to rows `from` up to `to` of the result region: the image region if `preserve_outside` is 1, the
// filter region if it is 0. Reads the set `src` and writes the set `dst`, each of one or three planes; one plane has
// the first scale. `sigmas` has one sigma per block of the filter region, row of blocks by row of blocks. Floats may
// have any value.
// Form: the numbers and the parameters are those of the C function, which passes them on in their order.
pub fn epf_pass(
    image: Region,
    filter: Region,
    planes: u32,
    preserve_outside: u32,
    s: EpfStep,
    sigmas: &[f32],
    from: u32,
    to: u32,
    src: &[f32],
    dst: &mut [f32],
) -> Result<(), Refusal>
    ensures { ◌≡◌ {A = PassOutcome} (record { number = number_of result; target = dst.new })
        (epf_outcome image filter planes preserve_outside s sigmas.now from to src.now
        dst.old) }
{
    let l = layout_of(image, filter, flag_set(preserve_outside))?;
    let first = from as usize;
    let last = to as usize;
    check_pass(
        l,
        filter,
        planes,
        preserve_outside,
        s.step as usize,
        first,
        last,
        sigmas,
        src,
        dst,
    )?;
    let settings = Step::from(s);
    epf_band(
        src,
        dst,
        l,
        planes as usize,
        settings,
        sigmas,
        clamp_to_zero(filter.top),
        first,
        last,
    );
    Ok(())
}
