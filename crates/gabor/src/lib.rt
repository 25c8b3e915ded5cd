// The pass of the Gabor-like filter (Specification 9.3, 10) over rows of the result region.
#![tactic(auto)]

mod pass;

ghost use Rattle.std.specs.Prelude.{◌≡◌};
ghost use Rattle.refusals.specs.Refusals.{number_of};
ghost use Rattle.planes_layout.specs.Outcome.{PassOutcome};
ghost use Rattle.gabor.specs.Outcome.{gabor_outcome};

use pass::gabor_band;
use planes::{planes_fit, rows_fit, set_fits};
use planes_layout::layout_of;
use refusals::{Refusal, flag_fits, flag_set};
use region::Region;

// Filters rows `from` up to, not including, `to` of the result region. That is the image region (`preserve_outside` 1)
// or the filter region (0). Reads `src` and writes `dst`, sets of one or three planes. Each channel has two weights, of the
// side neighbours and of the diagonal ones; any binary32 values are accepted. One plane has the first channel's.
// Form: `planes` and `preserve_outside` are numbers that a C caller hands in. The flag is refused by 9, after the lengths of
// both sets, which do not depend on it, so it is no `bool` before that.
#[tactic(auto, using(crate::proofs::Fits::outcome_planes, crate::proofs::Fits::outcome_source, crate::proofs::Fits::outcome_target, crate::proofs::Fits::outcome_flag, crate::proofs::Fits::outcome_rows, crate::proofs::Fits::outcome_sides, crate::proofs::Fits::outcome_passed))]
pub fn gabor_pass(
    image: Region,
    filter: Region,
    planes: u32,
    preserve_outside: u32,
    weights: [[f32; 2]; 3],
    from: u32,
    to: u32,
    src: &[f32],
    dst: &mut [f32],
) -> Result<(), Refusal>
    ensures { ◌≡◌ {A = PassOutcome} (record { number = number_of result; target = dst.new })
        (gabor_outcome image filter planes preserve_outside weights from to src.now dst.old) }
{
    let l = layout_of(image, filter, flag_set(preserve_outside))?;
    if !planes_fit(planes) {
        return Err(Refusal::OutOfRange);
    }
    let n = planes as usize;
    if !set_fits(l, n, src.len()) {
        return Err(Refusal::WrongLength);
    }
    if !set_fits(l, n, dst.len()) {
        return Err(Refusal::WrongLength);
    }
    if !flag_fits(preserve_outside) {
        return Err(Refusal::OutOfRange);
    }
    if !rows_fit(l, from as usize, to as usize) {
        return Err(Refusal::OutOfRange);
    }
    gabor_band(src, dst, l, n, weights, from as usize, to as usize);
    Ok(())
}
