// The C boundary of the loupe: each function passes its arguments on to one function of the library.
// Form: C's interface: a refusal is a number, with zeros beside it in an answer, and a frame, its table and its grids
// are parameters apart.
#![tactic(auto)]

ghost use Rattle.std.specs.Prelude.{◌≡◌};
ghost use Rattle.loupe_region.specs.Outcome.{widened_outcome};
ghost use Rattle.loupe.specs.Outcome.{LoupeOutcome, loupe_outcome};
ghost use Rattle.loupe.specs.Whole.{WholeEqual};

use frame::Frame;
use loupe_region::LoupeSetup;
use refusals::number_of;
use region_arithmetic::RegionAnswer;

// Returns the widened rectangle, whose samples `restoration_loupe_smooth` needs: the wanted one, extended on each side
// by the margin of the settings, left and top then moved down to multiples of 8, and all clipped to the whole.
// Numbers, the first that applies in this order: 4 if the whole is outside the limits of a filter region, or the
// wanted rectangle has a side over 16,384, an area over 16,777,216, or a left or top outside the limits (sides of 0
// are within them); 15 if the wanted rectangle is empty or not inside the whole; 6 if `epf.iters` is 1 to 3 and the
// whole's left or top is negative or not a multiple of 8; 9 if `gabor.enabled` is neither 0 nor 1, `epf.iters` is
// over 3, or `planes` is neither 1 nor 3; 0. A refused call returns 0 in every other field.
#[unsafe(no_mangle)]
pub extern "C" fn restoration_loupe_widened(setup: LoupeSetup) -> RegionAnswer
    ensures { result ≡ widened_outcome setup }
{
    RegionAnswer::from(loupe_region::loupe_widened(setup))
}

// Filters the wanted rectangle of a picture: writes to `out` what a run over the whole gives there, if the samples of
// the widened rectangle (`restoration_loupe_widened`) are the whole picture's and, with the edge-preserving filter on,
// so are `frame`, `table`, `grids` and `sigma_for_modular` (Specification 17.6).
// `first` has `setup.planes` planes of the widened rectangle, and `second` has the same length. `sigmas` has one sigma
// per block (8 x 8 samples) of the widened rectangle, or length 0 if `epf.iters` is 0. `table` and `grids` are as for
// `restoration_start`. `out` has as many planes of the wanted rectangle, one after another, each row by row.
// Numbers, the first that applies in this order: 4 as in `restoration_loupe_widened`, or if a frame side or a side of
// a present grid is outside the limits; 15 and 6 as there; 7 if a slice has the wrong length; 8 if the edge-preserving
// filter is on and the group of a block of the widened rectangle is not in the frame, or its grid is present but
// lacks the block; 9 if `epf.iters`, `planes`, `gabor.enabled`, a setting of the frame or a presence is out of range;
// 0.
// A check is passed over if it needs a value that is itself out of range (Specification 17.5).
// An accepted call leaves `first`, `second` and `sigmas` as a run over the widened rectangle does: its passes write to
// `second` and `first` alternately. A refused call leaves every slice unchanged.
#[unsafe(no_mangle)]
pub extern "C" fn restoration_loupe_smooth(
    setup: LoupeSetup,
    frame: Frame,
    table: &[u32],
    grids: &[f32],
    first: &mut [f32],
    second: &mut [f32],
    sigmas: &mut [f32],
    out: &mut [f32],
) -> u32
    ensures fact { ◌≡◌ {A = LoupeOutcome} (record {
      number = result;
      first = first.new;
      second = second.new;
      sigmas = sigmas.new;
      out = out.new;
    }) (loupe_outcome (record {
      setup = setup;
      frame = frame;
      table = table.now;
      grids = grids.now;
      first = first.old;
      second = second.old;
      sigmas = sigmas.old;
      out = out.old;
    })) }
    ensures whole_equal { WholeEqual (record {
      setup = setup;
      frame = frame;
      table = table.now;
      grids = grids.now;
      first = first.old;
      second = second.old;
      sigmas = sigmas.old;
      out = out.old;
    }) result out.new }
{
    number_of(loupe::loupe_smooth(setup, frame, table, grids, first, second, sigmas, out))
}
