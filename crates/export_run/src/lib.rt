// The C boundary of runs: each function passes its arguments on to one function of the library.
// Form: C's interface: a refusal is a number, with zeros beside it in an answer, and a frame, its table and its grids
// are parameters apart, as the sigmas and both sets are.
#![tactic(auto)]

ghost use Rattle.std.specs.Prelude.{◌≡◌};
ghost use Rattle.run_passes.specs.Plan.{margin_outcome};
ghost use Rattle.run_outcomes.specs.Start.{StartOutcome, start_outcome};
ghost use Rattle.run_outcomes.specs.Band.{BandOutcome, band_outcome, advance_outcome};
ghost use Rattle.run_outcomes.specs.Result.{ResultOutcome, result_outcome};

use frame::Frame;
use refusals::number_of;
use run_outcomes::RunAnswer;
use run_passes::{MarginAnswer, Settings};
use run_record::Run;
use run_setup::Setup;

// Returns the margin of the settings: how many samples must lie between a sample of a rectangle and each cut edge so
// that its result is the same as in the larger picture. A cut edge is an edge of the rectangle that is not an edge of
// the larger picture. The margin is 1 if the Gabor-like filter is on, plus 0, 2, 3 or 6 for 0, 1, 2 or 3 iterations
// of the edge-preserving filter.
// Numbers: 0; 9 if `gabor.enabled` is neither 0 nor 1 or `epf.iters` is over 3. A refused call returns margin 0. No
// other field of the settings is read.
#[unsafe(no_mangle)]
#[tactic(auto, using(run_passes::proofs::PlanLaws::margin_rules))]
pub extern "C" fn restoration_margin(settings: Settings) -> MarginAnswer
    ensures { result ≡ margin_outcome settings }
{
    MarginAnswer::from(settings.margin())
}

// Starts a run: checks all arguments, fills `sigmas` with the block sigmas and returns the run's record.
// `table` has three numbers per group of the frame (presence, grid width, grid height); `grids` has the cells of the
// present grids, one grid after another. `first` and `second` are two sets, each of `setup.planes` planes of the image
// region, 1 or 3; the picture is in `first`. One plane is filtered with the weights and the scale of X. `sigmas` has
// one sigma per block (8 x 8 samples) of the filter region, or length 0 if `epf.iters` is 0.
// Numbers: 0; 4 if a side, an area, a left or a top is outside the limits; 5 if the filter region is not inside the
// image region; 6 if the edge-preserving filter is on and the filter region's left or top is negative or not a
// multiple of 8; 7 if a slice has the wrong length; 8 if the edge-preserving filter is on and a block's group is not
// in the frame, or its grid is present but lacks the block; 9 if a setting is out of range: iterations over 3, a
// number of planes other than 1 and 3, a setting of the frame, a presence, `preserve_outside` or `gabor.enabled`
// neither 0 nor 1, a band height outside 1 to 16,384, or more than 256 bands.
// If several apply, the lowest is returned. A check is passed over if it needs a value that is itself out of range
// (Specification 12.6). The lengths of the sets are checked only if the number of planes is in range. Number 6, the
// length of `sigmas` and number 8 are checked only if the iterations are in range. The length of `table` is checked
// only if the frame's settings are in range. `table` is read only if the frame's sides and settings are in range and
// its length is right; otherwise grid sides, the length of `grids`, number 8 and presences are not checked. The length
// of `grids` is checked only if all presences are 0 or 1. The number of bands is checked only if `preserve_outside`
// and the band height are in range. Example: a table of the wrong length with a present grid 2,000 wide gets 7, not 4.
// An accepted call fills `sigmas` and leaves `first` and `second` unchanged. A refused call returns a record of zeros
// and leaves every slice unchanged.
#[unsafe(no_mangle)]
pub extern "C" fn restoration_start(
    setup: Setup,
    frame: Frame,
    table: &[u32],
    grids: &[f32],
    first: &mut [f32],
    second: &[f32],
    sigmas: &mut [f32],
) -> RunAnswer
    ensures { ◌≡◌ {A = StartOutcome}
        (record { answer = result; first = first.new; sigmas = sigmas.new })
        (start_outcome (record {
          setup = setup;
          frame = frame;
          table = table.now;
          grids = grids.now;
          first = first.old;
          second = second.now;
          sigmas = sigmas.old;
        })) }
{
    let started = run_start::start(setup, frame, table, grids, first, second, sigmas);
    RunAnswer::from(started)
}

// Runs the next pass over the rows of band `k` and returns the record with that band marked done and one band fewer
// left.
// The first pass reads the set `first` and writes `second`; each advance exchanges the sets. In the band's rows of
// the result region, the written set gets filtered samples inside the filter region and copies outside it.
// Numbers: 0; 7 if the length of a set or of `sigmas` is wrong for the record's setup, unless that length depends on
// a value that is out of range (Specification 12.12); 9 if the record is not valid (Specification 12.8); 10 if `k` is
// not below the number of bands, the band is done already or the run is finished. If several apply, the lowest is
// returned.
// A record is not valid if `restoration_start` would refuse its setup with 4, 5, 6 or 9, or if no accepted calls lead
// to its `pass`, `bands_left` and `done`: the pass is past the last, a flag is over 1, a flag is not 0 at or past the
// number of bands or in a finished run, or `bands_left` is not the number of bands less those done (0 in a finished
// run).
// An accepted call leaves the set that is read, `sigmas` and the rest of the written set unchanged. A refused call
// returns the record that it was given and leaves every slice unchanged.
#[unsafe(no_mangle)]
pub extern "C" fn restoration_band(
    run: Run,
    sigmas: &[f32],
    first: &mut [f32],
    second: &mut [f32],
    k: u32,
) -> RunAnswer
    ensures { ◌≡◌ {A = BandOutcome} (record {
      number = result.number;
      state = record {
        run = result.run;
        sigmas = sigmas.now;
        first = first.new;
        second = second.new;
      };
    }) (band_outcome
        (record { run = run; sigmas = sigmas.now; first = first.old; second = second.old })
        k) }
{
    let mut after = run;
    let answer = run_band::band(&mut after, sigmas, first, second, k);
    RunAnswer::new(answer, after)
}

// Advances a run to its next pass when every band of the current pass is done. The two sets exchange their roles and
// no band is done. After the last pass the run is finished and no band is left.
// Numbers: 0; 9 if the record is not valid (see `restoration_band`); 11 if a band is not done or the run is finished.
// If several apply, the lowest is returned. A refused call returns the record that it was given.
#[unsafe(no_mangle)]
pub extern "C" fn restoration_advance(run: Run) -> RunAnswer
    ensures { result ≡ advance_outcome run }
{
    let mut after = run;
    let answer = run_advance::advance(&mut after);
    RunAnswer::new(answer, after)
}

// Copies the result of a finished run to `out`, plane by plane and row by row. It is the result region of the set
// that the last pass wrote, or of `first` if there are no passes: the image region if `preserve_outside` is 1, the
// filter region if it is 0.
// Numbers: 0; 7 if the length of a set or of `out` is wrong for the record's setup, unless that length depends on a
// value that is out of range (Specification 12.12); 9 if the record is not valid (see `restoration_band`); 11 if the
// run is not finished. If several apply, the lowest is returned.
// Both sets stay unchanged. A refused call leaves `out` unchanged too.
#[unsafe(no_mangle)]
pub extern "C" fn restoration_result(
    run: Run,
    first: &[f32],
    second: &[f32],
    out: &mut [f32],
) -> u32
    ensures { ◌≡◌ {A = ResultOutcome} (record { number = result; out = out.new })
        (result_outcome run first.now second.now out.old) }
{
    let answer = run_result::result(&run, first, second, out);
    number_of(answer)
}
