// The band call of a run.
#![tactic(auto)]

ghost use Rattle.std.specs.Prelude.{◌≡◌, length};
ghost use Rattle.refusals.specs.Refusals.{number_of};
ghost use Rattle.run_outcomes.specs.Band.{State, BandOutcome, band_number, band_outcome};
ghost use Rattle.run_band.specs.Rows.{RowsFit, passed_rows, band_written};

use epf::epf_pass;
use gabor::gabor_pass;
use refusals::Refusal;
use run_outcomes::{check_sets, check_sigmas};
use run_passes::Pass;
use run_record::Run;

// Refuses a band call: for the sets, the block sigmas, then the record.
// Form: record and sets are what C hands; `result`, of another crate, takes them too, but no sigmas, so a struct would serve one of the two.
fn check(run: &Run, sigmas: &[f32], first: &[f32], second: &[f32], k: u32) -> Result<(), Refusal>
    ensures { number_of result ≡ band_number (record {
      run = run.now;
      sigmas = sigmas.now;
      first = first.now;
      second = second.now;
    }) k }
{
    check_sets(&run.setup, first, second)?;
    check_sigmas(&run.setup, sigmas)?;
    run.check_band(k)
}

// Runs the next pass over rows `from` up to `to` of the result region. Neither filter refuses arguments that fit.
// Form: the three slices go to `epf_pass` as its parameters; the tiles of that pass take them too, but no run.
fn pass_rows(run: &Run, sigmas: &[f32], src: &[f32], dst: &mut [f32], from: u32, to: u32)
    requires { RowsFit run.now (length sigmas.now) (length src.now) (length dst.old) from to }
    ensures { dst.new
        ≡ passed_rows run.now sigmas.now from to src.now dst.old }
{
    let s = &run.setup;
    match s.settings.pass_at(run.pass) {
        Pass::Gabor(weights) => {
            let full = s.preserve_outside;
            let _ = gabor_pass(
                s.image, s.filter, s.planes, full, weights, from, to, src, dst,
            );
        }
        Pass::Edge(step) => {
            let full = s.preserve_outside;
            let _ = epf_pass(
                s.image, s.filter, s.planes, full, step, sigmas, from, to, src, dst,
            );
        }
    }
}

// Runs the next pass over the rows of band k.
// Form: here and in `band` the sets and the sigmas come apart, as C hands them; a struct of them would be made in `band` and taken apart
// here, as a pass reads one set and writes the other.
fn filter_band(run: &Run, sigmas: &[f32], first: &mut [f32], second: &mut [f32], k: u32)
    requires { band_number (record {
      run = run.now;
      sigmas = sigmas.now;
      first = first.old;
      second = second.old;
    }) k ≡ 0 }
    ensures { ◌≡◌ {A = State} (record {
      run = run.now;
      sigmas = sigmas.now;
      first = first.new;
      second = second.new;
    }) (band_written (record {
      run = run.now;
      sigmas = sigmas.now;
      first = first.old;
      second = second.old;
    }) k) }
{
    let height = run.setup.band_height;
    let from = k * height;
    let to = (from + height).min(run.setup.row_count());
    if run.reads_first() {
        pass_rows(run, sigmas, first, second, from, to);
        return;
    }
    pass_rows(run, sigmas, second, first, from, to);
}

// Runs band k of the next pass: writes its rows of the result region to the set that the pass writes, and marks the
// band done.
pub fn band(
    run: &mut Run,
    sigmas: &[f32],
    first: &mut [f32],
    second: &mut [f32],
    k: u32,
) -> Result<(), Refusal>
    ensures { ◌≡◌ {A = BandOutcome} (record {
      number = number_of result;
      state = record {
        run = run.new;
        sigmas = sigmas.now;
        first = first.new;
        second = second.new;
      };
    }) (band_outcome (record {
      run = run.old;
      sigmas = sigmas.now;
      first = first.old;
      second = second.old;
    }) k) }
{
    check(run, sigmas, first, second, k)?;
    filter_band(run, sigmas, first, second, k);
    // Form: 1 is done: C's record has the flags as bytes.
    run.done[k as usize] = 1;
    run.bands_left -= 1;
    Ok(())
}
