// Runs: the answers of the calls, and the lengths of the slices that they are given. The outcomes of start, band,
// advance and result are defined in specs/.
#![tactic(auto)]

ghost use Rattle.std.specs.Prelude.{◌≡◌, true, ◌*◌, length, [], ◌∷◌};
ghost use Rattle.refusals.specs.Checks.{first_of};
ghost use Rattle.refusals.specs.Refusals.{number_of};
ghost use Rattle.planes.specs.Band.{planes_fit};
ghost use Rattle.run_setup.specs.Setup.{epf_on, size_fits, sigma_length};
ghost use Rattle.run_outcomes.specs.Band.{set_check, sigma_check};
ghost use Rattle.run_outcomes.specs.Result.{slice_check};
ghost use Rattle.run_outcomes.specs.Start.{run_answer};

use planes::planes_fit;
use refusals::{ACCEPTED, Refusal, flag_fits, number_of};
use region::Region;
use run_record::Run;
use run_setup::{Setup, size_fits};
use sigma_groups::blocks::blocks_along;

// The number and the record after the call. A refused band or advance returns the record that it was given, a refused
// start returns zeros.
// Form: C's answer, a number with a record of zeros beside a refusal.
#[repr(C)]
#[derive(Clone, Copy)]
pub struct RunAnswer {
    pub number: u32,
    pub run: Run,
}

impl RunAnswer {
    // The answer of a call that changes a record, with the record after the call.
    pub fn new(answer: Result<(), Refusal>, run: Run) -> RunAnswer
        ensures { result ≡ record { number = number_of answer; run = run } }
    {
        RunAnswer {
            number: number_of(answer),
            run,
        }
    }
}

// The answer of a start.
// Form: C's answer, a number with a record of zeros beside a refusal; Rust callers get the `Result`. It stands here, since the outcomes of
// specs/ name it.
impl From<Result<Run, Refusal>> for RunAnswer {
    ghost from_gives = { λ started answer. answer ≡ run_answer started };

    fn from(started: Result<Run, Refusal>) -> RunAnswer {
        match started {
            Ok(run) => RunAnswer {
                number: ACCEPTED,
                run,
            },
            Err(refusal) => RunAnswer {
                number: u32::from(refusal),
                run: Run::default(),
            },
        }
    }
}

// Form: `loupe::wrong_slice` has the same product. Here the number of planes and the size are in range, as the caller has tested; one public
// function for both could ask nothing, and would test them again.
fn set_length(planes: u32, r: Region) -> usize
    requires { (planes_fit planes ≡ true) × (size_fits r ≡ true) }
    ensures { result ≡ planes * r.height * r.width }
{
    planes as usize * r.height as usize * r.width as usize
}

// Refuses sets of the wrong length; passed over if the image region's size or the number of planes does not fit
// (Specification 12.12).
pub fn check_sets(s: &Setup, first: &[f32], second: &[f32]) -> Result<(), Refusal>
    ensures { number_of result
        ≡ first_of (set_check s.now (length first.now) (length second.now) ∷ []) }
{
    if !size_fits(s.image) || !planes_fit(s.planes) {
        return Ok(());
    }
    let len = set_length(s.planes, s.image);
    if first.len() != len || second.len() != len {
        return Err(Refusal::WrongLength);
    }
    Ok(())
}

// The number of block sigmas: one per block, none if the EPF is off.
fn sigmas_length(s: &Setup) -> usize
    requires { epf_on s.now ≡ true → size_fits s.now.filter ≡ true }
    ensures { result ≡ sigma_length s.now }
{
    if !s.settings.epf_on() {
        return 0;
    }
    let down = blocks_along(s.filter.height) as usize;
    let across = blocks_along(s.filter.width) as usize;
    down * across
}

// Refuses block sigmas of the wrong length; passed over if the iterations are over 3, or if the EPF is on and the
// filter region's size does not fit (Specification 12.12).
pub fn check_sigmas(s: &Setup, sigmas: &[f32]) -> Result<(), Refusal>
    ensures { number_of result ≡ first_of (sigma_check s.now (length sigmas.now) ∷ []) }
{
    if !s.settings.iterations_fit() || s.settings.epf_on() && !size_fits(s.filter) {
        return Ok(());
    }
    if sigmas.len() != sigmas_length(s) {
        return Err(Refusal::WrongLength);
    }
    Ok(())
}

// Refuses a slice of the wrong length for the result; passed over if `preserve_outside` is not a flag, or the result
// region's size or the number of planes does not fit (Specification 12.12).
// Form: the flag is C's number, and only a table of checks asks whether it is in range.
pub fn check_slice(s: &Setup, out: &[f32]) -> Result<(), Refusal>
    ensures { number_of result ≡ first_of (slice_check s.now (length out.now) ∷ []) }
{
    let r = s.result_region();
    if !flag_fits(s.preserve_outside) || !size_fits(r) || !planes_fit(s.planes) {
        return Ok(());
    }
    if out.len() != set_length(s.planes, r) {
        return Err(Refusal::WrongLength);
    }
    Ok(())
}
