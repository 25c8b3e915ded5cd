// A wanted rectangle of a picture, filtered with what it needs around it (Specification 17.4 to 17.6). A run over the
// widened rectangle gives the samples; its calls are used by their contracts alone.
#![tactic(auto)]

ghost use Rattle.std.specs.Prelude.{◌≡◌, ◌&&◌, not, ◌*◌, T, eqb, length};
ghost use Rattle.refusals.specs.Checks.{first_of};
ghost use Rattle.refusals.specs.Refusals.{refusal_number, number_of, IsOutcome};
ghost use Rattle.region.specs.Measures.{picture_fits};
ghost use Rattle.planes.specs.Band.{planes_fit};
ghost use Rattle.run_setup.specs.Makers.{setup_with};
ghost use Rattle.run_record.specs.Record.{started};
ghost use Rattle.run_outcomes.specs.Band.{State};
ghost use Rattle.loupe_region.specs.Outcome.{widened_region};
ghost use Rattle.loupe.specs.Outcome.{LoupeOutcome, all_rows, after_pass, after_passes, loupe_outcome};
ghost use Rattle.loupe.specs.Pieces.{groups_checks, settings_number, early_checks, copy_setup, copied, passed_outcome};
ghost use Rattle.loupe.specs.Whole.{WholeEqual};

use frame::Frame;
use limits::MAX_SIDE_U32;
use loupe_region::{LoupeSetup, widened_rectangle};
use planes::planes_fit;
use refusals::Refusal;
use region::Region;
use run_advance::advance;
use run_band::band;
use run_passes::Settings;
use run_record::Run;
use run_result::result;
use run_setup::Setup;
use run_start::start;
use sigma_groups::blocks::Blocks;
use sigma_groups::check;

const NO: u32 = 0;

fn one_block() -> Blocks
    ensures { result ≡ record { left = 0; top = 0; width = 1; height = 1 } }
{
    Blocks {
        left: 0,
        top: 0,
        width: 1,
        height: 1,
    }
}

// Refuses a frame, its group table and its grids alone, with 4, 7 or 9.
// Form: here and below frame, table and grids are parameters apart, as C hands them and `sigma_groups::check` takes them; a struct would
// only be made and taken apart here.
fn check_groups(frame: Frame, table: &[u32], grids: &[f32]) -> Result<(), Refusal>
    ensures { number_of result ≡ first_of (groups_checks frame table.now grids.now) }
{
    check(NO, frame, one_block(), table, grids, 0)
}

// Whether a slice for the wanted samples has the wrong length; not if the number of planes is out of range.
// Form: `run_outcomes::set_length` is the same product. Each asks for a size in range, which its callers have tested; one public function for
// both could ask nothing, and would test it again, as `cut_file::sample_count` does.
fn wrong_slice(planes: u32, wanted: Region, out: &[f32]) -> bool
    requires { T (picture_fits wanted) }
    ensures { result ≡ (planes_fit planes && not (eqb (length out.now) (planes * wanted.height * wanted.width))) }
{
    if !planes_fit(planes) {
        return false;
    }
    out.len() != planes as usize * wanted.height as usize * wanted.width as usize
}

// Whether a call is refused with this refusal.
fn is_refused<T: Copy>(answer: Result<T, Refusal>, refusal: Refusal) -> bool
    ensures { result ≡ eqb (number_of answer) (refusal_number refusal) }
{
    match answer {
        Ok(_) => false,
        Err(found) => found == refusal,
    }
}

// The refusal of a call whose settings leave the margin unknown: 7 or 9. `groups` is the answer of `check_groups`, not 4.
fn settings_refusal(groups: Result<(), Refusal>, settings: Settings, sigmas: &[f32]) -> Refusal
    ensures { refusal_number result ≡ settings_number (number_of groups) settings.epf.iters (length sigmas.now) }
{
    if is_refused(groups, Refusal::WrongLength) {
        return Refusal::WrongLength;
    }
    if !settings.epf_on() && !sigmas.is_empty() {
        return Refusal::WrongLength;
    }
    Refusal::OutOfRange
}

// The widened rectangle, or the first refusal of the checks that `start` does not make; of all checks if the margin is
// unknown, since `start` is not called then.
// Form: the frame with its table and grids as C hands them.
fn checked_place(
    s: LoupeSetup,
    frame: Frame,
    table: &[u32],
    grids: &[f32],
    sigmas: &[f32],
    out: &[f32],
) -> Result<Region, Refusal>
    ensures { IsOutcome result
        (first_of (early_checks s frame table.now grids.now (length sigmas.now) (length out.now)))
        (widened_region s) }
{
    let place = widened_rectangle(s);
    if is_refused(place, Refusal::OutOfLimits) {
        return place;
    }
    let groups = check_groups(frame, table, grids);
    if is_refused(groups, Refusal::OutOfLimits) {
        return Err(Refusal::OutOfLimits);
    }
    if is_refused(place, Refusal::WantedOutside) {
        return place;
    }
    if is_refused(place, Refusal::NotOnBlocks) {
        return place;
    }
    if wrong_slice(s.planes, s.wanted, out) {
        return Err(Refusal::WrongLength);
    }
    if place.is_ok() {
        return place;
    }
    Err(settings_refusal(groups, s.settings, sigmas))
}

// A run over the widened rectangle, in one band.
fn run_setup(widened: Region, filter: Region, planes: u32, settings: Settings) -> Setup
    ensures { result ≡ setup_with widened filter planes 0 settings all_rows }
{
    Setup {
        image: widened,
        filter,
        planes,
        preserve_outside: NO,
        settings,
        band_height: MAX_SIDE_U32,
    }
}

// A pass: its only band, and an advance.
// Form: here and below the sets and the sigmas come apart, as C hands them and `band` takes them; a struct would be taken apart here.
fn one_pass(run: &mut Run, sigmas: &[f32], first: &mut [f32], second: &mut [f32])
    ensures { ◌≡◌ {A = State} (record {
      run = run.new;
      sigmas = sigmas.now;
      first = first.new;
      second = second.new;
    }) (after_pass
        (record { run = run.old; sigmas = sigmas.now; first = first.old; second = second.old })) }
{
    let _ = band(run, sigmas, first, second, 0);
    let _ = advance(run);
}

// All passes.
// Form: sets and sigmas apart, as in `one_pass`.
fn all_passes(run: &mut Run, passes: u32, sigmas: &[f32], first: &mut [f32], second: &mut [f32])
    ensures { ◌≡◌ {A = State} (record {
      run = run.new;
      sigmas = sigmas.now;
      first = first.new;
      second = second.new;
    }) (after_passes passes
        (record { run = run.old; sigmas = sigmas.now; first = first.old; second = second.old })) }
{
    for _k in 0..passes {
        one_pass(run, sigmas, first, second);
    }
}

// A run without passes over the widened rectangle: its result is the wanted rectangle of a set.
fn copy_run(planes: u32, widened: Region, wanted: Region) -> Run
    ensures { result ≡ started (copy_setup planes widened wanted) }
{
    Run::started(run_setup(widened, wanted, planes, Settings::default()))
}

// Copies the wanted rectangle from a set of the widened one.
fn copy_wanted(planes: u32, widened: Region, wanted: Region, set: &[f32], out: &mut [f32])
    ensures { out.new ≡ copied planes widened wanted set.now out.old }
{
    let _ = result(&copy_run(planes, widened, wanted), set, set, out);
}

// All passes, and the copy from the set that a next pass would read.
// Form: `passes` says which set, and not `run.reads_first()`: the contract is of every record, also of one that refuses a pass, and then
// the two differ. Sets and sigmas apart, as in `one_pass`.
fn finish(
    run: Run,
    passes: u32,
    widened: Region,
    wanted: Region,
    sigmas: &[f32],
    first: &mut [f32],
    second: &mut [f32],
    out: &mut [f32],
)
    ensures { ◌≡◌ {A = LoupeOutcome} (record {
      number = 0;
      first = first.new;
      second = second.new;
      sigmas = sigmas.now;
      out = out.new;
    }) (passed_outcome passes
        (record { run = run; sigmas = sigmas.now; first = first.old; second = second.old })
        widened wanted out.old) }
{
    let planes = run.setup.planes;
    let mut run = run;
    all_passes(&mut run, passes, sigmas, first, second);
    if passes % 2 == 0 {
        copy_wanted(planes, widened, wanted, first, out);
        return;
    }
    copy_wanted(planes, widened, wanted, second, out);
}

// Filters the wanted rectangle. `first` has the samples of the widened rectangle
// (`loupe_widened`).
// Form: the frame with its table and grids as C hands them.
pub fn loupe_smooth(
    s: LoupeSetup,
    frame: Frame,
    table: &[u32],
    grids: &[f32],
    first: &mut [f32],
    second: &mut [f32],
    sigmas: &mut [f32],
    out: &mut [f32],
) -> Result<(), Refusal>
    ensures fact { ◌≡◌ {A = LoupeOutcome} (record {
      number = number_of result;
      first = first.new;
      second = second.new;
      sigmas = sigmas.new;
      out = out.new;
    }) (loupe_outcome (record {
      setup = s;
      frame = frame;
      table = table.now;
      grids = grids.now;
      first = first.old;
      second = second.old;
      sigmas = sigmas.old;
      out = out.old;
    })) }
    ensures whole_equal { WholeEqual (record {
      setup = s;
      frame = frame;
      table = table.now;
      grids = grids.now;
      first = first.old;
      second = second.old;
      sigmas = sigmas.old;
      out = out.old;
    }) (number_of result) out.new }
{
    let widened = checked_place(s, frame, table, grids, sigmas, out)?;
    let setup = run_setup(widened, widened, s.planes, s.settings);
    let run = start(setup, frame, table, grids, first, second, sigmas)?;
    let passes = setup.pass_count();
    finish(run, passes, widened, s.wanted, sigmas, first, second, out);
    Ok(())
}
