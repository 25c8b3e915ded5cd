// Start: checks all arguments before anything is written, and makes the record of the run.
#![tactic(auto)]

ghost use Rattle.std.specs.Prelude.{◌≡◌, ◌&&◌, not, length};
ghost use Rattle.refusals.specs.Checks.{first_of};
ghost use Rattle.refusals.specs.Refusals.{number_of};
ghost use Rattle.region_placement.specs.Blocks.{on_blocks};
ghost use Rattle.region_placement.specs.Placed.{placed_checks};
ghost use Rattle.sigma_groups.specs.Outcome.{sigma_number};
ghost use Rattle.run_outcomes.specs.Start.{StartOutcome, blocks_of, runs_epf, run_answer, start_outcome};
ghost use Rattle.run_start.specs.Lowest.{lowest};
ghost use Rattle.run_start.specs.Pieces.{epf_flag, sigmas_asked, setup_checks};
ghost use Rattle.run_start.specs.Pieces.{number_of as picture_number};

use frame::Frame;
use limits::BLOCK;
use refusals::Refusal;
use region_placement::{clamp_to_zero, on_blocks, placed};
use run_outcomes::check_sets;
use run_record::Run;
use run_setup::Setup;
use sigma::block_sigmas;
use sigma_groups::blocks::Blocks;

// The refusal with the lower number, if one of two is refused.
// Form: refusals are ordered by their numbers alone: that a call returns the lowest is a rule of the interface (Specification 3.2).
#[tactic(auto, using(crate::proofs::LowestLaws::lowest_rules), unfolding(crate::specs::Lowest::lowest))]
fn lowest(a: Result<(), Refusal>, b: Result<(), Refusal>) -> Result<(), Refusal>
    ensures { number_of result ≡ lowest (number_of a) (number_of b) }
{
    match (a, b) {
        (Err(x), Err(y)) if u32::from(y) < u32::from(x) => b,
        (Err(_), _) => a,
        (Ok(()), _) => b,
    }
}

// Whether the iterations are in range and the EPF is on.
fn runs_epf(s: &Setup) -> bool
    ensures { result ≡ runs_epf s.now }
{
    s.settings.iterations_fit() && s.settings.epf_on()
}

// The same as a flag, for `block_sigmas`.
// Form: `block_sigmas` takes what C hands it, a number.
fn epf_flag(s: &Setup) -> u32
    ensures { result ≡ epf_flag s.now }
{
    u32::from(runs_epf(s))
}

// The filter region in blocks.
fn blocks_of(s: &Setup) -> Blocks
    ensures { result ≡ blocks_of s.now }
{
    Blocks {
        left: (clamp_to_zero(s.filter.left) / BLOCK) as u32,
        top: (clamp_to_zero(s.filter.top) / BLOCK) as u32,
        width: s.filter.width,
        height: s.filter.height,
    }
}

// The length of the block sigmas, or 0 if the iterations are out of range: then it is not checked.
fn sigmas_asked(s: &Setup, sigmas: &[f32]) -> usize
    ensures { result ≡ sigmas_asked s.now (length sigmas.now) }
{
    if !s.settings.iterations_fit() {
        return 0;
    }
    sigmas.len()
}

fn off_blocks(s: &Setup) -> bool
    ensures { result ≡ (runs_epf s.now && not (on_blocks s.now.filter)) }
{
    runs_epf(s) && !on_blocks(s.filter)
}

// Refuses regions outside the limits, and a filter region that is not inside the image region.
fn check_placed(s: &Setup) -> Result<(), Refusal>
    ensures { number_of result ≡ first_of (placed_checks s.now.image s.now.filter) }
{
    placed(s.image, s.filter)?;
    Ok(())
}

// Refuses a setup that is not in range by itself, and sets of the wrong length.
fn check_setup(s: &Setup, first: &[f32], second: &[f32]) -> Result<(), Refusal>
    ensures { number_of result ≡ first_of (setup_checks s.now (length first.now) (length second.now)) }
{
    if off_blocks(s) {
        return Err(Refusal::NotOnBlocks);
    }
    check_sets(s, first, second)?;
    if !s.numbers_fit() {
        return Err(Refusal::OutOfRange);
    }
    Ok(())
}

// Refuses a frame, its group table and grids, and block sigmas.
// Form: here and below frame, table and grids are parameters apart, as C hands them and `sigma_groups::check` takes them; a struct would
// only be made and taken apart here.
fn check_groups(
    s: &Setup,
    frame: Frame,
    table: &[u32],
    grids: &[f32],
    sigmas: &[f32],
) -> Result<(), Refusal>
    ensures { number_of result ≡ sigma_number
        (epf_flag s.now) frame (blocks_of s.now) table.now grids.now (sigmas_asked s.now (length sigmas.now)) }
{
    let asked = sigmas_asked(s, sigmas);
    sigma_groups::check(epf_flag(s), frame, blocks_of(s), table, grids, asked)
}

// The refusal with the lowest number of the checks of Specification 12.6.
// Form: frame, table and grids apart, as in `check_groups`.
fn check_picture(
    s: &Setup,
    frame: Frame,
    table: &[u32],
    grids: &[f32],
    first: &[f32],
    second: &[f32],
    sigmas: &[f32],
) -> Result<(), Refusal>
    ensures { number_of result ≡ picture_number s.now frame table.now grids.now
        (length first.now) (length second.now) (length sigmas.now) }
{
    let place = check_placed(s);
    let own = check_setup(s, first, second);
    let groups = check_groups(s, frame, table, grids, sigmas);
    lowest(lowest(place, own), groups)
}

// Starts a run: fills the block sigmas and returns the record. A refused call writes nothing.
// Form: frame, table and grids apart, as C hands them and `block_sigmas` takes them.
pub fn start(
    setup: Setup,
    frame: Frame,
    table: &[u32],
    grids: &[f32],
    first: &mut [f32],
    second: &[f32],
    sigmas: &mut [f32],
) -> Result<Run, Refusal>
    ensures { ◌≡◌ {A = StartOutcome}
        (record { answer = run_answer result; first = first.new; sigmas = sigmas.new })
        (start_outcome (record {
          setup = setup;
          frame = frame;
          table = table.now;
          grids = grids.now;
          first = first.old;
          second = second.now;
          sigmas = sigmas.old;
        })) }
{
    check_picture(&setup, frame, table, grids, first, second, sigmas)?;
    let on = epf_flag(&setup);
    let modular = setup.settings.epf.sigma_for_modular;
    block_sigmas(on, frame, blocks_of(&setup), table, grids, modular, sigmas)?;
    Ok(Run::started(setup))
}
