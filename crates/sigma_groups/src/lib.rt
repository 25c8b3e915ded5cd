// Whether the grids hold a filter region's blocks, and what `block_sigmas` refuses (Specification 7.7, 7.9).
#![tactic(auto)]

pub mod blocks;
pub mod groups;

ghost use Rattle.std.specs.Prelude.{◌≡◌, not, ◌&&◌, eqb, length, IfOk};
ghost use Rattle.refusals.specs.Flags.{flag_fits, flag_set};
ghost use Rattle.refusals.specs.Refusals.{number_of};
ghost use Rattle.sigma_groups.specs.Outcome.{sigma_count, sigma_number};

use blocks::{Blocks, SoundBlocks};
use frame::{Frame, SoundFrame};
use groups::Groups;
use refusals::Refusal;

// The number of sigmas.
// Form: `on` chooses a number and no work.
fn sigma_count(on: bool, region: SoundBlocks) -> usize
    ensures { result ≡ sigma_count on region.blocks }
{
    if !on {
        return 0;
    }
    (region.down() * region.across()) as usize
}

// Whether the number of sigmas is wrong; false if the flag is out of range.
// Form: C's flag, a number; the sigmas' length and not their slice, as in `check`.
fn bad_count(on: u32, region: SoundBlocks, sigmas: usize) -> bool
    ensures { result ≡ (flag_fits on && not (eqb sigmas (sigma_count (flag_set on) region.blocks))) }
{
    refusals::flag_fits(on) && sigmas != sigma_count(refusals::flag_set(on), region)
}

// Whether the grids slice has the wrong length; false if a presence is out of range.
fn bad_grids(faulty: bool, cells: usize, grids: &[f32]) -> bool
    ensures { result ≡ (not faulty && not (eqb (length grids.now) cells)) }
{
    !faulty && grids.len() != cells
}

// The groups of a frame in range, or what `block_sigmas` refuses for them and a filter region in range.
// Form: C's flag, a number; the sigmas' length and not their slice, as in `check`.
fn checked_groups<'a>(
    on: u32,
    frame: SoundFrame,
    region: SoundBlocks,
    table: &'a [u32],
    grids: &[f32],
    sigmas_len: usize,
) -> Result<Groups<'a>, Refusal>
    ensures number { number_of result ≡ sigma_number on frame.frame region.blocks table.now grids.now sigmas_len }
    ensures groups { IfOk result (λ g. (g.frame.frame ≡ frame.frame) × (g.table.now ≡ table.now)) }
{
    let groups = Groups::new(frame, table)?;
    let cells = sigma_grids::grid_start(table, groups.sizes.num_groups)?;
    let bad_presence = groups.some_bad_presence();
    if bad_grids(bad_presence, cells, grids) {
        return Err(Refusal::WrongLength);
    }
    if bad_count(on, region, sigmas_len) {
        return Err(Refusal::WrongLength);
    }
    if refusals::flag_set(on) && groups.some_not_held(region) {
        return Err(Refusal::BlockNotHeld);
    }
    if bad_presence {
        return Err(Refusal::OutOfRange);
    }
    if !refusals::flag_fits(on) {
        return Err(Refusal::OutOfRange);
    }
    Ok(groups)
}

// The groups and the filter region of an accepted call, or what `block_sigmas` refuses, for a slice of `sigmas_len`
// sigmas.
// Form: the sigmas' length and not their slice, as in `check`, which asks this.
pub fn checked<'a>(
    on: u32,
    frame: Frame,
    blocks: Blocks,
    table: &'a [u32],
    grids: &[f32],
    sigmas_len: usize,
) -> Result<(Groups<'a>, SoundBlocks), Refusal>
    ensures number { number_of result ≡ sigma_number on frame blocks table.now grids.now sigmas_len }
    ensures inputs { IfOk result (λ a. (a.0.frame.frame ≡ frame) × (a.0.table.now ≡ table.now)
        × (a.1.blocks ≡ blocks)) }
{
    if frame::bad_sides(frame) {
        return Err(Refusal::OutOfLimits);
    }
    let region = SoundBlocks::new(blocks)?;
    match SoundFrame::new(frame) {
        Ok(sound) => {
            let groups = checked_groups(on, sound, region, table, grids, sigmas_len)?;
            Ok((groups, region))
        }
        Err(_) if bad_count(on, region, sigmas_len) => Err(Refusal::WrongLength),
        Err(refusal) => Err(refusal),
    }
}

// The same with no value.
// Form: the sigmas' length and not their slice, since both callers pass 0 without an empty slice: `loupe` to check frame, table and grids
// alone, `run_start` if the iterations are out of range.
pub fn check(
    on: u32,
    frame: Frame,
    blocks: Blocks,
    table: &[u32],
    grids: &[f32],
    sigmas_len: usize,
) -> Result<(), Refusal>
    ensures { number_of result ≡ sigma_number on frame blocks table.now grids.now sigmas_len }
{
    checked(on, frame, blocks, table, grids, sigmas_len)?;
    Ok(())
}
