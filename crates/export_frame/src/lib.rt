// The C boundary of frames and block sigmas: each function passes its arguments on to one function of the library.
// Form: C's interface: a refusal is a number, with zeros beside it in an answer, and a frame, its table and its grids are parameters apart.
#![tactic(auto)]

ghost use Rattle.std.specs.Prelude.{◌≡◌};
ghost use Rattle.frame.specs.Outcome.{frame_outcome, split_outcome};
ghost use Rattle.sigma.specs.Outcome.{SigmasOutcome, sigmas_outcome};

use frame::{Frame, FrameAnswer, SplitAnswer};
use sigma_groups::blocks::Blocks;

// Computes the sizes of a frame: its sample sides and the LF groups that cover them.
// A sample side is the frame's side divided by `upsampling` and then by 8 to the power of `lf_level`, each division
// rounded up. The group dimension is 128 shifted left by `group_size_shift`, in blocks; the group shift is its number
// of trailing zero bits. The groups are counted per row, per column and in total.
// Numbers: 0; 4 if a frame side is outside 1 to 16,384; 9 if `upsampling` is not 1, 2, 4 or 8, `lf_level` is over 4
// or `group_size_shift` is over 3. If several apply, the lowest is returned. A refused call returns 0 in every other
// field.
#[unsafe(no_mangle)]
pub extern "C" fn restoration_group_sizes(f: Frame) -> FrameAnswer
    ensures { result ≡ frame_outcome f }
{
    FrameAnswer::from(frame::group_sizes(f))
}

// Splits a column or row of blocks into its column or row of groups, `group`, and its cell in that group, `inner`.
// Numbers: 0; 9 if `group_size_shift` is over 3. A refused call returns 0 in every other field.
#[unsafe(no_mangle)]
pub extern "C" fn restoration_split_block(block: u32, group_size_shift: u32) -> SplitAnswer
    ensures { result ≡ split_outcome block group_size_shift }
{
    SplitAnswer::from(frame::split_block(block, group_size_shift))
}

// Fills `sigmas` with one sigma per block (8 x 8 samples) of a filter region, row of blocks by row of blocks, if the
// edge-preserving filter is on (`on` is 1).
// A block's sigma is its cell in its group's grid. If that grid is missing, it is `sigma_for_modular`. If the filter
// is off (`on` is 0), `sigmas` must have length 0.
// `blocks` is the filter region, its left and top in blocks, its width and height in samples. `table` has three
// numbers per group of the frame: presence (1 if the group has a grid, else 0), grid width and grid height. `grids`
// has the cells of the present grids, one grid after another.
// Numbers: 0; 4 if a frame side is outside 1 to 16,384, if `blocks` has a side outside 1 to 16,384, an area over
// 16,777,216 or a left or top over 131,072, or if a present grid has a side outside 1 to 1,024; 7 if the length of
// `table`, `grids` or `sigmas` is wrong; 8 if the filter is on and a block's group is not in the frame, or its grid
// is present but lacks the block; 9 if a setting of the frame is out of range (see `restoration_group_sizes`), or a
// presence or `on` is neither 0 nor 1.
// If several apply, the lowest is returned. A check is passed over if it needs a value that is itself out of range
// (Specification 7.9, 12.6). The length of `table` is checked only if the frame's settings are in range. `table` is
// read only if the frame's sides and settings are in range and its length is right; otherwise grid sides, the length
// of `grids`, number 8 and presences are not checked. The length of `grids` is checked only if all presences are 0 or
// 1. The length of `sigmas` and number 8 are checked only if `on` is 0 or 1. Example: a table of the wrong length
// with a present grid 2,000 wide gets 7, not 4.
// A refused call leaves `sigmas` unchanged. `table` and `grids` are never changed.
#[unsafe(no_mangle)]
pub extern "C" fn restoration_block_sigmas(
    on: u32,
    frame: Frame,
    blocks: Blocks,
    table: &[u32],
    grids: &[f32],
    sigma_for_modular: f32,
    sigmas: &mut [f32],
) -> u32
    ensures { ◌≡◌ {A = SigmasOutcome} (record { number = result; sigmas = sigmas.new })
        (sigmas_outcome on frame blocks table.now grids.now sigma_for_modular
        sigmas.old) }
{
    refusals::number_of(sigma::block_sigmas(
        on,
        frame,
        blocks,
        table,
        grids,
        sigma_for_modular,
        sigmas,
    ))
}
