// The groups of a frame, and the blocks that their grids hold (Specification 7.4, 7.5, 7.7).
ghost use Rattle.std.specs.Prelude.{◌≡◌, cond, ℕ, ◌+◌, ◌*◌, ◌≤◌, length, IfOk};
ghost use Rattle.refusals.specs.Numbers.{accepted, wrong_length};
ghost use Rattle.refusals.specs.Refusals.{number_of};
ghost use Rattle.frame.specs.Sizes.{sizes_of};
ghost use Rattle.sigma_grids.specs.Table.{bad_presence, grid_lacks_block, some_below};
ghost use Rattle.sigma_groups.specs.Held.{not_held, some_not_held};
ghost use Rattle.sigma_groups.specs.Outcome.{table_fits, some_group};
ghost use Rattle.sigma_groups.specs.Fitting.{TableOf};

use crate::blocks::SoundBlocks;
use frame::{GroupSizes, SoundFrame};
use refusals::Refusal;
use sigma_grids::{ENTRY, PRESENT};

// The groups of a frame in range: its sizes, and its group table, which has an entry for each group.
#[derive(Clone, Copy)]
pub struct Groups<'a> {
    pub frame: SoundFrame,
    pub sizes: GroupSizes,
    pub table: &'a [u32],
    pub ghost entries: { TableOf frame.frame sizes table.now },
}

// Form: a presence is a number of C's table: `PRESENT`, or 0 for a missing grid.
fn bad_presence(table: &[u32], group: u32) -> bool
    ensures { result ≡ bad_presence table.now group }
{
    table
        .get(ENTRY * group as usize)
        .is_some_and(|presence| PRESENT < *presence)
}

// Whether a group's grid is present and lacks a cell.
// Form: the numbers of its entry by their indices: this is asked for each block, and `grid_of` would test the table's length each time.
#[tactic(auto, unfolding(sigma_grids::specs::Table::grid_lacks_block))]
fn grid_lacks_block(table: &[u32], group: u32, column: u32, row: u32) -> bool
    requires { 3 * group + 3 ≤ length table.now }
    ensures { result ≡ grid_lacks_block table.now group column row }
{
    let entry = ENTRY * group as usize;
    table[entry] == PRESENT && (table[entry + 1] <= column || table[entry + 2] <= row)
}

impl<'a> Groups<'a> {
    // The groups, or refusal 7 unless the table has an entry for each.
    pub fn new(frame: SoundFrame, table: &'a [u32]) -> Result<Groups<'a>, Refusal>
        ensures { (number_of result ≡ cond (table_fits frame.frame table.now) accepted wrong_length)
            × IfOk result (λ g. (g.frame.frame ≡ frame.frame) × (g.sizes ≡ sizes_of frame.frame) × (g.table.now ≡ table.now)) }
    {
        let sizes = frame.sizes();
        if table.len() != ENTRY * sizes.num_groups as usize {
            return Err(Refusal::WrongLength);
        }
        Ok(Groups {
            frame,
            sizes,
            table,
        })
    }

    // Whether a presence is neither 0 nor 1.
    pub(crate) fn some_bad_presence(self) -> bool
        ensures { result ≡ some_group self.entry.frame.frame (bad_presence self.entry.table.now) }
    {
        (0..self.sizes.num_groups).any(|g| bad_presence(self.table, g))
    }

    // Whether a block's group is outside the frame, or its grid is present and lacks the block.
    fn not_held(self, bx: u32, by: u32) -> bool
        ensures { result ≡ not_held self.entry.frame.frame self.entry.table.now bx by }
    {
        let shift = self.frame.shift();
        let column = shift.split(bx);
        if self.sizes.groups_per_row <= column.group {
            return true;
        }
        let row = shift.split(by);
        if self.sizes.groups_per_column <= row.group {
            return true;
        }
        let group = row.group * self.sizes.groups_per_row + column.group;
        grid_lacks_block(self.table, group, column.inner, row.inner)
    }

    fn row_not_held(self, left: u32, by: u32, across: u32) -> bool
        requires { (left ≤ 131072) × (across ≤ 2048) }
        ensures { result ≡ some_below across
            (λ (x : ℕ). not_held self.entry.frame.frame self.entry.table.now (left + x) by) }
    {
        (0..across).any(|x| self.not_held(left + x, by))
    }

    // Whether a block of the filter region is not held.
    pub(crate) fn some_not_held(self, region: SoundBlocks) -> bool
        ensures { result ≡ some_not_held self.entry.frame.frame region.blocks self.entry.table.now }
    {
        let across = region.across();
        (0..region.down()).any(|y| self.row_not_held(
            region.blocks.left,
            region.blocks.top + y,
            across,
        ))
    }
}
