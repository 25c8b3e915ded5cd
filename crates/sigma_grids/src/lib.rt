// The group table of a frame, and where each group's grid starts in the grids slice (Specification 7.4).
#![tactic(auto)]

ghost use Rattle.std.specs.Prelude.{◌≡◌, true, false, ◌+◌, ◌*◌, ◌≤◌, eqb, get_or, MatchOption};
ghost use Rattle.refusals.specs.Refusals.{IsOutcome};
ghost use Rattle.sigma_grids.specs.Table.{present, grid_width, grid_height, bad_grid_side, bad_grid};
ghost use Rattle.sigma_grids.specs.Table.{cells, grid_start};
ghost use Rattle.sigma_grids.specs.Start.{no_entries, start_outcome};

use refusals::Refusal;

const MAX_GRID_SIDE: u32 = 1_024;

// Numbers per group in the table: presence, grid width, grid height.
pub const ENTRY: usize = 3;

// The presence of a grid that is there; that of a missing one is 0.
// Form: a presence is a number of C's table, and one that is neither is refused only by `sigma_groups`.
pub const PRESENT: u32 = 1;

// At most 256 groups: 16 × 16 of 1,024 × 1,024 samples.
const MAX_TABLE: usize = 768;

// The sides of a group's grid, in cells.
// Form: a `Size` is that of a picture, in samples; `Place`, `Split` and the answers with two numbers have no sides.
#[derive(Clone, Copy)]
pub struct Grid {
    pub width: u32,
    pub height: u32,
}

// A number of the table, 0 past its end.
// Form: 0 stands past the end, so that `grid_of` answers for every table and group, as the definitions do.
fn number_at(table: &[u32], i: usize) -> u32
    ensures { result ≡ get_or table.now i 0 }
{
    table.get(i).copied().unwrap_or(0)
}

// The grid of an entry that the table's end may cut.
fn grid_past_end(table: &[u32], entry: usize) -> Option<Grid>
    requires { entry ≤ 12884901888 }
    ensures { MatchOption result (eqb (get_or table.now entry 0) 1 ≡ false)
        (λ grid. (eqb (get_or table.now entry 0) 1 ≡ true) × (grid.width ≡ get_or table.now (entry + 1) 0)
        × (grid.height ≡ get_or table.now (entry + 2) 0)) }
{
    if number_at(table, entry) != PRESENT {
        return None;
    }
    Some(Grid {
        width: number_at(table, entry + 1),
        height: number_at(table, entry + 2),
    })
}

// The grid of a group, or `None` if it is missing or the table has no entry for it.
// Form: the numbers of an entry by their indices, of which the last one's bound is tested once for all three: every entry of a frame's
// groups lies in the table, and this is asked for each group of a table and each run of sigmas.
pub fn grid_of(table: &[u32], group: u32) -> Option<Grid>
    ensures { MatchOption result (present table.now group ≡ false)
        (λ grid. (present table.now group ≡ true) × (grid.width ≡ grid_width table.now group)
        × (grid.height ≡ grid_height table.now group)) }
{
    let entry = ENTRY * group as usize;
    if table.len() < entry + ENTRY {
        return grid_past_end(table, entry);
    }
    if table[entry] != PRESENT {
        return None;
    }
    Some(Grid {
        width: table[entry + 1],
        height: table[entry + 2],
    })
}

fn bad_side(side: u32) -> bool
    ensures { result ≡ bad_grid_side side }
{
    side < 1 || MAX_GRID_SIDE < side
}

// Whether a grid is present and has a side out of range.
#[tactic(auto, unfolding(crate::specs::Table::bad_grid))]
fn bad_grid(table: &[u32], group: u32) -> bool
    ensures { result ≡ bad_grid table.now group }
{
    match grid_of(table, group) {
        None => false,
        Some(grid) => bad_side(grid.width) || bad_side(grid.height),
    }
}

// The number of cells of a group in the grids slice.
#[tactic(auto, unfolding(crate::specs::Table::cells))]
fn cells(table: &[u32], group: u32) -> usize
    requires { bad_grid table.now group ≡ false }
    ensures { result ≡ cells table.now group }
{
    match grid_of(table, group) {
        None => 0,
        Some(grid) => grid.width as usize * grid.height as usize,
    }
}

// Whether the table lacks an entry for a group before this one, or has more entries than a frame has groups.
#[tactic(auto, unfolding(crate::specs::Start::no_entries))]
fn no_entries(table: &[u32], group: u32) -> bool
    ensures { result ≡ no_entries table.now group }
{
    MAX_TABLE < table.len() || table.len() < ENTRY * group as usize
}

// The start of a group's grid in the grids slice, which is the number of cells of all groups before it, or refusal 4 or 7.
// Form: no `sum`, since a grid out of range ends the loop; tests and cells go in one loop, since each run of block sigmas asks this.
pub fn grid_start(table: &[u32], group: u32) -> Result<usize, Refusal>
    ensures { IsOutcome result (start_outcome table.now group).number (grid_start table.now group) }
{
    if no_entries(table, group) {
        return Err(Refusal::WrongLength);
    }
    let mut start = 0;
    for g in 0..group {
        if bad_grid(table, g) {
            return Err(Refusal::OutOfLimits);
        }
        start += cells(table, g);
    }
    Ok(start)
}
