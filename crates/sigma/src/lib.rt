// The sigma of each block of a filter region, from the frame's groups and their grids (Specification 7.6).
#![tactic(auto)]

ghost use Rattle.std.specs.Prelude.{◌≡◌, false, ℕ, ◌+◌, ◌*◌, ◌<◌, ◌≤◌, length};
ghost use Rattle.refusals.specs.Refusals.{number_of};
ghost use Rattle.planes.specs.Sets.{tab};
ghost use Rattle.frame.specs.Sizes.{group_of, sizes_of};
ghost use Rattle.sigma_groups.specs.Held.{some_not_held};
ghost use Rattle.sigma_groups.specs.Measures.{blocks_across, blocks_down};
ghost use Rattle.sigma.specs.Sigma.{sigma_in, block_sigmas};
ghost use Rattle.sigma.specs.Outcome.{SigmasOutcome, sigmas_outcome};
ghost use Rattle.sigma.specs.Runs.{row_sigma, RunFits, RunOf, GridsOf, RowFits};

use frame::Frame;
use planes::copy_run;
use refusals::Refusal;
use sigma_grids::{grid_of, grid_start};
use sigma_groups::blocks::{Blocks, SoundBlocks};
use sigma_groups::checked;
use sigma_groups::groups::Groups;

// A part of a row of blocks that lies in one group: the group, the cell of the first block, the number of blocks.
// Form: `Blocks` has four numbers too, but by chance: they are a place and the two sides of a region.
#[derive(Clone, Copy)]
struct Run {
    group: u32,
    column: u32,
    row: u32,
    n: u32,
}

// A row of blocks of the filter region: its first block (left, by) in the frame, and the number of blocks across.
// Form: `SplitAnswer` of `frame` has three numbers too, but by chance: one of them is that of a refusal.
#[derive(Clone, Copy)]
struct BlockRow {
    left: u32,
    by: u32,
    across: u32,
}

// The groups of a frame, and the grids slice that their table describes. `modular` is the sigma of a block whose grid
// is missing.
#[derive(Clone, Copy)]
struct Grids<'a> {
    groups: Groups<'a>,
    grids: &'a [f32],
    modular: f32,
    ghost described: { GridsOf groups.frame.frame groups.sizes groups.table.now grids.now },
}

impl<'a> Grids<'a> {
    // Writes the sigmas of a run.
    fn fill_run(self, run: Run, sigmas: &mut [f32])
        requires { RunFits self.groups.table.now self.grids.now run × (length sigmas.old ≡ run.n) }
        ensures { sigmas.new ≡ tab run.n
            (λ (i : ℕ). sigma_in self.entry.groups.table.now self.entry.grids.now self.entry.modular
            run.group (run.column + i) run.row) }
    {
        let Some(grid) = grid_of(self.groups.table, run.group) else {
            sigmas.fill(self.modular);
            return;
        };
        let first = grid_start(self.groups.table, run.group).unwrap();
        let from = first + (run.row as usize * grid.width as usize + run.column as usize);
        copy_run(sigmas, 0, self.grids, from, run.n as usize);
    }

    // The run that starts at block (bx, by) and has at most `limit` blocks.
    fn run_at(self, bx: u32, by: u32, limit: u32) -> Run
        requires limit { 0 < limit }
        requires in_row { group_of bx self.groups.frame.frame.group_size_shift
            < (sizes_of self.groups.frame.frame).groups_per_row }
        requires in_column { group_of by self.groups.frame.frame.group_size_shift
            < (sizes_of self.groups.frame.frame).groups_per_column }
        ensures { RunOf self.entry.groups.frame.frame bx by limit result }
    {
        let sizes = self.groups.sizes;
        let shift = self.groups.frame.shift();
        let column = shift.split(bx);
        let row = shift.split(by);
        let group = row.group * sizes.groups_per_row + column.group;
        let n = (sizes.group_dim - column.inner).min(limit);
        Run {
            group,
            column: column.inner,
            row: row.inner,
            n,
        }
    }

    // Writes the sigmas of a row of blocks.
    // Form: no range has the next index, since the run that is written says how far the loop goes on.
    fn fill_row(self, row: BlockRow, sigmas: &mut [f32])
        requires { RowFits self.groups.frame.frame self.groups.table.now row × (length sigmas.old ≡ row.across) }
        ensures { sigmas.new ≡ tab row.across
            (row_sigma self.entry.groups.frame.frame self.entry.groups.table.now self.entry.grids.now
            self.entry.modular row) }
    {
        let mut x = 0;
        while x < row.across {
            let run = self.run_at(row.left + x, row.by, row.across - x);
            let end = x + run.n;
            self.fill_run(run, &mut sigmas[x as usize..end as usize]);
            x = end;
        }
    }

    // Writes the sigmas of a filter region, row of blocks by row.
    fn fill_rows(self, region: SoundBlocks, sigmas: &mut [f32])
        requires { (some_not_held self.groups.frame.frame region.blocks self.groups.table.now ≡ false)
            × (length sigmas.old ≡ blocks_down region.blocks * blocks_across region.blocks) }
        ensures { sigmas.new ≡ block_sigmas self.entry.groups.frame.frame region.blocks
            self.entry.groups.table.now self.entry.grids.now self.entry.modular }
    {
        let across = region.across();
        for y in 0..region.down() {
            let row = BlockRow {
                left: region.blocks.left,
                by: region.blocks.top + y,
                across,
            };
            let at = (y * across) as usize;
            self.fill_row(row, &mut sigmas[at..at + across as usize]);
        }
    }
}

// Writes the sigma of each block of the filter region, row of blocks by row (Specification 7.9).
// Form: `on` is C's flag, and a number but 0 and 1 is refused after most other checks, so it is no bool before.
pub fn block_sigmas(
    on: u32,
    frame: Frame,
    blocks: Blocks,
    table: &[u32],
    grids: &[f32],
    sigma_for_modular: f32,
    sigmas: &mut [f32],
) -> Result<(), Refusal>
    ensures { ◌≡◌ {A = SigmasOutcome} (record { number = number_of result; sigmas = sigmas.new })
        (sigmas_outcome on frame blocks table.now grids.now sigma_for_modular
        sigmas.old) }
{
    let (groups, region) = checked(on, frame, blocks, table, grids, sigmas.len())?;
    if !refusals::flag_set(on) {
        return Ok(());
    }
    let grids = Grids {
        groups,
        grids,
        modular: sigma_for_modular,
    };
    grids.fill_rows(region, sigmas);
    Ok(())
}
