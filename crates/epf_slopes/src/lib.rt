// The slopes of a tile's columns, from the sigmas of its blocks: first for rows inside a block, then for rows at a
// block's border.
#![tactic(auto)]

ghost use Rattle.std.specs.Prelude.{◌≡◌, ℕ, ◌+◌, ◌*◌, ◌<◌, ◌≤◌, length};
ghost use Rattle.planes.specs.Samples.{◌⊗◌};
ghost use Rattle.planes.specs.Fill.{fill};
ghost use Rattle.epf_step.specs.Steps.{multiplier as multiplier_of};
ghost use Rattle.epf_slopes.specs.Slopes.{block, tile_blocks, slope_columns, slopes_length};
ghost use Rattle.epf_slopes.specs.Slopes.{slope_at, first_slope, slopes_of};

use epf_step::{at_border, multiplier, slope};
use limits::BLOCK;

// The largest number of blocks in a tile.
const BLOCKS: usize = 8;

// Where the slopes of border rows start, and the number of slopes.
const BORDER: usize = 64;

pub const SLOPES: usize = 128;

// The y of a row that is not at a block's border, and of one that is; they represent all others.
// Form: `multiplier` takes a row's y and tests it together with the column, so a kind of row is handed on as such a y; a bool would
// need a second function of the same formula.
const INNER_ROW: usize = 1;

const BORDER_ROW: usize = 0;

// Where the slopes of the row at y = `row` start.
pub fn first_slope(row: usize) -> usize
    ensures { result ≡ first_slope row }
{
    if at_border(row) { BORDER } else { 0 }
}

// Computes the slopes of the eight columns of a block.
// Form: `scale` and `edge` are two settings of `epf_tiles::Step`, above this crate; a struct of both would serve it alone.
#[tactic(auto, unfolding(planes::specs::Fill::fill))]
fn block_slopes(
    slopes: &mut [f32; SLOPES],
    at: usize,
    slope: f32,
    scale: f32,
    edge: f32,
    row: usize,
)
    requires { at + block ≤ slopes_length }
    ensures { slopes.new ≡ fill slopes.old at block
        (λ (i : ℕ). slope ⊗ multiplier_of scale edge row i) }
{
    for i in 0..BLOCK {
        slopes[at + i] = slope * multiplier(scale, edge, row, i);
    }
}

// Computes the slopes of all columns of the blocks, for rows like `row`.
// Form: `slope_at` counts sigmas from the start of the list, and a slice of the tile's blocks would need a law that moves the
// start.
#[tactic(auto, unfolding(planes::specs::Fill::fill))]
fn row_slopes(
    slopes: &mut [f32; SLOPES],
    at: usize,
    sigmas: &[f32],
    first: usize,
    blocks: usize,
    scale: f32,
    edge: f32,
    row: usize,
)
    requires { (at ≤ slope_columns) × (blocks ≤ tile_blocks) × (first + blocks ≤ length sigmas.now) }
    ensures { slopes.new ≡ fill slopes.old at (blocks * block)
        (slope_at sigmas.now first scale edge row) }
{
    for b in 0..blocks {
        let s = slope(sigmas[first + b]);
        block_slopes(slopes, at + b * BLOCK, s, scale, edge, row);
    }
}

// Computes the slopes of at most eight blocks, whose sigmas start at index `first`; `edge` is `border_sad_mul`. Does
// nothing if there are more blocks or sigmas are missing.
// Form: `scale` and `edge` as in `block_slopes`.
#[tactic(auto, unfolding(crate::specs::Slopes::slopes_of))]
pub fn tile_slopes(
    slopes: &mut [f32; SLOPES],
    sigmas: &[f32],
    first: usize,
    blocks: usize,
    scale: f32,
    edge: f32,
)
    ensures { slopes.new ≡ slopes_of sigmas.now first blocks scale edge
        slopes.old }
{
    if BLOCKS < blocks || sigmas.len() < blocks || sigmas.len() - blocks < first {
        return;
    }
    row_slopes(slopes, 0, sigmas, first, blocks, scale, edge, INNER_ROW);
    row_slopes(
        slopes, BORDER, sigmas, first, blocks, scale, edge, BORDER_ROW,
    );
}
