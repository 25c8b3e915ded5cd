// Rows of the filter region in strips, each within one row of blocks. If any block of a strip is copied, the strip is
// copied from `src` first; then each run of blocks that are not copied is filtered, in tiles of nearly equal width.
ghost use Rattle.std.specs.Prelude.{◌≡◌, false, ◌+◌, ◌-◌, ◌*◌, ◌/◌, ◌<◌, ◌≤◌, length};
ghost use Rattle.epf_tiles.specs.Blocks.{block_side, block_columns};
ghost use Rattle.epf_tiles.specs.Region.{PassFits, StripFits, AllOfKind, RunEnd, HoldsCopied};
ghost use Rattle.epf_tiles.specs.Region.{share_of, blocks_stepped, rows_stepped, region_of};

use crate::tile::{blocks_of, tile};
use crate::{Arrays, Pass, Step};
use epf_rects::{Rect, copy_rect};
use epf_sizes::{DIFFERENCES, FIELDS, LANES, WINDOWS};
use epf_slopes::SLOPES;
use epf_step::{LAST_STEP, copied};
use limits::BLOCK;
use planes::{Layout, set_fits};

// The largest number of blocks of a tile.
const TILE_BLOCKS: usize = LANES / BLOCK;

// The top of a region, an i32, is below this, so row positions do not overflow.
const MAX_TOP: usize = 4_294_967_296;

// Rows y up to y + rows of the filter region.
// Form: a first row and a count of rows; other structs of two numbers are like it by chance.
#[derive(Clone, Copy)]
struct RowSpan {
    y: usize,
    rows: usize,
}

// The number of blocks of the next tile, for a run of which so many are left. A run takes as few tiles as it can, of
// nearly equal numbers of blocks.
fn share(blocks: usize) -> usize
    requires { 0 < blocks }
    ensures { result ≡ share_of blocks }
{
    blocks.div_ceil(blocks.div_ceil(TILE_BLOCKS))
}

// The end of the longest run of blocks that starts at block `from`, in the row of blocks at row y: of copied blocks, or
// of others. It is `from` itself where block `from` is of the other kind.
// Form: `of_copied` is what `copied` answers for the run's sigmas; an enum of two kinds would be made from that answer. The
// row's sigmas are found in the whole list, as in `tile`.
fn run_end(pass: Pass, sigmas: &[f32], y: usize, of_copied: bool, from: usize) -> usize
    requires row_in_bounds { y / block_side * block_columns pass.layout + block_columns pass.layout ≤ length sigmas.now }
    requires from_le { from ≤ block_columns pass.layout }
    ensures { RunEnd pass sigmas.now y of_copied from result }
{
    let limit = pass.settings.limit;
    let across = blocks_of(pass.layout.width);
    let first = y / BLOCK * across;
    sigmas[first + from..first + across]
        .iter()
        .position(|sigma| copied(*sigma, limit) != of_copied)
        .map_or(across, |blocks| from + blocks)
}

// Filters blocks `from` up to `to` of a strip, tile by tile. None of them is copied.
// Form: the parameters are those of `strip`, and two bounds, as `strips` has them.
fn tiles(
    dst: &mut [f32],
    src: &[f32],
    pass: Pass,
    sigmas: &[f32],
    span: RowSpan,
    from: usize,
    to: usize,
    arrays: &mut Arrays,
)
    requires pass_fits { PassFits pass (length src.now) (length dst.old) (length sigmas.now) }
    requires strip_fits { StripFits pass.layout span.y span.rows }
    requires in_strip { (from ≤ to) × (to ≤ block_columns pass.layout) }
    requires filtered { AllOfKind pass sigmas.now span.y false from to }
    ensures { dst.new ≡ blocks_stepped pass span.y span.rows from to sigmas.now
        src.now dst.old }
{
    let width = pass.layout.width;
    let mut b = from;
    // Form: the tiles of a run may differ by a block, so no range with a fixed step gives them.
    while b < to {
        let blocks = share(to - b);
        let x = b * BLOCK;
        let rect = Rect {
            x,
            y: span.y,
            rows: span.rows,
            cols: (width - x).min(blocks * BLOCK),
        };
        tile(dst, src, pass, sigmas, rect, arrays);
        b += blocks;
    }
}

// Filters the blocks of a strip that are not copied, run by run; `dst` holds the copied blocks already.
// Form: the parameters are those of `strip`.
fn runs(
    dst: &mut [f32],
    src: &[f32],
    pass: Pass,
    sigmas: &[f32],
    span: RowSpan,
    arrays: &mut Arrays,
)
    requires pass_fits { PassFits pass (length src.now) (length dst.old) (length sigmas.now) }
    requires strip_fits { StripFits pass.layout span.y span.rows }
    requires holds_copied { HoldsCopied pass sigmas.now src.now span.y span.rows dst.old }
    ensures { dst.new ≡ rows_stepped pass span.y span.rows sigmas.now
        src.now dst.old }
{
    let across = blocks_of(pass.layout.width);
    let mut b = 0;
    // Form: runs are as long as the sigmas make them, so no range gives their starts.
    while b < across {
        let from = run_end(pass, sigmas, span.y, true, b);
        let to = run_end(pass, sigmas, span.y, false, from);
        tiles(dst, src, pass, sigmas, span, from, to, arrays);
        b = to;
    }
}

// Computes a strip of rows. If any of its blocks is copied, all its columns are copied first, and only the runs between
// copied blocks are filtered.
// Form: `dst`, `src` and `sigmas` are slices of `filter_region`'s caller, handed on by `strips`; a struct that holds `dst` is not
// `Copy`, and each contract would have to say what else of it stays.
fn strip(
    dst: &mut [f32],
    src: &[f32],
    pass: Pass,
    sigmas: &[f32],
    span: RowSpan,
    arrays: &mut Arrays,
)
    requires pass_fits { PassFits pass (length src.now) (length dst.old) (length sigmas.now) }
    requires strip_fits { StripFits pass.layout span.y span.rows }
    ensures { dst.new ≡ rows_stepped pass span.y span.rows sigmas.now
        src.now dst.old }
{
    let l = pass.layout;
    let across = blocks_of(l.width);
    if run_end(pass, sigmas, span.y, false, 0) == across {
        tiles(dst, src, pass, sigmas, span, 0, across, arrays);
        return;
    }
    let rect = Rect {
        x: 0,
        y: span.y,
        rows: span.rows,
        cols: l.width,
    };
    copy_rect(dst, src, l, pass.planes, rect);
    runs(dst, src, pass, sigmas, span, arrays);
}

// Filters rows `from` up to `to`, strip by strip; it has the arrays that a tile is computed in.
#[tactic(auto, using(crate::proofs::Region::rows_start))]
fn strips(dst: &mut [f32], src: &[f32], pass: Pass, sigmas: &[f32], from: usize, to: usize)
    requires pass_fits { PassFits pass (length src.now) (length dst.old) (length sigmas.now) }
    requires from_le_to { (from ≤ to) × (to ≤ pass.layout.height) }
    ensures { dst.new ≡ rows_stepped pass from (to - from) sigmas.now src.now
        dst.old }
{
    let mut arrays = Arrays {
        win: [0.0; WINDOWS],
        fields: [0.0; FIELDS],
        differences: [0.0; DIFFERENCES],
        slopes: [0.0; SLOPES],
    };
    let mut y = from;
    // Form: the first strip may be shorter, so no range with a fixed step gives the others.
    while y < to {
        let rows = (to - y).min(BLOCK - y % BLOCK);
        let span = RowSpan { y, rows };
        strip(dst, src, pass, sigmas, span, &mut arrays);
        y += rows;
    }
}

// Filters rows `from` up to `to` of the filter region in n planes. Its row 0 is at y = `top`. `sigmas` has one sigma
// per block, row of blocks by row of blocks. Does nothing if the sets, sigmas, step or rows do not fit.
// Form: a step is a number, as in `epf_distances`, so it may be one above 2; the call then does nothing.
#[tactic(auto, unfolding(crate::specs::Region::region_of))]
pub fn filter_region(
    dst: &mut [f32],
    src: &[f32],
    l: Layout,
    n: usize,
    s: Step,
    sigmas: &[f32],
    top: usize,
    from: usize,
    to: usize,
)
    ensures { dst.new ≡ region_of n l s top from to sigmas.now src.now
        dst.old }
{
    if !set_fits(l, n, src.len())
        || !set_fits(l, n, dst.len())
        || sigmas.len() != blocks_of(l.height) * blocks_of(l.width)
        || LAST_STEP < s.step
        || MAX_TOP < top
        || to < from
        || l.height < to
    {
        return;
    }
    let pass = Pass {
        layout: l,
        planes: n,
        settings: s,
        top,
    };
    strips(dst, src, pass, sigmas, from, to);
}
