// One tile: a rectangle of filtered blocks.
ghost use Rattle.std.specs.Prelude.{◌≡◌, ◌+◌, ◌-◌, ◌*◌, ◌<◌, ◌≤◌, length};
ghost use Rattle.epf_sizes.specs.Sizes.{lanes, tile_rows, max_side};
ghost use Rattle.epf_window.specs.Window.{loaded};
ghost use Rattle.epf_distances.specs.Fields.{distances_of};
ghost use Rattle.epf_lanes.specs.Lanes.{lanes_stored};
ghost use Rattle.frame.specs.Sizes.{blocks_along};
ghost use Rattle.epf_tiles.specs.Tile.{sigma_first, TileInPass, NoneCopied, tile_stepped, max_top};

use crate::views::{lies_inside, planes_view, window_view};
use crate::{Arrays, Pass};
use epf_distances::{View, distances};
use epf_lanes::filter_tile;
use epf_rects::Rect;
use epf_sizes::{DIFFERENCES, FIELDS, WINDOWS};
use epf_slopes::{SLOPES, tile_slopes};
use epf_window::{WindowPart, load};
use limits::BLOCK;
use planes::Layout;

// The number of blocks in n columns or rows; the last may be partial.
pub(crate) fn blocks_of(n: usize) -> usize
    ensures { result ≡ blocks_along n }
{
    n.div_ceil(BLOCK)
}

// Index of the sigma of a tile's first block.
fn first_sigma(l: Layout, rect: Rect) -> usize
    requires { (l.width ≤ max_side) × (rect.x ≤ max_side) × (rect.y ≤ max_side) }
    ensures { result ≡ sigma_first l rect }
{
    let row = rect.y / BLOCK;
    let across = blocks_of(l.width);
    row * across + rect.x / BLOCK
}

// Loads the windows of a tile: the rows that its step reads, and four columns on both sides.
fn load_windows(win: &mut [f32; WINDOWS], src: &[f32], pass: Pass, rect: Rect)
    requires { (rect.rows ≤ tile_rows) × (rect.cols ≤ lanes) × (pass.settings.step < 3) }
    ensures { win.new ≡ loaded pass.layout pass.planes src.now rect.x rect.y pass.settings.step
        (rect.rows + 6 - 2 * pass.settings.step) (rect.cols + 8) win.old }
{
    let step = pass.settings.step;
    let part = WindowPart {
        x: rect.x,
        y: rect.y,
        top: step,
        rows: rect.rows + 6 - 2 * step,
        cols: rect.cols + 8,
    };
    load(win, src, pass.layout, pass.planes, part);
}

// Filters a tile whose samples are those of `v`, with the slopes of its columns.
// Form: the tile's arrays stand side by side, since the samples may be one of them.
fn filter_view(
    dst: &mut [f32],
    samples: &[f32],
    v: View,
    pass: Pass,
    rect: Rect,
    fields: &mut [f32; FIELDS],
    differences: &mut [f32; DIFFERENCES],
    slopes: &[f32; SLOPES],
)
    requires { (pass.top ≤ max_top) × (rect.y ≤ max_side) }
    ensures { dst.new ≡ lanes_stored pass.settings.step
        (distances_of pass.settings.step pass.planes pass.settings.scales samples.now v rect.rows rect.cols fields.old)
        slopes.now samples.now v pass.layout pass.planes (pass.top + rect.y) rect dst.old }
{
    let l = pass.layout;
    let n = pass.planes;
    let s = pass.settings;
    let step = s.step;
    let scales = s.scales;
    let rows = rect.rows;
    let cols = rect.cols;
    distances(
        fields,
        differences,
        samples,
        v,
        step,
        &scales,
        n,
        rows,
        cols,
    );
    let top = pass.top + rect.y;
    filter_tile(dst, fields, slopes, samples, v, step, l, n, top, rect);
}

// Filters a tile. None of its blocks is copied.
// Form: a step is a number, and is asked once per tile. The tile's sigmas are counted from the start of the list, as the
// definition of a step has them; for a slice of them it would have to be shown here that sigma b of the slice is that one.
pub(crate) fn tile(
    dst: &mut [f32],
    src: &[f32],
    pass: Pass,
    sigmas: &[f32],
    rect: Rect,
    arrays: &mut Arrays,
)
    requires tile_in_pass { TileInPass pass rect (length src.now) (length dst.old) }
    requires cols_in_bounds { sigma_first pass.layout rect + blocks_along rect.cols ≤ length sigmas.now }
    requires filtered { NoneCopied pass sigmas.now rect }
    ensures { dst.new ≡ tile_stepped pass rect sigmas.now src.now
        dst.old }
{
    let l = pass.layout;
    let s = pass.settings;
    let first = first_sigma(l, rect);
    let blocks = blocks_of(rect.cols);
    tile_slopes(&mut arrays.slopes, sigmas, first, blocks, s.scale, s.edge);
    // Step 0 reads five rows of each plane for a row of lanes; where rows lie a power of two apart, these share a few sets of the cache.
    if s.step != 0 && lies_inside(l, rect) {
        let v = planes_view(l, rect);
        filter_view(
            dst,
            src,
            v,
            pass,
            rect,
            &mut arrays.fields,
            &mut arrays.differences,
            &arrays.slopes,
        );
        return;
    }
    load_windows(&mut arrays.win, src, pass, rect);
    filter_view(
        dst,
        &arrays.win,
        window_view(),
        pass,
        rect,
        &mut arrays.fields,
        &mut arrays.differences,
        &arrays.slopes,
    );
}
