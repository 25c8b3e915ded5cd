// The rows of a tile, stored in the target's planes, by vectors of four lanes; of a row's last vector, the lanes inside the
// row are stored. All planes of a vector go together, since they share its weights. A function with a loop is called once for
// each step and number of planes, so it is inlined with these as literals.
// Form: the tile's arrays stay side by side in this file: with a struct of them each clause would name `tile.entry.fields.now` for
// `fields.now`.
ghost use Rattle.std.specs.Prelude.{◌≡◌, ℕ, ◌+◌, ◌-◌, ◌*◌, ◌%◌, ◌<◌, ◌≤◌, length, take, min};
ghost use Rattle.planes.specs.Rect.{planes_fill};
ghost use Rattle.epf_rects.specs.Rects.{rect_filled};
ghost use Rattle.epf_slopes.specs.Slopes.{slope_columns};
ghost use Rattle.epf_lanes.specs.Lanes.{row_of, tile_of, LanesFit};

use crate::weights::{mix, weights};
use epf_distances::View;
use epf_rects::Rect;
use epf_sizes::{FIELDS, STRIDE, WINDOW_PLANE};
use epf_slopes::{SLOPES, first_slope};
use limits::BLOCK;
use planes::{Layout, copy_run};
use std::simd::prelude::*;

// Stores the first lanes of a vector, as many as the slice holds.
fn store(dst: &mut [f32], v: f32x4)
    requires { length dst.old ≤ 4 }
    ensures { dst.new ≡ take (length dst.old) v }
{
    let m = dst.len();
    if m == 4 {
        v.copy_to_slice(dst);
        return;
    }
    copy_run(dst, 0, &v.to_array(), 0, m);
}

// Filters the four lanes of row r from lane i on, or as many as the row has, in N planes. The row's slopes start at index `first`.
#[tactic(auto, unfolding(planes::specs::Rect::planes_fill))]
fn vector<const STEP: usize, const N: usize>(
    dst: &mut [f32],
    l: Layout,
    rect: Rect,
    fields: &[f32; FIELDS],
    slopes: &[f32; SLOPES],
    src: &[f32],
    v: View,
    first: usize,
    r: usize,
    i: usize,
)
    requires { LanesFit STEP l N rect v (length dst.old) (length src.now) × (first ≤ slope_columns)
        × (r < rect.rows) × (i < rect.cols) × (i % 4 ≡ 0) }
    ensures { dst.new ≡ planes_fill l.image.width l.image.height (l.left + rect.x + i) (min (rect.cols - i) 4)
        (l.top + rect.y + r) 1
        (λ (c : ℕ) (x : ℕ) (y : ℕ). row_of STEP fields.now slopes.now src.now v first r c (i + x) y) dst.old N }
{
    let s = first + i;
    let w = weights::<STEP>(fields, f32x4::from_slice(&slopes[s..s + 4]), r, i);
    let m = (rect.cols - i).min(4);
    let far = l.image.height * l.image.width;
    let at = (l.top + rect.y + r) * l.image.width + (l.left + rect.x + i);
    let p = v.corner + r * v.stride + i;
    for c in 0..N {
        let x = mix::<STEP>(src, v.stride, c * v.plane + p, w);
        let o = c * far + at;
        store(&mut dst[o..o + m], x);
    }
}

// Filters row r. Its slopes start at index `first`.
fn row<const STEP: usize, const N: usize>(
    dst: &mut [f32],
    l: Layout,
    rect: Rect,
    fields: &[f32; FIELDS],
    slopes: &[f32; SLOPES],
    src: &[f32],
    v: View,
    first: usize,
    r: usize,
)
    requires { LanesFit STEP l N rect v (length dst.old) (length src.now) × (first ≤ slope_columns)
        × (r < rect.rows) }
    ensures { dst.new ≡ planes_fill l.image.width l.image.height (l.left + rect.x) rect.cols (l.top + rect.y + r) 1
        (row_of STEP fields.now slopes.now src.now v first r) dst.old N }
{
    for b in 0..rect.cols.div_ceil(4) {
        vector::<STEP, N>(dst, l, rect, fields, slopes, src, v, first, r, 4 * b);
    }
}

// Filters a rectangle in N planes; its row 0 is at y = `top`.
fn rows<const STEP: usize, const N: usize>(
    dst: &mut [f32],
    l: Layout,
    rect: Rect,
    fields: &[f32; FIELDS],
    slopes: &[f32; SLOPES],
    src: &[f32],
    v: View,
    top: usize,
)
    requires { LanesFit STEP l N rect v (length dst.old) (length src.now) }
    ensures { dst.new ≡ rect_filled l N rect (tile_of STEP fields.now slopes.now src.now v top) dst.old }
{
    let offset = top % BLOCK;
    for r in 0..rect.rows {
        let first = first_slope(offset + r);
        row::<STEP, N>(dst, l, rect, fields, slopes, src, v, first, r);
    }
}

// Filters a rectangle in N planes in any step. Steps 1 and 2 have the same lanes; step 0 reads windows, whose sizes are literals here.
// Form: a step is a number that `filter_tile` takes as it comes, and is turned into the const parameter here.
pub(crate) fn filter_planes<const N: usize>(
    dst: &mut [f32],
    l: Layout,
    rect: Rect,
    fields: &[f32; FIELDS],
    slopes: &[f32; SLOPES],
    src: &[f32],
    v: View,
    step: usize,
    top: usize,
)
    requires { LanesFit step l N rect v (length dst.old) (length src.now) }
    ensures { dst.new ≡ rect_filled l N rect (tile_of step fields.now slopes.now src.now v top) dst.old }
{
    if step == 0 {
        let windows = View {
            plane: WINDOW_PLANE,
            stride: STRIDE,
            corner: v.corner,
        };
        rows::<0, N>(dst, l, rect, fields, slopes, src, windows, top);
        return;
    }
    rows::<1, N>(dst, l, rect, fields, slopes, src, v, top);
}
