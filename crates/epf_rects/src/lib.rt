// Copies rectangles of a filter region from another set. These functions only move data.
#![tactic(auto)]

ghost use Rattle.std.specs.Prelude.{◌≡◌, ℕ, ◌+◌, ◌*◌, ◌<◌, ◌≤◌, length, get_or};
ghost use Rattle.std.specs.Float.{nan};
ghost use Rattle.planes.specs.Rect.{rows_fill};
ghost use Rattle.planes.specs.Band.{inner};
ghost use Rattle.epf_rects.specs.Rects.{rect_filled, rect_fits, RectFits, copied_rect};

use planes::{Layout, copy_run, set_fits};

// Columns x up to x + cols and rows y up to y + rows of the filter region.
// Form: columns and rows; `PlaneRegion` of `gabor_plane`, with an index and a stride, has four numbers by chance.
#[derive(Clone, Copy, Debug, PartialEq, Eq)]
pub struct Rect {
    pub x: usize,
    pub y: usize,
    pub rows: usize,
    pub cols: usize,
}

impl Rect {
    // Whether the rectangle has at least one row and lies in the filter region, and `len` is the length of a set of n
    // planes.
    // Form: no sample is read, so the test takes a set's length alone, as `set_fits` does.
    pub fn fits(self, l: Layout, n: usize, len: usize) -> bool
        ensures { result ≡ rect_fits l n self len }
    {
        set_fits(l, n, len)
            && self.cols <= l.width
            && self.x <= l.width - self.cols
            && self.rows <= l.height
            && self.y <= l.height - self.rows
            && 0 < self.rows
    }
}

// Copies rows of n samples that start at index `at` of both lists and lie `stride` apart.
// Form: other samples lie between the rows, so no slice is the rectangle. `src` is read and `dst` is written, so the two are no
// one slice, and that they are of one length is a clause.
#[tactic(auto, unfolding(planes::specs::Rect::rows_fill))]
fn store_rows(dst: &mut [f32], src: &[f32], at: usize, stride: usize, rows: usize, n: usize)
    requires same_length { length src.now ≡ length dst.old }
    requires by_index { (r : ℕ) → r < rows → at + r * stride + n ≤ length dst.old }
    ensures { dst.new ≡ rows_fill dst.old at stride n rows
        (λ (r : ℕ) (i : ℕ). get_or src.now (at + r * stride + i) nan) }
{
    for r in 0..rows {
        let from = at + r * stride;
        copy_run(dst, from, src, from, n);
    }
}

// Copies a rectangle in each of n planes.
// Form: `dst` and `src` as in `store_rows`.
#[tactic(auto, unfolding(planes::specs::Rect::planes_fill))]
fn store_planes(dst: &mut [f32], src: &[f32], l: Layout, n: usize, rect: Rect)
    requires rect_fits { RectFits l n rect (length dst.old) }
    requires same_length { length src.now ≡ length dst.old }
    ensures { dst.new ≡ rect_filled l n rect
        (λ (c : ℕ) (i : ℕ) (r : ℕ). inner l src.now c (rect.x + i) (rect.y + r)) dst.old }
{
    let stride = l.image.width;
    let height = l.image.height;
    let top = l.top + rect.y;
    let left = l.left + rect.x;
    for c in 0..n {
        let at = (c * height + top) * stride + left;
        store_rows(dst, src, at, stride, rect.rows, rect.cols);
    }
}

// Copies a rectangle of one set to the same positions of another. Does nothing if the rectangle or the sets do not
// fit.
// Form: `dst`, `src`, `l`, `n` and `rect` are handed to `store_planes` once; a struct of them would be made here alone.
#[tactic(auto, unfolding(crate::specs::Rects::copied_rect))]
pub fn copy_rect(dst: &mut [f32], src: &[f32], l: Layout, n: usize, rect: Rect)
    ensures { dst.new ≡ copied_rect l n rect src.now dst.old }
{
    if !rect.fits(l, n, dst.len()) || src.len() != dst.len() {
        return;
    }
    store_planes(dst, src, l, n, rect);
}
