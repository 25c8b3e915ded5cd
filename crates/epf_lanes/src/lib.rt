// Weighted sums of a tile of a step of the edge-preserving filter, from fields of distances, slopes and samples. A
// tile has at most three planes, eight rows and 64 columns; lane i of a row is its column i.
#![tactic(auto)]

mod rows;
mod weights;

ghost use Rattle.std.specs.Prelude.{◌≡◌, not, ◌&&◌, ◌||◌, eqb};
ghost use Rattle.epf_distances.specs.Fields.{view_fits};
ghost use Rattle.epf_lanes.specs.Lanes.{reads_windows, lanes_stored};

use crate::rows::filter_planes;
use epf_distances::View;
use epf_rects::Rect;
use epf_sizes::{FIELDS, STRIDE, WINDOW_PLANE};
use epf_slopes::SLOPES;
use planes::Layout;
use std::simd::prelude::*;

// The weights of four neighbours, each of four lanes.
// Form: the contracts name each weight, where an array would be a list; the four fields of `EpfSigma` are settings, no weights.
#[derive(Clone, Copy)]
pub(crate) struct Four {
    a: f32x4,
    b: f32x4,
    c: f32x4,
    d: f32x4,
}

// The weights of the neighbours of four lanes in the order of the kernel offsets, and the divisors: 1 plus their sum. Steps 1
// and 2 have four neighbours, a cross, and zeros in `v` and `w`.
// Form: in these steps `mix` does not read `v` and `w`; a struct without them would need a second `weights` and a second `mix`.
#[derive(Clone, Copy)]
pub(crate) struct LaneWeights {
    u: Four,
    v: Four,
    w: Four,
    sum: f32x4,
}

// Whether a view of `len` samples has all that step `step` reads for a rectangle in n planes. Step 0 reads windows alone.
// Form: no sample is read, so the test takes a length alone, as `View::fits` does.
fn serves(v: View, step: usize, n: usize, rect: Rect, len: usize) -> bool
    ensures { result ≡ (view_fits v n rect.rows rect.cols len
        && (not (eqb step 0) || reads_windows v)) }
{
    v.fits(n, rect.rows, rect.cols, len)
        && (step != 0 || v.plane == WINDOW_PLANE && v.stride == STRIDE)
}

// Filters a rectangle of at most 8 rows and 64 columns in each plane, whose samples are read by `v`; its row 0 is at y = `top`.
// Does nothing if the rectangle, the set or the samples do not fit. Step 0 takes windows alone.
// Form: the tile's arrays stay side by side, as in `rows.rt`.
#[tactic(auto, unfolding(crate::specs::Lanes::lanes_stored))]
pub fn filter_tile(
    dst: &mut [f32],
    fields: &[f32; FIELDS],
    slopes: &[f32; SLOPES],
    src: &[f32],
    v: View,
    step: usize,
    l: Layout,
    planes: usize,
    top: usize,
    rect: Rect,
)
    ensures { dst.new ≡ lanes_stored step fields.now slopes.now
        src.now v l planes top rect dst.old }
{
    if !rect.fits(l, planes, dst.len()) || !serves(v, step, planes, rect, src.len()) {
        return;
    }
    match planes {
        1 => filter_planes::<1>(dst, l, rect, fields, slopes, src, v, step, top),
        2 => filter_planes::<2>(dst, l, rect, fields, slopes, src, v, step, top),
        _ => filter_planes::<3>(dst, l, rect, fields, slopes, src, v, step, top),
    }
}
