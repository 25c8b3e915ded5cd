// Distances between the samples of a tile and their neighbours, from planes or from windows (`View`).
// Two opposite neighbours share a field of distances: the distances of one are those of the other, read from an
// earlier index. So a step has one field per pair of opposite neighbours.
// Rows of a field are whole vectors of four lanes. The lanes past a tile's columns hold distances that nothing reads.
#![tactic(auto)]

mod differences;
mod sums;
pub mod taps;

ghost use Rattle.std.specs.Prelude.{◌≡◌, ℕ, cond, ◌+◌, ◌*◌, ◌<◌, ◌≤◌, ltb, length};
ghost use Rattle.planes.specs.Rect.{rows_fill};
ghost use Rattle.epf_sizes.specs.Sizes.{stride};
ghost use Rattle.epf_step.specs.Steps.{scaled};
ghost use Rattle.epf_distances.specs.Taps.{half as half_of, pair_of, apart_in, field_vectors, field_start};
ghost use Rattle.epf_distances.specs.Fields.{first_place, dist_at, fields_fill, field_differences, differences_fill, max_index};
ghost use Rattle.epf_distances.specs.Fields.{view_fits, ViewFits, distances_of, differences_of};

use crate::differences::difference_planes;
use crate::sums::{single_rows, sum_rows};
use crate::taps::{half, pair};
use epf_sizes::{DIFFERENCES, FIELD_PLANE, FIELDS, LANES, MARGIN_ROWS, STRIDE, TILE_ROWS};
use planes::PLANES;

// Larger distances of planes or rows, and larger corners, are refused, so that positions do not overflow.
const MAX_INDEX: usize = 4_294_967_296;

// Where a tile's samples are read: planes that lie `plane` apart and rows that lie `stride` apart. `corner` is the index
// of the sample 3 rows above the tile's first one and 4 columns left of it.
// Form: other structs of three numbers (`InnerRow` of `gabor_plane`, `Pair`, `Tap`) are like it by chance.
#[derive(Clone, Copy, Debug, PartialEq, Eq)]
pub struct View {
    pub plane: usize,
    pub stride: usize,
    pub corner: usize,
}

// The two samples that a field compares for the tile's first lane, in columns from the corner: the second is in row 3,
// the first `up` rows above it.
// Form: places in a tile's view, the same in every one, and no indices of a slice; for its type as `View`.
#[derive(Clone, Copy, Debug, PartialEq, Eq)]
pub struct Pair {
    pub up: usize,
    pub first: usize,
    pub second: usize,
}

// A neighbour of the tile's first lane: the row and the column of its sample from the corner, and the index of its
// distance among the fields.
// Form: two indices that are the same in every tile's view and fields, so no slices; for its type as `View`.
#[derive(Clone, Copy, Debug, PartialEq, Eq)]
pub struct Tap {
    pub row: usize,
    pub col: usize,
    pub start: usize,
}

impl View {
    // Whether a tile may have so many rows and columns in n planes, and all samples that it needs lie below `len`.
    // Form: no sample is read, so the test takes a length alone, as `set_fits` does.
    pub fn fits(self, n: usize, rows: usize, cols: usize, len: usize) -> bool
        ensures { result ≡ view_fits self n rows cols len }
    {
        1 <= n
            && n <= PLANES
            && 1 <= rows
            && rows <= TILE_ROWS
            && cols <= LANES
            && 1 <= self.stride
            && self.plane <= MAX_INDEX
            && self.corner <= MAX_INDEX
            && self.stride <= MAX_INDEX
            && (n - 1) * self.plane + self.corner + (rows + 5) * self.stride + cols + 12 <= len
    }
}

// How much later a pair's second sample comes, where rows lie `across` apart.
// Form: the bound of `across` is one of `ViewFits`; a view's other numbers are not used here, nor in `sums.rt`.
fn apart_in(across: usize, k: Pair) -> usize
    requires { (k.up ≤ 2) × (k.first ≤ k.up * across + k.second) × (k.second ≤ 4) × (across ≤ max_index) }
    ensures { result ≡ apart_in across k }
{
    k.up * across + k.second - k.first
}

// Computes field h of step STEP over N planes.
// Form: the parameters are those of `distances`, handed on for each field; a struct of them would be made there alone.
fn field<const STEP: usize, const N: usize>(
    fields: &mut [f32; FIELDS],
    d: &mut [f32; DIFFERENCES],
    src: &[f32],
    v: View,
    scales: &[f32; PLANES],
    rows: usize,
    cols: usize,
    h: usize,
)
    requires { ViewFits v N rows cols (length src.now) × (h < half_of STEP) }
    ensures fields { fields.new ≡ rows_fill fields.old (field_start h (pair_of STEP h)) stride
        (4 * field_vectors cols (pair_of STEP h)) (rows + (pair_of STEP h).up)
        (λ (r : ℕ) (i : ℕ). dist_at STEP (scaled N scales.now) src.now v (pair_of STEP h)
        (first_place v (pair_of STEP h) + r * v.stride + i)) }
    ensures differences { d.new ≡ cond (ltb STEP 2) (field_differences N src.now v rows cols (pair_of STEP h) d.old) d.old }
{
    let k = pair(STEP, h);
    let apart = apart_in(v.stride, k);
    let vectors = (cols + k.first.abs_diff(k.second)).div_ceil(4);
    let at = h * FIELD_PLANE + (2 - k.up) * STRIDE + k.first;
    let p = v.corner + (MARGIN_ROWS - k.up) * v.stride + k.first;
    let high = rows + k.up;
    if 1 < STEP {
        single_rows::<N>(fields, at, src, v, scales, p, apart, high, vectors);
        return;
    }
    difference_planes::<N>(d, src, v, p - v.stride - 1, apart, high + 2, vectors + 1);
    sum_rows::<STEP, N>(fields, at, d, scales, high, vectors);
}

// Computes each field of step STEP over N planes.
// Form: as `field`.
#[tactic(auto, unfolding(crate::specs::Fields::fields_fill, crate::specs::Fields::differences_fill))]
fn fill_fields<const STEP: usize, const N: usize>(
    fields: &mut [f32; FIELDS],
    d: &mut [f32; DIFFERENCES],
    src: &[f32],
    v: View,
    scales: &[f32; PLANES],
    rows: usize,
    cols: usize,
)
    requires { ViewFits v N rows cols (length src.now) }
    ensures fields { fields.new ≡ fields_fill STEP (scaled N scales.now) src.now v rows cols fields.old (half_of STEP) }
    ensures differences { d.new ≡ cond (ltb STEP 2) (differences_fill STEP N src.now v rows cols d.old (half_of STEP)) d.old }
{
    let count = half(STEP);
    for h in 0..count {
        field::<STEP, N>(fields, d, src, v, scales, rows, cols, h);
    }
}

// The same in any step. Steps after 2 are like step 2.
// Form: a step is a number that `distances` takes as it comes, and is turned into the const parameter here.
fn fields_of<const N: usize>(
    fields: &mut [f32; FIELDS],
    d: &mut [f32; DIFFERENCES],
    src: &[f32],
    v: View,
    step: usize,
    scales: &[f32; PLANES],
    rows: usize,
    cols: usize,
)
    requires { ViewFits v N rows cols (length src.now) }
    ensures fields { fields.new ≡ fields_fill step (scaled N scales.now) src.now v rows cols fields.old (half_of step) }
    ensures differences { d.new ≡ cond (ltb step 2) (differences_fill step N src.now v rows cols d.old (half_of step)) d.old }
{
    match step {
        0 => fill_fields::<0, N>(fields, d, src, v, scales, rows, cols),
        1 => fill_fields::<1, N>(fields, d, src, v, scales, rows, cols),
        _ => fill_fields::<2, N>(fields, d, src, v, scales, rows, cols),
    }
}

// Computes the fields of a tile of 1 to 8 rows and at most 64 columns in 1 to 3 planes; `d` is what it computes them in. Does
// nothing if the arguments do not fit.
// Form: a tile's arrays are those of `epf_tiles`, and step, scales and planes those of its pass; each is handed on once.
#[tactic(auto, unfolding(crate::specs::Fields::distances_of, crate::specs::Fields::differences_of))]
pub fn distances(
    fields: &mut [f32; FIELDS],
    d: &mut [f32; DIFFERENCES],
    src: &[f32],
    v: View,
    step: usize,
    scales: &[f32; PLANES],
    planes: usize,
    rows: usize,
    cols: usize,
)
    ensures fields { fields.new ≡ distances_of step planes scales.now src.now v rows cols fields.old }
    ensures differences { d.new ≡ differences_of step planes src.now v rows cols d.old }
{
    if !v.fits(planes, rows, cols, src.len()) {
        return;
    }
    match planes {
        1 => fields_of::<1>(fields, d, src, v, step, scales, rows, cols),
        2 => fields_of::<2>(fields, d, src, v, step, scales, rows, cols),
        _ => fields_of::<3>(fields, d, src, v, step, scales, rows, cols),
    }
}
