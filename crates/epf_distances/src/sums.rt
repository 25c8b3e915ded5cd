// The distances of a field, four at a time: each channel's differences summed in the step's order and scaled.
// Form: N and STEP are const parameters, so their bounds are clauses here and in `differences.rt`; an index bounded by a type would be
// made for each vector.
ghost use Rattle.std.specs.Prelude.{◌≡◌, ℕ, ◌+◌, ◌-◌, ◌*◌, ◌<◌, ◌≤◌, ◌^◌, length, get_or};
ghost use Rattle.std.specs.Float.{nan};
ghost use Rattle.planes.specs.Fill.{fill};
ghost use Rattle.planes.specs.Rect.{rows_fill};
ghost use Rattle.epf_sizes.specs.Sizes.{stride, margin_rows, margin_columns, difference_plane, differences_length, fields_length};
ghost use Rattle.epf_step.specs.Steps.{scaled};
ghost use Rattle.epf_vectors.specs.Lanes.{lanes_of};
ghost use Rattle.epf_distances.specs.Seen.{apart_by, place_index, nearby, summed};
ghost use Rattle.epf_distances.specs.Fields.{max_index};
ghost use Rattle.epf_offsets.specs.Offsets.{compared_place};

use crate::View;
use crate::differences::four_apart;
use epf_offsets::{Place, compared_place};
use epf_sizes::{DIFFERENCE_PLANE, DIFFERENCES, FIELDS, MARGIN_COLUMNS, MARGIN_ROWS, STRIDE};
use epf_step::LAST_STEP;
use planes::PLANES;
use std::simd::prelude::*;

// The four numbers from index j on.
fn four(d: &[f32; DIFFERENCES], j: usize) -> f32x4
    requires { j + 4 ≤ differences_length }
    ensures { result ≡ lanes_of (λ (k : ℕ). get_or d.now (j + k) nan) }
{
    f32x4::from_slice(&d[j..j + 4])
}

// The index of a place around index j, where rows lie `across` apart.
fn index_of(place: Place, j: usize, across: usize) -> usize
    requires { (margin_rows * across + margin_columns ≤ j + place.row * across + place.col)
        × (j + place.row * across + place.col < 2 ^ 64) }
    ensures { result ≡ place_index place j across }
{
    j + place.row * across + place.col - (MARGIN_ROWS * across + MARGIN_COLUMNS)
}

// The four numbers where step STEP compares its i-th samples, around index j.
fn compared<const STEP: usize>(d: &[f32; DIFFERENCES], j: usize, i: usize) -> f32x4
    requires { (stride ≤ j) × (j + stride + 4 ≤ differences_length) }
    ensures { result ≡ lanes_of (λ (k : ℕ). get_or d.now (place_index (compared_place STEP i) j stride + k) nan) }
{
    four(d, index_of(compared_place(STEP, i), j, STRIDE))
}

// The sums of the differences around indices j to j + 3, in the order of step 0 or 1.
#[tactic(auto, unfolding(crate::specs::Seen::nearby))]
fn nearby<const STEP: usize>(d: &[f32; DIFFERENCES], j: usize) -> f32x4
    requires { (STEP < 2) × (stride ≤ j) × (j + stride + 4 ≤ differences_length) }
    ensures { result ≡ lanes_of (λ (k : ℕ). nearby stride STEP (λ (p : ℕ). get_or d.now p nan) (j + k)) }
{
    let sum = compared::<STEP>(d, j, 0) + compared::<STEP>(d, j, 1) + compared::<STEP>(d, j, 2);
    sum + compared::<STEP>(d, j, 3) + compared::<STEP>(d, j, 4)
}

// The distances at indices j to j + 3 of the first plane of differences, over N planes. The sum starts at the first plane's
// scaled sum, not at 0, which spares an addition.
fn distance<const STEP: usize, const N: usize>(
    d: &[f32; DIFFERENCES],
    scales: &[f32; PLANES],
    j: usize,
) -> f32x4
    requires { (STEP < 2) × (1 ≤ N) × (N ≤ 3) × (stride ≤ j) × (j + stride + 4 ≤ difference_plane) }
    ensures { result ≡ lanes_of (λ (k : ℕ). summed stride STEP (scaled N scales.now)
        (λ (c : ℕ) (p : ℕ). get_or d.now (c * difference_plane + p) nan) (j + k)) }
{
    let first = nearby::<STEP>(d, j);
    let mut sum = f32x4::splat(scales[0]) * first;
    for c in 1..N {
        let scale = f32x4::splat(scales[c]);
        sum = sum + scale * nearby::<STEP>(d, c * DIFFERENCE_PLANE + j);
    }
    sum
}

// The distances of a row.
#[tactic(auto, unfolding(planes::specs::Fill::fill))]
fn sum_row<const STEP: usize, const N: usize>(
    fields: &mut [f32; FIELDS],
    at: usize,
    d: &[f32; DIFFERENCES],
    scales: &[f32; PLANES],
    j: usize,
    vectors: usize,
)
    requires { (STEP < 2) × (1 ≤ N) × (N ≤ 3) × (stride ≤ j) × (j + stride + 4 * vectors ≤ difference_plane)
        × (at + 4 * vectors ≤ fields_length) }
    ensures { fields.new ≡ fill fields.old at (4 * vectors) (λ (i : ℕ). summed stride STEP (scaled N scales.now)
        (λ (c : ℕ) (p : ℕ). get_or d.now (c * difference_plane + p) nan) (j + i)) }
{
    for v in 0..vectors {
        let i = 4 * v;
        let sums = distance::<STEP, N>(d, scales, j + i);
        sums.copy_to_slice(&mut fields[at + i..at + i + 4]);
    }
}

// The distances of the rows of a field in steps 0 and 1. Row 0's differences are in row 1, its first lane's in column 1.
#[tactic(auto, unfolding(planes::specs::Rect::rows_fill))]
pub(crate) fn sum_rows<const STEP: usize, const N: usize>(
    fields: &mut [f32; FIELDS],
    at: usize,
    d: &[f32; DIFFERENCES],
    scales: &[f32; PLANES],
    rows: usize,
    vectors: usize,
)
    requires { (STEP < 2) × (1 ≤ N) × (N ≤ 3) × (rows ≤ 10) × (4 * vectors + 4 ≤ stride)
        × (at + (rows - 1) * stride + 4 * vectors ≤ fields_length) }
    ensures { fields.new ≡ rows_fill fields.old at stride (4 * vectors) rows
        (λ (r : ℕ) (i : ℕ). summed stride STEP (scaled N scales.now)
        (λ (c : ℕ) (p : ℕ). get_or d.now (c * difference_plane + p) nan) (stride + 1 + r * stride + i)) }
{
    for r in 0..rows {
        let j = STRIDE + 1 + r * STRIDE;
        sum_row::<STEP, N>(fields, at + r * STRIDE, d, scales, j, vectors);
    }
}

// The distances of step 2 at indices p to p + 3, which compare single samples, over N planes that lie `plane` apart. The sum
// starts as in `distance`.
// Form: where the samples are and how far apart: as in `differences.rt`.
fn single<const N: usize>(
    src: &[f32],
    plane: usize,
    across: usize,
    scales: &[f32; PLANES],
    p: usize,
    apart: usize,
) -> f32x4
    requires { (1 ≤ N) × (N ≤ 3) × (across ≤ max_index) × ((N - 1) * plane + p + apart + 4 ≤ length src.now) }
    ensures { result ≡ lanes_of (λ (k : ℕ). summed 1 2 (scaled N scales.now)
        (λ (c : ℕ). apart_by src.now (c * plane) apart) (p + k)) }
{
    let here = index_of(compared_place(LAST_STEP, 0), p, across);
    let first = four_apart(src, here, apart);
    let mut sum = f32x4::splat(scales[0]) * first;
    for c in 1..N {
        let scale = f32x4::splat(scales[c]);
        sum = sum + scale * four_apart(src, c * plane + here, apart);
    }
    sum
}

// The distances of a row in step 2.
// Form: where the samples are, how far apart, and how many: as in `differences.rt`.
#[tactic(auto, unfolding(planes::specs::Fill::fill))]
fn single_row<const N: usize>(
    fields: &mut [f32; FIELDS],
    at: usize,
    src: &[f32],
    plane: usize,
    across: usize,
    scales: &[f32; PLANES],
    p: usize,
    apart: usize,
    vectors: usize,
)
    requires { (1 ≤ N) × (N ≤ 3) × (across ≤ max_index) × ((N - 1) * plane + p + apart + 4 * vectors ≤ length src.now)
        × (at + 4 * vectors ≤ fields_length) }
    ensures { fields.new ≡ fill fields.old at (4 * vectors) (λ (i : ℕ). summed 1 2 (scaled N scales.now)
        (λ (c : ℕ). apart_by src.now (c * plane) apart) (p + i)) }
{
    for v in 0..vectors {
        let i = 4 * v;
        let sums = single::<N>(src, plane, across, scales, p + i, apart);
        sums.copy_to_slice(&mut fields[at + i..at + i + 4]);
    }
}

// The distances of the rows of a field in step 2; `p` is the index of the first sample of row 0.
// Form: as `single_row`.
#[tactic(auto, unfolding(planes::specs::Rect::rows_fill))]
pub(crate) fn single_rows<const N: usize>(
    fields: &mut [f32; FIELDS],
    at: usize,
    src: &[f32],
    v: View,
    scales: &[f32; PLANES],
    p: usize,
    apart: usize,
    rows: usize,
    vectors: usize,
)
    requires { (1 ≤ N) × (N ≤ 3) × (v.stride ≤ max_index) × ((N - 1) * v.plane + p + (rows - 1) * v.stride + apart + 4 * vectors ≤ length src.now)
        × (at + (rows - 1) * stride + 4 * vectors ≤ fields_length) }
    ensures { fields.new ≡ rows_fill fields.old at stride (4 * vectors) rows
        (λ (r : ℕ) (i : ℕ). summed 1 2 (scaled N scales.now)
        (λ (c : ℕ). apart_by src.now (c * v.plane) apart) (p + r * v.stride + i)) }
{
    for r in 0..rows {
        let from = p + r * v.stride;
        single_row::<N>(
            fields,
            at + r * STRIDE,
            src,
            v.plane,
            v.stride,
            scales,
            from,
            apart,
            vectors,
        );
    }
}
