// The differences that the distances of a field sum, four at a time, in planes of 12 rows: row 0 is the row above the
// field's first, column 0 the column before it.
ghost use Rattle.std.specs.Prelude.{◌≡◌, ℕ, ◌+◌, ◌-◌, ◌*◌, ◌<◌, ◌≤◌, length};
ghost use Rattle.planes.specs.Fill.{fill};
ghost use Rattle.planes.specs.Rect.{rows_fill, planes_fill};
ghost use Rattle.epf_sizes.specs.Sizes.{stride, difference_rows, difference_plane, differences_length};
ghost use Rattle.epf_vectors.specs.Lanes.{lanes_of};
ghost use Rattle.epf_distances.specs.Seen.{apart_by};

use crate::View;
use epf_sizes::{DIFFERENCE_PLANE, DIFFERENCES, STRIDE};
use epf_vectors::differences;
use std::simd::prelude::*;

// Differences between the four samples from index p on and those `apart` after them.
// Form: two runs of samples that overlap, at indices that differ by `apart`; a slice of each would hide that.
pub(crate) fn four_apart(src: &[f32], p: usize, apart: usize) -> f32x4
    requires { p + apart + 4 ≤ length src.now }
    ensures { result ≡ lanes_of (λ (k : ℕ). apart_by src.now 0 apart (p + k)) }
{
    let to = p + apart;
    let x = f32x4::from_slice(&src[to..to + 4]);
    let y = f32x4::from_slice(&src[p..p + 4]);
    differences(x, y)
}

// The same for a row of samples.
// Form: as `four_apart`.
#[tactic(auto, unfolding(planes::specs::Fill::fill))]
fn difference_row(
    d: &mut [f32; DIFFERENCES],
    at: usize,
    src: &[f32],
    p: usize,
    apart: usize,
    vectors: usize,
)
    requires { (at + 4 * vectors ≤ differences_length) × (p + apart + 4 * vectors ≤ length src.now) }
    ensures { d.new ≡ fill d.old at (4 * vectors) (λ (i : ℕ). apart_by src.now 0 apart (p + i)) }
{
    for v in 0..vectors {
        let i = 4 * v;
        four_apart(src, p + i, apart).copy_to_slice(&mut d[at + i..at + i + 4]);
    }
}

// The same for rows that start at index p of a plane and lie `across` apart.
// Form: as `four_apart`.
#[tactic(auto, unfolding(planes::specs::Rect::rows_fill))]
fn difference_rows(
    d: &mut [f32; DIFFERENCES],
    at: usize,
    src: &[f32],
    p: usize,
    across: usize,
    apart: usize,
    rows: usize,
    vectors: usize,
)
    requires { (at + difference_plane ≤ differences_length) × (rows ≤ difference_rows) × (4 * vectors ≤ stride)
        × (p + (rows - 1) * across + apart + 4 * vectors ≤ length src.now) }
    ensures { d.new ≡ rows_fill d.old at stride (4 * vectors) rows
        (λ (r : ℕ) (i : ℕ). apart_by src.now 0 apart (p + r * across + i)) }
{
    for r in 0..rows {
        difference_row(d, at + r * STRIDE, src, p + r * across, apart, vectors);
    }
}

// The same in each of N planes of a view; p counts from the plane's start.
// Form: as `four_apart`.
#[tactic(auto, unfolding(planes::specs::Rect::planes_fill))]
pub(crate) fn difference_planes<const N: usize>(
    d: &mut [f32; DIFFERENCES],
    src: &[f32],
    v: View,
    p: usize,
    apart: usize,
    rows: usize,
    vectors: usize,
)
    requires { (N ≤ 3) × (rows ≤ difference_rows) × (4 * vectors ≤ stride)
        × ((N - 1) * v.plane + p + (rows - 1) * v.stride + apart + 4 * vectors ≤ length src.now) }
    ensures { d.new ≡ planes_fill stride difference_rows 0 (4 * vectors) 0 rows
        (λ (c : ℕ) (i : ℕ) (r : ℕ). apart_by src.now (c * v.plane) apart (p + r * v.stride + i)) d.old N }
{
    for c in 0..N {
        difference_rows(
            d,
            c * DIFFERENCE_PLANE,
            src,
            c * v.plane + p,
            v.stride,
            apart,
            rows,
            vectors,
        );
    }
}
