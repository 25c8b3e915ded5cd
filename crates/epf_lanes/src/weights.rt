// The weights of the neighbours of four lanes, and the weighted sums of their samples. Steps and neighbours are literals
// where these functions are called, so that the compiler folds the taps.
ghost use Rattle.std.specs.Prelude.{◌≡◌, ℕ, ◌+◌, ◌*◌, ◌<◌, ◌≤◌, length, get_or};
ghost use Rattle.std.specs.Float.{nan};
ghost use Rattle.epf_sizes.specs.Sizes.{lanes, tile_rows};
ghost use Rattle.epf_step.specs.Steps.{kernel};
ghost use Rattle.epf_vectors.specs.Lanes.{lanes_of};
ghost use Rattle.epf_lanes.specs.Lanes.{past_lanes, ◌⊞◌, field_weight, weights_in, four_of, weights_of};
ghost use Rattle.epf_lanes.specs.Lanes.{sample_at, with_four, mix_of};
ghost use Rattle.epf_lanes.specs.Divisors.{LaneBounded};

use crate::{Four, LaneWeights};
use epf_distances::taps::neighbour;
use epf_sizes::{FIELDS, MARGIN_COLUMNS, MARGIN_ROWS, STRIDE};
use std::simd::prelude::*;

// The weights of neighbour q of the four lanes from index j of a field on.
#[tactic(auto, using(epf_distances::proofs::TapLaws::tap_room, epf_vectors::proofs::Rows::loaded))]
fn weight_of(fields: &[f32; FIELDS], slopes: f32x4, step: usize, q: usize, j: usize) -> f32x4
    requires { (q < length (kernel step)) × (j + 4 ≤ past_lanes) }
    ensures { result ≡ lanes_of (field_weight step fields.now slopes j q) }
{
    let at = neighbour(step, q).start + j;
    epf_vectors::weights(f32x4::from_slice(&fields[at..at + 4]), slopes)
}

// The samples of neighbour q of the four lanes whose corners start at index p, where rows lie `across` apart.
// Form: an index and a distance of rows, here, in `with_four` and in `mix`: neighbours lie in five rows, so no slice is what is read; a
// struct of both would be made for each sample.
#[tactic(auto, using(epf_distances::proofs::TapLaws::tap_room, crate::proofs::Room::tap_across, epf_vectors::proofs::Rows::loaded))]
fn sample_of(src: &[f32], across: usize, step: usize, q: usize, p: usize) -> f32x4
    requires { (q < length (kernel step)) × (p + 5 * across + 10 ≤ length src.now) }
    ensures { result ≡ sample_at step src.now across p q }
{
    let tap = neighbour(step, q);
    let at = p + (tap.row * across + tap.col);
    f32x4::from_slice(&src[at..at + 4])
}

// The weights of neighbours q to q + 3.
#[tactic(auto, using(epf_distances::proofs::TapLaws::kernel_size))]
fn four(fields: &[f32; FIELDS], slopes: f32x4, step: usize, q: usize, j: usize) -> Four
    requires { (q + 3 < length (kernel step)) × (j + 4 ≤ past_lanes) }
    ensures { result ≡ four_of (field_weight step fields.now slopes j) q }
{
    let a = weight_of(fields, slopes, step, q, j);
    let b = weight_of(fields, slopes, step, q + 1, j);
    let c = weight_of(fields, slopes, step, q + 2, j);
    let d = weight_of(fields, slopes, step, q + 3, j);
    Four { a, b, c, d }
}

fn summed(x: f32x4, w: Four) -> f32x4
    ensures { result ≡ x ⊞ w.a ⊞ w.b ⊞ w.c ⊞ w.d }
{
    x + w.a + w.b + w.c + w.d
}

// Sums plus the weighted samples of neighbours q to q + 3.
// Form: as `sample_of`.
#[tactic(auto, using(epf_distances::proofs::TapLaws::kernel_size))]
fn with_four(
    x: f32x4,
    w: Four,
    src: &[f32],
    across: usize,
    step: usize,
    q: usize,
    p: usize,
) -> f32x4
    requires { (q + 3 < length (kernel step)) × (p + 5 * across + 10 ≤ length src.now) }
    ensures { result ≡ with_four x w (sample_at step src.now across p) q }
{
    let a = sample_of(src, across, step, q, p);
    let b = sample_of(src, across, step, q + 1, p);
    let c = sample_of(src, across, step, q + 2, p);
    let d = sample_of(src, across, step, q + 3, p);
    x + w.a * a + w.b * b + w.c * c + w.d * d
}

// The weights of lanes i to i + 3 of row r in step STEP, and the divisors; the contract bounds each (Specification 11.9).
// Form: a row and a lane are two numbers of a loop in `rows.rt`.
#[tactic(auto, using(crate::proofs::Lanes::kernel_lengths))]
pub(crate) fn weights<const STEP: usize>(
    fields: &[f32; FIELDS],
    slopes: f32x4,
    r: usize,
    i: usize,
) -> LaneWeights
    requires { (r < tile_rows) × (i + 4 ≤ lanes) }
    ensures { (result ≡ weights_of STEP (weights_in STEP fields.now slopes r i))
        × ((k : ℕ) → k < 4 → LaneBounded STEP fields.now (get_or slopes k nan) r (i + k)
        (get_or result.sum k nan)) }
{
    let j = r * STRIDE + i;
    let u = four(fields, slopes, STEP, 0, j);
    let cross = summed(f32x4::splat(1.0), u);
    if STEP != 0 {
        let zero = f32x4::splat(0.0);
        let none = Four {
            a: zero,
            b: zero,
            c: zero,
            d: zero,
        };
        return LaneWeights {
            u,
            v: none,
            w: none,
            sum: cross,
        };
    }
    let v = four(fields, slopes, STEP, 4, j);
    let w = four(fields, slopes, STEP, 8, j);
    let sum = summed(summed(cross, v), w);
    LaneWeights { u, v, w, sum }
}

// The four samples whose corners start at index p plus their weighted neighbours, over the divisors.
// Form: as `sample_of`.
#[tactic(auto, using(crate::proofs::Lanes::kernel_lengths, epf_vectors::proofs::Rows::loaded))]
pub(crate) fn mix<const STEP: usize>(src: &[f32], across: usize, p: usize, w: LaneWeights) -> f32x4
    requires { p + 5 * across + 10 ≤ length src.now }
    ensures { result ≡ mix_of STEP src.now across p w }
{
    let at = p + (MARGIN_ROWS * across + MARGIN_COLUMNS);
    let here = f32x4::from_slice(&src[at..at + 4]);
    let x = with_four(here, w.u, src, across, STEP, 0, p);
    if STEP != 0 {
        return x / w.sum;
    }
    let y = with_four(x, w.v, src, across, STEP, 4, p);
    with_four(y, w.w, src, across, STEP, 8, p) / w.sum
}
