// Four lanes at a time: what the edge-preserving filter computes with comparisons. The compiler joins no loop with a comparison of floats
// to vector code, so vectors are written here; the contracts say what each lane is.
#![tactic(auto)]

ghost use Rattle.std.specs.Prelude.{◌≡◌};
ghost use Rattle.epf_vectors.specs.Lanes.{lanes_apart, lanes_weighed, LanesBounded};

use std::simd::prelude::*;

// The magnitudes of x - y, lane by lane, but for the sign of zeros: the part of x - y that is not below 0 less the part that
// is. A zero of the other sign in a distance gives the same weight (`rounding/proofs/Zeros.antt`).
pub fn differences(x: f32x4, y: f32x4) -> f32x4
    ensures { result ≡ lanes_apart x y }
{
    let d = x - y;
    let zero = f32x4::splat(0.0);
    let below = d.simd_lt(zero);
    below.select(zero, d) - below.select(d, zero)
}

// The weights of four neighbours or lanes, from their distances and slopes, as `epf_step::weight` has them. Each is from 0 to 1 if its
// distance is not negative and its slope not positive.
pub fn weights(distances: f32x4, slopes: f32x4) -> f32x4
    ensures weighed { result ≡ lanes_weighed distances slopes }
    ensures bounded { LanesBounded distances slopes result }
{
    let x = f32x4::splat(1.0) + distances * slopes;
    let zero = f32x4::splat(0.0);
    zero.simd_lt(x).select(x, zero)
}
