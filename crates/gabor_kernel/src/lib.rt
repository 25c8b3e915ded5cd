// One sample of the Gabor-like filter (Specification 10.4). The digit in a function's name is the number of samples
// that it reads: t is the row above, c the row itself, b the row below, and a the adjacent row where there is only one.
// Each is a formula of its own, with other sums and roundings, so none is another one at another size.
#![tactic(auto, unfolding(crate::specs::Gabor::gabor_by, crate::specs::Gabor::alone, crate::specs::Formula::evaluate, crate::specs::Formula::formula, crate::specs::Nine::nine, crate::specs::Nine::pick))]

ghost use Rattle.std.specs.Prelude.{◌≡◌, ℤ};
ghost use Rattle.std.specs.Float.{nan};
ghost use Rattle.gabor_kernel.specs.Ends.{only, first, last, inner};
ghost use Rattle.gabor_kernel.specs.Formula.{evaluate, solo_centre, solo_side};
ghost use Rattle.gabor_kernel.specs.Gabor.{kernel_of, gabor_by};
ghost use Rattle.gabor_kernel.specs.Nine.{same, ending, nine};

// The weight of the side neighbours, that of the diagonal ones, and the reciprocal of the sum of the kernel.
// Form: two weights and a reciprocal; `Row3` has three floats by chance.
#[derive(Clone, Copy, Debug, PartialEq)]
pub struct Kernel {
    pub w0: f32,
    pub w1: f32,
    pub g: f32,
}

// Three samples of a row, next to each other.
// Form: three samples; `Kernel` has three floats by chance.
#[derive(Clone, Copy, Debug, PartialEq)]
pub struct Row3 {
    pub left: f32,
    pub centre: f32,
    pub right: f32,
}

// The kernel with these weights.
pub fn kernel_of(w0: f32, w1: f32) -> Kernel
    ensures { result ≡ kernel_of w0 w1 }
{
    let g = 1.0 / (1.0 + w0 * 4.0 + w1 * 4.0);
    Kernel { w0, w1, g }
}

// A sample of an inner row. At an end of the row, `left` is the only neighbour and `right` the end sample itself.
pub fn tap9(t: Row3, c: Row3, b: Row3, k: Kernel) -> f32
    ensures { result ≡ gabor_by k (nine t c b) inner inner }
{
    let sum_side = t.centre + c.left + c.right + b.centre;
    let sum_diag = t.left + t.right + b.left + b.right;
    let unweighted_sum = c.centre + sum_side * k.w0 + sum_diag * k.w1;
    unweighted_sum * k.g
}

// A sample of an inner row of a single column.
pub fn lone3(t: f32, c: f32, b: f32, k: Kernel) -> f32
    ensures { result ≡ gabor_by k (nine (same t) (same c) (same b)) only inner }
{
    let sum_side = t + 2.0 * c + b;
    let sum_diag = 2.0 * (t + b);
    let unweighted_sum = c + sum_side * k.w0 + sum_diag * k.w1;
    unweighted_sum * k.g
}

// A sample of the first or last of several rows.
// Form: the original sums six samples and multiplies each sum by its weight; `edge4` sums weights first, so the rounding
// differs and neither is the other at another size.
pub fn edge6(a: Row3, c: Row3, k: Kernel) -> f32
    ensures { result ≡ gabor_by k (nine a c a) inner first }
{
    let sum_side = a.centre + c.left + c.centre + c.right;
    let sum_diag = a.left + a.right + c.left + c.right;
    (c.centre + sum_side * k.w0 + sum_diag * k.w1) * k.g
}

// An end of the first or last row: 1 is the end sample, 0 its only neighbour.
// Form: three merged weights, where `edge2` has two with other factors: the original's formula for this case alone.
pub fn edge4(a0: f32, a1: f32, c0: f32, c1: f32, k: Kernel) -> f32
    ensures { result ≡ gabor_by k (nine (ending a0 a1) (ending c0 c1) (ending a0 a1)) last first }
{
    (c1 * (1.0 + 2.0 * k.w0 + k.w1) + (a1 + c0) * (k.w0 + k.w1) + a0 * k.w1) * k.g
}

// The first or last sample of a single column.
// Form: the weights 1 + 3 w0 + 2 w1 and w0 + 2 w1 are in no other case: the original's formula for this one alone.
pub fn edge2(a: f32, c: f32, k: Kernel) -> f32
    ensures { result ≡ gabor_by k (nine (same a) (same c) (same a)) only first }
{
    (c * (1.0 + 3.0 * k.w0 + 2.0 * k.w1) + a * (k.w0 + 2.0 * k.w1)) * k.g
}

// A single row: the weight of the centre, and of each neighbour.
fn solo_centre(k: Kernel) -> f32
    ensures { result ≡ evaluate k.w0 k.w1 (λ (dx dy : ℤ). nan) solo_centre }
{
    1.0 + 2.0 * k.w0
}

fn solo_side(k: Kernel) -> f32
    ensures { result ≡ evaluate k.w0 k.w1 (λ (dx dy : ℤ). nan) solo_side }
{
    k.w0 + 2.0 * k.w1
}

// A sample of a single row.
// Form: the centre has its own weight; in `solo2` both weights meet at the end sample, which rounds once more.
pub fn solo3(c: Row3, k: Kernel) -> f32
    ensures { result ≡ gabor_by k (nine c c c) inner only }
{
    let merged_w0 = solo_centre(k);
    let merged_w1 = solo_side(k);
    (c.centre * merged_w0 + (c.left + c.right) * merged_w1) * k.g
}

// An end sample of a single row. A single sample is copied; no function here does that.
// Form: the two weights that it shares with `solo3` are functions already; the sums over them differ.
pub fn solo2(c0: f32, c1: f32, k: Kernel) -> f32
    ensures { result ≡ gabor_by k (nine (ending c0 c1) (ending c0 c1) (ending c0 c1)) last only }
{
    let merged_w0 = solo_centre(k);
    let merged_w1 = solo_side(k);
    (c1 * (merged_w0 + merged_w1) + c0 * merged_w1) * k.g
}
