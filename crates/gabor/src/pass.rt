// The Gabor pass over the planes of a set, and over a band with the samples outside the filter region.
ghost use Rattle.std.specs.Prelude.{◌≡◌, ◌+◌, ◌*◌, ◌<◌, ◌≤◌, length, take};
ghost use Rattle.planes.specs.Rect.{planes_fill};
ghost use Rattle.planes.specs.Band.{inner, passed};
ghost use Rattle.planes.specs.Fits.{LayoutFits, BandFits};
ghost use Rattle.gabor_kernel.specs.Gabor.{gabor_pass};
ghost use Rattle.gabor.specs.Pass.{pass_rows};

use gabor_plane::{PlaneRegion, gabor_plane};
use planes::{Layout, filter_row};
use planes_outside::copy_outside;

// Filters `rows` rows of the filter region, from row `from`, in each of n planes.
// Form: the sets are two slices of a C caller, and `gabor_pass` tests the length of each; here a clause says that both are of one
// length. `LayoutFits` is a clause as in `epf::check_pass`.
fn gabor_planes(
    src: &[f32],
    dst: &mut [f32],
    l: Layout,
    n: usize,
    weights: [[f32; 2]; 3],
    from: usize,
    rows: usize,
)
    requires layout_fits { LayoutFits l }
    requires few_planes { n ≤ 3 }
    requires rows_within { (0 < l.width) × (0 < l.height) × (from + rows ≤ l.height) }
    requires lengths { (length src.now ≡ n * l.image.height * l.image.width) × (length dst.old ≡ length src.now) }
    ensures { dst.new ≡ planes_fill l.image.width l.image.height l.left l.width
        (l.top + from) rows (pass_rows (take n weights) l src.now from) dst.old n }
{
    for c in 0..n {
        let p = weights[c];
        let at = (c * l.image.height + l.top) * l.image.width + l.left;
        let r = PlaneRegion {
            at,
            stride: l.image.width,
            width: l.width,
            height: l.height,
        };
        gabor_plane(src, dst, r, from, rows, p[0], p[1]);
    }
}

// Rows `from` up to, not including, `to` of the result region.
// Form: the parameters are what `copy_outside` and then `gabor_planes` take; a struct of them would be made in `gabor_pass` and taken
// apart here.
#[tactic(auto, using(crate::proofs::PassLaws::band_passed))]
pub(crate) fn gabor_band(
    src: &[f32],
    dst: &mut [f32],
    l: Layout,
    n: usize,
    weights: [[f32; 2]; 3],
    from: usize,
    to: usize,
)
    requires band_fits { BandFits l n from to src.now dst.old }
    requires width_nonzero { (0 < l.width) × (0 < l.height) }
    ensures { dst.new ≡ passed n l from to
        (gabor_pass (take n weights) l.width l.height (inner l src.now)) src.now
        dst.old }
{
    copy_outside(src, dst, l, n, from, to);
    let first = filter_row(l, from);
    let last = filter_row(l, to);
    gabor_planes(src, dst, l, n, weights, first, last - first);
}
