// The Gabor-like filter on one plane: rows of a region of a slice.
#![tactic(auto)]

mod pairs;
mod reads;
mod rows;
mod source;

ghost use Rattle.std.specs.Prelude.{◌≡◌, length};
ghost use Rattle.gabor_plane.specs.Plane.{region_fits, plane_outcome};

use gabor_kernel::kernel_of;
use limits::MAX_SIDE;
use source::Source;

// A region of a plane: row y of it starts at index at + y * stride of a slice.
// Form: `at` is an index and no slice, since the same region is read in one slice and written in another. `Rect` of `epf_rects` has
// four numbers by chance.
#[derive(Clone, Copy, Debug, PartialEq, Eq)]
pub struct PlaneRegion {
    pub at: usize,
    pub stride: usize,
    pub width: usize,
    pub height: usize,
}

impl PlaneRegion {
    // Whether a region with sides of 1 to 16,384 and width <= stride <= 16,384 lies in a slice.
    fn fits(self, samples: &[f32]) -> bool
        ensures { result ≡ region_fits self (length samples.now) }
    {
        let sides = 0 < self.width
            && 0 < self.height
            && self.width <= self.stride
            && self.stride <= MAX_SIDE
            && self.height <= MAX_SIDE;
        if !sides {
            return false;
        }
        let span = (self.height - 1) * self.stride + self.width;
        span <= samples.len() && self.at <= samples.len() - span
    }
}

// Filters n rows of a region, from row `from`. The region lies at the same indices of both slices. Does nothing if the
// slices have different lengths, the region does not lie in them, or it has no such rows.
// Form: a slice that is read and one that is written; `n` counts rows here.
#[tactic(auto, using(crate::proofs::Plane::no_region, crate::proofs::Plane::no_length, crate::proofs::Plane::no_row, crate::proofs::Plane::plane_rows))]
pub fn gabor_plane(
    src: &[f32],
    dst: &mut [f32],
    r: PlaneRegion,
    from: usize,
    n: usize,
    w0: f32,
    w1: f32,
)
    ensures { dst.new ≡ plane_outcome r from n w0 w1 src.now dst.old }
{
    if !r.fits(src) || dst.len() != src.len() || r.height < n || r.height - n < from {
        return;
    }
    let source = Source {
        samples: src,
        region: r,
        kernel: kernel_of(w0, w1),
    };
    source.filter_rows(dst, from, n);
}
