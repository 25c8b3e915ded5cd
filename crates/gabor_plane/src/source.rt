// A region of a slice that is filtered, and its rows.
ghost use Rattle.std.specs.Prelude.{◌≡◌, true, ◌+◌, ◌*◌, ◌<◌, ◌≤◌, length};
ghost use Rattle.planes.specs.Fill.{fill};
ghost use Rattle.planes.specs.Rect.{rows_fill};
ghost use Rattle.gabor_plane.specs.Rows.{region_sample, RegionFits};
ghost use Rattle.gabor_plane.specs.Plane.{region_rows};

use crate::PlaneRegion;
use crate::pairs::filter_pair;
use crate::reads::{EdgeRow, InnerRow, SingleRow};
use crate::rows::filter_row;
use gabor_kernel::Kernel;

// The samples, the region of them that is filtered, and the kernel. The result is written to the same indices of another
// slice of the same length.
// The methods take the index o where row y starts: where they computed it from y, the loops along a row of 7 columns
// took 1.6 times as long.
#[derive(Clone, Copy)]
pub(crate) struct Source<'a> {
    pub samples: &'a [f32],
    pub region: PlaneRegion,
    pub kernel: Kernel,
    ghost fits: { RegionFits region (length samples.now) },
}

// Form: `o` and its premise stand in three contracts, as a struct of y and o would need the region in its ghost field. `dst`
// is a parameter, since a struct that holds it as `&mut` is not `Copy` and would have each contract say what else stays.
impl Source<'_> {
    // Filters row y.
    fn filter_row(&self, dst: &mut [f32], y: usize, o: usize)
        requires { (y < self.now.region.height) × (o ≡ self.now.region.at + y * self.now.region.stride)
            × (length dst.old ≡ length self.now.samples.now) }
        ensures { dst.new ≡ fill dst.old o self.now.region.width
            (region_sample self.now.samples.now self.now.region self.now.kernel y) }
    {
        let w = self.region.width;
        let stride = self.region.stride;
        if self.region.height == 1 {
            filter_row(self.samples, dst, SingleRow { here: o }, o, w, self.kernel);
            return;
        }
        if y == 0 {
            let row = EdgeRow {
                here: o,
                adjacent: o + stride,
            };
            filter_row(self.samples, dst, row, o, w, self.kernel);
            return;
        }
        if y + 1 == self.region.height {
            let row = EdgeRow {
                here: o,
                adjacent: o - stride,
            };
            filter_row(self.samples, dst, row, o, w, self.kernel);
            return;
        }
        let row = InnerRow {
            above: o - stride,
            here: o,
            below: o + stride,
        };
        filter_row(self.samples, dst, row, o, w, self.kernel);
    }

    // Filters rows y and y + 1.
    fn filter_pair(&self, dst: &mut [f32], y: usize, o: usize)
        requires y_inner { (0 < y) × (y + 2 < self.now.region.height) × (2 ≤ self.now.region.width) }
        requires o_value { (o ≡ self.now.region.at + y * self.now.region.stride) × (length dst.old ≡ length self.now.samples.now) }
        ensures { dst.new ≡ fill (fill dst.old o self.now.region.width
            (region_sample self.now.samples.now self.now.region self.now.kernel y))
            (o + self.now.region.stride) self.now.region.width
            (region_sample self.now.samples.now self.now.region self.now.kernel (y + 1)) }
    {
        let stride = self.region.stride;
        let p = o + stride;
        let upper = InnerRow {
            above: o - stride,
            here: o,
            below: p,
        };
        let lower = InnerRow {
            above: o,
            here: p,
            below: p + stride,
        };
        filter_pair(
            self.samples,
            dst,
            upper,
            lower,
            o,
            p,
            self.region.width,
            self.kernel,
        );
    }

    // Whether rows y and y + 1 are inner rows of two columns or more, and both among the next n rows.
    fn has_pair(&self, y: usize, n: usize) -> bool
        requires { y < self.now.region.height }
        ensures { result ≡ true → (2 ≤ n) × (0 < y) × (y + 2 < self.now.region.height) × (2 ≤ self.now.region.width) }
    {
        2 <= n && 0 < y && 2 < self.region.height - y && 2 <= self.region.width
    }

    // Filters the first of the next n rows, row y, and row y + 1 with it if these are a pair. Returns the number of rows
    // that are done.
    #[tactic(auto, using(crate::proofs::PairLaws::region_one, crate::proofs::PairLaws::region_two))]
    fn filter_next(&self, dst: &mut [f32], y: usize, n: usize, o: usize) -> usize
        requires { (0 < n) × (y + n ≤ self.now.region.height) × (o ≡ self.now.region.at + y * self.now.region.stride)
            × (length dst.old ≡ length self.now.samples.now) }
        ensures result_nonzero { (0 < result) × (result ≤ n) }
        ensures dst_after { dst.new ≡ rows_fill dst.old o self.now.region.stride
            self.now.region.width result (region_rows self.now.samples.now self.now.region self.now.kernel y) }
    {
        if !self.has_pair(y, n) {
            self.filter_row(dst, y, o);
            return 1;
        }
        self.filter_pair(dst, y, o);
        2
    }

    // Filters n rows from row `from`.
    pub(crate) fn filter_rows(&self, dst: &mut [f32], from: usize, n: usize)
        requires { (length dst.old ≡ length self.now.samples.now) × (from + n ≤ self.now.region.height) }
        ensures { dst.new ≡ rows_fill dst.old (self.now.region.at + from * self.now.region.stride) self.now.region.stride
            self.now.region.width n (region_rows self.now.samples.now self.now.region self.now.kernel from) }
    {
        let mut i = 0;
        let mut o = self.region.at + from * self.region.stride;
        // Form: a call answers how many rows it did, one or two, so no range counts the iterations.
        while i < n {
            let m = self.filter_next(dst, from + i, n - i, o);
            o += m * self.region.stride;
            i += m;
        }
    }
}
