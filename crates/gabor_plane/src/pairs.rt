// Two inner rows of the Gabor-like filter, one below the other, in one loop that loads the rows between them once.
// They are written at indices o and p. w is their number of columns.
ghost use Rattle.std.specs.Prelude.{◌≡◌, ◌+◌, ◌≤◌, length};
ghost use Rattle.planes.specs.Fill.{fill};
ghost use Rattle.gabor_kernel.specs.Ends.{inner};
ghost use Rattle.gabor_plane.specs.Rows.{inner_sample, row_sample, RowsHold};

use crate::reads::{InnerRow, Row};
use gabor_kernel::Kernel;

// n columns with neighbours on both sides.
// Form: indices o and p of one slice: two rows of it are written alternately, and as two `&mut` subslices they would have to
// be split between the rows first.
#[tactic(auto, using(crate::proofs::PairLaws::both_all))]
fn pair_columns(
    src: &[f32],
    dst: &mut [f32],
    upper: InnerRow,
    lower: InnerRow,
    o: usize,
    p: usize,
    n: usize,
    k: Kernel,
)
    requires upper_holds { RowsHold upper.above upper.here upper.below (n + 2) (length src.now) }
    requires lower_holds { RowsHold lower.above lower.here lower.below (n + 2) (length src.now) }
    requires apart { (o + n ≤ p) × (p + n ≤ length dst.old) }
    ensures { dst.new
        ≡ fill (fill dst.old o n (inner_sample src.now upper.above upper.here upper.below k inner))
        p n (inner_sample src.now lower.above lower.here lower.below k inner) }
{
    for j in 0..n {
        let x = upper.inner_column(src, j, k);
        let y = lower.inner_column(src, j, k);
        dst[o + j] = x;
        dst[p + j] = y;
    }
}

// Whole rows of two columns or more.
// Form: o, p and w as in `pair_columns`, for the same reason.
#[tactic(auto, using(crate::proofs::PairLaws::pair_more))]
pub(crate) fn filter_pair(
    src: &[f32],
    dst: &mut [f32],
    upper: InnerRow,
    lower: InnerRow,
    o: usize,
    p: usize,
    w: usize,
    k: Kernel,
)
    requires upper_holds { RowsHold upper.above upper.here upper.below w (length src.now) }
    requires lower_holds { RowsHold lower.above lower.here lower.below w (length src.now) }
    requires apart { (2 ≤ w) × (o + w ≤ p) × (p + w ≤ length dst.old) }
    ensures { dst.new
        ≡ fill (fill dst.old o w (row_sample src.now upper.above upper.here upper.below w k inner))
        p w (row_sample src.now lower.above lower.here lower.below w k inner) }
{
    dst[o] = upper.end_column(src, 1, 0, k);
    dst[p] = lower.end_column(src, 1, 0, k);
    pair_columns(src, dst, upper, lower, o + 1, p + 1, w - 2, k);
    dst[o + (w - 1)] = upper.end_column(src, w - 2, w - 1, k);
    dst[p + (w - 1)] = lower.end_column(src, w - 2, w - 1, k);
}
