// Rows of the Gabor-like filter: loops that store the samples of the kernel functions.
// Each row is written at index o. w is its number of columns.
ghost use Rattle.std.specs.Prelude.{◌≡◌, ◌+◌, ◌<◌, ◌≤◌, length};
ghost use Rattle.planes.specs.Fill.{fill};
ghost use Rattle.gabor_plane.specs.Rows.{inner_sample, row_sample, RowsHold};

use crate::reads::Row;
use gabor_kernel::Kernel;

// n columns with neighbours on both sides.
// Form: `o` is an index of the whole slice, as in the contract: a subslice for each row would have to be shown to lie in it
// all the same, and its write to be a write of the whole.
fn inner_columns<R: Row>(src: &[f32], dst: &mut [f32], row: R, o: usize, n: usize, k: Kernel)
    requires { RowsHold (R.above row) (R.here row) (R.below row) (n + 2) (length src.now)
        × (o + n ≤ length dst.old) }
    ensures { dst.new ≡ fill dst.old o n
        (inner_sample src.now (R.above row) (R.here row) (R.below row) k R.stands) }
{
    for j in 0..n {
        dst[o + j] = row.inner_column(src, j, k);
    }
}

// A whole row.
// Form: `o` and `w` as in `inner_columns`, for the same reason.
#[tactic(auto, using(crate::proofs::RowLaws::row_one, crate::proofs::RowLaws::row_more))]
pub(crate) fn filter_row<R: Row>(
    src: &[f32],
    dst: &mut [f32],
    row: R,
    o: usize,
    w: usize,
    k: Kernel,
)
    requires { (0 < w) × RowsHold (R.above row) (R.here row) (R.below row) w (length src.now)
        × (o + w ≤ length dst.old) }
    ensures { dst.new ≡ fill dst.old o w
        (row_sample src.now (R.above row) (R.here row) (R.below row) w k R.stands) }
{
    if w == 1 {
        dst[o] = row.only_column(src, k);
        return;
    }
    dst[o] = row.end_column(src, 1, 0, k);
    inner_columns(src, dst, row, o + 1, w - 2, k);
    dst[o + (w - 1)] = row.end_column(src, w - 2, w - 1, k);
}
