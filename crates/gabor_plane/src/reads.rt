// Rows of the Gabor-like filter, by the indices where they and the rows next to them start in a slice: only indices, no
// formulas.
#![tactic(auto, unfolding(crate::specs::Rows::inner_sample, gabor_kernel::specs::Gabor::gabor_by, gabor_kernel::specs::Gabor::alone, gabor_kernel::specs::Formula::evaluate, gabor_kernel::specs::Formula::formula, gabor_kernel::specs::Nine::nine, gabor_kernel::specs::Nine::pick))]

ghost use Rattle.std.specs.Prelude.{◌≡◌, ℕ, ◌+◌, ◌<◌, ◌≤◌, length};
ghost use Rattle.gabor_kernel.specs.Ends.{End, only, first, last, inner};
ghost use Rattle.gabor_kernel.specs.Gabor.{gabor_by};
ghost use Rattle.gabor_plane.specs.Rows.{three, taps, column, inner_sample, RowsHold};

use gabor_kernel::{Kernel, Row3, edge2, edge4, edge6, lone3, solo2, solo3, tap9};

// The samples at columns l, m and r of the row that starts at index o.
fn three_at(src: &[f32], o: usize, l: usize, m: usize, r: usize) -> Row3
    requires { (o + l < length src.now) × (o + m < length src.now) × (o + r < length src.now) }
    ensures { result ≡ three src.now o l m r }
{
    Row3 {
        left: src[o + l],
        centre: src[o + m],
        right: src[o + r],
    }
}

// A row with the rows above and below it, as they are after mirroring: where there is only one other row, it is both, and
// a single row is its own neighbour.
// Form: slice, kernel and column are parameters, and each method says how many columns it reads. A row with slice, kernel
// and width in it would need these three fields and a ghost field in each of the three kinds, for one premise a method.
pub(crate) trait Row: Copy {
    ghost above: { Self → ℕ };

    ghost here: { Self → ℕ };

    ghost below: { Self → ℕ };

    ghost stands: { End };

    // Column j + 1, which has neighbours on both sides.
    fn inner_column(self, src: &[f32], j: usize, k: Kernel) -> f32
        requires { RowsHold (above self) (here self) (below self) (j + 3) (length src.now) }
        ensures { result ≡ inner_sample src.now (above self) (here self) (below self) k stands j };

    // An end m of the row; l is its only neighbour.
    fn end_column(self, src: &[f32], l: usize, m: usize, k: Kernel) -> f32
        requires l_in_bounds { RowsHold (above self) (here self) (below self) (l + 1) (length src.now) }
        requires m_in_bounds { RowsHold (above self) (here self) (below self) (m + 1) (length src.now) }
        ensures as_first { result ≡ gabor_by k (taps src.now (above self) (here self) (below self) m m l) first stands }
        ensures as_last { result ≡ gabor_by k (taps src.now (above self) (here self) (below self) l m m) last stands };

    // The only column.
    fn only_column(self, src: &[f32], k: Kernel) -> f32
        requires { RowsHold (above self) (here self) (below self) 1 (length src.now) }
        ensures { result ≡ gabor_by k (column src.now (above self) (here self) (below self)) only stands };
}

// An inner row. An end of it is computed like an inner column whose missing neighbour is the end sample.
// Form: where three rows start; `View` of `epf_distances` has three numbers by chance.
#[derive(Clone, Copy)]
pub(crate) struct InnerRow {
    pub above: usize,
    pub here: usize,
    pub below: usize,
}

// Form: the parameters of `Row`.
impl Row for InnerRow {
    ghost above = { λ r. r.above };

    ghost here = { λ r. r.here };

    ghost below = { λ r. r.below };

    ghost stands = { inner };

    fn inner_column(self, src: &[f32], j: usize, k: Kernel) -> f32 {
        let above = three_at(src, self.above, j, j + 1, j + 2);
        let here = three_at(src, self.here, j, j + 1, j + 2);
        let below = three_at(src, self.below, j, j + 1, j + 2);
        tap9(above, here, below, k)
    }

    fn end_column(self, src: &[f32], l: usize, m: usize, k: Kernel) -> f32 {
        let above = three_at(src, self.above, l, m, m);
        let here = three_at(src, self.here, l, m, m);
        let below = three_at(src, self.below, l, m, m);
        tap9(above, here, below, k)
    }

    fn only_column(self, src: &[f32], k: Kernel) -> f32 {
        lone3(src[self.above], src[self.here], src[self.below], k)
    }
}

// The first or last of several rows, and the row next to it.
// Form: where two rows start; other structs of two numbers are like it by chance.
#[derive(Clone, Copy)]
pub(crate) struct EdgeRow {
    pub here: usize,
    pub adjacent: usize,
}

// Form: the parameters of `Row`.
impl Row for EdgeRow {
    ghost above = { λ r. r.adjacent };

    ghost here = { λ r. r.here };

    ghost below = { λ r. r.adjacent };

    ghost stands = { first };

    fn inner_column(self, src: &[f32], j: usize, k: Kernel) -> f32 {
        let adjacent = three_at(src, self.adjacent, j, j + 1, j + 2);
        let here = three_at(src, self.here, j, j + 1, j + 2);
        edge6(adjacent, here, k)
    }

    fn end_column(self, src: &[f32], l: usize, m: usize, k: Kernel) -> f32 {
        let a = self.adjacent;
        let c = self.here;
        edge4(src[a + l], src[a + m], src[c + l], src[c + m], k)
    }

    fn only_column(self, src: &[f32], k: Kernel) -> f32 {
        edge2(src[self.adjacent], src[self.here], k)
    }
}

// A single row. A single sample is copied.
#[derive(Clone, Copy)]
pub(crate) struct SingleRow {
    pub here: usize,
}

// Form: the parameters of `Row`.
impl Row for SingleRow {
    ghost above = { λ r. r.here };

    ghost here = { λ r. r.here };

    ghost below = { λ r. r.here };

    ghost stands = { only };

    fn inner_column(self, src: &[f32], j: usize, k: Kernel) -> f32 {
        solo3(three_at(src, self.here, j, j + 1, j + 2), k)
    }

    fn end_column(self, src: &[f32], l: usize, m: usize, k: Kernel) -> f32 {
        solo2(src[self.here + l], src[self.here + m], k)
    }

    fn only_column(self, src: &[f32], _k: Kernel) -> f32 {
        src[self.here]
    }
}
