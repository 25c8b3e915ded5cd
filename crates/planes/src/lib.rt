// Planes stored one after another, row by row without gaps: the layout of a filter region in them, and tests that sets
// and rows fit it.
#![tactic(auto)]

ghost use Rattle.std.specs.Prelude.{◌≡◌, ℕ, ◌+◌, ◌≤◌, leb, length, get_or};
ghost use Rattle.std.specs.Float.{nan};
ghost use Rattle.planes.specs.Copy.{copied_run};
ghost use Rattle.planes.specs.Fill.{fill};
ghost use Rattle.planes.specs.Band.{layout_fits, planes_fit, set_fits, rows_fit, filter_row};

use limits::MAX_SIDE;

// The number of planes of a grey picture.
pub const GREY_PLANES: usize = 1;

// The largest number of planes of a set: one for each channel.
pub const PLANES: usize = 3;

// The sides of a region, in samples.
// Form: `Grid` has sides too, but in cells of a group; `EdgeRow`, `Tap` and `RowSpan` have two `usize` too, but no sides.
#[derive(Clone, Copy, Debug, PartialEq, Eq)]
pub struct Size {
    pub width: usize,
    pub height: usize,
}

// The position of a filter region in an image region: `left` and `top` count from the image region's corner.
// `full`: the result region is the image region (`preserve_outside` is 1), otherwise the filter region.
// Form: `full` is a `bool`: with either result region all other fields are needed, so an enum would be two bare names.
#[derive(Clone, Copy, Debug, PartialEq, Eq)]
pub struct Layout {
    pub image: Size,
    pub left: usize,
    pub top: usize,
    pub width: usize,
    pub height: usize,
    pub full: bool,
}

// Whether n samples from index `at` end at `end` or before.
// Form: `end` is the length of a slice or a side of the image.
fn inside(at: usize, n: usize, end: usize) -> bool
    ensures { result ≡ leb (at + n) end }
{
    n <= end && at <= end - n
}

// Whether the image region's sides are at most 16,384 and the filter region is inside it.
pub fn layout_fits(l: Layout) -> bool
    ensures { result ≡ layout_fits l }
{
    l.image.width <= MAX_SIDE
        && l.image.height <= MAX_SIDE
        && inside(l.left, l.width, l.image.width)
        && inside(l.top, l.height, l.image.height)
}

// Whether a picture may have n planes: one, if it is grey, or three.
pub fn planes_fit(n: u32) -> bool
    ensures { result ≡ planes_fit n }
{
    n as usize == GREY_PLANES || n as usize == PLANES
}

// Whether a slice of this length is a set of n planes.
// Form: the length in place of the slice, since `Rect::fits` of `epf_rects`, which calls this, has no slice.
pub fn set_fits(l: Layout, n: usize, len: usize) -> bool
    ensures { result ≡ set_fits l n len }
{
    layout_fits(l) && n <= PLANES && len == n * l.image.height * l.image.width
}

// Whether these are rows of the result region.
pub fn rows_fit(l: Layout, from: usize, to: usize) -> bool
    ensures { result ≡ rows_fit l from to }
{
    let rows = if l.full { l.image.height } else { l.height };
    from <= to && to <= rows
}

// The row of the filter region at a row of the result region.
pub fn filter_row(l: Layout, y: usize) -> usize
    ensures { result ≡ filter_row l y }
{
    if l.full {
        y.saturating_sub(l.top).min(l.height)
    } else {
        y
    }
}

// Copies n samples from index `from` of `src` to index `at` of `dst`.
// Form: a loop in place of `copy_from_slice`: the compiler makes `memcpy` of it, and of the method a call of `memmove`, a name that
// the archive does not need from outside otherwise.
fn copy_samples(dst: &mut [f32], at: usize, src: &[f32], from: usize, n: usize)
    requires { (at + n ≤ length dst.old) × (from + n ≤ length src.now) }
    ensures { dst.new ≡ fill dst.old at n
        (λ (i : ℕ). get_or src.now (from + i) nan) }
{
    for i in 0..n {
        dst[at + i] = src[from + i];
    }
}

// The same. Does nothing if either slice is too short.
// Form: indices and a count in place of two parts of slices: a part that is not in its slice is skipped here, once for all
// callers, while a caller that cuts the parts would need a `requires` or a test.
#[tactic(auto, using(crate::proofs::Copy::no_room, crate::proofs::Copy::no_source))]
pub fn copy_run(dst: &mut [f32], at: usize, src: &[f32], from: usize, n: usize)
    ensures { dst.new ≡ copied_run dst.old at src.now from n }
{
    if inside(at, n, dst.len()) && inside(from, n, src.len()) {
        copy_samples(dst, at, src, from, n);
    }
}
