// Copies of the samples outside the filter region, which every pass writes besides its filtered samples.
#![tactic(auto)]

ghost use Rattle.std.specs.Prelude.{◌≡◌, ◌&&◌, ◌+◌, ◌*◌, ◌≤◌, eqb, length};
ghost use Rattle.planes.specs.Fill.{fill};
ghost use Rattle.planes.specs.Rect.{rows_fill, planes_fill};
ghost use Rattle.planes.specs.Fits.{LayoutFits};
ghost use Rattle.planes.specs.Outside.{row_outside, rows_outside, planes_outside_of};
ghost use Rattle.planes.specs.Band.{copied_outside};

use planes::{Layout, copy_run, rows_fit, set_fits};

// Copies the samples of row y of the image, which starts at index o, that lie outside the filter region.
// Form: whole planes and an index, as the definitions in the contract say what each index of a set holds.
fn copy_row_outside(src: &[f32], dst: &mut [f32], l: Layout, y: usize, o: usize)
    requires { (o + l.image.width ≤ length src.now) × (o + l.image.width ≤ length dst.old)
        × (l.left + l.width ≤ l.image.width) }
    ensures { dst.new ≡ fill dst.old o l.image.width
        (row_outside l y o src.now dst.old) }
{
    let width = l.image.width;
    if y < l.top {
        copy_run(dst, o, src, o, width);
        return;
    }
    if l.height <= y - l.top {
        copy_run(dst, o, src, o, width);
        return;
    }
    let right = l.left + l.width;
    copy_run(dst, o, src, o, l.left);
    copy_run(dst, o + right, src, o + right, width - right);
}

// The same for n rows of one plane from row `from`, which starts at index `at`.
// Form: whole planes and an index, for the same reason.
fn copy_rows_outside(src: &[f32], dst: &mut [f32], l: Layout, from: usize, n: usize, at: usize)
    requires { (at + n * l.image.width ≤ length src.now) × (at + n * l.image.width ≤ length dst.old)
        × (l.left + l.width ≤ l.image.width) × (from + n ≤ l.image.height) }
    ensures { dst.new ≡ rows_fill dst.old at l.image.width l.image.width n
        (rows_outside l from at l.image.width src.now dst.old) }
{
    for i in 0..n {
        copy_row_outside(src, dst, l, from + i, at + i * l.image.width);
    }
}

// The same for these rows in the first n planes.
// Form: `src`, `dst` and `n` are what `copy_outside` was given, and it alone calls this: a struct of them or a type of
// layouts that fit would be made for one call.
fn copy_planes_outside(src: &[f32], dst: &mut [f32], l: Layout, n: usize, from: usize, rows: usize)
    requires layout_fits { LayoutFits l }
    requires n_bound { (n ≤ 3) × (length src.now ≡ n * l.image.height * l.image.width)
        × (length dst.old ≡ n * l.image.height * l.image.width) × (from + rows ≤ l.image.height) }
    ensures { dst.new ≡ planes_fill l.image.width l.image.height 0 l.image.width from rows
        (planes_outside_of l l.image.width l.image.height from src.now dst.old)
        dst.old n }
{
    for c in 0..n {
        let at = (c * l.image.height + from) * l.image.width;
        copy_rows_outside(src, dst, l, from, rows, at);
    }
}

// Whether the filter region is the whole image region.
// Form: a `Layout` has no `Size` of the filter region to compare with that of the image.
fn fills_image(l: Layout) -> bool
    ensures { result ≡ (eqb l.width l.image.width && eqb l.height l.image.height) }
{
    l.width == l.image.width && l.height == l.image.height
}

// Copies the samples outside the filter region in rows `from` up to, not including, `to` of the result region. Does
// nothing if sets, layout or rows do not fit.
// Form: `src` is read and `dst` is written, so no struct holds both, and n is the number of planes of each.
#[tactic(auto, using(planes::proofs::Stored::no_source, planes::proofs::Stored::no_target, planes::proofs::Stored::no_rows))]
pub fn copy_outside(src: &[f32], dst: &mut [f32], l: Layout, n: usize, from: usize, to: usize)
    ensures { dst.new ≡ copied_outside l n from to src.now dst.old }
{
    if !set_fits(l, n, src.len()) {
        return;
    }
    if !set_fits(l, n, dst.len()) {
        return;
    }
    if !rows_fit(l, from, to) {
        return;
    }
    if !l.full {
        return;
    }
    if fills_image(l) {
        return;
    }
    copy_planes_outside(src, dst, l, n, from, to - from)
}
