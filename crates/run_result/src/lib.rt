// The result of a finished run: the result region of the set that the next pass would read, copied plane by plane
// (Specification 12.11).
#![tactic(auto)]

ghost use Rattle.std.specs.Prelude.{◌≡◌, ◌+◌, ◌*◌, ◌≤◌, length};
ghost use Rattle.refusals.specs.Refusals.{number_of};
ghost use Rattle.planes.specs.Rect.{rows_fill, planes_fill};
ghost use Rattle.planes.specs.Fits.{LayoutFits};
ghost use Rattle.planes.specs.Band.{inner};
ghost use Rattle.run_setup.specs.Setup.{layout, set_length, result_length};
ghost use Rattle.run_setup.specs.SetupFits.{SetupFits};
ghost use Rattle.run_outcomes.specs.Result.{ResultOutcome, result_number, result_of, result_outcome};
ghost use Rattle.run_result.specs.Part.{part_of, rows_of};

use planes::{Layout, copy_run};
use planes_layout::layout_of;
use refusals::Refusal;
use run_outcomes::{check_sets, check_slice};
use run_record::Run;
use run_setup::Setup;

// Copies the filter region's rows of one plane. In `src` the image row of the first one starts at index `from`; in
// `out` they start at index `at`.
// Form: `rows_fill`, which says what is written, counts from the start of a set; a plane's part of a slice would need laws that join the parts.
fn copy_rows(src: &[f32], from: usize, out: &mut [f32], at: usize, l: Layout)
    requires { LayoutFits l × (from + l.height * l.image.width ≤ length src.now)
        × (at + l.height * l.width ≤ length out.old) }
    ensures { out.new
        ≡ rows_fill out.old at l.width l.width l.height (rows_of l from src.now) }
{
    for y in 0..l.height {
        let row = from + y * l.image.width + l.left;
        copy_run(out, at + y * l.width, src, row, l.width);
    }
}

// Copies the filter region of each of n planes.
// Form: that a layout fits is asked here, in `copy_rows` and in three functions of other crates; as a fact of each `Layout` it would be asked
// for the test `planes::layout_fits` too.
fn copy_planes(src: &[f32], out: &mut [f32], l: Layout, n: usize)
    requires layout_fits { LayoutFits l }
    requires few_planes { n ≤ 3 }
    requires lengths { (length src.now ≡ n * l.image.height * l.image.width)
        × (length out.old ≡ n * l.height * l.width) }
    ensures { out.new ≡ planes_fill l.width l.height
        0 l.width 0 l.height (inner l src.now) out.old n }
{
    for c in 0..n {
        let from = (c * l.image.height + l.top) * l.image.width;
        let at = c * l.height * l.width;
        copy_rows(src, from, out, at, l);
    }
}

// The layout with the result region in place of the filter region.
#[tactic(auto, unfolding(crate::specs::Part::part_of))]
fn part_of(l: Layout) -> Layout
    ensures { result ≡ part_of l }
{
    if !l.full {
        return l;
    }
    Layout {
        left: 0,
        top: 0,
        width: l.image.width,
        height: l.image.height,
        ..l
    }
}

fn copy_result(s: &Setup, src: &[f32], out: &mut [f32])
    requires { SetupFits s.now × (length src.now ≡ set_length s.now) × (length out.old ≡ result_length s.now) }
    ensures { out.new ≡ result_of s.now.planes (layout s.now) src.now }
{
    let l = layout_of(s.image, s.filter, s.full_planes()).unwrap();
    let part = part_of(l);
    copy_planes(src, out, part, s.planes as usize)
}

// Refuses a result call: for the sets, the slice, then the record.
// Form: here and in `result` record and sets are what C hands; a band takes them too, but with sigmas, so a struct would serve one of the two.
fn check(run: &Run, first: &[f32], second: &[f32], out: &[f32]) -> Result<(), Refusal>
    ensures { number_of result ≡ result_number run.now first.now second.now out.now }
{
    check_sets(&run.setup, first, second)?;
    check_slice(&run.setup, out)?;
    run.check_result()
}

// Copies the result of a finished run to `out`, from the set that the next pass would read. A refused call writes
// nothing.
// Form: record and sets apart, as in `check`.
pub fn result(run: &Run, first: &[f32], second: &[f32], out: &mut [f32]) -> Result<(), Refusal>
    ensures { ◌≡◌ {A = ResultOutcome} (record { number = number_of result; out = out.new })
        (result_outcome run.now first.now second.now out.old) }
{
    check(run, first, second, out)?;
    if run.reads_first() {
        copy_result(&run.setup, first, out);
        return Ok(());
    }
    copy_result(&run.setup, second, out);
    Ok(())
}
