// Which samples a field compares, and where a neighbour's samples and distances are.
ghost use Rattle.std.specs.Prelude.{◌≡◌, ◌<◌};
ghost use Rattle.epf_distances.specs.Taps.{pairs, half as half_of, pair_of};
ghost use Rattle.epf_distances.specs.Taps.{field_of, forward_of, backward_of, tap_of};

use crate::{Pair, Tap};
use epf_offsets::{Place, neighbour_place};
use epf_sizes::{FIELD_PLANE, MARGIN_COLUMNS, MARGIN_ROWS, STRIDE};

// The largest number of fields of a step, one per pair of opposite neighbours.
const PAIRS: usize = 6;

// The number of fields of a step.
// Form: a step is a number in the definitions and in what `distances` and `neighbour` promise, which is a result for every one; for
// an enum each contract would name its number.
pub(crate) fn half(step: usize) -> usize
    ensures { result ≡ half_of step }
{
    if step == 0 { PAIRS } else { 2 }
}

// The place of the neighbour after the centre whose distances field h has; an h past the last field is like that field.
// In step 0's list the places on both sides of the middle are opposite, in the other lists two that follow each other.
// Form: a step stays a number, as in `half`.
fn after_centre(step: usize, h: usize) -> Place
    ensures { (result.row ≡ (forward_of h (pair_of step h)).row) × (result.col ≡ (forward_of h (pair_of step h)).col) }
{
    if step == 0 {
        return neighbour_place(step, PAIRS + h.min(PAIRS - 1));
    }
    neighbour_place(step, 3 - 2 * h.min(1))
}

// The place of the opposite neighbour, before the centre.
// Form: as `after_centre`.
fn before_centre(step: usize, h: usize) -> Place
    ensures { (result.row ≡ (backward_of h (pair_of step h)).row) × (result.col ≡ (backward_of h (pair_of step h)).col) }
{
    if step == 0 {
        return neighbour_place(step, PAIRS - 1 - h.min(PAIRS - 1));
    }
    neighbour_place(step, 2 - 2 * h.min(1))
}

// The pair that field h compares: the sample itself and the neighbour after it, moved left by the columns that the
// neighbour lies to the right.
pub(crate) fn pair(step: usize, h: usize) -> Pair
    ensures { result ≡ pair_of step h }
{
    let place = after_centre(step, h);
    Pair {
        up: place.row - MARGIN_ROWS,
        first: 2 * MARGIN_COLUMNS - place.col.max(MARGIN_COLUMNS),
        second: place.col.min(MARGIN_COLUMNS),
    }
}

// The tap of the neighbour after the centre that field h's pair names.
// Form: beside `backward_tap`, since the two read the field from different indices: the centre's, and the neighbour's own.
fn forward_tap(step: usize, h: usize) -> Tap
    requires { h < pairs }
    ensures { result ≡ forward_of h (pair_of step h) }
{
    let Place { row, col } = after_centre(step, h);
    Tap {
        row,
        col,
        start: h * FIELD_PLANE + 2 * STRIDE + MARGIN_COLUMNS,
    }
}

// The tap of the opposite neighbour, before the centre: it reads the same field from an earlier index.
fn backward_tap(step: usize, h: usize) -> Tap
    requires { h < pairs }
    ensures { result ≡ backward_of h (pair_of step h) }
{
    let Place { row, col } = before_centre(step, h);
    Tap {
        row,
        col,
        start: h * FIELD_PLANE + (row - 1) * STRIDE + col,
    }
}

// The field that has the distances of neighbour q.
// Form: a step stays a number, as in `half`, and is asked here once.
fn field_of(step: usize, q: usize) -> usize
    ensures { result ≡ field_of step q }
{
    if step == 0 {
        if q < PAIRS {
            return PAIRS - 1 - q;
        }
        if q < 2 * PAIRS {
            return q - PAIRS;
        }
        return PAIRS - 1;
    }
    if q < 2 { 1 } else { 0 }
}

// The tap of neighbour q, in the order of the kernel offsets.
// Form: a step stays a number, as in `half`. Each order of neighbours has its own test for the side of the centre, and with
// literal arguments the compiler folds both.
#[tactic(auto, unfolding(crate::specs::Taps::tap_of))]
pub fn neighbour(step: usize, q: usize) -> Tap
    ensures { result ≡ tap_of step q }
{
    let h = field_of(step, q);
    if step == 0 {
        if q < PAIRS {
            return backward_tap(step, h);
        }
        return forward_tap(step, h);
    }
    if q % 2 == 1 {
        return forward_tap(step, h);
    }
    backward_tap(step, h)
}
