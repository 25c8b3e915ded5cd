// The limits of one axis (Specification 4.1): an interval as a start and a length, if it is within them, and the
// distance of two positions.
#![tactic(auto)]

ghost use Rattle.std.specs.Prelude.{◌≡◌, nat_abs, ◌-ℤ◌};
ghost use Rattle.region_axis.specs.Measures.{corner_fits, span_fits, axis_of};

use limits::MAX_SIDE_U32;
use region_interval::{Axis, Span};

// Form: a mirror offset has limits of the same value (`mirror`), but in another row of Specification 4.1 and with another
// refusal.
const LOWEST_PLACE: i64 = -1_048_576;

const HIGHEST_PLACE: i64 = 1_048_576;

#[tactic(auto, unfolding(crate::specs::Measures::corner_fits))]
fn corner_fits(x: i64) -> bool
    ensures { result ≡ corner_fits x }
{
    LOWEST_PLACE <= x && x <= HIGHEST_PLACE
}

// Whether a span is within the limits.
#[tactic(auto, unfolding(crate::specs::Measures::span_fits, crate::specs::Measures::side_fits))]
pub fn span_fits(s: Span) -> bool
    ensures { result ≡ span_fits s }
{
    corner_fits(s.start) && s.extent() <= u64::from(MAX_SIDE_U32)
}

// Start and length of a span within the limits.
#[tactic(auto, unfolding(crate::specs::Measures::axis_of))]
pub fn check_span(s: Span) -> Option<Axis>
    ensures { result ≡ axis_of s }
{
    if !span_fits(s) {
        return None;
    }
    Some(Axis {
        start: s.start as i32,
        len: s.extent() as u32,
    })
}

// The distance |b - a|.
pub fn offset(a: i32, b: i32) -> u32
    ensures { result ≡ nat_abs (b -ℤ a) }
{
    b.abs_diff(a)
}
