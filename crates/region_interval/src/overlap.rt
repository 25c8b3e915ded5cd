// Intersection and containment of intervals, and whether one is empty.
ghost use Rattle.std.specs.Prelude.{◌≡◌};
ghost use Rattle.region_interval.specs.Overlap.{vacant, covers, meet};

use crate::Span;

// The intersection: the positions that are in both.
pub fn meet(a: Span, b: Span) -> Span
    ensures { result ≡ meet a b }
{
    Span {
        start: a.start.max(b.start),
        end: a.end.min(b.end),
    }
}

// Whether the interval is empty.
pub fn vacant(s: Span) -> bool
    ensures { result ≡ vacant s }
{
    s.end <= s.start
}

// Whether each position of b is a position of a.
pub fn covers(a: Span, b: Span) -> bool
    ensures { result ≡ covers a b }
{
    a.start <= b.start && b.end <= a.end
}
