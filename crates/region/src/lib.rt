// Regions and tests on them (region.rs of the original). Each method checks the given regions against the limits of
// Specification 4.1.
#![tactic(auto)]

ghost use Rattle.std.specs.Prelude.{◌≡◌, ◌*◌, ◌<◌, T};
ghost use Rattle.std.specs.Int.Signed.{mag};
ghost use Rattle.refusals.specs.Checks.{first_of};
ghost use Rattle.refusals.specs.Refusals.{number_of, IsOutcome};
ghost use Rattle.region.specs.Measures.{bounds_fit, picture_fits, rectangle_fits};
ghost use Rattle.region.specs.Regions.{columns, rows, is_empty, inside, contains};
ghost use Rattle.region.specs.Answers.{given_checks, pair_checks};

use limits::MAX_AREA_U32;
use refusals::Refusal;
use region_axis::span_fits;
use region_interval::{Axis, Span, overlap};

// A rectangle of samples: the column and row of its corner, and its sides. It is empty if a side is 0.
// Form: `Blocks` of `sigma_groups` has fields of these names, but counts blocks of a frame, from 0.
#[repr(C)]
#[derive(Clone, Copy, Debug, Default, PartialEq, Eq)]
pub struct Region {
    pub left: i32,
    pub top: i32,
    pub width: u32,
    pub height: u32,
}

// Form: `columns` and `rows`, `right` and `bottom` differ in the fields that they read; one function for two of them
// would be told the axis by a closure or an argument, and no caller has an axis at hand but by name.
impl Region {
    pub fn columns(self) -> Axis
        ensures { result ≡ record { start = self.left; len = self.width } }
    {
        Axis {
            start: self.left,
            len: self.width,
        }
    }

    pub fn rows(self) -> Axis
        ensures { result ≡ record { start = self.top; len = self.height } }
    {
        Axis {
            start: self.top,
            len: self.height,
        }
    }

    // Whether the region is within the limits of region arithmetic: sides may be 0, and the area has no limit.
    #[tactic(auto, using(crate::proofs::Laws::bounds_axes))]
    pub fn bounds_fit(self) -> bool
        ensures { result ≡ bounds_fit self }
    {
        span_fits(self.columns().span()) && span_fits(self.rows().span())
    }

    // Refusal 4 outside the limits of region arithmetic.
    pub fn check_bounds(self) -> Result<(), Refusal>
        ensures { number_of result ≡ first_of (given_checks self) }
    {
        if self.bounds_fit() {
            Ok(())
        } else {
            Err(Refusal::OutOfLimits)
        }
    }

    #[tactic(auto, using(crate::proofs::Areas::product))]
    fn area(self) -> u64
        ensures { result ≡ self.width * self.height }
    {
        u64::from(self.width) * u64::from(self.height)
    }

    // Whether the region is within the limits of an image or filter region.
    #[tactic(auto, unfolding(crate::specs::Measures::picture_fits))]
    pub fn picture_fits(self) -> bool
        ensures { result ≡ picture_fits self }
    {
        self.bounds_fit()
            && 1 <= self.width
            && 1 <= self.height
            && self.area() <= u64::from(MAX_AREA_U32)
    }

    // Whether the region is within the limits of a rectangle that a caller asks for: it may be empty.
    #[tactic(auto, unfolding(crate::specs::Measures::rectangle_fits))]
    pub fn rectangle_fits(self) -> bool
        ensures { result ≡ rectangle_fits self }
    {
        self.bounds_fit() && self.area() <= u64::from(MAX_AREA_U32)
    }

    fn has_no_sample(self) -> bool
        ensures { result ≡ is_empty self }
    {
        self.width == 0 || self.height == 0
    }

    // Whether a side is 0, or refusal 4.
    pub fn is_empty(self) -> Result<bool, Refusal>
        ensures { IsOutcome result (first_of (given_checks self)) (is_empty self) }
    {
        self.check_bounds()?;
        Ok(self.has_no_sample())
    }

    // The end of a span of the region, if the region is within the limits.
    fn edge(self, s: Span) -> Result<i32, Refusal>
        requires { T (bounds_fit self) → mag s.end < 0x8000_0000 }
        ensures { IsOutcome result (first_of (given_checks self)) s.end }
    {
        self.check_bounds()?;
        Ok(s.end as i32)
    }

    // left + width, or refusal 4.
    #[tactic(auto, using(crate::proofs::Laws::far_column))]
    pub fn right(self) -> Result<i32, Refusal>
        ensures { IsOutcome result (first_of (given_checks self)) (columns self).end }
    {
        self.edge(self.columns().span())
    }

    // top + height, or refusal 4.
    #[tactic(auto, using(crate::proofs::Laws::far_row))]
    pub fn bottom(self) -> Result<i32, Refusal>
        ensures { IsOutcome result (first_of (given_checks self)) (rows self).end }
    {
        self.edge(self.rows().span())
    }

    // Whether the target is inside the region, limits or not.
    #[tactic(auto, unfolding(crate::specs::Regions::inside))]
    pub fn surrounds(self, target: Region) -> bool
        ensures { result ≡ inside self target }
    {
        overlap::covers(self.columns().span(), target.columns().span())
            && overlap::covers(self.rows().span(), target.rows().span())
    }

    // Whether the target is empty or inside, or refusal 4.
    pub fn contains(self, target: Region) -> Result<bool, Refusal>
        ensures { IsOutcome result (first_of (pair_checks self target)) (contains self target) }
    {
        self.check_bounds()?;
        target.check_bounds()?;
        Ok(target.has_no_sample() || self.surrounds(target))
    }
}
