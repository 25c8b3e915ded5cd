// The group size shift of a frame, and the groups that it determines (Specification 7.1, 7.2).
ghost use Rattle.std.specs.Prelude.{◌≡◌, ◌<◌, ◌≤◌, MatchOption};
ghost use Rattle.frame.specs.Sizes.{group_dim_of, split_of};

use crate::Split;

pub const MAX_GROUP_SIZE_SHIFT: u32 = 3;

// A group size shift in range.
#[derive(Clone, Copy)]
pub struct GroupShift {
    pub value: u32,
    pub ghost in_range: { value ≤ 3 },
}

impl GroupShift {
    // The shift, or `None` if it is over 3.
    pub fn new(value: u32) -> Option<GroupShift>
        ensures { MatchOption result (3 < value) (λ shift. shift.value ≡ value) }
    {
        if MAX_GROUP_SIZE_SHIFT < value {
            return None;
        }
        Some(GroupShift { value })
    }

    // The group dimension, in blocks.
    pub fn dim(self) -> u32
        ensures dim { result ≡ group_dim_of self.value }
        ensures range { (128 ≤ result) × (result ≤ 1024) }
    {
        128 << self.value
    }

    // The group of a column or row of blocks, and its cell in that group.
    pub fn split(self, block: u32) -> Split
        ensures { result ≡ split_of block self.value }
    {
        let dim = self.dim();
        Split {
            group: block >> u32::trailing_zeros(dim),
            inner: block & (dim - 1),
        }
    }
}
