// Sample sides, group dimension and shift and LF groups of a frame, and the group and inner cell of a block
// (Specification 7.1, 7.2).
#![tactic(auto)]

ghost use Rattle.std.specs.Prelude.{◌≡◌, false, ◌<◌, ◌≤◌, IfOk};
ghost use Rattle.refusals.specs.Checks.{first_of};
ghost use Rattle.refusals.specs.Refusals.{number_of, IsOutcome};
ghost use Rattle.frame.specs.Sizes.{sample_side, groups_along, sizes_of, split_of};
ghost use Rattle.frame.specs.Outcome.{bad_side, bad_sides, bad_upsampling, bad_settings};
ghost use Rattle.frame.specs.Outcome.{frame_checks, split_checks, frame_answer, split_answer};
ghost use Rattle.frame.specs.Sound.{Sound};

pub mod group_shift;

use group_shift::{GroupShift, MAX_GROUP_SIZE_SHIFT};
use limits::{BLOCK_U32, MAX_SIDE_U32};
use refusals::Refusal;

const MAX_LF_LEVEL: u32 = 4;

// The fields of a frame header that determine its sizes.
#[repr(C)]
#[derive(Clone, Copy)]
pub struct Frame {
    pub width: u32,
    pub height: u32,
    pub upsampling: u32,
    pub lf_level: u32,
    pub group_size_shift: u32,
}

// Sample sides, and the LF groups that they are divided into.
#[repr(C)]
#[derive(Clone, Copy, Default)]
pub struct GroupSizes {
    pub sample_width: u32,
    pub sample_height: u32,
    pub group_dim: u32,
    pub group_shift: u32,
    pub groups_per_row: u32,
    pub groups_per_column: u32,
    pub num_groups: u32,
}

// The sizes of a frame.
// Form: C's answer, a number with zeros beside a refusal.
#[repr(C)]
#[derive(Clone, Copy)]
pub struct FrameAnswer {
    pub number: u32,
    pub sizes: GroupSizes,
}

// The group of a column or row of blocks, and the cell in that group.
// Form: other structs have two numbers too, but by chance: none of them is a group and a cell in it.
#[derive(Clone, Copy)]
pub struct Split {
    pub group: u32,
    pub inner: u32,
}

// The group of a column or row of blocks, and the cell in it.
// Form: C's answer, a number with zeros beside a refusal. `BlockRow` of `sigma` has three numbers too, but by chance: it is a row of blocks.
#[repr(C)]
#[derive(Clone, Copy)]
pub struct SplitAnswer {
    pub number: u32,
    pub group: u32,
    pub inner: u32,
}

// A frame side in samples: ⌈⌈side / upsampling⌉ / 8^level⌉.
fn sample_side(side: u32, upsampling: u32, level: u32) -> u32
    requires { (side ≤ 16384) × (0 < upsampling) × (upsampling ≤ 8) × (level ≤ 4) }
    ensures { result ≡ sample_side side upsampling level }
{
    let div = 1u32 << (3 * level);
    side.div_ceil(upsampling).div_ceil(div)
}

// LF groups along a sample side.
fn groups_along(side: u32, shift: GroupShift) -> u32
    requires { side ≤ 16384 }
    ensures groups { result ≡ groups_along side shift.value }
    ensures range { result ≤ 16 }
{
    side.div_ceil(BLOCK_U32 * shift.dim())
}

fn bad_side(side: u32) -> bool
    ensures { result ≡ bad_side side }
{
    side < 1 || MAX_SIDE_U32 < side
}

fn bad_upsampling(upsampling: u32) -> bool
    ensures { result ≡ bad_upsampling upsampling }
{
    !matches!(upsampling, 1 | 2 | 4 | 8)
}

// Whether a side of a frame is out of range.
#[tactic(auto, unfolding(crate::specs::Outcome::bad_sides))]
pub fn bad_sides(f: Frame) -> bool
    ensures { result ≡ bad_sides f }
{
    bad_side(f.width) || bad_side(f.height)
}

#[tactic(auto, unfolding(crate::specs::Outcome::bad_settings))]
fn bad_settings(f: Frame) -> bool
    ensures { result ≡ bad_settings f }
{
    bad_upsampling(f.upsampling)
        || MAX_LF_LEVEL < f.lf_level
        || MAX_GROUP_SIZE_SHIFT < f.group_size_shift
}

// Refuses a frame with a number out of range.
fn check(f: Frame) -> Result<(), Refusal>
    ensures { number_of result ≡ first_of (frame_checks f) }
{
    if bad_sides(f) {
        return Err(Refusal::OutOfLimits);
    }
    if bad_settings(f) {
        return Err(Refusal::OutOfRange);
    }
    Ok(())
}

// A frame whose numbers are in range.
#[derive(Clone, Copy)]
pub struct SoundFrame {
    pub frame: Frame,
    pub ghost sides: { bad_sides frame ≡ false },
    pub ghost settings: { bad_settings frame ≡ false },
    pub ghost sound: { Sound frame },
}

impl SoundFrame {
    // The frame, or refusal 4 or 9.
    pub fn new(frame: Frame) -> Result<SoundFrame, Refusal>
        ensures { (number_of result ≡ first_of (frame_checks frame)) × IfOk result (λ f. f.frame ≡ frame) }
    {
        check(frame)?;
        Ok(SoundFrame { frame })
    }

    pub fn shift(self) -> GroupShift
        ensures { result.value ≡ self.frame.group_size_shift }
    {
        GroupShift {
            value: self.frame.group_size_shift,
        }
    }

    pub fn sizes(self) -> GroupSizes
        ensures { result ≡ sizes_of self.frame }
    {
        let f = self.frame;
        let shift = self.shift();
        let sample_width = sample_side(f.width, f.upsampling, f.lf_level);
        let sample_height = sample_side(f.height, f.upsampling, f.lf_level);
        let dim = shift.dim();
        let groups_per_row = groups_along(sample_width, shift);
        let groups_per_column = groups_along(sample_height, shift);
        GroupSizes {
            sample_width,
            sample_height,
            group_dim: dim,
            group_shift: u32::trailing_zeros(dim),
            groups_per_row,
            groups_per_column,
            num_groups: groups_per_row * groups_per_column,
        }
    }
}

// The sizes of a frame, or refusal 4 or 9.
pub fn group_sizes(f: Frame) -> Result<GroupSizes, Refusal>
    ensures { IsOutcome result (first_of (frame_checks f)) (sizes_of f) }
{
    Ok(SoundFrame::new(f)?.sizes())
}

// The group of a column or row of blocks and its cell in that group, or refusal 9.
pub fn split_block(block: u32, group_size_shift: u32) -> Result<Split, Refusal>
    ensures { IsOutcome result (first_of (split_checks group_size_shift)) (split_of block group_size_shift) }
{
    let shift = GroupShift::new(group_size_shift).ok_or(Refusal::OutOfRange)?;
    Ok(shift.split(block))
}

// The answers of C stand here and not in crate `export_frame`: crate `instances` speaks of them, and a crate depends on libraries alone.
// Form: C's answers, a number with zeros beside a refusal; Rust callers get the `Result`, and a refused answer is made here alone.
impl From<Result<GroupSizes, Refusal>> for FrameAnswer {
    ghost from_gives = { λ r a. a ≡ frame_answer r };

    fn from(answer: Result<GroupSizes, Refusal>) -> FrameAnswer {
        match answer {
            Ok(sizes) => FrameAnswer {
                number: refusals::ACCEPTED,
                sizes,
            },
            Err(refusal) => FrameAnswer {
                number: u32::from(refusal),
                sizes: GroupSizes::default(),
            },
        }
    }
}

// The answer of `split_block`.
// Form: C's answer, as that of `group_sizes` above; its two zeros are written out, as nothing else asks for zeros in a `Split`.
impl From<Result<Split, Refusal>> for SplitAnswer {
    ghost from_gives = { λ r a. a ≡ split_answer r };

    fn from(answer: Result<Split, Refusal>) -> SplitAnswer {
        match answer {
            Ok(split) => SplitAnswer {
                number: refusals::ACCEPTED,
                group: split.group,
                inner: split.inner,
            },
            Err(refusal) => SplitAnswer {
                number: u32::from(refusal),
                group: 0,
                inner: 0,
            },
        }
    }
}
