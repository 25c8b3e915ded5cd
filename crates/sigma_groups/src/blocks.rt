// A filter region in blocks of 8 × 8 samples.
ghost use Rattle.std.specs.Prelude.{◌≡◌, false, cond, ◌||◌, ◌*◌, ◌≤◌, ltb, IfOk};
ghost use Rattle.refusals.specs.Numbers.{accepted, out_of_limits};
ghost use Rattle.refusals.specs.Refusals.{number_of};
ghost use Rattle.frame.specs.Sizes.{divided_up};
ghost use Rattle.sigma_groups.specs.BlocksFit.{BlocksFit};
ghost use Rattle.sigma_groups.specs.Measures.{bad_blocks, blocks_across, blocks_down};

use limits::{BLOCK_U32, MAX_AREA_U32, MAX_SIDE_U32};
use refusals::Refusal;

// The largest left or top in blocks: 1,048,576 samples.
const MAX_BLOCK: u32 = 131_072;

// A filter region whose left and top are multiples of 8. Left and top are in blocks, width and height in samples.
// Form: C's struct. Its left and top are numbers of blocks, those of `Region` signed samples; a `Run` of sigmas is part of a row.
#[repr(C)]
#[derive(Clone, Copy)]
pub struct Blocks {
    pub left: u32,
    pub top: u32,
    pub width: u32,
    pub height: u32,
}

// A filter region within the limits.
#[derive(Clone, Copy)]
pub struct SoundBlocks {
    pub blocks: Blocks,
    pub ghost within: { bad_blocks blocks ≡ false },
    pub ghost fits: { BlocksFit blocks },
}

impl SoundBlocks {
    // The filter region, or refusal 4.
    pub fn new(blocks: Blocks) -> Result<SoundBlocks, Refusal>
        ensures { (number_of result ≡ cond (bad_blocks blocks) out_of_limits accepted)
            × IfOk result (λ b. b.blocks ≡ blocks) }
    {
        if bad_blocks(blocks) {
            return Err(Refusal::OutOfLimits);
        }
        Ok(SoundBlocks { blocks })
    }

    // Blocks across the region.
    pub fn across(self) -> u32
        ensures across { result ≡ blocks_across self.blocks }
        ensures range { result ≤ 2048 }
    {
        blocks_along(self.blocks.width)
    }

    // Blocks down the region.
    pub fn down(self) -> u32
        ensures down { result ≡ blocks_down self.blocks }
        ensures range { result ≤ 2048 }
    {
        blocks_along(self.blocks.height)
    }
}

fn outside(side: u32, max: u32) -> bool
    ensures { result ≡ (ltb side 1 || ltb max side) }
{
    side < 1 || max < side
}

// Whether the filter region is outside the limits.
#[tactic(auto, unfolding(crate::specs::Measures::bad_blocks))]
fn bad_blocks(blocks: Blocks) -> bool
    ensures { result ≡ bad_blocks blocks }
{
    if outside(blocks.width, MAX_SIDE_U32) || outside(blocks.height, MAX_SIDE_U32) {
        return true;
    }
    MAX_AREA_U32 < blocks.width * blocks.height || MAX_BLOCK < blocks.left || MAX_BLOCK < blocks.top
}

// Blocks along a side of samples: ⌈side / 8⌉.
pub fn blocks_along(side: u32) -> u32
    ensures { result ≡ divided_up side 8 }
{
    side.div_ceil(BLOCK_U32)
}
