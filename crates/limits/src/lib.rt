// Limits of Specification 4.1, and sizes that several crates use.
// Form: `MAX_SIDE` and `BLOCK` are `MAX_SIDE_U32` and `BLOCK_U32` as `usize`, and `MAX_SIDE_U64` and `MAX_AREA_U64` the limits as
// `u64`: sides of regions and frames are `u32`, sides and indices in planes `usize`, and a cast at each use would be no plainer.
#![tactic(auto)]

// The longest side of a region or a frame, in samples.
pub const MAX_SIDE_U32: u32 = 16_384;

pub const MAX_SIDE: usize = MAX_SIDE_U32 as usize;

pub const MAX_SIDE_U64: u64 = MAX_SIDE_U32 as u64;

// The largest area of a region, in samples.
pub const MAX_AREA_U32: u32 = 16_777_216;

pub const MAX_AREA_U64: u64 = MAX_AREA_U32 as u64;

// Rows and columns of a block.
pub const BLOCK_U32: u32 = 8;

pub const BLOCK: usize = BLOCK_U32 as usize;
