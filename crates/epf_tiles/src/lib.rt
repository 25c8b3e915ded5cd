// A step of the edge-preserving filter. Copied blocks are copied, the others are filtered in tiles, each of whole blocks of
// one row of blocks.
#![tactic(auto)]

pub mod strips;
mod tile;
mod views;

use epf_sizes::{DIFFERENCES, FIELDS, WINDOWS};
use epf_slopes::SLOPES;
use planes::Layout;

// The settings of a step: one scale per channel, the step's multiplier as `scale`, the border multiplier as `edge`,
// and the copying limit.
// Form: `epf::EpfStep`, C's struct, has the same settings with a step of 32 bits, and no limit. The limit is a field here, since
// the definition of a step takes any; `epf` sets it to 0.3 for each call.
#[derive(Clone, Copy)]
pub struct Step {
    pub step: usize,
    pub scales: [f32; 3],
    pub scale: f32,
    pub edge: f32,
    pub limit: f32,
}

// The arrays that a tile is computed in: its windows, its fields of distances, the differences that a field sums, and
// the slopes of its columns.
#[derive(Drop)]
pub(crate) struct Arrays {
    win: [f32; WINDOWS],
    fields: [f32; FIELDS],
    differences: [f32; DIFFERENCES],
    slopes: [f32; SLOPES],
}

// What the tiles of a pass share: the layout and the number of planes of its sets, the step's settings, and the y of
// the filter region's row 0.
#[derive(Clone, Copy)]
pub(crate) struct Pass {
    layout: Layout,
    planes: usize,
    settings: Step,
    top: usize,
}
