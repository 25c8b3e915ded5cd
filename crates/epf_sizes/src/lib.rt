// Sizes of a tile and of the arrays computed for it: windows and fields of distances. specs/Sizes.antt has the same
// numbers for contracts.

#![tactic(auto)]

// The largest number of columns of a tile, and of rows.
pub const LANES: usize = 64;

pub const TILE_ROWS: usize = 8;

// The distance from one row to the next, in a window, in a field and in a plane of differences.
pub const STRIDE: usize = 72;

// The rows of a window, and its length: one plane, and three planes with room for the vectors that end past the last row.
pub const WINDOW_ROWS: usize = 14;

pub const WINDOW_PLANE: usize = 1008;

pub const WINDOWS: usize = 3032;

// Where a tile's first sample stands in its window: 3 rows down, 4 columns in.
pub const MARGIN_ROWS: usize = 3;

pub const MARGIN_COLUMNS: usize = 4;

// A field has 10 rows: two above the tile. There are six fields.
pub const FIELD_PLANE: usize = 720;

pub const FIELDS: usize = 4320;

// A plane of differences has 12 rows: those of a field, one above and one below. There are three planes.
pub const DIFFERENCE_PLANE: usize = 864;

pub const DIFFERENCES: usize = 2592;
