// A window on a filter region: the rows and columns around a position in each plane, mirrored at the filter region's
// edges, as planes of 14 rows of 72 columns. A step mirrors only here. Away from the edges steps 1 and 2 need no mirror
// and read the planes directly.
#![tactic(auto)]

mod row;

ghost use Rattle.std.specs.Prelude.{◌≡◌, ℕ, ◌+◌, ◌*◌, length};
ghost use Rattle.planes.specs.Rect.{rows_fill};
ghost use Rattle.epf_sizes.specs.Sizes.{stride, window_rows};
ghost use Rattle.epf_window.specs.Window.{window_sample, window_filled, loaded, WindowFits, PlaneFits};

use crate::row::EpfInputRow;
use epf_sizes::{STRIDE, WINDOW_ROWS, WINDOWS};
use mirror::mirrored;
use planes::{Layout, set_fits};

// How many columns left of its position and how many rows above it a window starts.
const LEFT: usize = 4;

const ABOVE: usize = 3;

// Rows `top` up to top + rows and the first `cols` columns of a window on column x and row y.
#[derive(Clone, Copy, Debug, PartialEq, Eq)]
pub struct WindowPart {
    pub x: usize,
    pub y: usize,
    pub top: usize,
    pub rows: usize,
    pub cols: usize,
}

// Loads a part of a window's plane c.
// Form: `win`, `src`, `l` and `part` are parameters of `load`, handed on twice; a struct of them would be made there and taken apart
// here.
#[tactic(auto, unfolding(planes::specs::Rect::rows_fill))]
fn load_plane(win: &mut [f32; WINDOWS], src: &[f32], l: Layout, c: usize, part: WindowPart)
    requires { PlaneFits l c part (length src.now) }
    ensures { win.new ≡ rows_fill win.old ((c * window_rows + part.top) * stride) stride
        part.cols part.rows (λ (i : ℕ) (j : ℕ). window_sample l src.now part.x part.y c j (part.top + i)) }
{
    let at = (c * WINDOW_ROWS + part.top) * STRIDE;
    let stride = l.image.width;
    let start = (c * l.image.height + l.top) * stride + l.left;
    let rows = part.rows;
    for i in 0..rows {
        let k = mirrored(part.y + (part.top + i), ABOVE, l.height);
        let row = EpfInputRow {
            plane: src,
            place: start + k * stride,
            width: l.width,
        };
        row.copy(win, at + i * STRIDE, part.x, part.cols);
    }
}

// Loads a part of the first n planes.
// Form: as `load_plane`.
#[tactic(auto, unfolding(planes::specs::Rect::planes_fill))]
fn load_planes(win: &mut [f32; WINDOWS], src: &[f32], l: Layout, n: usize, part: WindowPart)
    requires { WindowFits l n (length src.now) part.x part.y part.top part.rows part.cols }
    ensures { win.new ≡ window_filled l n src.now part.x part.y part.top
        part.rows part.cols win.old }
{
    for c in 0..n {
        load_plane(win, src, l, c, part);
    }
}

// Loads a part of a window on a position of the filter region, in n planes. Does nothing if the arguments do not fit.
// Form: a window that is written, the set that it is read from, and where: each another thing, and used here alone.
#[tactic(auto, unfolding(crate::specs::Window::loaded))]
pub fn load(win: &mut [f32; WINDOWS], src: &[f32], l: Layout, n: usize, part: WindowPart)
    ensures { win.new ≡ loaded l n src.now part.x part.y part.top part.rows
        part.cols win.old }
{
    if !set_fits(l, n, src.len())
        || l.width <= part.x
        || l.height <= part.y
        || WINDOW_ROWS < part.top
        || WINDOW_ROWS - part.top < part.rows
        || part.cols < LEFT
        || STRIDE < part.cols
    {
        return;
    }
    load_planes(win, src, l, n, part)
}
