// Where a tile's samples are read: its windows, or the planes themselves if it has samples of the filter region on every
// side.
ghost use Rattle.std.specs.Prelude.{◌≡◌};
ghost use Rattle.planes.specs.Fits.{LayoutFits};
ghost use Rattle.epf_tiles.specs.Views.{lies_inside, Inside, window_view, planes_view};

use epf_distances::View;
use epf_rects::Rect;
use epf_sizes::{MARGIN_COLUMNS, MARGIN_ROWS, STRIDE, WINDOW_PLANE};
use planes::Layout;

// What a tile's lanes need on its right: the columns of windows and the vectors that end past them.
const RIGHT: usize = 8;

// The view of a tile's windows.
pub(crate) fn window_view() -> View
    ensures { result ≡ window_view }
{
    View {
        plane: WINDOW_PLANE,
        stride: STRIDE,
        corner: 0,
    }
}

// Whether a rectangle has samples of the filter region on every side: as many as step 0 reads, and on its right what whole
// vectors read past its last column.
pub(crate) fn lies_inside(l: Layout, rect: Rect) -> bool
    ensures { result ≡ lies_inside l rect }
{
    MARGIN_COLUMNS <= rect.x
        && MARGIN_ROWS <= rect.y
        && rect.cols <= l.width
        && rect.x <= l.width - rect.cols
        && RIGHT <= l.width - rect.cols - rect.x
        && rect.rows <= l.height
        && rect.y <= l.height - rect.rows
        && MARGIN_ROWS <= l.height - rect.rows - rect.y
}

// The view of such a rectangle in a set.
// Form: `LayoutFits` is a clause, as in `gabor`: a `Layout` crosses the C boundary with any numbers.
pub(crate) fn planes_view(l: Layout, rect: Rect) -> View
    requires { Inside l rect × LayoutFits l }
    ensures { result ≡ planes_view l rect }
{
    let stride = l.image.width;
    View {
        plane: l.image.height * stride,
        stride,
        corner: (l.top + (rect.y - MARGIN_ROWS)) * stride + (l.left + (rect.x - MARGIN_COLUMNS)),
    }
}
