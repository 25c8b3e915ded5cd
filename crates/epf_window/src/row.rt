// Loads a row of a window from a row of a plane.
ghost use Rattle.std.specs.Prelude.{◌≡◌, ◌+◌, ◌<◌, ◌≤◌, length};
ghost use Rattle.planes.specs.Fill.{fill};
ghost use Rattle.epf_sizes.specs.Sizes.{windows_length};
ghost use Rattle.epf_window.specs.Window.{row_sample, RowFits};

use crate::LEFT;
use epf_sizes::WINDOWS;
use mirror::mirrored;
use planes::copy_run;

// A row that a step reads: the plane, the index where the row starts, and its number of samples.
// Form: `row_sample`, which the contracts name, counts from the plane's start; a slice of the row alone would need a law that
// moves the start in each of the three runs of `copy`.
#[derive(Clone, Copy)]
pub(crate) struct EpfInputRow<'a> {
    pub(crate) plane: &'a [f32],
    pub(crate) place: usize,
    pub(crate) width: usize,
}

impl<'a> EpfInputRow<'a> {
    // Copies n samples from four columns left of x on, mirrored in the row.
    #[tactic(auto, using(crate::proofs::Window::mirror_inside), unfolding(crate::specs::Window::row_sample, planes::specs::Fill::fill))]
    fn copy_mirrored(self, win: &mut [f32; WINDOWS], at: usize, x: usize, n: usize)
        requires { (at + n ≤ windows_length) × (self.place + self.width ≤ length self.plane.now) × (0 < self.width) × (x ≤ 65536) }
        ensures { win.new ≡ fill win.old at n
            (row_sample self.entry.plane.now self.entry.place x self.entry.width) }
    {
        for j in 0..n {
            let k = mirrored(x + j, LEFT, self.width);
            win[at + j] = self.plane[self.place + k];
        }
    }

    // The same, with a plain copy where no mirror is needed.
    pub(crate) fn copy(self, win: &mut [f32; WINDOWS], at: usize, x: usize, cols: usize)
        requires { RowFits at self.place x self.width cols (length self.plane.now) }
        ensures { win.new ≡ fill win.old at cols
            (row_sample self.entry.plane.now self.entry.place x self.entry.width) }
    {
        let low = LEFT.saturating_sub(x);
        let high = (self.width + LEFT - x).min(cols);
        self.copy_mirrored(win, at, x, low);
        copy_run(
            win,
            at + low,
            self.plane,
            self.place + (x + low - LEFT),
            high - low,
        );
        self.copy_mirrored(win, at + high, x + high, cols - high);
    }
}
