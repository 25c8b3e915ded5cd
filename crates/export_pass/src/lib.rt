// The C boundary of the mirror and of single passes: each function passes its arguments on to one function of the
// library.
// Form: the C interface answers a refusal as its number, 0 for none, and the mirror's index beside it in a struct.
#![tactic(auto)]

ghost use Rattle.std.specs.Prelude.{◌≡◌};
ghost use Rattle.epf.specs.Outcome.{epf_outcome};
ghost use Rattle.gabor.specs.Outcome.{gabor_outcome};
ghost use Rattle.planes_layout.specs.Outcome.{PassOutcome};
ghost use Rattle.mirror.specs.Outcome.{mirror_outcome};

use epf::EpfStep;
use mirror::MirrorAnswer;
use refusals::number_of;
use region::Region;
use run_passes::GaborSettings;

// Computes the mirrored index of `offset` in a row of `len` samples: the sample that a filter reads there,
// also beyond an edge. With m = offset mod (2 * len), 0 <= m < 2 * len, the index is m if m < len and
// 2 * len - 1 - m otherwise, so the edge sample is repeated.
// Numbers: 0; 9 if `len` is outside 1 to 16,384 or `offset` is outside -1,048,576 to 1,048,576. A refused call
// returns index 0.
#[unsafe(no_mangle)]
pub extern "C" fn restoration_mirror(offset: isize, len: usize) -> MirrorAnswer
    ensures { result ≡ mirror_outcome offset len }
{
    MirrorAnswer::from(mirror::mirror(offset, len))
}

// Applies the Gabor-like filter to rows `from` up to, not including, `to` of the result region. The result region is
// the image region if `preserve_outside` is 1 and the filter region if it is 0.
// Reads the set `src` and writes the set `dst`. A set is `planes` planes of the image region one after another, each row
// by row without gaps: 1, or 3 for the channels X, Y and B. One plane is filtered with the weights of X. In these rows
// of the result region, `dst` gets filtered samples inside the filter region and copies of `src` outside it. All other
// samples of `dst` stay. The weights may be any floats; `settings.enabled` is ignored.
// Numbers: 0; 4 if a region is outside the limits (sides 1 to 16,384, area at most 16,777,216, left and top
// -1,048,576 to 1,048,576); 5 if the filter region is not inside the image region; 7 if the length of a set is not
// planes * width * height of the image region; 9 if `planes` is neither 1 nor 3 (then no length is checked),
// `preserve_outside` is neither 0 nor 1, `from` is over `to`, or `to` is over the number of rows of the result region.
// If several apply, the lowest is returned. A refused call leaves `dst` unchanged. `src` is never changed.
#[unsafe(no_mangle)]
pub extern "C" fn restoration_gabor_pass(
    image: Region,
    filter: Region,
    planes: u32,
    preserve_outside: u32,
    settings: GaborSettings,
    from: u32,
    to: u32,
    src: &[f32],
    dst: &mut [f32],
) -> u32
    ensures { ◌≡◌ {A = PassOutcome} (record { number = result; target = dst.new })
        (gabor_outcome image filter planes preserve_outside settings.weights from to src.now
        dst.old) }
{
    let weights = settings.weights;
    let answer = gabor::gabor_pass(
        image,
        filter,
        planes,
        preserve_outside,
        weights,
        from,
        to,
        src,
        dst,
    );
    number_of(answer)
}

// Applies step 0, 1 or 2 of the edge-preserving filter to rows `from` up to, not including, `to` of the result
// region. The result region is the image region if `preserve_outside` is 1 and the filter region if it is 0.
// Reads `src` and writes `dst` as `restoration_gabor_pass` does. `sigmas` has one sigma per block (8 x 8 samples) of
// the filter region, row of blocks by row of blocks. Sigmas, scales and multipliers may be any floats. One plane has
// the scale of X.
// Numbers: 0; 4 if a region is outside the limits (see `restoration_gabor_pass`); 5 if the filter region is not
// inside the image region; 6 if its left or top is negative or not a multiple of 8; 7 if the length of a set or of
// `sigmas` is wrong; 9 if `planes` is neither 1 nor 3 (then the length of a set is not checked), the step is over 2,
// `preserve_outside` is neither 0 nor 1, `from` is over `to`, or `to` is over the number of rows of the result region.
// If several apply, the lowest is returned. A refused call leaves `dst` unchanged. `src` and `sigmas` are never changed.
#[unsafe(no_mangle)]
pub extern "C" fn restoration_epf_pass(
    image: Region,
    filter: Region,
    planes: u32,
    preserve_outside: u32,
    s: EpfStep,
    sigmas: &[f32],
    from: u32,
    to: u32,
    src: &[f32],
    dst: &mut [f32],
) -> u32
    ensures { ◌≡◌ {A = PassOutcome} (record { number = result; target = dst.new })
        (epf_outcome image filter planes preserve_outside s sigmas.now from to src.now
        dst.old) }
{
    number_of(epf::epf_pass(
        image,
        filter,
        planes,
        preserve_outside,
        s,
        sigmas,
        from,
        to,
        src,
        dst,
    ))
}
