// The C boundary of the header: each function passes its arguments on to one function of the library. VarDCT and
// Modular have separate functions, so the encoding is not an argument.
// Form: an answer is C's struct, a number with zeros beside a refusal. The four structs name their second fields in four
// ways, so no generic struct stands for them; each is made from `numbered`, and an impl that a macro writes is refused.
#![tactic(auto)]

ghost use Rattle.std.specs.Prelude.{◌≡◌};
ghost use Rattle.header_bits.specs.Reader.{parsed};
ghost use Rattle.header_epf.specs.EdgeFilter.{epf_at};
ghost use Rattle.header_epf.specs.declared.Encoding.TheVariants.{VarDct, Modular};
ghost use Rattle.header_gabor.specs.Gabor.{gabor_at};
ghost use Rattle.header_half.specs.Half.{f16, half_outcome};
ghost use Rattle.header.specs.Restoration.{restoration_at};
ghost use Rattle.export_header.specs.Answers.{half_answer, gabor_answer, epf_answer, restoration_answer};

use header::RestorationFilter;
use header_bits::numbered;
use header_epf::{EdgePreservingFilter, Encoding};
use header_gabor::Gabor;
use header_half::Half;
use refusals::{ACCEPTED, Refusal};

// A half-precision reading as a struct.
#[repr(C)]
#[derive(Clone, Copy)]
pub struct HalfAnswer {
    pub number: u32,
    pub value: f32,
    pub next: usize,
}

impl From<Half> for HalfAnswer {
    ghost from_gives = { λ half answer. answer ≡ half_answer (half_outcome half) };

    fn from(half: Half) -> HalfAnswer {
        match half {
            Half::Value(value, next) => HalfAnswer {
                number: ACCEPTED,
                value,
                next,
            },
            Half::Refused(refusal) => HalfAnswer {
                number: u32::from(refusal),
                value: 0.0,
                next: 0,
            },
        }
    }
}

// A Gabor-like filter's bundle, and the next bit position.
#[repr(C)]
#[derive(Clone, Copy)]
pub struct GaborAnswer {
    pub number: u32,
    pub gabor: Gabor,
    pub next: usize,
}

impl From<Result<(Gabor, usize), Refusal>> for GaborAnswer {
    ghost from_gives = { λ reading answer. answer ≡ gabor_answer (parsed reading) };

    fn from(reading: Result<(Gabor, usize), Refusal>) -> GaborAnswer {
        let (number, gabor, next) = numbered(reading, Gabor::default());
        GaborAnswer {
            number,
            gabor,
            next,
        }
    }
}

// An edge-preserving filter's bundle, and the next bit position.
#[repr(C)]
#[derive(Clone, Copy)]
pub struct EpfAnswer {
    pub number: u32,
    pub epf: EdgePreservingFilter,
    pub next: usize,
}

impl From<Result<(EdgePreservingFilter, usize), Refusal>> for EpfAnswer {
    ghost from_gives = { λ reading answer. answer ≡ epf_answer (parsed reading) };

    fn from(reading: Result<(EdgePreservingFilter, usize), Refusal>) -> EpfAnswer {
        let (number, epf, next) = numbered(reading, EdgePreservingFilter::default());
        EpfAnswer { number, epf, next }
    }
}

// Both bundles, and the next bit position.
#[repr(C)]
#[derive(Clone, Copy)]
pub struct RestorationAnswer {
    pub number: u32,
    pub filter: RestorationFilter,
    pub next: usize,
}

impl From<Result<(RestorationFilter, usize), Refusal>> for RestorationAnswer {
    ghost from_gives = { λ reading answer. answer ≡ restoration_answer (parsed reading) };

    fn from(reading: Result<(RestorationFilter, usize), Refusal>) -> RestorationAnswer {
        let (number, filter, next) = numbered(reading, RestorationFilter::default());
        RestorationAnswer {
            number,
            filter,
            next,
        }
    }
}

// Reads 16 bits from bit position `at` on as an IEEE 754 half-precision number. The conversion to `float` is exact,
// subnormals and -0 included. Bit p of the header is bit p mod 8 of byte p / 8, counted from the least significant
// bit; the first bit of a field is its least significant. Returns the value and the next bit position.
// Numbers: 0; 7 if there are more than 65,536 bytes; otherwise 1 if the bits run out, or 2 if the exponent field is
// 31 (infinite or NaN). A refused call returns 0 in every other field. `bytes` is never changed.
#[unsafe(no_mangle)]
pub extern "C" fn restoration_read_half(bytes: &[u8], at: usize) -> HalfAnswer
    ensures { result ≡ half_answer (f16 bytes.now at) }
{
    HalfAnswer::from(header_half::read_half(bytes, at))
}

// Reads the Gabor-like filter's header bundle from bit position `at` on. It has an enabled bit; if that is set, a
// custom bit; if that is set, two half-precision weights for each of three channels. Returns whether the filter is
// on, its weights (custom or default) and the next bit position. If the filter is off, all weights are 0.
// Numbers: 0; 7 if there are more than 65,536 bytes; otherwise the first of these in bit order: 1 if the bits run
// out, 2 if a half has exponent field 31, 3 if |1 + (w0 + w1) * 4| is under 2^-23 for a channel's custom weights. A
// refused call returns 0 in every other field. `bytes` is never changed.
#[unsafe(no_mangle)]
pub extern "C" fn restoration_read_gabor(bytes: &[u8], at: usize) -> GaborAnswer
    ensures { result ≡ gabor_answer (gabor_at bytes.now at) }
{
    GaborAnswer::from(Gabor::parse(bytes, at))
}

// Reads the edge-preserving filter's header bundle of a VarDCT frame from bit position `at` on. It has 2 bits of
// iterations; if they are not 0, a custom bit with 8 sharpness values, a custom bit with 3 channel scales and 32
// ignored bits, and a custom bit with the four sigma settings. Values follow a custom bit only if it is set; each is
// a half-precision number. Returns the settings (custom or default; `sigma_for_modular` is 1) and the next bit
// position. With 0 iterations the filter is off and all its fields are 0.
// Numbers: 0; 7 if there are more than 65,536 bytes; otherwise the first of these in bit order: 1 if the bits run
// out, 2 if a half has exponent field 31. A refused call returns 0 in every other field. `bytes` is never changed.
#[unsafe(no_mangle)]
pub extern "C" fn restoration_read_epf_vardct(bytes: &[u8], at: usize) -> EpfAnswer
    ensures { result ≡ epf_answer (epf_at VarDct bytes.now at) }
{
    EpfAnswer::from(EdgePreservingFilter::parse(bytes, at, Encoding::VarDct))
}

// Reads the edge-preserving filter's header bundle of a Modular frame from bit position `at` on. It has 2 bits of
// iterations; if they are not 0, a custom bit with 3 channel scales and 32 ignored bits, a custom bit with three
// sigma settings (`quant_mul` keeps its default), and `sigma_for_modular`. Values follow a custom bit only if it is
// set; each is a half-precision number. Returns the settings (custom or default) and the next bit position. With 0
// iterations the filter is off and all its fields are 0.
// Numbers: 0; 7 if there are more than 65,536 bytes; otherwise the first of these in bit order: 1 if the bits run
// out, 2 if a half has exponent field 31. A refused call returns 0 in every other field. `bytes` is never changed.
#[unsafe(no_mangle)]
pub extern "C" fn restoration_read_epf_modular(bytes: &[u8], at: usize) -> EpfAnswer
    ensures { result ≡ epf_answer (epf_at Modular bytes.now at) }
{
    EpfAnswer::from(EdgePreservingFilter::parse(bytes, at, Encoding::Modular))
}

// Reads both header bundles of a VarDCT frame from bit position `at` on: the Gabor-like filter's, then the
// edge-preserving filter's, as `restoration_read_gabor` and `restoration_read_epf_vardct` do. Returns both filters
// and the next bit position.
// Numbers: 0; 7 if there are more than 65,536 bytes; otherwise the first of 1, 2 and 3 in bit order, as those
// functions return them. A refused call returns 0 in every other field. `bytes` is never changed.
#[unsafe(no_mangle)]
pub extern "C" fn restoration_read_filters_vardct(bytes: &[u8], at: usize) -> RestorationAnswer
    ensures { result ≡ restoration_answer (restoration_at VarDct bytes.now at) }
{
    RestorationAnswer::from(RestorationFilter::parse(bytes, at, Encoding::VarDct))
}

// Reads both header bundles of a Modular frame from bit position `at` on: the Gabor-like filter's, then the
// edge-preserving filter's, as `restoration_read_gabor` and `restoration_read_epf_modular` do. Returns both filters
// and the next bit position.
// Numbers: 0; 7 if there are more than 65,536 bytes; otherwise the first of 1, 2 and 3 in bit order, as those
// functions return them. A refused call returns 0 in every other field. `bytes` is never changed.
#[unsafe(no_mangle)]
pub extern "C" fn restoration_read_filters_modular(bytes: &[u8], at: usize) -> RestorationAnswer
    ensures { result ≡ restoration_answer (restoration_at Modular bytes.now at) }
{
    RestorationAnswer::from(RestorationFilter::parse(bytes, at, Encoding::Modular))
}
