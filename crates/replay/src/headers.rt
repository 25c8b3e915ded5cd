// Header rows: number of bytes, the bytes, bit position, for an EPF bundle whether the encoding is Modular, refusal
// number, values, next bit position.
// Form: values are compared field by field, since a row has the bits of each float, and `==` of floats goes by their values.
use crate::forms::{bool_at, from, has_floats, has_form, number_at};
use header::RestorationFilter;
use header_bits::numbered;
use header_epf::{EdgePreservingFilter, Encoding};
use header_gabor::Gabor;
use header_half::Half;
use refusals::ACCEPTED;

// Every header of the list is shorter.
const MOST_BYTES: usize = 64;

// `half`, `gabor`, `edge_filter` and `filters`: whether what is read from the bytes is what the row says, of which `n` has
// the bit position and what stands after it.
fn half(bytes: &[u8], n: &[i64]) -> bool {
    let (number, value, next) = match header_half::read_half(bytes, number_at(n, 0)) {
        Half::Value(value, next) => (ACCEPTED, value, next),
        Half::Refused(refusal) => (u32::from(refusal), 0.0, 0),
    };
    has_form(n, b"zufz")
        && number == number_at(n, 1)
        && has_floats(from(n, 2), &[value])
        && next == number_at(n, 3)
}

fn has_gabor(n: &[i64], gabor: Gabor) -> bool {
    let weights = gabor.weights;
    bool_at(n, 0) == gabor.enabled && has_floats(from(n, 1), weights.as_flattened())
}

fn gabor(bytes: &[u8], n: &[i64]) -> bool {
    let (number, gabor, next) = numbered(Gabor::parse(bytes, number_at(n, 0)), Gabor::default());
    has_form(n, b"zubffffffz")
        && number == number_at(n, 1)
        && next == number_at(n, 9)
        && has_gabor(from(n, 2), gabor)
}

fn encoding_at(n: &[i64], i: usize) -> Encoding {
    if bool_at(n, i) {
        return Encoding::Modular;
    }
    Encoding::VarDct
}

fn has_epf(n: &[i64], epf: EdgePreservingFilter) -> bool {
    let sharp_lut = epf.sharp_lut;
    let channel_scale = epf.channel_scale;
    let sigmas = [
        epf.sigma.quant_mul,
        epf.sigma.pass0_sigma_scale,
        epf.sigma.pass2_sigma_scale,
        epf.sigma.border_sad_mul,
        epf.sigma_for_modular,
    ];
    bool_at(n, 0) == epf.enabled
        && epf.iters == number_at(n, 1)
        && has_floats(from(n, 2), &sharp_lut)
        && has_floats(from(n, 10), &channel_scale)
        && has_floats(from(n, 13), &sigmas)
}

fn edge_filter(bytes: &[u8], n: &[i64]) -> bool {
    let reading = EdgePreservingFilter::parse(bytes, number_at(n, 0), encoding_at(n, 1));
    let (number, epf, next) = numbered(reading, EdgePreservingFilter::default());
    has_form(n, b"zbubuffffffffffffffffz")
        && number == number_at(n, 2)
        && next == number_at(n, 21)
        && has_epf(from(n, 3), epf)
}

fn filters(bytes: &[u8], n: &[i64]) -> bool {
    let reading = RestorationFilter::parse(bytes, number_at(n, 0), encoding_at(n, 1));
    let (number, filter, next) = numbered(reading, RestorationFilter::default());
    has_form(n, b"zbubffffffbuffffffffffffffffz")
        && number == number_at(n, 2)
        && next == number_at(n, 28)
        && has_gabor(from(n, 3), filter.gabor)
        && has_epf(from(n, 10), filter.epf)
}

// Copies the numbers as bytes to the start of `out`, if each is a byte and `out` is long enough.
fn bytes_in<'a>(n: &[i64], out: &'a mut [u8]) -> Option<&'a [u8]> {
    let bytes = out.get_mut(..n.len())?;
    for (byte, number) in bytes.iter_mut().zip(n) {
        *byte = u8::try_from(*number).ok()?;
    }
    Some(bytes)
}

// The numbers of a header's bytes, and those after them. The first number of a row is how many bytes there are; a negative one counts
// as 0, as `number_at` has it.
fn split_header(n: &[i64]) -> Option<(&[i64], &[i64])> {
    let (_, rest) = n.split_first()?;
    rest.split_at_checked(number_at(n, 0))
}

// Whether a row agrees. `reader`: whether what it reads from the bytes is what the numbers after them say.
fn agrees<F: Fn(&[u8], &[i64]) -> bool>(n: &[i64], reader: F) -> bool
    requires { F.IsAlwaysCallable reader }
{
    let Some((header, row)) = split_header(n) else {
        return false;
    };
    let mut bytes = [0u8; MOST_BYTES];
    bytes_in(header, &mut bytes).is_some_and(|read| reader(read, row))
}

pub fn read_half(n: &[i64]) -> bool {
    agrees(n, half)
}

pub fn read_gabor(n: &[i64]) -> bool {
    agrees(n, gabor)
}

pub fn read_epf(n: &[i64]) -> bool {
    agrees(n, edge_filter)
}

pub fn read_filters(n: &[i64]) -> bool {
    agrees(n, filters)
}
