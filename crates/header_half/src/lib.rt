// Half-precision numbers, read from any bit position of a header.
#![tactic(auto)]

ghost use Rattle.std.specs.Prelude.{◌≡◌, ◌<◌, leb};
ghost use Rattle.std.specs.Float.{binary32};
ghost use Rattle.std.specs.Float.Ieee.{of_fields};
ghost use Rattle.header_half.specs.Value.{exponent_of, half_of};
ghost use Rattle.header_half.specs.Half.{f16, half_checks, half_outcome};
ghost use Rattle.header_bits.specs.Reader.{Reads};
ghost use Rattle.refusals.specs.Checks.{first_of};
ghost use Rattle.refusals.specs.Refusals.{IsOutcome};

use header_bits::{BitReader, Width};
use refusals::Refusal;

// The binary32 number with this sign, exponent field and fraction.
#[tactic(auto, using(crate::proofs::Fields::pattern_fields, crate::proofs::Fields::pattern_not_nan))]
fn of_fields(sign: u32, exponent: u32, digits: u32) -> f32
    requires { (sign < 2) × (exponent < 255) × (digits < 8388608) }
    ensures { result ≡ of_fields binary32 (leb 1 sign) exponent digits }
{
    f32::from_bits(sign * 2147483648 + exponent * 8388608 + digits)
}

// A finite half as a binary32 number, exactly: the exponent's bias is 127 and not 15, which is 112 more, and the fraction
// has 23 bits and not 10. A subnormal half is normal in binary32: its highest digit is shifted up to bit 10, to become the
// leading one.
#[tactic(auto, using(crate::proofs::Widened::half_normal, crate::proofs::Widened::half_zero, crate::proofs::Widened::half_subnormal, crate::proofs::Widened::moved))]
fn widen(half: u32) -> f32
    requires { (half < 65536) × (exponent_of half < 31) }
    ensures { result ≡ half_of half }
{
    let sign = half / 32768;
    let exponent = half / 1024 % 32;
    let digits = half % 1024;
    if exponent > 0 {
        return of_fields(sign, exponent + 112, digits * 8192);
    }
    if digits == 0 {
        return of_fields(sign, 0, 0);
    }
    let up = digits.leading_zeros() - 21;
    let moved = digits << up;
    of_fields(sign, 113 - up, (moved - 1024) * 8192)
}

// The value of a half; an exponent field of 31, infinite or NaN, is refused.
fn finite_half(half: u32) -> Result<f32, Refusal>
    requires { half < 65536 }
    ensures { IsOutcome result (first_of (half_checks half)) (half_of half) }
{
    if half / 1024 % 32 == 31 {
        return Err(Refusal::HalfNotFinite);
    }
    Ok(widen(half))
}

// Reads a half-precision number, or refuses with 7, 1 or 2.
#[tactic(auto, using(header_bits::proofs::Checked::u_below, header_bits::proofs::Readings::checked_is), unfolding(crate::specs::Half::f16))]
pub fn read_f16_as_f32(reader: &mut BitReader) -> Result<f32, Refusal>
    ensures { Reads reader.old f16 result reader.new }
{
    let mut ahead = *reader;
    let half = ahead.read(Width::U16)?;
    let value = finite_half(half)?;
    *reader = ahead;
    Ok(value)
}

// A half-precision reading: the value and the next bit position, or the refusal.
// Form: an enum of its own, since Specification 1.5 names its two cases.
#[derive(Clone, Copy, Debug)]
pub enum Half {
    Value(f32, usize),
    Refused(Refusal),
}

// Reads a half-precision number from a bit position on, or refuses with 7, 1 or 2.
pub fn read_half(bytes: &[u8], at: usize) -> Half
    ensures { half_outcome result ≡ f16 bytes.now at }
{
    let mut reader = BitReader::new(bytes, at);
    match read_f16_as_f32(&mut reader) {
        Ok(value) => Half::Value(value, reader.at),
        Err(refusal) => Half::Refused(refusal),
    }
}
