// Bit fields of a header, read from any bit position.
#![tactic(auto)]

ghost use Rattle.std.specs.Prelude.{◌≡◌, ◌+◌, ◌*◌, ◌<◌, ◌≤◌, length};
ghost use Rattle.header_bits.specs.Bits.{bit, field, u, flag};
ghost use Rattle.header_bits.specs.Outcome.{number, value, next};
ghost use Rattle.header_bits.specs.Reader.{width_of, Reads, parsed};

use refusals::{ACCEPTED, Refusal};

// The longest header slice, in bytes.
const MAX_BYTES: usize = 65536;

// A header's bytes, and the bit that is read next. A refused reading leaves its reader where it was, so a function that reads
// several fields reads from a copy, `ahead`, and stores it at the end.
// Form: the position counts bits, so no slice of the bytes can stand for it, and callers get the next one as a number.
#[derive(Clone, Copy)]
pub struct BitReader<'a> {
    pub bytes: &'a [u8],
    pub at: usize,
}

// How many bits a field has.
#[derive(Clone, Copy, Debug, PartialEq, Eq)]
pub enum Width {
    U1 = 1,
    U2 = 2,
    U16 = 16,
    U32 = 32,
}

impl Width {
    fn bits(self) -> usize
        ensures { (result ≡ width_of self) × (0 < result) × (result ≤ 32) }
    {
        self as usize
    }
}

impl BitReader<'_> {
    // A reader of these bytes from bit `at` on.
    pub fn new(bytes: &[u8], at: usize) -> BitReader<'_>
        ensures { (result.bytes.now ≡ bytes.now) × (result.at ≡ at) }
    {
        BitReader { bytes, at }
    }

    // Bit `at`: bits count from the least significant one of the first byte.
    fn bit(&self, at: usize) -> u32
        requires { at < length self.now.bytes.now * 8 }
        ensures { result ≡ bit self.now.bytes.now at }
    {
        let byte = u32::from(self.bytes[at / 8]);
        (byte >> (at % 8)) % 2
    }

    // The field's bits from the last, the most significant, to the first.
    #[tactic(auto, using(crate::proofs::Fields::field_none, crate::proofs::Fields::field_turn, crate::proofs::Fields::field_all, crate::proofs::Fields::field_within))]
    fn field(&self, width: usize) -> u32
        requires { (length self.now.bytes.now ≤ 65536) × (self.now.at + width ≤ length self.now.bytes.now * 8) × (width ≤ 32) }
        ensures { result ≡ field self.now.bytes.now self.now.at width }
    {
        let mut value = 0;
        for i in (0..width).rev() {
            value = value * 2 + self.bit(self.at + i);
        }
        value
    }

    // Reads a field, or refuses with 7 or 1.
    // Form: the hint, here and at readers of the crates above, lets an answer's fields be stored once. Without it each call
    // of C's copies a bundle's record up to three times.
    #[inline(always)]
    #[tactic(auto, using(crate::proofs::Checked::u_long, crate::proofs::Checked::u_short, crate::proofs::Checked::u_whole))]
    pub fn read(&mut self, width: Width) -> Result<u32, Refusal>
        ensures { Reads self.old (u (width_of width)) result self.new }
    {
        let width = width.bits();
        if self.bytes.len() > MAX_BYTES {
            return Err(Refusal::WrongLength);
        }
        let left = (self.bytes.len() * 8).saturating_sub(self.at);
        if left < width {
            return Err(Refusal::BitsRunOut);
        }
        let value = self.field(width);
        self.at += width;
        Ok(value)
    }

    // Reads a Bool() field, or refuses with 7 or 1.
    #[tactic(auto, unfolding(crate::specs::Bits::flag))]
    pub fn read_bool(&mut self) -> Result<bool, Refusal>
        ensures { Reads self.old flag result self.new }
    {
        let bit = self.read(Width::U1)?;
        Ok(bit != 0)
    }
}

// A reading in three fields: its number, value and next bit position. A refusal has its number, `zero` and 0.
// Form: these are the fields of C's answers, and of the recorded answers that `replay` compares with.
pub fn numbered<T: Copy>(reading: Result<(T, usize), Refusal>, zero: T) -> (u32, T, usize)
    ensures { result ≡ (number (parsed reading), value zero (parsed reading), next (parsed reading)) }
{
    match reading {
        Ok((value, next)) => (ACCEPTED, value, next),
        Err(refusal) => (u32::from(refusal), zero, 0),
    }
}
