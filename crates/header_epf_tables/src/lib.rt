// The two arrays of the EPF bundle: the sharpness table and the channel scales.
#![tactic(auto)]

ghost use Rattle.std.specs.Prelude.{◌≡◌, length};
ghost use Rattle.header_bits.specs.Reader.{Reads};
ghost use Rattle.header_fields.specs.Fields.{read, f16s};
ghost use Rattle.header_epf_tables.specs.Tables.{sharp_fields, scale_fields};

use header_bits::{BitReader, Width};
use header_half::read_f16_as_f32;
use refusals::Refusal;

// Reads as many halves as the answer has elements.
#[tactic(auto, using(crate::proofs::Halves::halves_stop, crate::proofs::Halves::halves_all))]
fn read_halves<const N: usize>(reader: &mut BitReader) -> Result<[f32; N], Refusal>
    ensures { Reads reader.old (f16s N) result reader.new }
{
    let mut ahead = *reader;
    let mut values = [0.0; N];
    for value in &mut values {
        *value = read_f16_as_f32(&mut ahead)?;
    }
    *reader = ahead;
    Ok(values)
}

// The sharpness table: custom if the header has one, otherwise the defaults. `present`: the custom bit is there.
// Form: `present` is the condition of a row of the standard's table, as `defaults` are its defaults: the function reads the
// row `sharp_fields` of the definition, which is in the stream or not.
#[inline(always)]
#[tactic(auto, using(crate::proofs::Steps::sharp_steps, crate::proofs::Steps::sharp_absent))]
pub fn read_sharp_lut(
    reader: &mut BitReader,
    present: bool,
    defaults: [f32; 8],
) -> Result<[f32; 8], Refusal>
    ensures { Reads reader.old (read (sharp_fields present defaults)) result reader.new }
{
    if !present {
        return Ok(defaults);
    }
    let mut ahead = *reader;
    let lut = if ahead.read_bool()? {
        read_halves(&mut ahead)?
    } else {
        defaults
    };
    *reader = ahead;
    Ok(lut)
}

// The channel scales: custom if the header has them, otherwise the defaults. 32 ignored bits follow custom scales.
#[inline(always)]
#[tactic(auto, using(crate::proofs::Steps::scale_steps))]
pub fn read_channel_scale(reader: &mut BitReader, defaults: [f32; 3]) -> Result<[f32; 3], Refusal>
    ensures { Reads reader.old (read (scale_fields defaults)) result reader.new }
{
    let mut ahead = *reader;
    let mut scale = defaults;
    if ahead.read_bool()? {
        scale = read_halves(&mut ahead)?;
        ahead.read(Width::U32)?;
    }
    *reader = ahead;
    Ok(scale)
}
