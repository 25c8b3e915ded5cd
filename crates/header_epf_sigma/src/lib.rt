// The sigma settings of the EPF bundle.
#![tactic(auto)]

ghost use Rattle.std.specs.Prelude.{◌≡◌, true};
ghost use Rattle.header_bits.specs.Reader.{Reads};
ghost use Rattle.header_half.specs.Half.{f16};
ghost use Rattle.header_fields.specs.Fields.{if_there, read};
ghost use Rattle.header_epf_sigma.specs.Settings.{custom_sigma_fields, sigma_fields};

use header_bits::BitReader;
use header_half::read_f16_as_f32;
use refusals::Refusal;

// The edge-preserving filter's sigma settings: `quant_mul`, the scales of steps 0 and 2, and that of block borders.
#[repr(C)]
#[derive(Clone, Copy, Default)]
pub struct EpfSigma {
    pub quant_mul: f32,
    pub pass0_sigma_scale: f32,
    pub pass2_sigma_scale: f32,
    pub border_sad_mul: f32,
}

// The defaults.
const QUANT_MUL: f32 = 0.46;

const PASS0_SIGMA_SCALE: f32 = 0.9;

const PASS2_SIGMA_SCALE: f32 = 6.5;

// 2/3.
const BORDER_SAD_MUL: f32 = 0.6666667;

// Reads a half if it is present, otherwise answers its default.
// Form: `present` is the condition of a row of the standard's table, as `default` is its default: the function is
// `if_there` of the definition.
pub fn read_half_if(reader: &mut BitReader, present: bool, default: f32) -> Result<f32, Refusal>
    ensures { Reads reader.old (λ s p. if_there present (f16 s p) default p) result reader.new }
{
    if present {
        return read_f16_as_f32(reader);
    }
    Ok(default)
}

#[tactic(auto, using(crate::proofs::Steps::custom_steps))]
fn read_custom(reader: &mut BitReader, var_dct: bool) -> Result<EpfSigma, Refusal>
    ensures { Reads reader.old (read (custom_sigma_fields var_dct true)) result reader.new }
{
    let mut ahead = *reader;
    let quant_mul = read_half_if(&mut ahead, var_dct, QUANT_MUL)?;
    let pass0_sigma_scale = read_f16_as_f32(&mut ahead)?;
    let pass2_sigma_scale = read_f16_as_f32(&mut ahead)?;
    let border_sad_mul = read_f16_as_f32(&mut ahead)?;
    *reader = ahead;
    Ok(EpfSigma {
        quant_mul,
        pass0_sigma_scale,
        pass2_sigma_scale,
        border_sad_mul,
    })
}

// Reads the sigma settings. `quant_mul` can be present only in VarDCT.
#[inline(always)]
#[tactic(auto, using(crate::proofs::Steps::sigma_steps, crate::proofs::Steps::sigma_default))]
pub fn read_sigma(reader: &mut BitReader, var_dct: bool) -> Result<EpfSigma, Refusal>
    ensures { Reads reader.old (read (sigma_fields var_dct)) result reader.new }
{
    let mut ahead = *reader;
    let sigma = if ahead.read_bool()? {
        read_custom(&mut ahead, var_dct)?
    } else {
        EpfSigma {
            quant_mul: QUANT_MUL,
            pass0_sigma_scale: PASS0_SIGMA_SCALE,
            pass2_sigma_scale: PASS2_SIGMA_SCALE,
            border_sad_mul: BORDER_SAD_MUL,
        }
    };
    *reader = ahead;
    Ok(sigma)
}
