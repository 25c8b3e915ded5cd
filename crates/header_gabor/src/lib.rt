// The Gabor bundle of a frame header, read from any bit position.
#![tactic(auto)]

pub mod channel;

ghost use Rattle.std.specs.Prelude.{◌≡◌, true};
ghost use Rattle.header_bits.specs.Reader.{Reads, parsed};
ghost use Rattle.header_fields.specs.Fields.{read};
ghost use Rattle.header_gabor.specs.Gabor.{channels_fields, weight_fields, gabor_off, gabor_at};

use channel::read_channel;
use header_bits::BitReader;
use refusals::Refusal;

// Two weights for each of the channels X, Y and B: of the side neighbours and of the diagonal ones.
// Form: C's struct, so the flag stands beside the weights and no `Option` holds them. `GaborSettings` (run_passes) has a
// number for the flag, since a C caller fills that struct, and may store any byte in a `bool` field.
#[repr(C)]
#[derive(Clone, Copy)]
pub struct Gabor {
    pub enabled: bool,
    pub weights: [[f32; 2]; 3],
}

// The default weights of every channel.
const SIDE: f32 = 0.115169525;

const CORNER: f32 = 0.061248592;

// A filter that is off: zeros in all fields (Specification 5.8).
// Form: `derive(Default)` was tried. It says of `weights` how long it is and what each element is; `read` needs that the
// whole struct is `gabor_off`, and its proof did not close.
impl Default for Gabor {
    ghost is_default = { λ gabor. gabor ≡ gabor_off };

    fn default() -> Gabor {
        Gabor {
            enabled: false,
            weights: [[0.0; 2]; 3],
        }
    }
}

#[tactic(auto, using(crate::proofs::Steps::channels_steps))]
fn read_channels(reader: &mut BitReader) -> Result<Gabor, Refusal>
    ensures { Reads reader.old (read (channels_fields true)) result reader.new }
{
    let mut ahead = *reader;
    let x = read_channel(&mut ahead)?;
    let y = read_channel(&mut ahead)?;
    let b = read_channel(&mut ahead)?;
    *reader = ahead;
    Ok(Gabor {
        enabled: true,
        weights: [x, y, b],
    })
}

#[inline(always)]
#[tactic(auto, using(crate::proofs::Steps::weight_steps, crate::proofs::Steps::channels_default))]
fn read_weights(reader: &mut BitReader) -> Result<Gabor, Refusal>
    ensures { Reads reader.old (read weight_fields) result reader.new }
{
    let mut ahead = *reader;
    let gabor = if ahead.read_bool()? {
        read_channels(&mut ahead)?
    } else {
        Gabor {
            enabled: true,
            weights: [[SIDE, CORNER]; 3],
        }
    };
    *reader = ahead;
    Ok(gabor)
}

impl Gabor {
    // Reads the Gabor bundle (Specification 5.4), or refuses with 7, 1, 2 or 3.
    #[inline(always)]
    #[tactic(auto, using(crate::proofs::Steps::gabor_steps))]
    pub fn read(reader: &mut BitReader) -> Result<Gabor, Refusal>
        ensures { Reads reader.old gabor_at result reader.new }
    {
        let mut ahead = *reader;
        let gabor = if ahead.read_bool()? {
            read_weights(&mut ahead)?
        } else {
            Gabor::default()
        };
        *reader = ahead;
        Ok(gabor)
    }

    // Reads the Gabor bundle from a bit position on, and answers the next position too.
    // Form: as at `EdgePreservingFilter::parse` (header_epf): a shared function would ask that a reader may be called.
    pub fn parse(bytes: &[u8], at: usize) -> Result<(Gabor, usize), Refusal>
        ensures { parsed result ≡ gabor_at bytes.now at }
    {
        let mut reader = BitReader::new(bytes, at);
        let gabor = Gabor::read(&mut reader)?;
        Ok((gabor, reader.at))
    }
}
