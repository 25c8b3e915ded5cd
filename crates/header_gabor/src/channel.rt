// The two weights of a channel in the Gabor bundle, and the refusal of kernels with a sum near zero.
ghost use Rattle.std.specs.Prelude.{◌≡◌, true};
ghost use Rattle.header_bits.specs.Reader.{Reads};
ghost use Rattle.header_fields.specs.Fields.{read};
ghost use Rattle.header_gabor.specs.Channel.{near_zero, channel_fields};

use header_bits::BitReader;
use header_half::read_f16_as_f32;
use refusals::Refusal;

// Whether the sum of the kernel, 1 + 4 * (side + corner), is less than 2^-23 from zero.
#[tactic(auto, using(crate::proofs::Steps::size_is), unfolding(crate::specs::Channel::near_zero))]
fn near_zero(side: f32, corner: f32) -> bool
    ensures { result ≡ near_zero side corner }
{
    let kernel = 1.0 + (side + corner) * 4.0;
    kernel.abs() < f32::EPSILON
}

// Reads the two weights of a channel, or refuses with 7, 1, 2 or 3.
#[tactic(auto, using(crate::proofs::Steps::channel_steps))]
pub fn read_channel(reader: &mut BitReader) -> Result<[f32; 2], Refusal>
    ensures { Reads reader.old (read (channel_fields true)) result reader.new }
{
    let mut ahead = *reader;
    let side = read_f16_as_f32(&mut ahead)?;
    let corner = read_f16_as_f32(&mut ahead)?;
    if near_zero(side, corner) {
        return Err(Refusal::KernelNearZero);
    }
    *reader = ahead;
    Ok([side, corner])
}
