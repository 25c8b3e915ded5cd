// The edge-preserving filter (EPF) bundle of a frame header, read from any bit position.
#![tactic(auto)]

ghost use Rattle.std.specs.Prelude.{◌≡◌};
ghost use Rattle.header_bits.specs.Reader.{Reads, parsed};
ghost use Rattle.header_fields.specs.Fields.{read};
ghost use Rattle.header_epf.specs.EdgeFilter.{var_dct, modular, epf_off, parameter_fields, epf_at};

use header_bits::{BitReader, Width};
use header_epf_sigma::{EpfSigma, read_half_if, read_sigma};
use header_epf_tables::{read_channel_scale, read_sharp_lut};
use refusals::Refusal;

// A frame's encoding, which decides which fields the bundle has.
#[derive(Clone, Copy, Debug, PartialEq, Eq)]
pub enum Encoding {
    VarDct,
    Modular,
}

// The edge-preserving filter's bundle, as read from a frame header.
// Form: C's struct, so the flag stands beside the values and no `Option` holds them.
#[repr(C)]
#[derive(Clone, Copy)]
pub struct EdgePreservingFilter {
    pub enabled: bool,
    pub iters: u32,
    pub sharp_lut: [f32; 8],
    pub channel_scale: [f32; 3],
    pub sigma: EpfSigma,
    pub sigma_for_modular: f32,
}

// The default sharpness table: 0, 1/7, 2/7, …, 1.
const SHARP_LUT: [f32; 8] = [
    0.0, 0.14285715, 0.2857143, 0.42857143, 0.5714286, 0.71428573, 0.85714287, 1.0,
];

// The default scales of the channels X, Y and B.
const CHANNEL_SCALE: [f32; 3] = [40.0, 5.0, 3.5];

// The default sigma of all blocks of a Modular frame.
const SIGMA_FOR_MODULAR: f32 = 1.0;

impl Encoding {
    fn is_var_dct(self) -> bool
        ensures { result ≡ var_dct self }
    {
        matches!(self, Encoding::VarDct)
    }

    fn is_modular(self) -> bool
        ensures { result ≡ modular self }
    {
        matches!(self, Encoding::Modular)
    }
}

// A filter that is off: zeros in all fields (Specification 5.8).
// Form: `derive(Default)` was tried. It says of each array how long it is and what each element is; `read` needs that the
// whole struct is `epf_off`, and its proof did not close.
impl Default for EdgePreservingFilter {
    ghost is_default = { λ filter. filter ≡ epf_off };

    fn default() -> EdgePreservingFilter {
        EdgePreservingFilter {
            enabled: false,
            iters: 0,
            sharp_lut: [0.0; 8],
            channel_scale: [0.0; 3],
            sigma: EpfSigma::default(),
            sigma_for_modular: 0.0,
        }
    }
}

// Reads the fields of a filter that is on.
#[inline(always)]
#[tactic(auto, using(crate::proofs::Steps::parameter_steps))]
fn read_parameters(
    reader: &mut BitReader,
    encoding: Encoding,
    iters: u32,
) -> Result<EdgePreservingFilter, Refusal>
    ensures { Reads reader.old (read (parameter_fields encoding iters)) result reader.new }
{
    let mut ahead = *reader;
    let sharp_lut = read_sharp_lut(&mut ahead, encoding.is_var_dct(), SHARP_LUT)?;
    let channel_scale = read_channel_scale(&mut ahead, CHANNEL_SCALE)?;
    let sigma = read_sigma(&mut ahead, encoding.is_var_dct())?;
    let sigma_for_modular = read_half_if(&mut ahead, encoding.is_modular(), SIGMA_FOR_MODULAR)?;
    *reader = ahead;
    Ok(EdgePreservingFilter {
        enabled: true,
        iters,
        sharp_lut,
        channel_scale,
        sigma,
        sigma_for_modular,
    })
}

impl EdgePreservingFilter {
    // Reads the EPF bundle (Specification 5.6), or refuses with 7, 1 or 2.
    #[inline(always)]
    #[tactic(auto, using(crate::proofs::Steps::epf_steps))]
    pub fn read(reader: &mut BitReader, encoding: Encoding) -> Result<EdgePreservingFilter, Refusal>
        ensures { Reads reader.old (epf_at encoding) result reader.new }
    {
        let mut ahead = *reader;
        let iters = ahead.read(Width::U2)?;
        // Form: 0 iterations are the header's way to say that the filter is off, asked once, where they are read.
        let filter = if iters == 0 {
            EdgePreservingFilter::default()
        } else {
            read_parameters(&mut ahead, encoding, iters)?
        };
        *reader = ahead;
        Ok(filter)
    }

    // Reads the EPF bundle from a bit position on, and answers the next position too.
    // Form: one `parse` for the bundles of three crates would ask (`requires`) that a reader handed in may be called, which
    // no public function does; a trait with this method would need a law for each bundle, more than the lines that it saves.
    #[inline(always)]
    pub fn parse(
        bytes: &[u8],
        at: usize,
        encoding: Encoding,
    ) -> Result<(EdgePreservingFilter, usize), Refusal>
        ensures { parsed result ≡ epf_at encoding bytes.now at }
    {
        let mut reader = BitReader::new(bytes, at);
        let filter = EdgePreservingFilter::read(&mut reader, encoding)?;
        Ok((filter, reader.at))
    }
}
