// The Gabor bundle and then the EPF bundle of a frame header, as in the original's `RestorationFilter` (without
// `all_default` and extensions).
#![tactic(auto)]

ghost use Rattle.std.specs.Prelude.{◌≡◌};
ghost use Rattle.header_bits.specs.Reader.{Reads, parsed};
ghost use Rattle.header.specs.Restoration.{restoration_at};

use header_bits::BitReader;
use header_epf::{EdgePreservingFilter, Encoding};
use header_gabor::Gabor;
use refusals::Refusal;

// Both bundles of a frame header.
// Form: `Settings` (run_passes) has two fields of the same names, but is what a caller asks a run for, with numbers that
// `start` checks and fewer fields of the edge filter. Each is C's struct, and a C caller makes the one from the other.
#[repr(C)]
#[derive(Clone, Copy, Default)]
pub struct RestorationFilter {
    pub gabor: Gabor,
    pub epf: EdgePreservingFilter,
}

impl RestorationFilter {
    // Reads the Gabor bundle and then the EPF bundle, or refuses with 7, 1, 2 or 3.
    #[inline(always)]
    #[tactic(auto, using(crate::proofs::Steps::restoration_steps))]
    pub fn read(reader: &mut BitReader, encoding: Encoding) -> Result<RestorationFilter, Refusal>
        ensures { Reads reader.old (restoration_at encoding) result reader.new }
    {
        let mut ahead = *reader;
        let gabor = Gabor::read(&mut ahead)?;
        let epf = EdgePreservingFilter::read(&mut ahead, encoding)?;
        *reader = ahead;
        Ok(RestorationFilter { gabor, epf })
    }

    // Reads both bundles from a bit position on, and answers the next position too.
    // Form: as at `EdgePreservingFilter::parse` (header_epf): a shared function would ask that a reader may be called.
    #[inline(always)]
    pub fn parse(
        bytes: &[u8],
        at: usize,
        encoding: Encoding,
    ) -> Result<(RestorationFilter, usize), Refusal>
        ensures { parsed result ≡ restoration_at encoding bytes.now at }
    {
        let mut reader = BitReader::new(bytes, at);
        let filter = RestorationFilter::read(&mut reader, encoding)?;
        Ok((filter, reader.at))
    }
}
