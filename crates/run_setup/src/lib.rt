// The setup of a run: which values are in range, its passes, and the rows and bands of the result region.
#![tactic(auto)]

ghost use Rattle.std.specs.Prelude.{◌≡◌};
ghost use Rattle.run_setup.specs.Makers.{no_setup};
ghost use Rattle.run_setup.specs.Setup.{pass_count, full_planes, row_count, size_fits, band_count, blocks_fit, height_fits};
ghost use Rattle.run_setup.specs.Setup.{numbers_fit, result_region, setup_fits};

use limits::{MAX_AREA_U32, MAX_SIDE_U32};
use planes::planes_fit;
use refusals::{flag_fits, flag_set};
use region::Region;
use region_placement::{on_blocks, placed};
use run_passes::Settings;

// The largest number of bands of a pass (Specification 4.1).
pub const MAX_BANDS: usize = 256;

// The setup of a run; no call changes it. `planes` is the number of planes of each set, 1 or 3. `preserve_outside` is
// a flag: the result region is the image region if it is 1, the filter region if it is 0. `band_height` is the number
// of rows of the result region in a band; the last band may have fewer.
#[repr(C)]
#[derive(Clone, Copy)]
pub struct Setup {
    pub image: Region,
    pub filter: Region,
    pub planes: u32,
    pub preserve_outside: u32,
    pub settings: Settings,
    pub band_height: u32,
}

// Whether a region's sides are 1 to 16,384 and its area at most 16,777,216 (Specification 4.3).
#[tactic(auto, unfolding(crate::specs::Setup::size_fits))]
pub fn size_fits(r: Region) -> bool
    ensures { result ≡ size_fits r }
{
    if MAX_SIDE_U32 < r.width || MAX_SIDE_U32 < r.height {
        return false;
    }
    1 <= r.width && 1 <= r.height && r.width * r.height <= MAX_AREA_U32
}

impl Setup {
    // Whether the result region is the image region.
    // Form: C hands a number, so that every value has a meaning: 1 is yes, and another than 0 and 1 is refused.
    pub fn full_planes(&self) -> bool
        ensures { result ≡ full_planes self.now }
    {
        flag_set(self.preserve_outside)
    }

    // The region whose samples the run gives: the image region or the filter region.
    pub fn result_region(&self) -> Region
        ensures { result ≡ result_region self.now }
    {
        if self.full_planes() {
            return self.image;
        }
        self.filter
    }

    // The number of passes.
    pub fn pass_count(&self) -> u32
        ensures { result ≡ pass_count self.now }
    {
        self.settings.pass_count()
    }

    // The number of rows of the result region.
    #[tactic(auto, unfolding(planes_layout::specs::Outcome::layout_of))]
    pub fn row_count(&self) -> u32
        ensures { result ≡ row_count self.now }
    {
        self.result_region().height
    }

    // The number of bands of a pass.
    #[tactic(auto, unfolding(crate::specs::Setup::band_count))]
    pub fn band_count(&self) -> u32
        ensures { result ≡ band_count self.now }
    {
        if self.band_height == 0 {
            return 0;
        }
        self.row_count().div_ceil(self.band_height)
    }

    fn blocks_fit(&self) -> bool
        ensures { result ≡ blocks_fit self.now }
    {
        !self.settings.epf_on() || on_blocks(self.filter)
    }

    fn height_fits(&self) -> bool
        ensures { result ≡ height_fits self.now }
    {
        1 <= self.band_height && self.band_height <= MAX_SIDE_U32
    }

    // Whether the iterations, the number of planes, both flags, the band height and the number of bands are in range.
    // Form: these are C's numbers, as in `full_planes`, and only a table of checks asks whether they are in range.
    #[tactic(auto, unfolding(crate::specs::Setup::numbers_fit))]
    pub fn numbers_fit(&self) -> bool
        ensures { result ≡ numbers_fit self.now }
    {
        self.settings.iterations_fit()
            && planes_fit(self.planes)
            && flag_fits(self.preserve_outside)
            && flag_fits(self.settings.gabor.enabled)
            && self.height_fits()
            && self.band_count() as usize <= MAX_BANDS
    }

    // Whether start would not refuse the setup under 4, 5, 6 or 9.
    pub fn fits(&self) -> bool
        ensures { result ≡ setup_fits self.now }
    {
        placed(self.image, self.filter).is_ok() && (self.blocks_fit() && self.numbers_fit())
    }
}

// Zeros: regions without samples, and both filters are off.
// Form: the clause is the whole record `no_setup`, which definitions name; a derive's clause would say it field by field.
impl Default for Setup {
    ghost is_default = { λ s. s ≡ no_setup };

    fn default() -> Setup {
        Setup {
            image: Region::default(),
            filter: Region::default(),
            planes: 0,
            preserve_outside: 0,
            settings: Settings::default(),
            band_height: 0,
        }
    }
}
