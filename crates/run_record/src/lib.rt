// The record of a run: the setup, the number of completed passes, and of the next pass the number of bands left and the done bands.
#![tactic(auto)]

ghost use Rattle.std.specs.Prelude.{◌≡◌, true, false, not, ◌&&◌, ℕ, ◌+◌, ◌<◌, ◌≤◌, ◌%◌, eqb, get_or, MatchOption};
ghost use Rattle.refusals.specs.Checks.{first_of};
ghost use Rattle.refusals.specs.Refusals.{number_of};
ghost use Rattle.run_setup.specs.Makers.{no_setup};
ghost use Rattle.run_setup.specs.Setup.{max_bands, band_count};
ghost use Rattle.run_record.specs.Record.{run_of, none_done, started, is_done, bad_flag, bad_done, count_below};
ghost use Rattle.run_record.specs.Record.{open_in, left_by_flags, finished, run_fits, not_open};
ghost use Rattle.run_record.specs.Record.{open_checks, over_checks, finished_checks};

use refusals::{Refusal, flag_fits, flag_set};
use run_setup::{MAX_BANDS, Setup};

// The record of a run. `pass` counts the completed passes. `bands_left` is the number of bands of the next pass that
// are not done, 0 if the run is finished. `done` has one flag per band of the next pass: 1 if the band is done.
#[repr(C)]
#[derive(Clone, Copy)]
pub struct Run {
    pub setup: Setup,
    pub pass: u32,
    pub bands_left: u32,
    pub done: [u8; MAX_BANDS],
}

// Whether no accepted calls give band k this flag, if only the first `bands` bands may be done.
// Form: C hands the flags as bytes, so that every value has a meaning, as in `Run::is_done`.
fn bad_flag(bands: u32, k: usize, flag: u8) -> bool
    ensures { result ≡ bad_flag bands k flag }
{
    if k < bands as usize {
        return !flag_fits(u32::from(flag));
    }
    0 < flag
}

// The number of bands that may be done in a pass: 0 if all passes are completed.
fn open_bands(setup: &Setup, pass: u32) -> u32
    ensures { result ≡ open_in setup.now pass }
{
    if pass == setup.pass_count() {
        return 0;
    }
    setup.band_count()
}

impl Run {
    // The record of a run before any band of a pass.
    pub fn before(setup: Setup, pass: u32) -> Run
        ensures { result ≡ run_of setup pass none_done }
    {
        Run {
            setup,
            pass,
            bands_left: open_bands(&setup, pass),
            done: [0; MAX_BANDS],
        }
    }

    // The record of a run that has started: no pass and no band is done.
    #[tactic(auto, unfolding(crate::specs::Record::started))]
    pub fn started(setup: Setup) -> Run
        ensures { result ≡ started setup }
    {
        Run::before(setup, 0)
    }

    // Whether band k is done.
    // Form: C hands the flags as bytes, so that every value has a meaning: 1 is done, and another than 0 and 1 is refused.
    #[tactic(auto, unfolding(crate::specs::Record::is_done))]
    fn is_done(&self, k: usize) -> bool
        requires { k < max_bands }
        ensures { result ≡ is_done self.now k }
    {
        flag_set(u32::from(self.done[k]))
    }

    // The number of bands that are done, or `None` if no accepted calls give one of the flags.
    // Form: one loop for both, as a call goes through the flags once; `try_fold` would carry the count through an `Option` at each flag.
    fn done_count(&self) -> Option<u32>
        ensures { MatchOption result (bad_done self.now ≡ true)
            (λ n. (bad_done self.now ≡ false) × (n ≡ count_below max_bands (is_done self.now))) }
    {
        let bands = open_bands(&self.setup, self.pass);
        let mut count = 0;
        for (k, flag) in self.done.iter().enumerate() {
            if bad_flag(bands, k, *flag) {
                return None;
            }
            count += u32::from(*flag);
        }
        Some(count)
    }

    // Whether accepted calls give these flags, and with them this number of bands left.
    #[tactic(auto, unfolding(crate::specs::Record::bands_left_in, crate::specs::Record::is_done))]
    fn done_fits(&self) -> bool
        ensures { result ≡ (not (bad_done self.now) && eqb self.now.bands_left (left_by_flags self.now)) }
    {
        let bands = open_bands(&self.setup, self.pass);
        match self.done_count() {
            None => false,
            Some(count) => self.bands_left == bands.saturating_sub(count),
        }
    }

    // Whether the next pass reads the first set: each advance exchanges the sets.
    // Form: each of the two callers, a band and a result, asks once and chooses between its two slices; an enum of the sets would be
    // made here and matched there.
    pub fn reads_first(&self) -> bool
        ensures { result ≡ eqb (self.now.pass % 2) 0 }
    {
        self.pass % 2 == 0
    }

    // Whether all passes are completed.
    fn finished(&self) -> bool
        ensures { result ≡ finished self.now }
    {
        self.pass == self.setup.pass_count()
    }

    // Whether a record is valid (Specification 12.8).
    #[tactic(auto, unfolding(crate::specs::Record::run_fits))]
    pub fn fits(&self) -> bool
        ensures { result ≡ run_fits self.now }
    {
        self.setup.fits() && self.pass <= self.setup.pass_count() && self.done_fits()
    }

    // Whether band k cannot run: the run is finished, there is no band k, or it is done.
    fn not_open(&self, k: usize) -> bool
        requires { band_count self.now.setup ≤ max_bands }
        ensures { result ≡ not_open self.now k }
    {
        self.finished() || self.setup.band_count() as usize <= k || self.is_done(k)
    }

    // Refuses a call of band k for the record: out of range, or the band is not open.
    pub fn check_band(&self, k: u32) -> Result<(), Refusal>
        ensures { number_of result ≡ first_of (open_checks self.now k) }
    {
        if !self.fits() {
            return Err(Refusal::OutOfRange);
        }
        if self.not_open(k as usize) {
            return Err(Refusal::BandNotOpen);
        }
        Ok(())
    }

    // Refuses an advance for the record: out of range, or the pass is not done. In a valid record of a run that is not finished the
    // number of bands left tells whether a band is missing.
    #[tactic(auto, using(crate::proofs::Counts::left_rules))]
    pub fn check_advance(&self) -> Result<(), Refusal>
        ensures { number_of result ≡ first_of (over_checks self.now) }
    {
        if !self.fits() {
            return Err(Refusal::OutOfRange);
        }
        if self.finished() || 0 < self.bands_left {
            return Err(Refusal::PassNotDone);
        }
        Ok(())
    }

    // Refuses a result for the record: out of range, or the run is not finished.
    pub fn check_result(&self) -> Result<(), Refusal>
        ensures { number_of result ≡ first_of (finished_checks self.now) }
    {
        if !self.fits() {
            return Err(Refusal::OutOfRange);
        }
        if !self.finished() {
            return Err(Refusal::PassNotDone);
        }
        Ok(())
    }
}

// The record that a refused start answers: zeros.
// Form: the clause is the whole record, which definitions name; a derive's clause would say of each of the 256 flags that it is 0.
impl Default for Run {
    ghost is_default = { λ r. r ≡ started no_setup };

    fn default() -> Run {
        Run::started(Setup::default())
    }
}
