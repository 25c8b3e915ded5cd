// The passes of the settings, in order, and how far they read together.
// Form: `Settings` and `GaborSettings` are what C hands, with a flag as a number; `RestorationFilter` and `Gabor`, which have the same
// names of fields, are what the header's readers answer, with a bool (docs/DECISIONS.md, "Runs").
#![tactic(auto)]

ghost use Rattle.std.specs.Prelude.{◌≡◌, ◌≤◌, ltb};
ghost use Rattle.refusals.specs.Refusals.{IsOutcome};
ghost use Rattle.run_passes.specs.Makers.{no_settings};
ghost use Rattle.run_passes.specs.Plan.{pass_number, gabor_on, one_if, step_margin, margin, margin_number, margin_answer};
ghost use Rattle.run_passes.specs.Plan.{iterations_fit, scale_of, step_of, gabor_at, step_index};
ghost use Rattle.run_passes.specs.PassAt.{pass_at};

use epf::EpfStep;
use epf_step::LAST_STEP;
use header_epf_sigma::EpfSigma;
use refusals::{ACCEPTED, Refusal, flag_fits, flag_set};

// The Gabor-like filter. `enabled` is a flag: 1 is on, 0 is off. `weights` has two weights for each of the channels
// X, Y and B: of the side neighbours and of the diagonal ones. One plane has those of X.
#[repr(C)]
#[derive(Clone, Copy, Default)]
pub struct GaborSettings {
    pub enabled: u32,
    pub weights: [[f32; 2]; 3],
}

// The edge-preserving filter: off with 0 iterations, on with 1 to 3. One plane has the scale of X.
#[repr(C)]
#[derive(Clone, Copy, Default)]
pub struct EpfSettings {
    pub iters: u32,
    pub channel_scale: [f32; 3],
    pub sigma: EpfSigma,
    pub sigma_for_modular: f32,
}

// The settings of both filters.
#[repr(C)]
#[derive(Clone, Copy)]
pub struct Settings {
    pub gabor: GaborSettings,
    pub epf: EpfSettings,
}

// The margin in samples; 0 in a refused call.
#[repr(C)]
#[derive(Clone, Copy)]
pub struct MarginAnswer {
    pub number: u32,
    pub margin: u32,
}

// What a pass runs, with the settings that it reads.
#[derive(Clone, Copy)]
pub enum Pass {
    // The weights of the Gabor-like filter.
    Gabor([[f32; 2]; 3]),
    // A step of the edge-preserving filter.
    Edge(EpfStep),
}

// The most iterations of the edge-preserving filter.
pub const MAX_ITERS: u32 = 3;

// Three iterations have all steps; fewer start with step 1.
const ALL_STEPS: u32 = 3;

// How far the steps of so many iterations read together.
// Form: C hands the iterations as a number, and the four margins are a table of it, as in Specification 12.14.
#[tactic(auto, unfolding(crate::specs::Plan::step_margin))]
fn step_margin(iters: u32) -> u32
    ensures { (result ≡ step_margin iters) × (result ≤ 6) }
{
    match iters {
        0 => 0,
        1 => 2,
        2 => 3,
        _ => 6,
    }
}

// Form: a step is a number on the C boundary, and its scale is asked for here alone.
#[tactic(auto, unfolding(crate::specs::Plan::scale_of))]
fn scale_of(sigma: EpfSigma, step: u32) -> f32
    ensures { result ≡ scale_of sigma step }
{
    match step {
        0 => sigma.pass0_sigma_scale,
        1 => 1.0,
        _ => sigma.pass2_sigma_scale,
    }
}

impl Settings {
    // Form: C hands a number, so that every value has a meaning: 1 is on, and another than 0 and 1 is refused.
    fn gabor_on(&self) -> bool
        ensures { result ≡ gabor_on self.now }
    {
        flag_set(self.gabor.enabled)
    }

    fn gabor_passes(&self) -> u32
        ensures { (result ≡ one_if (gabor_on self.now)) × (result ≤ 1) }
    {
        u32::from(self.gabor_on())
    }

    // Whether the iterations are 0 to 3.
    pub fn iterations_fit(&self) -> bool
        ensures { result ≡ iterations_fit self.now }
    {
        self.epf.iters <= MAX_ITERS
    }

    // Whether the edge-preserving filter is on: only the iterations decide.
    pub fn epf_on(&self) -> bool
        ensures { result ≡ ltb 0 self.now.epf.iters }
    {
        0 < self.epf.iters
    }

    // The number of passes, whatever the number of planes.
    pub fn pass_count(&self) -> u32
        ensures { result ≡ pass_number self.now }
    {
        self.gabor_passes() + self.epf.iters.min(ALL_STEPS)
    }

    // The margin (Specification 12.14): how many samples must lie between a sample and each cut edge. Refused if
    // Gabor's flag or the iterations are out of range.
    // Form: the flag is C's number, as in `gabor_on`.
    #[tactic(auto, unfolding(crate::specs::Plan::margin_checks))]
    pub fn margin(&self) -> Result<u32, Refusal>
        ensures { IsOutcome result (margin_number self.now) (margin self.now) }
    {
        if !flag_fits(self.gabor.enabled) || !self.iterations_fit() {
            return Err(Refusal::OutOfRange);
        }
        Ok(self.gabor_passes() + step_margin(self.epf.iters))
    }

    // Whether a pass is the Gabor-like filter.
    // Form: a pass is a number in the record that C hands; callers ask `pass_at`, whose answer is an enum.
    #[tactic(auto, unfolding(crate::specs::Plan::gabor_at))]
    fn gabor_at(&self, pass: u32) -> bool
        ensures { result ≡ gabor_at self.now pass }
    {
        self.gabor_on() && pass == 0
    }

    // Form: the step that fewer iterations skip is a number to add, and no other code asks for it.
    #[tactic(auto, unfolding(crate::specs::Plan::step_index))]
    fn step_index(&self, pass: u32) -> u32
        ensures { result ≡ step_index self.now pass }
    {
        let skipped = usize::from(self.epf.iters < ALL_STEPS);
        let before = self.gabor_passes() as usize;
        let step = (pass as usize + skipped).saturating_sub(before);
        step.min(LAST_STEP) as u32
    }

    // The step of a pass that is not the Gabor-like filter, with the settings that it reads.
    #[tactic(auto, unfolding(crate::specs::Plan::step_of))]
    fn step_at(&self, pass: u32) -> EpfStep
        ensures { result ≡ step_of self.now (step_index self.now pass) }
    {
        let step = self.step_index(pass);
        let sigma = self.epf.sigma;
        EpfStep {
            step,
            channel_scale: self.epf.channel_scale,
            multiplier: scale_of(sigma, step),
            border_sad_mul: sigma.border_sad_mul,
        }
    }

    // What a pass runs; the last step for a number past the last pass.
    #[tactic(auto, unfolding(crate::specs::PassAt::pass_at))]
    pub fn pass_at(&self, pass: u32) -> Pass
        ensures { result ≡ pass_at self.now pass }
    {
        if self.gabor_at(pass) {
            return Pass::Gabor(self.gabor.weights);
        }
        Pass::Edge(self.step_at(pass))
    }
}

// Zeros: both filters are off.
// Form: the clause is the whole record `no_settings`, which definitions name; a derive's clause would say it field by field.
impl Default for Settings {
    ghost is_default = { λ s. s ≡ no_settings };

    fn default() -> Settings {
        Settings {
            gabor: GaborSettings::default(),
            epf: EpfSettings::default(),
        }
    }
}

// The answer of `margin`.
// Form: C's answer, a number with margin 0 beside a refusal; Rust callers get the `Result`. It stands here, since definitions and crate
// `instances` name it; that it has two numbers, as other structs have, is no common meaning.
impl From<Result<u32, Refusal>> for MarginAnswer {
    ghost from_gives = { λ margin answer. answer ≡ margin_answer margin };

    fn from(margin: Result<u32, Refusal>) -> MarginAnswer {
        match margin {
            Ok(margin) => MarginAnswer {
                number: ACCEPTED,
                margin,
            },
            Err(refusal) => MarginAnswer {
                number: u32::from(refusal),
                margin: 0,
            },
        }
    }
}
