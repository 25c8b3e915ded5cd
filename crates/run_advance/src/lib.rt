// The advance call of a run.
#![tactic(auto)]

ghost use Rattle.std.specs.Prelude.{◌≡◌};
ghost use Rattle.refusals.specs.Refusals.{number_of};
ghost use Rattle.run_outcomes.specs.declared.RunAnswer.{RunAnswer};
ghost use Rattle.run_outcomes.specs.Band.{advance_outcome};

use refusals::Refusal;
use run_record::Run;

// Advances to the next pass, or finishes the run.
#[tactic(auto, using(crate::proofs::Accepted::advance_rules))]
pub fn advance(run: &mut Run) -> Result<(), Refusal>
    ensures { ◌≡◌ {A = RunAnswer} (record { number = number_of result; run = run.new })
        (advance_outcome run.old) }
{
    run.check_advance()?;
    *run = Run::before(run.setup, run.pass + 1);
    Ok(())
}
