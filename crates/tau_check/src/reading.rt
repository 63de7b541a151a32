//! What the checker reads of its system.
ghost use Rattle.std.specs.Prelude.{◌≡◌, ◌↔◌, Some, IsTrue};
ghost use Rattle.tau_trace.specs.Run.{len, step_at};
ghost use Rattle.tau_trace.specs.Known.{WellFormed};
ghost use Rattle.tau_trace.specs.Turns.{IsOpenTurn};
ghost use Rattle.tau_legal.specs.Traces.{Legal};

use crate::same::stands_at;
use tau_failures::LegalSystem;
use tau_trace::Step;
use tau_verdicts::MarkedHearing;

/// How many steps the run has.
pub(crate) fn length(system: &LegalSystem<'_, MarkedHearing>) -> u32
    ensures { result ≡ len system.now.system.run }
{
    system.trace().len()
}

/// The place of the open turn of a transactor, if one is open.
pub(crate) fn open_turn(system: &LegalSystem<'_, MarkedHearing>, who: u32) -> Option<u32>
    ensures { IsOpenTurn system.now.system.run who (len system.now.system.run) result }
{
    system.trace().open_turn(who)
}

/// Whether a step is the one at a place of the run.
pub(crate) fn has_made(system: &LegalSystem<'_, MarkedHearing>, place: u32, step: &Step) -> bool
    ensures made { IsTrue result ↔ (step_at system.now.system.run place ≡ Some step.now) }
    ensures well_formed { WellFormed system.now.system.run }
    ensures legal { Legal system.now.system.program system.now.system.run }
{
    stands_at(system.trace(), place, step)
}
