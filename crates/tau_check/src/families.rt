//! The family of a step.
ghost use Rattle.std.specs.Prelude.{◌≡◌};
ghost use Rattle.tau_trace.specs.Steps.{received_by as received_message};
ghost use Rattle.tau_check.specs.Families.{turn_of as acting};

use tau_trace::Step;

/// The message that a Take, Drop, Fall, Void, Echo or Heed receives.
pub(crate) fn received_by(step: &Step) -> Option<u32>
    ensures { result ≡ received_message step.now }
{
    match step {
        Step::Take { message, .. }
        | Step::Drop { message, .. }
        | Step::Fall { message, .. }
        | Step::Void { message, .. }
        | Step::Echo { message, .. }
        | Step::Heed { message, .. } => Some(*message),
        _ => None,
    }
}

/// The transactor whose open turn makes the step.
pub(crate) fn turn_of(step: &Step) -> Option<u32>
    ensures { result ≡ acting step.now }
{
    match step {
        Step::Get { who }
        | Step::Set { who, .. }
        | Step::Skip { who }
        | Step::Send { who, .. }
        | Step::New { who, .. }
        | Step::Stabilize { who }
        | Step::Ask { who, .. }
        | Step::Checkpoint { who }
        | Step::Hold { who }
        | Step::Rollback { who }
        | Step::Stay { who }
        | Step::Done { who }
        | Step::Trap { who, .. } => Some(*who),
        _ => None,
    }
}
