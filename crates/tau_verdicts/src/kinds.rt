//! Kinds of steps by which a point takes others, or is left.
ghost use Rattle.std.specs.Prelude.{◌≡◌};
ghost use Rattle.tau_heard.specs.Next.{falls_if_volatile};
ghost use Rattle.tau_verdicts.specs.Kinds.{taker, faller, closer, free_asker};

use tau_trace::Step;

/// The transactor by whose step a point takes others.
pub(crate) fn taker(step: &Step) -> Option<u32>
    ensures { result ≡ taker step.now }
{
    match step {
        Step::Set { who, .. } | Step::New { who, .. } => Some(*who),
        _ => None,
    }
}

/// The transactor whose step may be a falling one.
pub(crate) fn faller(step: &Step) -> Option<u32>
    ensures { result ≡ faller step.now }
{
    match step {
        Step::Fall { who, .. } | Step::Rollback { who } => Some(*who),
        Step::Trap { who, .. } | Step::Fail { who } => Some(*who),
        _ => None,
    }
}

/// Whether a step is a falling one only of a volatile transactor.
pub(crate) fn falls_if_volatile(step: &Step) -> bool
    ensures { result ≡ falls_if_volatile step.now }
{
    matches!(step, Step::Trap { .. } | Step::Fail { .. })
}

/// The transactor that closes its point.
pub(crate) fn closer(step: &Step) -> Option<u32>
    ensures { result ≡ closer step.now }
{
    match step {
        Step::Checkpoint { who } => Some(*who),
        _ => None,
    }
}

/// The transactor that asks whether it depends on anything that isn't firm, and is told that it doesn't.
pub(crate) fn free_asker(step: &Step) -> Option<u32>
    ensures { result ≡ free_asker step.now }
{
    match step {
        Step::Ask { who, answer: false } => Some(*who),
        _ => None,
    }
}
