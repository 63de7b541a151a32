//! Steps of the script made by the system, where it can't refuse them.
ghost use Rattle.std.specs.Prelude.{◌≡◌, ◌<◌, ℕ, OnOk, OnErr};
ghost use Rattle.tau_value.specs.declared.limits.TheConstants.{STEP_LIMIT};
ghost use Rattle.tau_trace.specs.declared.step.Step.TheVariants as steps;
ghost use Rattle.tau_trace.specs.Run.{len};
ghost use Rattle.tau_trace.specs.Numbering.{born, InFlight};
ghost use Rattle.tau_trace.specs.Histories.{IsLiving};
ghost use Rattle.tau_script.specs.Scripts.{HasObject};
ghost use Rattle.tau_rules.specs.System.{with_step};
ghost use Rattle.tau_failures.specs.Dues.{step_of};

use crate::Due;
use std::alloc::AllocError;
use tau_knowledge::Knowledge;
use tau_rules::{FailError, LoseError, RepeatError, System};

/// Makes what is due.
pub(crate) fn make<'p, K: Knowledge + Drop>(
    system: &mut System<'p, K>,
    due: Due,
) -> Result<(), AllocError>
    requires few { len system.old.run < STEP_LIMIT }
    requires object { HasObject system.old.run (len system.old.run) (step_of due) }
    requires version { (m : ℕ) → step_of due ≡ steps.Repeat m → system.old.run.opening.version ≡ 2 }
    ensures ok { OnOk result (system.new ≡ with_step system.old (step_of due)) }
    ensures err { OnErr result (system.new ≡ system.old) }
{
    match due {
        Due::Fail { who } => make_fail(system, who),
        Due::Lose { message } => make_lose(system, message),
        Due::Repeat { message } => make_repeat(system, message),
    }
}

/// Lets a transactor that hasn't ended fail.
fn make_fail<'p, K: Knowledge + Drop>(
    system: &mut System<'p, K>,
    who: u32,
) -> Result<(), AllocError>
    requires few { len system.old.run < STEP_LIMIT }
    requires exists { who < born system.old.run (len system.old.run) }
    requires living { IsLiving system.old.run who (len system.old.run) }
    ensures ok { OnOk result (system.new ≡ with_step system.old (steps.Fail who)) }
    ensures err { OnErr result (system.new ≡ system.old) }
{
    match system.fail(who) {
        Ok(()) => Ok(()),
        Err(FailError::Ended { .. }) => unreachable!(),
        Err(FailError::NoMemory) => Err(AllocError),
    }
}

/// Loses a message in flight.
fn make_lose<'p, K: Knowledge + Drop>(
    system: &mut System<'p, K>,
    message: u32,
) -> Result<(), AllocError>
    requires few { len system.old.run < STEP_LIMIT }
    requires in_flight { InFlight system.old.run message (len system.old.run) }
    ensures ok { OnOk result (system.new ≡ with_step system.old (steps.Lose message)) }
    ensures err { OnErr result (system.new ≡ system.old) }
{
    match system.lose(message) {
        Ok(()) => Ok(()),
        Err(LoseError::NotInFlight { .. }) => unreachable!(),
        Err(LoseError::NoMemory) => Err(AllocError),
    }
}

/// Repeats a message in flight.
fn make_repeat<'p, K: Knowledge + Drop>(
    system: &mut System<'p, K>,
    message: u32,
) -> Result<(), AllocError>
    requires few { len system.old.run < STEP_LIMIT }
    requires in_flight { InFlight system.old.run message (len system.old.run) }
    requires version { system.old.run.opening.version ≡ 2 }
    ensures ok { OnOk result (system.new ≡ with_step system.old (steps.Repeat message)) }
    ensures err { OnErr result (system.new ≡ system.old) }
{
    match system.repeat(message) {
        Ok(()) => Ok(()),
        Err(RepeatError::NotInFlight { .. }) => unreachable!(),
        Err(RepeatError::NoMemory) => Err(AllocError),
    }
}
