//! Receipts made by the system, where it can't refuse them.
ghost use Rattle.std.specs.Prelude.{◌≡◌, ◌<◌, None, OnErr, IfOk};
ghost use Rattle.tau_value.specs.declared.limits.TheConstants.{STEP_LIMIT};
ghost use Rattle.tau_trace.specs.Run.{len};
ghost use Rattle.tau_trace.specs.Known.{WellFormed};
ghost use Rattle.tau_trace.specs.Turns.{IsOpenTurn};
ghost use Rattle.tau_script.specs.Scripts.{NoneDue};
ghost use Rattle.tau_legal.specs.Traces.{Legal};
ghost use Rattle.tau_rules.specs.Answers.{IsDelivered};
ghost use Rattle.tau_queue.specs.Flight.{IsWaiting};

use std::alloc::AllocError;
use tau_failures::LegalSystem;
use tau_knowledge::Knowledge;
use tau_mailbox::Letter;
use tau_rules::{DeliverError, Delivered};

/// Delivers a message in flight to its receiver, which is in no turn, where no step of the script is due.
pub(crate) fn make_receipt<'p, K: Knowledge + Drop>(
    system: &mut LegalSystem<'p, K>,
    letter: Letter,
) -> Result<Delivered<'p>, AllocError>
    requires few { len system.old.system.run < STEP_LIMIT }
    requires none_due { NoneDue system.old.system.program.script system.old.system.run (len system.old.system.run) }
    requires waits { IsWaiting system.old.system.run letter }
    requires idle { IsOpenTurn system.old.system.run letter.who (len system.old.system.run) None }
    ensures ok { IfOk result (IsDelivered system.old.system system.new.system letter.message) }
    ensures well_formed { WellFormed system.new.system.run }
    ensures legal { Legal system.new.system.program system.new.system.run }
    ensures err { OnErr result (system.new ≡ system.old) }
{
    match system.deliver(letter.message) {
        Ok(delivered) => Ok(delivered),
        Err(DeliverError::NotInFlight { .. }) => unreachable!(),
        Err(DeliverError::Busy { .. }) => unreachable!(),
        Err(DeliverError::NoMemory) => Err(AllocError),
    }
}
