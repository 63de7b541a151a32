//! Steps that aren't the script's, where none of it is due.
ghost use Rattle.std.specs.Prelude.{◌≡◌, ◌<◌, IfOk, IfErr, OnErr};
ghost use Rattle.tau_value.specs.declared.limits.TheConstants.{STEP_LIMIT};
ghost use Rattle.tau_trace.specs.Run.{len};
ghost use Rattle.tau_trace.specs.Known.{WellFormed};
ghost use Rattle.tau_trace.specs.Numbering.{sent};
ghost use Rattle.tau_script.specs.Scripts.{NoneDue};
ghost use Rattle.tau_legal.specs.Traces.{Legal};
ghost use Rattle.tau_rules.specs.Answers.{IsOpenJob, IsDelivered, IsUndelivered, IsActed, IsUnacted, acted_by};

use crate::LegalSystem;
use crate::cursors::due_by;
use std::alloc::AllocError;
use tau_eval::Pending;
use tau_knowledge::Knowledge;
use tau_rules::{ActError, Acted, DeliverError, Delivered};
use tau_value::Value;

impl<'p, K: Knowledge + Drop> LegalSystem<'p, K> {
    /// Delivers a message to its receiver, as `System::deliver` does (docs/rules.md, "Steps"). No step of the script is due. After an
    /// error nothing is different.
    pub fn deliver(&mut self, message: u32) -> Result<Delivered<'p>, DeliverError>
        requires exists { message < sent self.old.system.run (len self.old.system.run) }
        requires few { len self.old.system.run < STEP_LIMIT }
        requires none_due { NoneDue self.old.system.program.script self.old.system.run (len self.old.system.run) }
        ensures ok { IfOk result (IsDelivered self.old.system self.new.system message) }
        ensures well_formed { WellFormed self.new.system.run }
        ensures legal { Legal self.new.system.program self.new.system.run }
        ensures unchanged { IfErr result (λ e. self.new ≡ self.old) }
        ensures err { IfErr result (IsUndelivered self.old.system.run message) }
    {
        let delivered = self.system.deliver(message)?;
        let _due = due_by(&self.system, &mut self.cursor);
        Ok(delivered)
    }

    /// Makes the step of an effect that a turn has come to, as `System::act` does (docs/rules.md, "Steps"). No step of the script
    /// is due. After `Redo` and after an error nothing is different.
    pub fn act(&mut self, pending: &Pending<'p>) -> Result<Acted<'p>, ActError>
        requires few { len self.old.system.run < STEP_LIMIT }
        requires none_due { NoneDue self.old.system.program.script self.old.system.run (len self.old.system.run) }
        ensures ok { IfOk result (IsActed self.old.system self.new.system pending.now) }
        ensures same { self.new.system ≡ self.old.system → self.new ≡ self.old }
        ensures well_formed { WellFormed self.new.system.run }
        ensures legal { Legal self.new.system.program self.new.system.run }
        ensures unchanged { IfErr result (λ e. self.new ≡ self.old) }
        ensures err { IfErr result (IsUnacted self.old.system.run pending.now.place) }
    {
        let acted = self.system.act(pending)?;
        let _due = due_by(&self.system, &mut self.cursor);
        Ok(acted)
    }

    /// `act` where it is known that the job is the record of a turn that is open, as `System::act_open` (docs/rules.md, "Steps"): the
    /// reply after a step with which the turn goes on, `None` after one that ends it. No step of the script is due. The error is want
    /// of memory, and nothing is different then.
    pub fn act_open(&mut self, pending: &Pending<'p>) -> Result<Option<Value>, AllocError>
        requires few { len self.old.system.run < STEP_LIMIT }
        requires none_due { NoneDue self.old.system.program.script self.old.system.run (len self.old.system.run) }
        requires is_open { IsOpenJob self.old.system.program self.old.system.run pending.now }
        ensures ok { IfOk result (λ r. IsActed self.old.system self.new.system pending.now (acted_by r)) }
        ensures well_formed { WellFormed self.new.system.run }
        ensures legal { Legal self.new.system.program self.new.system.run }
        ensures unchanged { OnErr result (self.new ≡ self.old) }
    {
        let reply = self.system.act_open(pending)?;
        let _due = due_by(&self.system, &mut self.cursor);
        Ok(reply)
    }
}
