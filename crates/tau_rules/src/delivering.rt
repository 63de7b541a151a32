//! Messages delivered.
ghost use Rattle.std.specs.Prelude.{◌≡◌, ◌↔◌, ◌<◌, IsTrue, IfOk, IfErr};
ghost use Rattle.tau_value.specs.declared.limits.TheConstants.{STEP_LIMIT};
ghost use Rattle.tau_trace.specs.Run.{len};
ghost use Rattle.tau_trace.specs.Numbering.{sent, IsNotice};
ghost use Rattle.tau_past.specs.Decisions.{Verdict as VerdictAt, takes};
ghost use Rattle.tau_legal.specs.Fits.{Arrives, ArrivesLate, Echoes};
ghost use Rattle.tau_rules.specs.Answers.{IsDelivered, IsUndelivered, IsBegun};

use crate::records::RecordChange;
use crate::{DeliverError, Delivered, System};
use std::alloc::AllocError;
use tau_eval::{Job, begin};
use tau_knowledge::{Knowledge, Receipt};
use tau_trace::Step;

impl<'p, K: Knowledge + Drop> System<'p, K> {
    /// Delivers a message to its receiver: appends its Take, Drop, Fall or Void, or in version 2 its Echo or Heed, and gives
    /// with a Take the job of the turn that it opens (docs/rules.md, "Steps").
    /// `NotInFlight` comes exactly where the named step took the message; otherwise `Busy` exactly where the named turn of
    /// the receiver is open. After an error the system is as it was.
    pub fn deliver(&mut self, message: u32) -> Result<Delivered<'p>, DeliverError>
        requires exists { message < sent self.old.run (len self.old.run) }
        requires few { len self.old.run < STEP_LIMIT }
        ensures ok { IfOk result (IsDelivered self.old self.new message) }
        ensures unchanged { IfErr result (λ e. self.new ≡ self.old) }
        ensures err { IfErr result (IsUndelivered self.old.run message) }
    {
        if let Some(ended_by) = self.trace.ended_by(message) {
            return Err(DeliverError::NotInFlight { ended_by });
        }
        let Some(who) = self.trace.target(message) else {
            unreachable!()
        };
        if let Some(turn) = self.trace.open_turn(who) {
            return Err(DeliverError::Busy { turn });
        }
        if self.trace.end_of(who).is_some() {
            return Ok(self.receive_late(who, message)?);
        }
        match self.known.verdict(self.alloc, &self.trace, who, message)? {
            Receipt::Take => Ok(self.receive_take(who, message)?),
            Receipt::Drop => {
                self.append(Step::Drop { who, message }, RecordChange::Kept)?;
                Ok(Delivered::Dropped)
            }
            Receipt::Fall => {
                self.append(Step::Fall { who, message }, RecordChange::Kept)?;
                Ok(Delivered::Fell)
            }
        }
    }

    /// Appends the Void of a message to a receiver that has ended, or the Echo where that makes a notice.
    fn receive_late(&mut self, who: u32, message: u32) -> Result<Delivered<'p>, AllocError>
        requires few { len self.old.run < STEP_LIMIT }
        requires late { ArrivesLate self.old.run who message (len self.old.run) }
        ensures ok { IfOk result (IsDelivered self.old self.new message) }
        ensures err { IfErr result (λ e. self.new ≡ self.old) }
    {
        // Its contract says that the run is well-formed and fits.
        let _run = self.trace();
        if self.echoes(message) {
            self.append(Step::Echo { who, message }, RecordChange::Kept)?;
            return Ok(Delivered::Echoed);
        }
        self.append(Step::Void { who, message }, RecordChange::Kept)?;
        Ok(Delivered::Voided)
    }

    /// Whether the receipt of a message by a transactor that has ended makes a notice.
    fn echoes(&self, message: u32) -> bool
        ensures { IsTrue result ↔ Echoes self.now.program self.now.run message (len self.now.run) }
    {
        if self.program.version != 2 {
            return false;
        }
        if self.trace.is_notice(message) {
            return false;
        }
        match self.trace.sender(message) {
            Some(sender) => self.trace.end_of(sender).is_none(),
            None => false,
        }
    }

    /// Appends the Take of a message that its receiver can take, or the Heed of a notice.
    fn receive_take(&mut self, who: u32, message: u32) -> Result<Delivered<'p>, AllocError>
        requires few { len self.old.run < STEP_LIMIT }
        requires arrives { Arrives self.old.run who message (len self.old.run) }
        requires verdict { VerdictAt self.old.run who (len self.old.run) message takes }
        ensures ok { IfOk result (IsDelivered self.old self.new message) }
        ensures err { IfErr result (λ e. self.new ≡ self.old) }
    {
        // Its contract says that the run is well-formed.
        let run = self.trace();
        let notice = run.is_notice(message);
        if notice {
            self.append(Step::Heed { who, message }, RecordChange::Kept)?;
            return Ok(Delivered::Heeded);
        }
        Ok(Delivered::Began(self.begin_turn(who, message)?))
    }

    /// Appends the Take of a message that its receiver can take, and gives the job of its turn.
    fn begin_turn(&mut self, who: u32, message: u32) -> Result<Job<'p>, AllocError>
        requires few { len self.old.run < STEP_LIMIT }
        requires arrives { Arrives self.old.run who message (len self.old.run) }
        requires verdict { VerdictAt self.old.run who (len self.old.run) message takes }
        requires plain { ¬ IsNotice self.old.run message }
        ensures ok { IfOk result (IsBegun self.old self.new message) }
        ensures err { IfErr result (λ e. self.new ≡ self.old) }
    {
        let behaviour = self.records[who as usize].behaviour;
        let value = &self.values[message as usize];
        let turn = self.trace.len();
        let job = begin(
            self.alloc,
            self.program,
            who,
            behaviour,
            turn,
            value.copy()?,
        )?;
        let change = RecordChange::Begins {
            message: value.copy()?,
        };
        self.append(Step::Take { who, message }, change)?;
        Ok(job)
    }
}
