//! Failures and repeats of the script.
ghost use Rattle.std.specs.Prelude.{◌≡◌, ◌<◌, OnOk, IfErr};
ghost use Rattle.tau_value.specs.declared.limits.TheConstants.{STEP_LIMIT};
ghost use Rattle.tau_trace.specs.declared.step.Step.TheVariants as steps;
ghost use Rattle.tau_trace.specs.Run.{len};
ghost use Rattle.tau_trace.specs.Numbering.{born, sent};
ghost use Rattle.tau_rules.specs.Answers.{IsUnfailed, IsUnlost, IsUnrepeated};
ghost use Rattle.tau_rules.specs.System.{with_step};

use crate::records::RecordChange;
use crate::{FailError, LoseError, RepeatError, System};
use tau_knowledge::Knowledge;
use tau_trace::Step;

impl<'p, K: Knowledge + Drop> System<'p, K> {
    /// Lets a transactor fail: appends its Fail (docs/rules.md, "Steps").
    /// `Ended` comes exactly where it ended at the named step. After an error the system is as it was.
    pub fn fail(&mut self, who: u32) -> Result<(), FailError>
        requires exists { who < born self.old.run (len self.old.run) }
        requires few { len self.old.run < STEP_LIMIT }
        ensures ok { OnOk result (self.new ≡ with_step self.old (steps.Fail who)) }
        ensures unchanged { IfErr result (λ e. self.new ≡ self.old) }
        ensures err { IfErr result (IsUnfailed self.old.run who) }
    {
        if let Some(place) = self.trace.end_of(who) {
            return Err(FailError::Ended { place });
        }
        self.append(Step::Fail { who }, RecordChange::Kept)?;
        Ok(())
    }

    /// Loses a message: appends its Lose (docs/rules.md, "Steps").
    /// `NotInFlight` comes exactly where the named step took the message. After an error the system is as it was.
    pub fn lose(&mut self, message: u32) -> Result<(), LoseError>
        requires exists { message < sent self.old.run (len self.old.run) }
        requires few { len self.old.run < STEP_LIMIT }
        ensures ok { OnOk result (self.new ≡ with_step self.old (steps.Lose message)) }
        ensures unchanged { IfErr result (λ e. self.new ≡ self.old) }
        ensures err { IfErr result (IsUnlost self.old.run message) }
    {
        if let Some(ended_by) = self.trace.ended_by(message) {
            return Err(LoseError::NotInFlight { ended_by });
        }
        self.append(Step::Lose { message }, RecordChange::Kept)?;
        Ok(())
    }

    /// Repeats a message, in version 2: appends its Repeat, which makes a copy of it (docs/rules.md, "Steps").
    /// `NotInFlight` comes exactly where the named step took the message. After an error the system is as it was.
    pub fn repeat(&mut self, message: u32) -> Result<(), RepeatError>
        requires exists { message < sent self.old.run (len self.old.run) }
        requires version { self.old.run.opening.version ≡ 2 }
        requires few { len self.old.run < STEP_LIMIT }
        ensures ok { OnOk result (self.new ≡ with_step self.old (steps.Repeat message)) }
        ensures unchanged { IfErr result (λ e. self.new ≡ self.old) }
        ensures err { IfErr result (IsUnrepeated self.old.run message) }
    {
        if let Some(ended_by) = self.trace.ended_by(message) {
            return Err(RepeatError::NotInFlight { ended_by });
        }
        self.append(Step::Repeat { message }, RecordChange::Kept)?;
        Ok(())
    }
}
