//! What a step changes, by its kind.
ghost use Rattle.std.specs.Prelude.{◌≡◌, ◌<◌, IfOk, IsTrue, Some, length, slice_get, vec_len};
ghost use Rattle.std.specs.Vec.{vec_capacity};
ghost use Rattle.tau_trace.specs.declared.step.Step.TheVariants.{Echo};
ghost use Rattle.tau_trace.specs.Run.{appended};
ghost use Rattle.tau_trace.specs.Steps.{actor, is_send};
ghost use Rattle.tau_heard.specs.declared.own.Own.{Own};
ghost use Rattle.tau_heard.specs.After.{Leads};
ghost use Rattle.tau_heard.specs.Hears.{Knows};
ghost use Rattle.tau_heard.specs.Kept.{AreSameOwn};
ghost use Rattle.tau_heard.specs.Next.{IsNext};

use crate::change::HearingChange;
use crate::hearing::Hearing;
use crate::room::share_numbers_of;
use std::alloc::AllocError;
use std::sync::Arc;
use tau_trace::{Step, Trace};

impl Hearing {
    /// What a step at the end of the run changes, for which there is room (docs/rules.md, "Steps"). What is kept says the same
    /// after it: by a Send or an Echo the numbers of its transactor are shared with the message that it makes. The error is
    /// want of memory.
    pub fn change_of(&mut self, trace: &Trace, step: &Step) -> Result<HearingChange, AllocError>
        requires next { IsNext self.old trace.now.run step.now }
        ensures ok { IfOk result (λ c. Leads self.new c (appended trace.now.run step.now)) }
        ensures kept { Knows self.new trace.now.run }
    {
        match step {
            Step::Take { who, message } => self.by_take(trace, step, *who, *message),
            Step::Drop { who, message } | Step::Heed { who, message } => {
                Ok(self.by_hearing(trace, step, *who, *message))
            }
            Step::Fall { who, message } => Ok(self.by_fall(trace, step, *who, *message)),
            Step::Void { who, message } => Ok(self.by_void(trace, step, *who, *message)),
            Step::Lose { message } => Ok(self.by_lose(trace, step, *message)),
            Step::Get { who } | Step::Skip { who } | Step::Ask { who, .. } => {
                Ok(self.by_touch(trace, step, *who))
            }
            Step::Set { who, .. } => self.by_set(trace, step, *who),
            Step::Stabilize { who } => Ok(self.by_stabilize(trace, step, *who)),
            Step::Send { who, .. } => self.share_and_send(trace, step, *who),
            Step::Echo { who, message } => self.share_and_echo(trace, step, *who, *message),
            Step::Repeat { message } => self.by_repeat(trace, step, *message),
            Step::New { who, .. } => self.by_new(trace, step, *who),
            Step::Checkpoint { who } => Ok(self.by_close(trace, step, *who)),
            Step::Rollback { who } => Ok(self.by_rollback(trace, step, *who)),
            Step::Trap { who, .. } | Step::Fail { who } => Ok(self.by_failure(trace, step, *who)),
            Step::Hold { who } | Step::Stay { who } | Step::Done { who } => {
                Ok(self.by_end(trace, step, *who))
            }
        }
    }

    /// A Send, by numbers that the message shares with its sender. The error is want of memory.
    fn share_and_send(
        &mut self,
        trace: &Trace,
        step: &Step,
        who: u32,
    ) -> Result<HearingChange, AllocError>
        requires next { IsNext self.old trace.now.run step.now }
        requires by { actor step.now ≡ Some who }
        requires kind { IsTrue (is_send step.now) }
        ensures ok { IfOk result (λ c. Leads self.new c (appended trace.now.run step.now)) }
        ensures kept { Knows self.new trace.now.run }
    {
        let numbers = self.share_numbers(who)?;
        self.by_send(trace, step, who, numbers)
    }

    /// An Echo, by numbers that the notice shares with the transactor that makes it. The error is want of memory.
    fn share_and_echo(
        &mut self,
        trace: &Trace,
        step: &Step,
        who: u32,
        message: u32,
    ) -> Result<HearingChange, AllocError>
        requires next { IsNext self.old trace.now.run step.now }
        requires kind { step.now ≡ Echo who message }
        ensures ok { IfOk result (λ c. Leads self.new c (appended trace.now.run step.now)) }
        ensures kept { Knows self.new trace.now.run }
    {
        let numbers = self.share_numbers(who)?;
        Ok(self.by_echo(trace, step, who, message, numbers))
    }

    /// Makes the numbers of a transactor shared, and gives another owner of them. The error is want of memory.
    fn share_numbers(&mut self, who: u32) -> Result<Arc<Vec<u32>>, AllocError>
        requires exists { who < length self.old.own.items }
        ensures own { AreSameOwn self.old.own.items self.new.own.items }
        ensures room { (vec_len self.new.own ≡ vec_len self.old.own) × (vec_capacity self.new.own ≡ vec_capacity self.old.own) }
        ensures others { (self.new.logs ≡ self.old.logs) × (self.new.letters ≡ self.old.letters) × (self.new.falls ≡ self.old.falls) }
        ensures numbers { IfOk result (λ a. (x : Own) → slice_get self.new.own.items who ≡ Some x → a.value.items ≡ x.numbers.numbers) }
    {
        share_numbers_of(&mut self.own, who)
    }
}
