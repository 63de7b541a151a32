//! What a step changes, with room for it.
ghost use Rattle.std.specs.Prelude.{◌≡◌, ◌<◌, ◌+◌, ◌-◌, ℕ, length, slice_get, Some, IsTrue, IfOk, OnOk, vec_len};
ghost use Rattle.std.specs.Vec.{vec_capacity};
ghost use Rattle.tau_trace.specs.Run.{appended};
ghost use Rattle.tau_trace.specs.Steps.{actor};
ghost use Rattle.tau_trace.specs.Known.{MayFollow};
ghost use Rattle.tau_past.specs.Carried.{is_set};
ghost use Rattle.tau_past.specs.Heard.{heard_by};
ghost use Rattle.tau_knowledge.specs.Knowing.{IsReady};
ghost use Rattle.tau_versions.specs.Logs.Told.{Told};
ghost use Rattle.tau_versions.specs.Logs.Reading.{takes_told};
ghost use Rattle.tau_heard.specs.declared.own.Own.{Own};
ghost use Rattle.tau_heard.specs.After.{Leads};
ghost use Rattle.tau_heard.specs.Hears.{Knows};
ghost use Rattle.tau_heard.specs.Kept.{IsSameKept, HasListRoom, HasActorStepRoom};
ghost use Rattle.tau_heard.specs.Next.{HasRoomNext};

use crate::change::HearingChange;
use crate::hearing::Hearing;
use crate::room::{make_log_room, make_message_room};
use std::alloc::AllocError;
use tau_trace::{Step, Trace};

impl Hearing {
    /// What a step at the end of the run changes, with all memory that it takes. What is kept stays the same, but for its
    /// room. The error is want of memory.
    pub fn prepare_change(
        &mut self,
        trace: &Trace,
        step: &Step,
    ) -> Result<HearingChange, AllocError>
        requires knows { Knows self.old trace.now.run }
        requires follows { MayFollow trace.now.run step.now }
        requires ready { IsReady trace.now.run step.now }
        ensures ok { IfOk result (λ c. Leads self.new c (appended trace.now.run step.now)) }
        ensures kept { Knows self.new trace.now.run }
    {
        // Its contract says that the trace is well-formed.
        let _steps = trace.len();
        self.make_room(step)?;
        self.change_of(trace, step)
    }

    /// Makes room for a step. The error is want of memory.
    fn make_room(&mut self, step: &Step) -> Result<(), AllocError>
        requires exists { (t : ℕ) → actor step.now ≡ Some t → (t < length self.old.logs.items) × (t < length self.old.own.items) }
        ensures kept { IsSameKept self.old self.new }
        ensures ok { OnOk result (HasRoomNext self.new step.now) }
    {
        self.make_list_room()?;
        match step.actor() {
            Some(who) => {
                self.make_actor_room(who, is_set(step), heard_by(step))?;
                Ok(())
            }
            None => Ok(()),
        }
    }

    /// Makes room for one log, one transactor and one message more. The error is want of memory.
    fn make_list_room(&mut self) -> Result<(), AllocError>
        ensures logs { self.new.logs.items ≡ self.old.logs.items }
        ensures own { self.new.own.items ≡ self.old.own.items }
        ensures letters { self.new.letters.items ≡ self.old.letters.items }
        ensures falls { self.new.falls ≡ self.old.falls }
        ensures ok { OnOk result (HasListRoom self.new) }
    {
        self.logs.reserve(1)?;
        self.own.reserve(1)?;
        self.letters.reserve(1)
    }

    /// Makes room for what a step of a transactor, a Set or another one, may add to its log, and for what it hears of. The error is
    /// want of memory.
    fn make_actor_room(
        &mut self,
        who: u32,
        sets: bool,
        message: Option<u32>,
    ) -> Result<(), AllocError>
        requires logs { who < length self.old.logs.items }
        requires own { who < length self.old.own.items }
        ensures kept { IsSameKept self.old self.new }
        ensures lists { HasListRoom self.old → HasListRoom self.new }
        ensures ok { OnOk result (HasActorStepRoom self.new who sets message) }
    {
        let takes = self.takes_needed(who, sets)?;
        make_log_room(&mut self.logs, who, takes)?;
        make_message_room(&mut self.own, &self.letters, who, message)
    }

    /// How many takes a step of a transactor may add to its log, none where it isn't a Set. The error comes where no list can hold
    /// so many.
    fn takes_needed(&self, who: u32, sets: bool) -> Result<usize, AllocError>
        ensures { IfOk result (λ k. (l : Told) (x : Own) → IsTrue sets → slice_get self.now.logs.items who ≡ Some l → slice_get self.now.own.items who ≡ Some x
            → length x.roots + length (takes_told l (length l.versions - 1)) ≡ k) }
    {
        if !sets {
            return Ok(0);
        }
        let roots = self.roots_len(who);
        let taken = self.taken_len(who);
        match roots.checked_add(taken) {
            Some(takes) => Ok(takes),
            None => Err(AllocError),
        }
    }

    /// How many roots a transactor has, 0 where it doesn't exist.
    fn roots_len(&self, who: u32) -> usize
        ensures { (x : Own) → slice_get self.now.own.items who ≡ Some x → result ≡ length x.roots }
    {
        match self.own.get(who as usize) {
            Some(own) => own.roots.len(),
            None => 0,
        }
    }

    /// How many takes its last version has, 0 where it doesn't exist.
    fn taken_len(&self, who: u32) -> usize
        ensures { (l : Told) → slice_get self.now.logs.items who ≡ Some l → result ≡ length (takes_told l (length l.versions - 1)) }
    {
        match self.log(who) {
            Some(log) => log.taken(log.len().saturating_sub(1)).len(),
            None => 0,
        }
    }
}

/// Whether a step is a Set.
fn is_set(step: &Step) -> bool
    ensures { result ≡ is_set step.now }
{
    matches!(step, Step::Set { .. })
}

/// The message of which a step hears.
fn heard_by(step: &Step) -> Option<u32>
    ensures { result ≡ heard_by step.now }
{
    match step {
        Step::Take { message, .. }
        | Step::Drop { message, .. }
        | Step::Fall { message, .. }
        | Step::Heed { message, .. } => Some(*message),
        _ => None,
    }
}
