//! What each kind of step changes.
ghost use Rattle.std.specs.Prelude.{◌≡◌, suc, IfOk, IsTrue, Some, slice_get};
ghost use Rattle.tau_trace.specs.declared.step.Step.TheVariants.{Take, Fall, Void, Stabilize, Checkpoint, Rollback, Lose};
ghost use Rattle.tau_trace.specs.Run.{len, appended};
ghost use Rattle.tau_trace.specs.Steps.{actor};
ghost use Rattle.tau_past.specs.Heard.{heard_by, Heard};
ghost use Rattle.tau_heard.specs.declared.letter.Letter.{Letter};
ghost use Rattle.tau_heard.specs.After.{Leads};
ghost use Rattle.tau_heard.specs.Laws.{WithoutClosed};
ghost use Rattle.tau_heard.specs.Next.{IsNext, only_touches, only_hears, only_ends, falls_if_volatile};

use crate::change::{ActorChange, HearingChange, LogChange, TurnChange};
use crate::hearing::Hearing;
use std::alloc::AllocError;
use tau_trace::{Step, Trace};
use tau_versions::roots::Roots;

impl Hearing {
    /// A Take: the numbers are raised, and the turn begins with what the message carries and isn't closed by what its receiver
    /// and it have heard. The error is want of memory.
    pub(crate) fn by_take(
        &self,
        trace: &Trace,
        step: &Step,
        who: u32,
        message: u32,
    ) -> Result<HearingChange, AllocError>
        requires next { IsNext self.now trace.now.run step.now }
        requires kind { step.now ≡ Take who message }
        ensures { IfOk result (λ c. Leads self.now c (appended trace.now.run step.now)) }
    {
        let roots = self.roots_taken(trace, step, who, message)?;
        let hears = self.news(trace, step, who, message);
        let actor = ActorChange::of(who, hears, LogChange::Stays, TurnChange::Begins(roots));
        Ok(HearingChange::of_actor(actor, Some(message), false))
    }

    /// What the message that a step hears of carries and isn't closed. The error is want of memory.
    fn roots_taken(
        &self,
        trace: &Trace,
        step: &Step,
        who: u32,
        message: u32,
    ) -> Result<Roots, AllocError>
        requires next { IsNext self.now trace.now.run step.now }
        requires by { actor step.now ≡ Some who }
        requires hears { heard_by step.now ≡ Some message }
        ensures { IfOk result (λ r. (l : Letter) → slice_get self.now.letters.items message ≡ Some (Some l)
            → WithoutClosed (appended trace.now.run step.now) (Heard (appended trace.now.run step.now) who (suc (len trace.now.run))) l.roots r) }
    {
        let heard = self.heard_together(trace, step, who, message);
        let letter = self.letter(trace, step, message);
        let roots = letter.roots.unclosed(self.alloc, &self.logs, &heard)?;
        Ok(roots)
    }

    /// A Drop or a Heed: the numbers are raised.
    pub(crate) fn by_hearing(
        &self,
        trace: &Trace,
        step: &Step,
        who: u32,
        message: u32,
    ) -> HearingChange
        requires next { IsNext self.now trace.now.run step.now }
        requires by { actor step.now ≡ Some who }
        requires kind { IsTrue (only_hears step.now) }
        requires hears { heard_by step.now ≡ Some message }
        ensures { Leads self.now result (appended trace.now.run step.now) }
    {
        let hears = self.news(trace, step, who, message);
        let actor = ActorChange::of(who, hears, LogChange::Stays, TurnChange::Stays);
        HearingChange::of_actor(actor, Some(message), false)
    }

    /// A Fall: the numbers are raised, and the transactor falls. The message stays in flight.
    pub(crate) fn by_fall(
        &self,
        trace: &Trace,
        step: &Step,
        who: u32,
        message: u32,
    ) -> HearingChange
        requires next { IsNext self.now trace.now.run step.now }
        requires kind { step.now ≡ Fall who message }
        ensures { Leads self.now result (appended trace.now.run step.now) }
    {
        let hears = self.news(trace, step, who, message);
        let log = LogChange::Moves(self.fallen(trace, step, who));
        HearingChange::of_actor(
            ActorChange::of(who, hears, log, TurnChange::Ends),
            None,
            true,
        )
    }

    /// A Void: the message is gone, and nobody has heard of it.
    pub(crate) fn by_void(
        &self,
        _trace: &Trace,
        _step: &Step,
        who: u32,
        message: u32,
    ) -> HearingChange
        requires next { IsNext self.now _trace.now.run _step.now }
        requires kind { _step.now ≡ Void who message }
        ensures { Leads self.now result (appended _trace.now.run _step.now) }
    {
        let actor = ActorChange::of(who, None, LogChange::Stays, TurnChange::Stays);
        HearingChange::of_actor(actor, Some(message), false)
    }

    /// A Lose: the message is gone.
    pub(crate) fn by_lose(&self, _trace: &Trace, _step: &Step, message: u32) -> HearingChange
        requires next { IsNext self.now _trace.now.run _step.now }
        requires kind { _step.now ≡ Lose message }
        ensures { Leads self.now result (appended _trace.now.run _step.now) }
    {
        HearingChange {
            actor: None,
            newborn: None,
            gone: Some(message),
            letter: None,
            falls: false,
        }
    }

    /// A Get, a Skip or an Ask: the own point is touched.
    pub(crate) fn by_touch(&self, _trace: &Trace, _step: &Step, who: u32) -> HearingChange
        requires next { IsNext self.now _trace.now.run _step.now }
        requires by { actor _step.now ≡ Some who }
        requires kind { IsTrue (only_touches _step.now) }
        ensures { Leads self.now result (appended _trace.now.run _step.now) }
    {
        HearingChange::of_turn(who, TurnChange::Touches)
    }

    /// A Stabilize: the history is stable, and the own point is touched.
    pub(crate) fn by_stabilize(&self, trace: &Trace, step: &Step, who: u32) -> HearingChange
        requires next { IsNext self.now trace.now.run step.now }
        requires kind { step.now ≡ Stabilize who }
        ensures { Leads self.now result (appended trace.now.run step.now) }
    {
        let version = self.last_version(trace, step, who);
        let log = LogChange::Moves(version.stabilized(trace.len() + 1));
        HearingChange::of_actor(
            ActorChange::of(who, None, log, TurnChange::Touches),
            None,
            false,
        )
    }

    /// A Checkpoint: the interval is closed, and the turn ends.
    pub(crate) fn by_close(&self, trace: &Trace, step: &Step, who: u32) -> HearingChange
        requires next { IsNext self.now trace.now.run step.now }
        requires kind { step.now ≡ Checkpoint who }
        ensures { Leads self.now result (appended trace.now.run step.now) }
    {
        let version = self.last_version(trace, step, who);
        let log = LogChange::Closes(version.incarnation, self.closed(trace, step, who));
        HearingChange::of_actor(
            ActorChange::of(who, None, log, TurnChange::Ends),
            None,
            false,
        )
    }

    /// A Rollback: the transactor falls.
    pub(crate) fn by_rollback(&self, trace: &Trace, step: &Step, who: u32) -> HearingChange
        requires next { IsNext self.now trace.now.run step.now }
        requires kind { step.now ≡ Rollback who }
        ensures { Leads self.now result (appended trace.now.run step.now) }
    {
        let log = LogChange::Moves(self.fallen(trace, step, who));
        HearingChange::of_actor(
            ActorChange::of(who, None, log, TurnChange::Ends),
            None,
            true,
        )
    }

    /// A Trap or a Fail: a volatile transactor falls, and the turn of a stable one ends.
    pub(crate) fn by_failure(&self, trace: &Trace, step: &Step, who: u32) -> HearingChange
        requires next { IsNext self.now trace.now.run step.now }
        requires by { actor step.now ≡ Some who }
        requires kind { IsTrue (falls_if_volatile step.now) }
        ensures { Leads self.now result (appended trace.now.run step.now) }
    {
        if self.last_version(trace, step, who).stable {
            return HearingChange::of_turn(who, TurnChange::Ends);
        }
        let log = LogChange::Moves(self.fallen(trace, step, who));
        HearingChange::of_actor(
            ActorChange::of(who, None, log, TurnChange::Ends),
            None,
            true,
        )
    }

    /// A Hold, a Stay or a Done: the turn ends.
    pub(crate) fn by_end(&self, _trace: &Trace, _step: &Step, who: u32) -> HearingChange
        requires next { IsNext self.now _trace.now.run _step.now }
        requires by { actor _step.now ≡ Some who }
        requires kind { IsTrue (only_ends _step.now) }
        ensures { Leads self.now result (appended _trace.now.run _step.now) }
    {
        HearingChange::of_turn(who, TurnChange::Ends)
    }
}
