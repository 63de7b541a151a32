//! What a Set, a Send, an Echo, a Repeat and a New change.
ghost use Rattle.std.specs.Prelude.{◌≡◌, ℕ, IfOk, IsTrue, Some, slice_get};
ghost use Rattle.tau_trace.specs.Run.{appended};
ghost use Rattle.tau_trace.specs.declared.step.Step.TheVariants.{Echo, Repeat};
ghost use Rattle.tau_trace.specs.Steps.{actor, is_send, is_new};
ghost use Rattle.tau_past.specs.Carried.{is_set};
ghost use Rattle.tau_heard.specs.declared.own.Own.{Own};
ghost use Rattle.tau_heard.specs.After.{Leads};
ghost use Rattle.tau_heard.specs.Next.{IsNext};

use crate::along::inherited;
use crate::change::{ActorChange, BoxedNewborn, HearingChange, LogChange, Newborn, TurnChange};
use crate::hearing::Hearing;
use crate::letter::{Letter, Sender};
use crate::own::Own;
use std::alloc::AllocError;
use std::sync::Arc;
use tau_trace::{Step, Trace};
use tau_versions::logs::Log;
use tau_versions::roots::{Roots, adding, fresh, is_none};

impl Hearing {
    /// A Set: the own point takes each root that it hasn't taken, and is touched. Where many points that it has taken are closed, they
    /// are left out. The error is want of memory.
    pub(crate) fn by_set(
        &self,
        trace: &Trace,
        step: &Step,
        who: u32,
    ) -> Result<HearingChange, AllocError>
        requires next { IsNext self.now trace.now.run step.now }
        requires by { actor step.now ≡ Some who }
        requires kind { IsTrue (is_set step.now) }
        ensures { IfOk result (λ c. Leads self.now c (appended trace.now.run step.now)) }
    {
        let own = self.own_of(trace, step, who);
        if own.depended {
            return Ok(HearingChange::of_turn(who, TurnChange::Depends));
        }
        let log = self.log_of(trace, step, who);
        let me = self.own_point(trace, step, who);
        let fresh = fresh(
            self.alloc,
            &own.roots,
            me,
            log.taken(log.len().saturating_sub(1)),
            self.logs.len(),
        )?;
        if is_none(&fresh) {
            return Ok(HearingChange::of_turn(who, TurnChange::Depends));
        }
        let version = self.last_version(trace, step, who);
        let heard = self.heard_before(trace, step, who);
        let from = trace.len() + 1;
        let added = adding(self.alloc, &self.logs, &heard, log, version, fresh, from)?;
        let change = LogChange::Takes(added.points, added.version);
        let actor = ActorChange::of(who, None, change, TurnChange::Depends);
        Ok(HearingChange::of_actor(actor, None, false))
    }

    /// A Send: the message has heard what its sender had heard. The error is want of memory.
    pub(crate) fn by_send(
        &self,
        trace: &Trace,
        step: &Step,
        who: u32,
        numbers: Arc<Vec<u32>>,
    ) -> Result<HearingChange, AllocError>
        requires next { IsNext self.now trace.now.run step.now }
        requires by { actor step.now ≡ Some who }
        requires kind { IsTrue (is_send step.now) }
        requires numbers { (x : Own) → slice_get self.now.own.items who ≡ Some x → numbers.value.items ≡ x.numbers.numbers }
        ensures { IfOk result (λ c. Leads self.now c (appended trace.now.run step.now)) }
    {
        let roots = self.along(trace, step, who)?;
        let version = self.last_number(trace, who);
        let sender = Sender {
            who,
            version,
            numbers,
        };
        Ok(HearingChange {
            actor: Some(ActorChange::of(who, None, LogChange::Stays, TurnChange::Stays)),
            newborn: None,
            gone: None,
            letter: Some(Letter {
                sender: Some(sender),
                roots,
            }),
            falls: false,
        })
    }

    /// An Echo: the message is gone, and the notice has heard what the transactor that makes it had heard. It carries nothing.
    pub(crate) fn by_echo(
        &self,
        trace: &Trace,
        _step: &Step,
        who: u32,
        message: u32,
        numbers: Arc<Vec<u32>>,
    ) -> HearingChange
        requires next { IsNext self.now trace.now.run _step.now }
        requires kind { _step.now ≡ Echo who message }
        requires numbers { (x : Own) → slice_get self.now.own.items who ≡ Some x → numbers.value.items ≡ x.numbers.numbers }
        ensures { Leads self.now result (appended trace.now.run _step.now) }
    {
        let version = self.last_number(trace, who);
        let sender = Sender {
            who,
            version,
            numbers,
        };
        HearingChange {
            actor: Some(ActorChange::of(who, None, LogChange::Stays, TurnChange::Stays)),
            newborn: None,
            gone: Some(message),
            letter: Some(Letter {
                sender: Some(sender),
                roots: Roots::none(),
            }),
            falls: false,
        }
    }

    /// A Repeat: the copy has heard and carries what the message does. The error is want of memory.
    pub(crate) fn by_repeat(
        &self,
        trace: &Trace,
        step: &Step,
        message: u32,
    ) -> Result<HearingChange, AllocError>
        requires next { IsNext self.now trace.now.run step.now }
        requires kind { step.now ≡ Repeat message }
        ensures { IfOk result (λ c. Leads self.now c (appended trace.now.run step.now)) }
    {
        let copy = self.repeated(trace, step, message).share()?;
        Ok(HearingChange {
            actor: None,
            newborn: None,
            gone: None,
            letter: Some(copy),
            falls: false,
        })
    }

    /// A New: the new transactor's first point takes what its creator takes along, and it has heard what its creator had
    /// heard. The error is want of memory.
    pub(crate) fn by_new(
        &self,
        trace: &Trace,
        step: &Step,
        who: u32,
    ) -> Result<HearingChange, AllocError>
        requires next { IsNext self.now trace.now.run step.now }
        requires by { actor step.now ≡ Some who }
        requires kind { IsTrue (is_new step.now) }
        ensures { IfOk result (λ c. Leads self.now c (appended trace.now.run step.now)) }
    {
        let along = self.along(trace, step, who)?;
        let takes = along.to_vec(self.alloc)?;
        if u32::try_from(takes.len()).is_err() {
            return Err(AllocError);
        }
        let version = self.last_number(trace, who);
        let creator = self.own_of(trace, step, who);
        let numbers = inherited(self.alloc, creator.numbers.items(), who, version)?;
        let newborn = Newborn {
            log: Log::newborn(self.alloc, &takes)?,
            own: Own {
                numbers,
                roots: Roots::none(),
                touched: false,
                depended: false,
            },
        };
        let boxed = BoxedNewborn::new(self.alloc, newborn)?;
        Ok(HearingChange {
            actor: Some(ActorChange::of(who, None, LogChange::Stays, TurnChange::Stays)),
            newborn: Some(boxed),
            gone: None,
            letter: None,
            falls: false,
        })
    }
}
