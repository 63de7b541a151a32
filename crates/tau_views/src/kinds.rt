//! What each kind of step changes in the views.
ghost use Rattle.std.specs.Prelude.{◌≡◌, IfOk, IsTrue, None, Some};
ghost use Rattle.tau_history.specs.Timeline.{keep, fall};
ghost use Rattle.tau_trace.specs.declared.step.Step.TheVariants.{Take, Fall, Stabilize, Checkpoint, Echo, Repeat};
ghost use Rattle.tau_trace.specs.Steps.{actor, removed_by, ends_turn, is_send, is_new};
ghost use Rattle.tau_trace.specs.Run.{len};
ghost use Rattle.tau_trace.specs.Histories as histories;
ghost use Rattle.tau_past.specs.Carried.{is_set};
ghost use Rattle.tau_past.specs.Heard.{heard_by};
ghost use Rattle.tau_views.specs.Laws.{only_touches, only_hears};
ghost use Rattle.tau_views.specs.Inner.Next.{IsChange, falls_if_volatile, only_removes};

use crate::after::{
    after_leaving, after_merge, after_new, after_set, after_stabilize, after_take, after_touch,
    after_turn,
};
use crate::preparing::NextStep;
use crate::views::ViewChange;
use std::alloc::{AllocError, Global};
use tau_view::View;

impl<'a, V: View + Drop> NextStep<'a, V> {
    /// A Take: the message's facts are merged in, and its roots become the transactor's.
    pub(crate) fn by_take(&self, who: u32, message: u32) -> Result<ViewChange<V>, AllocError>
        requires kind { self.now.step ≡ Take who message }
        ensures { IfOk result (IsChange V.drops_edge V.drops_root V.held self.now) }
    {
        let view = self.views.own_view(self.trace, who);
        let letter = self.views.letter_view(self.trace, message);
        let next = after_take(view, letter)?;
        Ok(ViewChange::own(who, next, Some(message)))
    }

    /// A Drop or a Heed: the message's facts are merged in.
    pub(crate) fn by_merge(&self, who: u32, message: u32) -> Result<ViewChange<V>, AllocError>
        requires by { actor self.now.step ≡ Some who }
        requires kind { IsTrue (only_hears self.now.step) }
        requires hears { heard_by self.now.step ≡ Some message }
        ensures { IfOk result (IsChange V.drops_edge V.drops_root V.held self.now) }
    {
        let view = self.views.own_view(self.trace, who);
        let letter = self.views.letter_view(self.trace, message);
        let next = after_merge(view, letter)?;
        Ok(ViewChange::own(who, next, Some(message)))
    }

    /// A Fall: the message's facts are merged in, and the transactor falls. The message stays in flight.
    pub(crate) fn by_fall(&self, who: u32, message: u32) -> Result<ViewChange<V>, AllocError>
        requires kind { self.now.step ≡ Fall who message }
        ensures { IfOk result (IsChange V.drops_edge V.drops_root V.held self.now) }
    {
        let view = self.views.own_view(self.trace, who);
        let letter = self.views.letter_view(self.trace, message);
        let mut history = self.views.own_history(self.trace, who).copy()?;
        history.fall();
        let merged = after_merge(view, letter)?;
        let next = after_leaving(&merged, who, &history)?;
        Ok(ViewChange::own(who, next, None))
    }

    /// A Void or a Lose: the message is gone, and nobody has heard of it.
    pub(crate) fn by_removal(&self, message: u32) -> ViewChange<V>
        requires kind { IsTrue (only_removes self.now.step) }
        requires removed { removed_by self.now.step ≡ Some message }
        ensures { IsChange V.drops_edge V.drops_root V.held self.now result }
    {
        // Where a field is read, what holds of the views and the step is known.
        let _step = self.step;
        ViewChange {
            own: None,
            newborn: None,
            letter: None,
            gone: Some(message),
        }
    }

    /// A Get, a Skip or an Ask: the own point is touched.
    pub(crate) fn by_touch(&self, who: u32) -> Result<ViewChange<V>, AllocError>
        requires by { actor self.now.step ≡ Some who }
        requires kind { IsTrue (only_touches self.now.step) }
        ensures { IfOk result (IsChange V.drops_edge V.drops_root V.held self.now) }
    {
        let view = self.views.own_view(self.trace, who);
        let next = after_touch(view, self.views.own_point(self.trace, who))?;
        Ok(ViewChange::own(who, next, None))
    }

    /// A Set: the own point depends on the roots, and is touched.
    pub(crate) fn by_set(&self, who: u32) -> Result<ViewChange<V>, AllocError>
        requires by { actor self.now.step ≡ Some who }
        requires kind { IsTrue (is_set self.now.step) }
        ensures { IfOk result (IsChange V.drops_edge V.drops_root V.held self.now) }
    {
        let view = self.views.own_view(self.trace, who);
        let next = after_set(view, self.views.own_point(self.trace, who))?;
        Ok(ViewChange::own(who, next, None))
    }

    /// A Stabilize: the history is stable, and the own point is touched.
    pub(crate) fn by_stabilize(&self, who: u32) -> Result<ViewChange<V>, AllocError>
        requires kind { self.now.step ≡ Stabilize who }
        ensures { IfOk result (IsChange V.drops_edge V.drops_root V.held self.now) }
    {
        let view = self.views.own_view(self.trace, who);
        let mut history = self.views.own_history(self.trace, who).copy()?;
        history.stabilize();
        let next = after_stabilize(view, who, &history, self.views.own_point(self.trace, who))?;
        Ok(ViewChange::own(who, next, None))
    }

    /// A Send: the message has heard what its sender had heard.
    pub(crate) fn by_send(&self, who: u32) -> Result<ViewChange<V>, AllocError>
        requires by { actor self.now.step ≡ Some who }
        requires kind { IsTrue (is_send self.now.step) }
        ensures { IfOk result (IsChange V.drops_edge V.drops_root V.held self.now) }
    {
        let letter = self.views.own_view(self.trace, who).try_copy()?;
        Ok(ViewChange {
            own: None,
            newborn: None,
            letter: Some(letter),
            gone: None,
        })
    }

    /// An Echo: the message is gone, and the notice has heard what the transactor that makes it had heard.
    pub(crate) fn by_echo(&self, who: u32, message: u32) -> Result<ViewChange<V>, AllocError>
        requires kind { self.now.step ≡ Echo who message }
        ensures { IfOk result (IsChange V.drops_edge V.drops_root V.held self.now) }
    {
        let letter = after_turn(self.views.own_view(self.trace, who))?;
        Ok(ViewChange {
            own: None,
            newborn: None,
            letter: Some(letter),
            gone: Some(message),
        })
    }

    /// A Repeat: the copy has heard what the message has heard.
    pub(crate) fn by_copy(&self, message: u32) -> Result<ViewChange<V>, AllocError>
        requires kind { self.now.step ≡ Repeat message }
        ensures { IfOk result (IsChange V.drops_edge V.drops_root V.held self.now) }
    {
        let letter = self.views.letter_view(self.trace, message).try_copy()?;
        Ok(ViewChange {
            own: None,
            newborn: None,
            letter: Some(letter),
            gone: None,
        })
    }

    /// A New: the new transactor depends on the roots, and has heard what its creator had heard.
    pub(crate) fn by_new(&self, alloc: Global, who: u32) -> Result<ViewChange<V>, AllocError>
        requires by { actor self.now.step ≡ Some who }
        requires kind { IsTrue (is_new self.now.step) }
        ensures { IfOk result (IsChange V.drops_edge V.drops_root V.held self.now) }
    {
        let next = after_new(
            alloc,
            self.views.own_view(self.trace, who),
            self.trace.born(),
        )?;
        let newborn = after_turn(&next)?;
        Ok(ViewChange {
            own: Some((who, next)),
            newborn: Some(newborn),
            letter: None,
            gone: None,
        })
    }

    /// A Checkpoint: the interval is closed, and the turn ends.
    pub(crate) fn by_close(&self, who: u32) -> Result<ViewChange<V>, AllocError>
        requires kind { self.now.step ≡ Checkpoint who }
        ensures { IfOk result (IsChange V.drops_edge V.drops_root V.held self.now) }
    {
        let view = self.views.own_view(self.trace, who);
        let mut history = self.views.own_history(self.trace, who).copy()?;
        history.close()?;
        let next = after_leaving(view, who, &history)?;
        Ok(ViewChange::own(who, next, None))
    }

    /// A step by which the transactor falls and hears of no message.
    pub(crate) fn by_leaving(&self, who: u32) -> Result<ViewChange<V>, AllocError>
        requires by { actor self.now.step ≡ Some who }
        requires falls { histories.move_of (histories.history self.now.run who (len self.now.run)).stable self.now.step ≡ fall }
        requires alone { heard_by self.now.step ≡ None }
        ensures { IfOk result (IsChange V.drops_edge V.drops_root V.held self.now) }
    {
        let view = self.views.own_view(self.trace, who);
        let mut history = self.views.own_history(self.trace, who).copy()?;
        history.fall();
        let next = after_leaving(view, who, &history)?;
        Ok(ViewChange::own(who, next, None))
    }

    /// A Trap or a Fail: a volatile transactor falls, and the turn of a stable one ends.
    pub(crate) fn by_failure(&self, who: u32) -> Result<ViewChange<V>, AllocError>
        requires by { actor self.now.step ≡ Some who }
        requires kind { IsTrue (falls_if_volatile self.now.step) }
        ensures { IfOk result (IsChange V.drops_edge V.drops_root V.held self.now) }
    {
        if self.views.own_history(self.trace, who).is_stable() {
            self.by_end(who)
        } else {
            self.by_leaving(who)
        }
    }

    /// A step by which the turn ends and the history stays.
    pub(crate) fn by_end(&self, who: u32) -> Result<ViewChange<V>, AllocError>
        requires by { actor self.now.step ≡ Some who }
        requires ends { IsTrue (ends_turn self.now.step) }
        requires keeps { histories.move_of (histories.history self.now.run who (len self.now.run)).stable self.now.step ≡ keep }
        ensures { IfOk result (IsChange V.drops_edge V.drops_root V.held self.now) }
    {
        let next = after_turn(self.views.own_view(self.trace, who))?;
        Ok(ViewChange::own(who, next, None))
    }
}
