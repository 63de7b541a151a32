//! The step that comes next, and what it changes in the views, by its kind.
ghost use Rattle.std.specs.Prelude.{IfOk};
ghost use Rattle.tau_views.specs.Inner.Next.{IsChange};

use crate::views::{ViewChange, Views};
use std::alloc::{AllocError, Global};
use std::marker::Model;
use tau_trace::{Step, Trace};
use tau_view::View;

/// The step that comes next, with the views and the trace before it: the views are those of the trace's run, and the step
/// may follow it. Contracts see the views, the run and the step.
#[derive(Drop)]
pub(crate) struct NextStep<'a, V: View + Drop> {
    pub(crate) views: &'a Views<V>,
    pub(crate) trace: &'a Trace,
    pub(crate) step: &'a Step,
}

impl<'a, V: View + Drop> Model for NextStep<'a, V> {
    ghost use Rattle.std.specs.Coded.{codes};
    ghost use Rattle.tau_value.specs.Val.{val_code};
    ghost use Rattle.tau_views.specs.Inner.Next.{Transition, IsNext};

    ghost Value = { Transition V };

    ghost coded = { Prim.hlevel (codes, val_code) };

    ghost view = { λ n. record { views = n.views.now; run = n.trace.now.run; step = n.step.now } };

    ghost invariant = { λ n. IsNext V.drops_edge V.drops_root V.held n.views.now n.trace.now.run n.step.now };
}

impl<'a, V: View + Drop> NextStep<'a, V> {
    /// The change of the views, by the kind of the step.
    pub(crate) fn change(&self, alloc: Global) -> Result<ViewChange<V>, AllocError>
        ensures { IfOk result (IsChange V.drops_edge V.drops_root V.held self.now) }
    {
        match self.step {
            Step::Take { who, message } => self.by_take(*who, *message),
            Step::Drop { who, message } | Step::Heed { who, message } => {
                self.by_merge(*who, *message)
            }
            Step::Fall { who, message } => self.by_fall(*who, *message),
            Step::Void { message, .. } | Step::Lose { message } => Ok(self.by_removal(*message)),
            Step::Get { who } | Step::Skip { who } | Step::Ask { who, .. } => self.by_touch(*who),
            Step::Set { who, .. } => self.by_set(*who),
            Step::Stabilize { who } => self.by_stabilize(*who),
            Step::Send { who, .. } => self.by_send(*who),
            Step::Echo { who, message } => self.by_echo(*who, *message),
            Step::Repeat { message } => self.by_copy(*message),
            Step::New { who, .. } => self.by_new(alloc, *who),
            Step::Checkpoint { who } => self.by_close(*who),
            Step::Rollback { who } => self.by_leaving(*who),
            Step::Trap { who, .. } | Step::Fail { who } => self.by_failure(*who),
            Step::Hold { who } | Step::Stay { who } | Step::Done { who } => self.by_end(*who),
        }
    }
}
