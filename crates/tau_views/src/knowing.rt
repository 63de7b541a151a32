//! Views as what a system knows of its run.

use crate::opening::{post_views, start_views};
use crate::preparing::NextStep;
use crate::views::{ViewChange, Views};
use std::alloc::{AllocError, Global};
use tau_knowledge::{Knowledge, Receipt};
use tau_trace::{Step, Trace};
use tau_view::View;
use tau_view::fate::{Freedom, Verdict, free_settled};

impl<V: View + Drop> Knowledge for Views<V> {
    ghost use Rattle.tau_views.specs.Kept.{AreViews, held_of, letters_of};
    ghost use Rattle.tau_views.specs.Changes.{HasRoom, own_after, letters_after};

    type Change = ViewChange<V>;

    ghost knows = { λ v T. AreViews V.drops_edge V.drops_root T (held_of V.held v.own.items) (letters_of V.held v.letters.items) };

    ghost leads = { λ v c T. HasRoom v
        × AreViews V.drops_edge V.drops_root T (held_of V.held (own_after c v.own.items)) (letters_of V.held (letters_after c v.letters.items)) };

    fn open(alloc: Global, starts: usize, posts: usize) -> Result<Views<V>, AllocError> {
        Ok(Views {
            own: start_views(alloc, starts)?,
            letters: post_views(alloc, posts)?,
        })
    }

    fn prepare(
        &mut self,
        alloc: Global,
        trace: &Trace,
        step: &Step,
    ) -> Result<ViewChange<V>, AllocError> {
        self.reserve()?;
        // Its contract says that the trace is well-formed.
        let _steps = trace.len();
        let next = NextStep {
            views: self,
            trace,
            step,
        };
        next.change(alloc)
    }

    fn apply(&mut self, change: ViewChange<V>) {
        self.change(change);
    }

    fn verdict(
        &self,
        alloc: Global,
        trace: &Trace,
        who: u32,
        message: u32,
    ) -> Result<Receipt, AllocError> {
        match self.judge(alloc, trace, who, message)? {
            Verdict::Take => Ok(Receipt::Take),
            Verdict::Drop { .. } => Ok(Receipt::Drop),
            Verdict::Fall { .. } => Ok(Receipt::Fall),
        }
    }

    fn is_free(&self, alloc: Global, trace: &Trace, who: u32) -> Result<bool, AllocError> {
        // Its contract says that the trace is well-formed.
        let _steps = trace.len();
        let point = self.own_point(trace, who);
        match free_settled(alloc, self.own_view(trace, who), point)? {
            Freedom::Free => Ok(true),
            Freedom::Bound { .. } => Ok(false),
        }
    }
}
