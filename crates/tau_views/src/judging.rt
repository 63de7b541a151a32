//! What the views decide.
ghost use Rattle.std.specs.Prelude.{◌<◌, IfOk};
ghost use Rattle.tau_trace.specs.Run.{len};
ghost use Rattle.tau_trace.specs.Numbering.{born, InFlight};
ghost use Rattle.tau_past.specs.Decisions.{Verdict as VerdictAt};
ghost use Rattle.tau_past.specs.Safety.{KeepsRules};
ghost use Rattle.tau_views.specs.DecisionLaws.{judged};
ghost use Rattle.tau_views.specs.NamedPoints.{NamesKnownFallen};
ghost use Rattle.tau_views.specs.Kept.{AreViews, held_of, letters_of};

use crate::after::after_merge;
use crate::views::Views;
use std::alloc::{AllocError, Global};
use tau_trace::Trace;
use tau_view::View;
use tau_view::fate::{Verdict, judge_settled};

impl<V: View + Drop> Views<V> {
    /// The verdict on a message in flight at its receipt by `who` (docs/rules.md, "Verdict"). The point that it names is fallen by what
    /// was heard. The error is want of memory.
    pub fn judge(
        &self,
        alloc: Global,
        trace: &Trace,
        who: u32,
        message: u32,
    ) -> Result<Verdict, AllocError>
        requires views { AreViews V.drops_edge V.drops_root trace.now.run (held_of V.held self.now.own.items) (letters_of V.held self.now.letters.items) }
        requires rules { KeepsRules trace.now.run }
        requires exists { who < born trace.now.run (len trace.now.run) }
        requires in_flight { InFlight trace.now.run message (len trace.now.run) }
        ensures verdict { IfOk result (λ v. VerdictAt trace.now.run who (len trace.now.run) message (judged v)) }
        ensures point { IfOk result (NamesKnownFallen trace.now.run who (len trace.now.run) message) }
    {
        // Its contract says that the trace is well-formed.
        let _steps = trace.len();
        let point = self.own_point(trace, who);
        let view = self.own_view(trace, who);
        let letter = self.letter_view(trace, message);
        let merged = after_merge(view, letter)?;
        judge_settled(alloc, &merged, point, letter)
    }
}
