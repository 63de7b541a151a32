//! Verdicts, without a search where no point of a receipt is doomed.
ghost use Rattle.std.specs.Bool.{OnTrue};
ghost use Rattle.std.specs.Prelude.{◌<◌, IfOk};
ghost use Rattle.tau_trace.specs.Run.{len};
ghost use Rattle.tau_trace.specs.Numbering.{born, InFlight};
ghost use Rattle.tau_past.specs.Safety.{KeepsRules};
ghost use Rattle.tau_past.specs.Decisions.{Verdict, takes};
ghost use Rattle.tau_knowledge.specs.Knowing.{judged};
ghost use Rattle.tau_verdicts.specs.Kept.{KnowsMarked};

use crate::marked::MarkedHearing;
use crate::noting::{are_well, flag};
use std::alloc::{AllocError, Global};
use tau_knowledge::Receipt;
use tau_trace::Trace;

impl MarkedHearing {
    /// What becomes of a message in flight at its receipt by a transactor (docs/rules.md, "Verdict"). It is taken where the own point
    /// isn't doomed, and each point that the message carries is closed, or is the present point of a transactor and not doomed;
    /// otherwise a search decides. The error is want of memory.
    pub fn judge(
        &self,
        alloc: Global,
        trace: &Trace,
        who: u32,
        message: u32,
    ) -> Result<Receipt, AllocError>
        requires knows { KnowsMarked self.now trace.now.run }
        requires rules { KeepsRules trace.now.run }
        requires exists { who < born trace.now.run (len trace.now.run) }
        requires in_flight { InFlight trace.now.run message (len trace.now.run) }
        ensures { IfOk result (λ r. Verdict trace.now.run who (len trace.now.run) message (judged r)) }
    {
        if self.hearing.falls > 0 && self.shows_take(trace, who, message) {
            return Ok(Receipt::Take);
        }
        self.hearing.judge(alloc, trace, who, message)
    }

    /// Whether no point of a receipt is doomed.
    fn shows_take(&self, trace: &Trace, who: u32, message: u32) -> bool
        requires knows { KnowsMarked self.now trace.now.run }
        requires exists { who < born trace.now.run (len trace.now.run) }
        requires in_flight { InFlight trace.now.run message (len trace.now.run) }
        ensures { OnTrue result (KeepsRules trace.now.run → Verdict trace.now.run who (len trace.now.run) message takes) }
    {
        // Its contract says that the trace is well-formed.
        let _steps = trace.len();
        if flag(&self.doomed, who) {
            return false;
        }
        let letter = self.hearing.letter_of(trace, message);
        are_well(&self.hearing.logs, &self.doomed, &letter.roots)
    }
}
