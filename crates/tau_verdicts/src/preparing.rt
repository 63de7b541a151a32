//! What a step changes, with room for it.
ghost use Rattle.std.specs.Prelude.{◌≡◌, IfOk, OnOk, Some, None};
ghost use Rattle.tau_trace.specs.Run.{appended};
ghost use Rattle.tau_trace.specs.Steps.{is_new};
ghost use Rattle.tau_trace.specs.Known.{MayFollow};
ghost use Rattle.tau_knowledge.specs.Knowing.{IsReady};
ghost use Rattle.tau_verdicts.specs.Freedom.{LeavesAtMost};
ghost use Rattle.tau_verdicts.specs.Kept.{KnowsMarked, LeadsMarked, LeadsNoted};
ghost use Rattle.tau_verdicts.specs.Kinds.{taker};

use crate::change::MarkedChange;
use crate::kinds::{closer, faller, taker};
use crate::marked::MarkedHearing;
use std::alloc::{AllocError, Global};
use tau_trace::{Step, Trace};

impl MarkedHearing {
    /// What a step at the end of the run changes, with all memory that it takes. What was heard stays the same; points may be
    /// doomed, and may come to takers, and a transactor may be known to be free from then on. The error is want of memory.
    pub fn prepare_change(
        &mut self,
        alloc: Global,
        trace: &Trace,
        step: &Step,
    ) -> Result<MarkedChange, AllocError>
        requires knows { KnowsMarked self.old trace.now.run }
        requires follows { MayFollow trace.now.run step.now }
        requires ready { IsReady trace.now.run step.now }
        ensures ok { IfOk result (λ c. LeadsMarked self.new c (appended trace.now.run step.now)) }
        ensures kept { KnowsMarked self.new trace.now.run }
    {
        self.note_freedom(alloc, trace, step)?;
        let leaves = self.note_step(alloc, trace, step)?;
        let change = self.hearing.prepare_change(trace, step)?;
        Ok(MarkedChange { change, leaves })
    }

    /// Notes what a step makes points take, and dooms what a falling step does. The transactor that leaves its point by it; the error
    /// is want of memory.
    fn note_step(
        &mut self,
        alloc: Global,
        trace: &Trace,
        step: &Step,
    ) -> Result<Option<u32>, AllocError>
        requires knows { KnowsMarked self.old trace.now.run }
        requires follows { MayFollow trace.now.run step.now }
        ensures knows { KnowsMarked self.new trace.now.run }
        ensures ok { IfOk result (λ l. LeadsNoted self.new l (appended trace.now.run step.now)) }
        ensures leaves { IfOk result (λ l. LeavesAtMost trace.now.run step.now l) }
    {
        if let Some(who) = taker(step) {
            self.note_taker(alloc, trace, step, who)?;
            return Ok(None);
        }
        if let Some(who) = faller(step) {
            return self.note_fall(alloc, trace, step, who);
        }
        Ok(closer(step))
    }

    /// Notes what a Set or a New makes a point take. The error is want of memory.
    fn note_taker(
        &mut self,
        alloc: Global,
        trace: &Trace,
        step: &Step,
        who: u32,
    ) -> Result<(), AllocError>
        requires knows { KnowsMarked self.old trace.now.run }
        requires follows { MayFollow trace.now.run step.now }
        requires by { Some who ≡ taker step.now }
        ensures knows { KnowsMarked self.new trace.now.run }
        ensures ok { OnOk result (LeadsNoted self.new None (appended trace.now.run step.now)) }
    {
        if is_new(step) {
            return self.note_new(alloc, trace, step, who);
        }
        self.note_set(alloc, trace, step, who)
    }
}

/// Whether a step is a New.
fn is_new(step: &Step) -> bool
    ensures { result ≡ is_new step.now }
{
    matches!(step, Step::New { .. })
}
