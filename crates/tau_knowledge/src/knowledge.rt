//! The trait of what is known of a run.
ghost use Rattle.std.specs.Prelude.{◌≡◌, ◌<◌, ◌↔◌, length, IsTrue, IfOk};
ghost use Rattle.tau_trace.specs.declared.opening.Opening.{Opening};
ghost use Rattle.tau_trace.specs.Run.{Run, len, appended};
ghost use Rattle.tau_trace.specs.Known.{IsSound, MayFollow};
ghost use Rattle.tau_trace.specs.Numbering.{born, InFlight};
ghost use Rattle.tau_past.specs.Safety.{KeepsRules};
ghost use Rattle.tau_past.specs.Decisions.{Verdict, Free};
ghost use Rattle.tau_knowledge.specs.Knowing.{opened, IsReady, judged};

use crate::receipt::Receipt;
use std::alloc::{AllocError, Global};
use tau_trace::{Step, Trace};

/// What the transactors and messages of a run have heard, as far as its decisions need it.
pub trait Knowledge: Sized {
    /// What a step changes.
    type Change: Drop;

    // It is right for the run.
    ghost knows: { Self → Run → Type 0 };

    // With this change it will be right for the run.
    ghost leads: { Self → Self.Change → Run → Type 0 };

    /// What is known before the first step, of so many starts and posts. The error is want of memory.
    fn open(alloc: Global, starts: usize, posts: usize) -> Result<Self, AllocError>
        ensures { IfOk result (λ k. (o : Opening) → IsSound o → length o.names ≡ starts → length o.targets ≡ posts → knows k (opened o)) };

    /// What a step at the end of the run changes, with all memory that it takes. The error is want of memory.
    fn prepare(
        &mut self,
        alloc: Global,
        trace: &Trace,
        step: &Step,
    ) -> Result<Self::Change, AllocError>
        requires knows { knows self.old trace.now.run }
        requires follows { MayFollow trace.now.run step.now }
        requires ready { IsReady trace.now.run step.now }
        ensures ok { IfOk result (λ c. leads self.new c (appended trace.now.run step.now)) }
        ensures kept { knows self.new trace.now.run };

    /// Applies a change that was prepared for what is known now. It takes no memory.
    fn apply(&mut self, change: Self::Change)
        requires { (T : Run) × leads self.old change T }
        ensures { (T : Run) → leads self.old change T → knows self.new T };

    /// What becomes of a message in flight at its receipt by `who` (docs/rules.md, "Verdict"). The error is want of memory.
    fn verdict(
        &self,
        alloc: Global,
        trace: &Trace,
        who: u32,
        message: u32,
    ) -> Result<Receipt, AllocError>
        requires knows { knows self.now trace.now.run }
        requires rules { KeepsRules trace.now.run }
        requires exists { who < born trace.now.run (len trace.now.run) }
        requires in_flight { InFlight trace.now.run message (len trace.now.run) }
        ensures { IfOk result (λ r. Verdict trace.now.run who (len trace.now.run) message (judged r)) };

    /// Whether a transactor is free (docs/rules.md, "Free"). The error is want of memory.
    fn is_free(&self, alloc: Global, trace: &Trace, who: u32) -> Result<bool, AllocError>
        requires knows { knows self.now trace.now.run }
        requires rules { KeepsRules trace.now.run }
        requires exists { who < born trace.now.run (len trace.now.run) }
        ensures { IfOk result (λ free. IsTrue free ↔ Free trace.now.run who (len trace.now.run)) };
}
