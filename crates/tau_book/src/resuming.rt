//! A book behind the steps of a trace.
ghost use Rattle.std.specs.Prelude.{◌≡◌, ◌≤◌, [], IfOk};
ghost use Rattle.tau_value.specs.declared.limits.TheConstants.{STEP_LIMIT};
ghost use Rattle.tau_tree.specs.Sound.{Sound};
ghost use Rattle.tau_trace.specs.Run.{len};
ghost use Rattle.tau_legal.specs.Traces.{Legal};

use crate::Book;
use std::alloc::{AllocError, Global};
use tau_queue::Scripted;
use tau_trace::Trace;
use tau_tree::Program;
use tau_verdicts::MarkedHearing;

impl<'p> Book<'p, MarkedHearing> {
    /// The book of a program behind the steps of a legal trace, with a limit of steps and no returned jobs. It has room for a job
    /// of each open turn. The error is want of memory.
    pub fn resume(
        alloc: Global,
        program: &'p Program,
        trace: &Trace,
        limit: u32,
    ) -> Result<Book<'p, MarkedHearing>, AllocError>
        requires sound { Sound program.now }
        requires legal { Legal program.now trace.now.run }
        requires within { len trace.now.run ≤ limit }
        requires limit { limit ≤ STEP_LIMIT }
        ensures program { IfOk result (λ b. b.system.program ≡ program.entry.now) }
        ensures run { IfOk result (λ b. b.system.run ≡ trace.now.run) }
        ensures limit { IfOk result (λ b. b.limit ≡ limit) }
        ensures store { IfOk result (λ b. b.store ≡ []) }
    {
        let scripted = Scripted::resume(alloc, program, trace)?;
        let store = Vec::with_capacity(alloc, scripted.open_turns() as usize)?;
        Ok(Book {
            scripted,
            limit,
            store,
            alloc,
        })
    }
}
