//! A system behind the steps of a trace.
ghost use Rattle.std.specs.Prelude.{◌≡◌, IfOk};
ghost use Rattle.tau_tree.specs.Sound.{Sound};
ghost use Rattle.tau_legal.specs.Traces.{Legal};

use crate::Scripted;
use std::alloc::{AllocError, Global};
use tau_check::{MarkedHearing, follow};
use tau_trace::Trace;
use tau_tree::Program;

impl<'p> Scripted<'p, MarkedHearing> {
    /// The system of a program behind the steps of a legal trace, with the messages in flight, the receivers in a turn, and the
    /// open turns. The error is want of memory.
    pub fn resume(
        alloc: Global,
        program: &'p Program,
        trace: &Trace,
    ) -> Result<Scripted<'p, MarkedHearing>, AllocError>
        requires sound { Sound program.now }
        requires legal { Legal program.now trace.now.run }
        ensures program { IfOk result (λ s. s.system.program ≡ program.entry.now) }
        ensures run { IfOk result (λ s. s.system.run ≡ trace.now.run) }
    {
        Scripted::over(alloc, follow(alloc, program, trace)?)
    }
}
