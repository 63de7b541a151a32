//! The system behind the steps of a legal trace.
ghost use Rattle.std.specs.Prelude.{◌≡◌, IfOk};
ghost use Rattle.tau_tree.specs.Sound.{Sound};
ghost use Rattle.tau_trace.specs.Run.{len};
ghost use Rattle.tau_script.specs.Cursors.{CursorAt};
ghost use Rattle.tau_script.specs.Openings.{program_opening};
ghost use Rattle.tau_legal.specs.Traces.{Legal};
ghost use Rattle.tau_check.specs.Inner.Checkers.{HasSteppedTo};

use crate::checker::Checker;
use std::alloc::{AllocError, Global};
use tau_failures::LegalSystem;
use tau_trace::Trace;
use tau_tree::Program;
use tau_verdicts::MarkedHearing;

/// The system of a program behind the steps of a legal trace, and the cursor of its script there (docs/definitions.md, "Fitting
/// and legal steps", "Due step"). Each turn is evaluated anew, as `check` does. The error is want of memory.
pub fn follow<'p>(
    alloc: Global,
    program: &'p Program,
    trace: &Trace,
) -> Result<LegalSystem<'p, MarkedHearing>, AllocError>
    requires sound { Sound program.now }
    requires legal { Legal program.now trace.now.run }
    ensures program { IfOk result (λ f. f.system.program ≡ program.entry.now) }
    ensures run { IfOk result (λ f. f.system.run ≡ trace.now.run) }
    ensures cursor { IfOk result (λ f. CursorAt program.entry.now.script trace.now.run (len trace.now.run) f.cursor) }
{
    let (checker, bad) = step_through(alloc, program, trace)?;
    match bad {
        Some(_) => unreachable!(),
        None => Ok(checker.into_system()),
    }
}

/// A checker that has stepped through a trace whose opening is the program's, up to the first step that isn't legal, and the
/// place of that one; `None` where each step is legal.
pub(crate) fn step_through<'p>(
    alloc: Global,
    program: &'p Program,
    trace: &Trace,
) -> Result<(Checker<'p>, Option<u32>), AllocError>
    requires sound { Sound program.now }
    requires opening { trace.now.run.opening ≡ program_opening program.now }
    ensures { IfOk result (λ r. HasSteppedTo program.entry.now trace.now.run r.0.legal.system r.0.jobs.items r.1) }
{
    let mut checker = Checker::open(alloc, program)?;
    let length = trace.len();
    for place in 0..length {
        let Some(step) = trace.step(place) else {
            unreachable!()
        };
        let is_legal = checker.step(step)?;
        if !is_legal {
            return Ok((checker, Some(place)));
        }
    }
    Ok((checker, None))
}
