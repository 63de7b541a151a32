//! The check of a trace.
ghost use Rattle.std.specs.Prelude.{◌≡◌, IfOk};
ghost use Rattle.tau_tree.specs.Sound.{Sound};
ghost use Rattle.tau_tree.specs.declared.programs.Program.{Program};
ghost use Rattle.tau_trace.specs.Run.{Run};
ghost use Rattle.tau_script.specs.Openings.{program_opening};
ghost use Rattle.tau_check.specs.Inner.Checkers.{HasSteppedTo};
ghost use Rattle.tau_check.specs.Legality.{IsLegality};

use crate::checker::Checker;
use crate::following::step_through;
use std::alloc::{AllocError, Global};
use tau_trace::Trace;
use tau_tree::Program;

/// Whether a trace is legal (docs/definitions.md, "Fitting and legal steps").
#[derive(Clone, Copy, Debug, PartialEq, Eq)]
pub enum Legality {
    /// It is, and is complete or not (docs/definitions.md, "Complete").
    Legal { complete: bool },
    /// It isn't: the step at this place is the first that isn't legal after the steps before it.
    Bad { place: u32 },
}

/// Whether a trace whose opening is the program's is legal for the program, and complete (docs/definitions.md, "Fitting and
/// legal steps", "Complete"). The error is want of memory.
pub fn check(alloc: Global, program: &Program, trace: &Trace) -> Result<Legality, AllocError>
    requires sound { Sound program.now }
    requires opening { trace.now.run.opening ≡ program_opening program.now }
    ensures { IfOk result (IsLegality program.now trace.now.run) }
{
    let (checker, bad) = step_through(alloc, program, trace)?;
    Ok(legality_of(&checker, bad))
}

/// What a trace is whose steps a checker has stepped through up to the first that isn't legal, if there is one.
fn legality_of(checker: &Checker<'_>, bad: Option<u32>) -> Legality
    ensures { (P : Program) (T : Run) → HasSteppedTo P T checker.now.legal.system checker.now.jobs.items bad → IsLegality P T result }
{
    match bad {
        Some(place) => Legality::Bad { place },
        None => Legality::Legal {
            complete: checker.is_complete(),
        },
    }
}
