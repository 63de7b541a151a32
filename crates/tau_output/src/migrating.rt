//! The command `migrate`.
ghost use Rattle.std.specs.Prelude.{◌≡◌, IfOk, IfErr};
ghost use Rattle.tau_tree.specs.Sound.{Sound};
ghost use Rattle.tau_trace.specs.Run.{second};
ghost use Rattle.tau_script.specs.Openings.{program_opening};
ghost use Rattle.tau_text.specs.Errors.{TellsInputFault};
ghost use Rattle.tau_text.specs.Faults.{IsRunFault};
ghost use Rattle.tau_output.specs.Migrating.{second_program, IsRewritten, MigratesAs};

use crate::checking::bad_line;
use crate::outputs::or_no_memory;
use crate::{End, Output};
use std::alloc::{AllocError, Global};
use tau_check::{Legality, check};
use tau_text::{InputError, RunText, read_run_text, run_text};
use tau_trace::Trace;
use tau_tree::Program;

/// The run text of the program of a run text in version 2 and the same steps, where each is legal there, and otherwise the line
/// for the first that isn't (docs/formats.md, "Migration").
pub(crate) fn migrate_run(alloc: Global, bytes: &[u8]) -> Result<Output, InputError>
    ensures output { IfOk result (λ o. MigratesAs bytes.now o.end o.text.items) }
    ensures fault { IfErr result (TellsInputFault (IsRunFault bytes.now)) }
{
    let RunText { program, trace } = read_run_text(alloc, bytes)?;
    or_no_memory(migrated(alloc, program, &trace))
}

/// The same of a program and a trace. The error is want of memory.
fn migrated(alloc: Global, program: Program, trace: &Trace) -> Result<Output, AllocError>
    requires sound { Sound program }
    requires opening { trace.now.run.opening ≡ program_opening program }
    ensures { IfOk result (λ o. IsRewritten (second_program program) (second trace.now.run) o.end o.text.items) }
{
    let trace = trace.in_second()?;
    let program = in_version_2(program);
    rewritten(alloc, &program, &trace)
}

/// The same program in version 2.
fn in_version_2(mut program: Program) -> Program
    ensures { result ≡ second_program program }
{
    program.version = 2;
    program
}

/// The run text of a program and a trace where each step is legal, and otherwise the line for the first that isn't.
fn rewritten(alloc: Global, program: &Program, trace: &Trace) -> Result<Output, AllocError>
    requires sound { Sound program.now }
    requires opening { trace.now.run.opening ≡ program_opening program.now }
    ensures { IfOk result (λ o. IsRewritten program.now trace.now.run o.end o.text.items) }
{
    // Its contract says that the trace is well-formed.
    let _length = trace.len();
    match check(alloc, program, trace)? {
        Legality::Legal { .. } => Ok(Output {
            text: run_text(alloc, program, trace)?,
            end: End::Done,
        }),
        Legality::Bad { place } => Ok(Output {
            text: bad_line(alloc, place)?,
            end: End::Bad { place },
        }),
    }
}
