//! The command `run`.
ghost use Rattle.std.specs.Prelude.{◌≡◌, ◌≤◌, ℕ, List, IfOk, IfErr};
ghost use Rattle.tau_value.specs.declared.limits.TheConstants.{STEP_LIMIT};
ghost use Rattle.tau_text.specs.Errors.{TellsInputFault};
ghost use Rattle.tau_text.specs.Faults.{IsProgramFault};
ghost use Rattle.tau_text.specs.Meaning.{IsProgram};
ghost use Rattle.tau_sexpr.specs.Printing.{printed};
ghost use Rattle.tau_tree.specs.Sound.{Sound};
ghost use Rattle.tau_forms.specs.Printed as forms;
ghost use Rattle.tau_script.specs.Openings.{program_opening};
ghost use Rattle.tau_legal.specs.Ends.{EndsAt};
ghost use Rattle.tau_book.specs.declared.limits.TheConstants.{JOB_LIMIT};
ghost use Rattle.tau_output.specs.Runs.{RunsAs, RunsBy};
ghost use Rattle.tau_output.specs.Inner.Ends.{end_of_run};

use crate::outputs::or_no_memory;
use crate::{End, Output};
use std::alloc::{AllocError, Global};
use tau_text::{InputError, read_program, run_text};
use tau_trace::Trace;
use tau_tree::Program;

/// The run text of the serial run of the program that the bytes spell, by one worker with room for 1 to `JOB_LIMIT` jobs and
/// this seed, with at most so many steps (docs/formats.md, "Run text"; docs/definitions.md, "Serial run").
pub(crate) fn write_serial_run(
    alloc: Global,
    bytes: &[u8],
    jobs: u32,
    seed: u64,
    steps: u32,
) -> Result<Output, InputError>
    requires some { 1 ≤ jobs }
    requires few { jobs ≤ JOB_LIMIT }
    requires limit { steps ≤ STEP_LIMIT }
    ensures output { IfOk result (λ o. RunsBy 1 jobs seed steps bytes.now o.end o.text.items) }
    ensures fault { IfErr result (TellsInputFault (IsProgramFault bytes.now)) }
{
    let program = read_program(alloc, bytes)?;
    or_no_memory(write_serial(alloc, &program, jobs, seed, steps))
}

/// The run text of the serial run of a program. The error is want of memory.
fn write_serial(
    alloc: Global,
    program: &Program,
    jobs: u32,
    seed: u64,
    steps: u32,
) -> Result<Output, AllocError>
    requires sound { Sound program.now }
    requires some { 1 ≤ jobs }
    requires few { jobs ≤ JOB_LIMIT }
    requires limit { steps ≤ STEP_LIMIT }
    ensures { IfOk result (λ o. (bytes : List ℕ) → IsProgram bytes program.now → RunsBy 1 jobs seed steps bytes o.end o.text.items) }
{
    let made = tau_book::run_serially(alloc, program, jobs, seed, steps)?;
    write_run(alloc, program, &made.trace, made.is_complete)
}

/// The run text of a program and a run of it, and how it ends then, by whether the run is complete (docs/formats.md, "Run text").
/// For a legal run with a limit, of a program that bytes spell, it is what `run` writes for these bytes. Such bytes are the forms of
/// the program, printed.
/// The error is want of memory.
pub fn write_run(
    alloc: Global,
    program: &Program,
    trace: &Trace,
    is_complete: bool,
) -> Result<Output, AllocError>
    requires opening { trace.now.run.opening ≡ program_opening program.now }
    requires sound { Sound program.now }
    ensures run { IfOk result (λ o. (limit : ℕ) (bytes : List ℕ) → IsProgram bytes program.now → EndsAt limit program.now trace.now.run is_complete
        → (r : RunsAs limit bytes o.end o.text.items) × (r.program ≡ program.now) × (r.run ≡ trace.now.run)) }
    ensures program { IfOk result (λ _. IsProgram (printed (forms.printed program.now)) program.now) }
{
    Ok(Output {
        text: run_text(alloc, program, trace)?,
        end: end_of(is_complete),
    })
}

/// How a run ends, by whether it is complete.
pub(crate) fn end_of(is_complete: bool) -> End
    ensures { result ≡ end_of_run is_complete }
{
    if is_complete { End::Done } else { End::Stopped }
}
