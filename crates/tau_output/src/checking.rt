//! The command `check`.
ghost use Rattle.std.specs.Prelude.{◌≡◌, IfOk, IfErr};
ghost use Rattle.tau_tree.specs.Sound.{Sound};
ghost use Rattle.tau_script.specs.Openings.{program_opening};
ghost use Rattle.tau_text.specs.Errors.{TellsInputFault};
ghost use Rattle.tau_text.specs.Faults.{IsRunFault};
ghost use Rattle.tau_output.specs.Checks.{ChecksAs, IsChecked, bad_line as line_of_bad};
ghost use Rattle.tau_output.specs.Inner.Ends.{end_of_check, line_of_check};

use crate::outputs::or_no_memory;
use crate::{End, Output};
use std::alloc::{AllocError, Global};
use tau_check::{Legality, check};
use tau_text::{InputError, read_run_text};
use tau_trace::Trace;
use tau_tree::Program;

/// The line that tells whether the run of a run text is legal, and complete (docs/formats.md, "Command line").
pub(crate) fn check_run(alloc: Global, bytes: &[u8]) -> Result<Output, InputError>
    ensures output { IfOk result (λ o. ChecksAs bytes.now o.end o.text.items) }
    ensures fault { IfErr result (TellsInputFault (IsRunFault bytes.now)) }
{
    let input = read_run_text(alloc, bytes)?;
    or_no_memory(checked(alloc, &input.program, &input.trace))
}

/// The same of a program and a trace. The error is want of memory.
fn checked(alloc: Global, program: &Program, trace: &Trace) -> Result<Output, AllocError>
    requires sound { Sound program.now }
    requires opening { trace.now.run.opening ≡ program_opening program.now }
    ensures { IfOk result (λ o. IsChecked program.now trace.now.run o.end o.text.items) }
{
    // Its contract says that the trace is well-formed.
    let _length = trace.len();
    let legality = check(alloc, program, trace)?;
    Ok(Output {
        text: line_of(alloc, legality)?,
        end: end_of(legality),
    })
}

/// How a check ends.
fn end_of(legality: Legality) -> End
    ensures { result ≡ end_of_check legality }
{
    match legality {
        Legality::Legal { .. } => End::Done,
        Legality::Bad { place } => End::Bad { place },
    }
}

/// The line of a check.
fn line_of(alloc: Global, legality: Legality) -> Result<Vec<u8>, AllocError>
    ensures { IfOk result (λ v. v.items ≡ line_of_check legality) }
{
    match legality {
        Legality::Legal { complete: true } => Vec::from_slice(alloc, b"legal complete\n"),
        Legality::Legal { complete: false } => Vec::from_slice(alloc, b"legal open\n"),
        Legality::Bad { place } => bad_line(alloc, place),
    }
}

/// The line for a first step that isn't legal.
pub(crate) fn bad_line(alloc: Global, place: u32) -> Result<Vec<u8>, AllocError>
    ensures { IfOk result (λ v. v.items ≡ line_of_bad place) }
{
    Ok(format!(in alloc; "bad step {place}\n")?.into_bytes())
}
