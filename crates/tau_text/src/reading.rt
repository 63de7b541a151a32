//! The meaning of an input.
ghost use Rattle.std.specs.Prelude.{◌≡◌, ◌⊎◌, ℕ, IfOk, IfErr, Err};
ghost use Rattle.tau_tree.specs.Sound.{Sound};
ghost use Rattle.tau_tree.specs.declared.programs.Program.{Program};
ghost use Rattle.tau_trace.specs.Run.{Run};
ghost use Rattle.tau_script.specs.Openings.{program_opening};
ghost use Rattle.tau_text.specs.Errors.{TellsInputFault};
ghost use Rattle.tau_text.specs.Faults.{IsProgramFault, IsRunFault, IsPrintFault};
ghost use Rattle.tau_text.specs.Meaning.{IsProgram, IsRunInput, IsPrintInput};
ghost use Rattle.tau_text.specs.Inner.Surveyed.{IsMarkedText};

use crate::by_parts::read_by_parts;
use crate::parts::marked_text;
use crate::programs::{program_built, survey_of};
use crate::{InputError, RunText};
use std::alloc::Global;
use tau_sexpr::read_forms;
use tau_tree::Program;

/// The program that all the forms of an input mean (docs/formats.md, "Programs"), as `run` takes it. It is sound.
/// `Fault` comes exactly where they mean none, with the first of the faults 1 to 9 in the order of docs/formats.md,
/// "Input faults".
/// The forms are read some at a time. Those of the front in which each is a list of a kind that programs have are kept until the
/// program is built of them, each of its pieces until its own forms are added; the others are read twice, and take memory for
/// 16 KiB of the text, or for one form at the top.
pub fn read_program(alloc: Global, bytes: &[u8]) -> Result<Program, InputError>
    ensures program { IfOk result (IsProgram bytes.now) }
    ensures sound { IfOk result Sound }
    ensures read { (p : Program) → IsProgram bytes.now p → IfErr result (λ e. e ≡ InputError.NoMemory) }

    ensures fault { IfErr result (TellsInputFault (IsProgramFault bytes.now)) }
    ensures faulty { (fault at : ℕ) → IsProgramFault bytes.now fault at
        → (result ≡ Err (InputError.Fault fault at)) ⊎ (result ≡ Err InputError.NoMemory) }
{
    let (survey, front) = survey_of(alloc, bytes)?;
    program_built(alloc, bytes, survey.outline, front)
}

/// The program and the trace that the forms of an input mean (docs/formats.md, "Run text"), as `check`, `audit` and `report`
/// take them: the forms before the first `(trace)` and those behind it, up to the first `(report)` or the end. The program
/// is sound, and the trace begins as it says.
/// `Fault` comes exactly where they mean none, with the first of the faults 1 to 9 and 11 to 13 in the order of
/// docs/formats.md, "Input faults".
/// Beside the program and the trace, the forms of the program and then those of one part of the text at a time, of 64 KiB or a
/// longer line, take memory, where `(trace)` stands in a line of its own and each form behind it within one line. Otherwise, and
/// where there is a fault, the text is read as a whole, so that all its forms take memory at once.
pub fn read_run_text(alloc: Global, bytes: &[u8]) -> Result<RunText, InputError>
    ensures text { IfOk result (λ r. IsRunInput bytes.now r.program r.trace.run) }
    ensures sound { IfOk result (λ r. Sound r.program) }
    ensures opening { IfOk result (λ r. r.trace.run.opening ≡ program_opening r.program) }
    ensures read { (p : Program) (T : Run) → IsRunInput bytes.now p T → IfErr result (λ e. e ≡ InputError.NoMemory) }

    ensures fault { IfErr result (TellsInputFault (IsRunFault bytes.now)) }
    ensures faulty { (fault at : ℕ) → IsRunFault bytes.now fault at
        → (result ≡ Err (InputError.Fault fault at)) ⊎ (result ≡ Err InputError.NoMemory) }
{
    if let Some(text) = read_by_parts(alloc, bytes)? {
        return Ok(text);
    }
    let forms = read_forms(alloc, bytes)?;
    marked_text(alloc, &forms)
}

/// The program of an input, as `print` takes it: that of all forms where there is no `(trace)`, and otherwise that of a run
/// text, whose steps are read too (docs/formats.md, "Run text"). It is sound.
/// `Fault` comes exactly where they mean none, with the first of the faults 1 to 9, 12 and 13 in the order of
/// docs/formats.md, "Input faults".
/// A run text takes memory as with `read_run_text`, and a program alone as with `read_program`.
pub fn read_printed(alloc: Global, bytes: &[u8]) -> Result<Program, InputError>
    ensures program { IfOk result (IsPrintInput bytes.now) }
    ensures sound { IfOk result Sound }
    ensures read { (p : Program) → IsPrintInput bytes.now p → IfErr result (λ e. e ≡ InputError.NoMemory) }

    ensures fault { IfErr result (TellsInputFault (IsPrintFault bytes.now)) }
    ensures faulty { (fault at : ℕ) → IsPrintFault bytes.now fault at
        → (result ≡ Err (InputError.Fault fault at)) ⊎ (result ≡ Err InputError.NoMemory) }
{
    if let Some(text) = read_by_parts(alloc, bytes)? {
        return Ok(text.program);
    }
    let (survey, front) = survey_of(alloc, bytes)?;
    if survey.marked {
        return marked_program(alloc, bytes);
    }
    program_built(alloc, bytes, survey.outline, front)
}

/// The program of an input with `(trace)` among its forms, as `print` takes it, which is read as a whole.
fn marked_program(alloc: Global, bytes: &[u8]) -> Result<Program, InputError>
    requires { IsMarkedText bytes.now }
    ensures program { IfOk result (IsPrintInput bytes.now) }
    ensures sound { IfOk result Sound }
    ensures fault { IfErr result (TellsInputFault (IsPrintFault bytes.now)) }
{
    let forms = read_forms(alloc, bytes)?;
    let text = marked_text(alloc, &forms)?;
    Ok(text.program)
}
