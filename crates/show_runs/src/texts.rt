//! Texts of programs, of runs and of records.
ghost use Rattle.std.specs.Prelude.{◌<◌};
ghost use Rattle.tau_tree.specs.Sound.{Sound};
ghost use Rattle.tau_trace.specs.Run.{len};

use std::alloc::{AllocError, Global};
use tau_sexpr::{Forms, print_forms};
use tau_steps::form_of_step;
use tau_text::program_text;
use tau_trace::Trace;
use tau_tree::Program;

/// Adds a program and the steps of a run of it, each with `, ` behind it.
pub(crate) fn add_run(
    alloc: Global,
    text: &mut String,
    program: &Program,
    trace: &Trace,
) -> Result<(), AllocError>
    requires { Sound program.now }
{
    add_program(alloc, text, program)?;
    text.push_str(", ")?;
    add_steps(alloc, text, trace)
}

/// Adds a program, its lines as one.
pub(crate) fn add_program(
    alloc: Global,
    text: &mut String,
    program: &Program,
) -> Result<(), AllocError>
    requires { Sound program.now }
{
    let forms = program_text(alloc, program)?;
    add_lines(text, &forms)
}

/// Adds the steps of a trace, each with `, ` behind it.
fn add_steps(alloc: Global, text: &mut String, trace: &Trace) -> Result<(), AllocError> {
    for place in 0..trace.len() {
        let printed = step_text(alloc, trace, place)?;
        add_lines(text, &printed)?;
        text.push_str(", ")?;
    }
    Ok(())
}

/// The text of the steps of a trace, and one step more.
pub(crate) fn steps_with(alloc: Global, trace: &Trace, step: &str) -> Result<String, AllocError> {
    let mut steps = String::new(alloc);
    for place in 0..trace.len() {
        let line = step_text(alloc, trace, place)?;
        steps.push_str(str::from_utf8(&line).unwrap_or(""))?;
    }
    steps.push_str(step)?;
    Ok(steps)
}

/// The text of a step of a trace.
fn step_text(alloc: Global, trace: &Trace, place: u32) -> Result<Vec<u8>, AllocError>
    requires { place < len trace.now.run }
{
    let form = form_of_step(alloc, trace, place)?;
    let mut forms = Forms::new(alloc);
    let printed = match forms.add(form) {
        Ok(()) => print_forms(alloc, &forms),
        Err(failed) => Err(failed),
    };
    drop(forms);
    printed
}

/// Adds lines, with `; ` between them.
pub(crate) fn add_lines(text: &mut String, bytes: &[u8]) -> Result<(), AllocError> {
    match str::from_utf8(bytes) {
        Ok(lines) => {
            for (k, line) in lines.lines().enumerate() {
                if k > 0 {
                    text.push_str("; ")?;
                }
                text.push_str(line)?;
            }
            Ok(())
        }
        Err(_) => text.push_str("bytes"),
    }
}

/// The lines of a text that has `; ` between them, each with a line feed.
pub(crate) fn lines_of(alloc: Global, parts: &str) -> Result<String, AllocError> {
    let mut lines = String::new(alloc);
    for part in parts.split("; ") {
        writeln!(&mut lines, "{part}")?;
    }
    Ok(lines)
}

/// The lines of a text behind its first word, and as many entries as that word says, 10,000 at most.
pub(crate) fn full_of(alloc: Global, parts: &str) -> Result<String, AllocError> {
    let (word, parts) = parts.split_once(" ").unwrap_or((parts, ""));
    let count: u32 = word.parse().unwrap_or(0);
    let mut lines = lines_of(alloc, parts)?;
    for _entry in 0..count.min(10_000) {
        lines.push_str("(at 9 (fail 0))\n")?;
    }
    Ok(lines)
}
