//! Facts of traces: a program, steps, and questions that are asked of the trace.
ghost use Rattle.std.specs.Prelude.{◌≡◌, IfOk};
ghost use Rattle.tau_tree.specs.Sound.{Sound};
ghost use Rattle.tau_script.specs.Openings.{program_opening};

use crate::questions::add_answer;
use crate::{number_of, program_from};
use std::alloc::{AllocError, Global};
use tau_script::opening_of;
use tau_sexpr::{FormError, Forms, read_forms};
use tau_steps::{StepError, steps_of};
use tau_trace::Trace;
use tau_tree::Program;

/// Adds the questions of a section with their answers, or why the section has no trace.
pub(crate) fn add_facts(alloc: Global, text: &mut String, section: &str) -> Result<(), AllocError> {
    let (spelled, rest) = section.split_once("(trace)\n").unwrap_or((section, ""));
    let (steps, questions) = rest.split_once("(facts)\n").unwrap_or((rest, ""));
    match program_from(alloc, spelled.as_bytes()) {
        Some(program) => {
            let added = add_read(alloc, text, &program, steps, questions);
            drop(program);
            added
        }
        None => text.push_str("(no program)\n"),
    }
}

/// Adds the questions with their answers, where the steps are forms.
fn add_read(
    alloc: Global,
    text: &mut String,
    program: &Program,
    steps: &str,
    questions: &str,
) -> Result<(), AllocError>
    requires { Sound program.now }
{
    match read_forms(alloc, steps.as_bytes()) {
        Ok(steps) => {
            let added = add_answers(alloc, text, program, &steps, questions);
            drop(steps);
            added
        }
        Err(FormError::NoMemory) => Err(AllocError),
        Err(error) => writeln!(text, "{error}"),
    }
}

/// Adds each question with its answer, on a line of its own. One that ends with ` at K` is asked of the first K steps.
fn add_answers(
    alloc: Global,
    text: &mut String,
    program: &Program,
    steps: &Forms,
    questions: &str,
) -> Result<(), AllocError>
    requires { Sound program.now }
{
    for line in questions.lines() {
        write!(text, "{line}:")?;
        let (question, count) = match line.split_once(" at ") {
            Some((question, count)) => (question, number_of(count) as usize),
            None => (line, steps.len()),
        };
        add_answer_at(alloc, text, program, steps, question, count)?;
        text.push('\n')?;
    }
    Ok(())
}

/// Adds the answer to a question of the trace of the first so many steps, or why they are none.
fn add_answer_at(
    alloc: Global,
    text: &mut String,
    program: &Program,
    steps: &Forms,
    question: &str,
    count: usize,
) -> Result<(), AllocError>
    requires { Sound program.now }
{
    match trace_of(alloc, program, steps, count) {
        Ok(trace) => {
            let added = add_answer(alloc, text, program, &trace, question);
            drop(trace);
            added
        }
        Err(StepError::NoMemory) => Err(AllocError),
        Err(error) => write!(text, " {error}"),
    }
}

/// The trace whose steps the first so many forms mean.
fn trace_of(
    alloc: Global,
    program: &Program,
    steps: &Forms,
    count: usize,
) -> Result<Trace, StepError>
    requires { Sound program.now }
    ensures { IfOk result (λ t. t.run.opening ≡ program_opening program.now) }
{
    let opening = opening_of(alloc, program)?;
    steps_of(alloc, steps, 0, count.min(steps.len()), opening)
}
