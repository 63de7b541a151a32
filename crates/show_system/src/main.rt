//! Calls of the system, one after another, and facts of traces. Standard input has sections, each with a line `# WHAT NAME`, which is
//! written, and a program. With `facts` there follow a line `(trace)`, the forms of steps, a line `(facts)`, and questions, one a line.
//! Each is written with its answer (`questions.rt`). A question is a word with numbers, and may end with ` at K`: then it is asked of
//! the first K steps alone.
//!
//! Else there follow a line `(calls)`, and calls, one a line. What they answer is written: a step that was made, or why none was, or what
//! was asked for. With `full` the system keeps full views. With `hearing` it keeps numbers of versions, and full views are made anew for
//! each question. With `both` it keeps full views, and a line tells whether a system that keeps numbers of versions answers the same;
//! then that one answers by pruned views.
//!
//! The status is 3 where the input is no text in UTF-8, 5 or 6 where reading or writing failed, and 7 without memory.
#![tactic(auto)]

ghost use Rattle.std.specs.Prelude.{IfSome};
ghost use Rattle.tau_tree.specs.Sound.{Sound};

mod answers;
mod facts;
mod heard;
mod questions;
mod run;
mod showing;
mod told;
mod viewed;

use crate::facts::add_facts;
use crate::heard::show_heard;
use crate::run::Run;
use crate::showing::Shown;
use crate::viewed::show_viewed;
use std::alloc::{AllocError, Global};
use std::process::ExitCode;
use tau_compact::PrunedView;
use tau_forms::program_of;
use tau_io::{StdSink, StdSource, read_all, write_all_of};
use tau_sexpr::read_forms;
use tau_tree::Program;
use tau_verdicts::MarkedHearing;
use tau_view::FullView;
use tau_views::Views;

fn main(rt: HostRuntime) -> ExitCode {
    let alloc = rt.alloc();
    let Ok(bytes) = read_all(alloc, &mut StdSource::new(rt.stdin()), 16_777_216) else {
        return ExitCode::from(5);
    };
    let Ok(input) = str::from_utf8(&bytes) else {
        return ExitCode::from(3);
    };
    let Ok(text) = text_of(alloc, input) else {
        return ExitCode::from(7);
    };
    match write_all_of(&mut StdSink::new(rt.stdout()), text.as_bytes()) {
        Ok(()) => ExitCode::from(0),
        Err(_) => ExitCode::from(6),
    }
}

/// The text for all sections.
fn text_of(alloc: Global, input: &str) -> Result<String, AllocError> {
    let mut text = String::new(alloc);
    for section in input.split("# ").skip(1) {
        add_section(alloc, &mut text, section)?;
    }
    Ok(text)
}

/// Adds the line of a section, and what its calls answer.
fn add_section(alloc: Global, text: &mut String, section: &str) -> Result<(), AllocError> {
    let (line, rest) = section.split_once("\n").unwrap_or((section, ""));
    writeln!(text, "# {line}")?;
    if line.split_whitespace().next() == Some("facts") {
        return add_facts(alloc, text, rest);
    }
    let (spelled, calls) = rest.split_once("(calls)\n").unwrap_or((rest, ""));
    match program_from(alloc, spelled.as_bytes()) {
        Some(program) => {
            let added = add_answers(alloc, text, line, &program, calls);
            drop(program);
            added
        }
        None => text.push_str("(no program)\n"),
    }
}

/// Adds what the calls answer on runs of the program of the kinds that the line of a section names.
fn add_answers(
    alloc: Global,
    text: &mut String,
    line: &str,
    program: &Program,
    calls: &str,
) -> Result<(), AllocError>
    requires { Sound program.now }
{
    match line.split_whitespace().next().unwrap_or("") {
        "full" => {
            text.push_str("; full\n")?;
            add_viewed(alloc, text, program, calls)
        }
        "hearing" => {
            text.push_str("; hearing\n")?;
            add_heard::<FullView>(alloc, text, program, calls)
        }
        _ => {
            text.push_str("; full\n")?;
            add_both(alloc, text, program, calls)?;
            text.push_str("; pruned\n")?;
            add_heard::<PrunedView>(alloc, text, program, calls)
        }
    }
}

/// The program that bytes spell.
pub(crate) fn program_from(alloc: Global, bytes: &[u8]) -> Option<Program>
    ensures { IfSome result Sound }
{
    let Ok(forms) = read_forms(alloc, bytes) else {
        return None;
    };
    let read = program_of(alloc, forms.items());
    drop(forms);
    match read {
        Ok(program) => Some(program),
        Err(_) => None,
    }
}

/// Adds what the calls answer on a run of the program over full views, and whether a system that keeps numbers of versions answers
/// the same.
fn add_both(
    alloc: Global,
    text: &mut String,
    program: &Program,
    calls: &str,
) -> Result<(), AllocError>
    requires { Sound program.now }
{
    let mut viewed = String::new(alloc);
    add_viewed(alloc, &mut viewed, program, calls)?;
    let mut heard = String::new(alloc);
    add_heard::<FullView>(alloc, &mut heard, program, calls)?;
    add_compared(text, &viewed, &heard)
}

/// Adds what was answered over views, and what over numbers of versions, if that differs.
fn add_compared(text: &mut String, viewed: &str, heard: &str) -> Result<(), AllocError> {
    text.push_str(viewed)?;
    if heard == viewed {
        text.push_str("; the same by numbers of versions\n")
    } else {
        text.push_str("; by numbers of versions\n")?;
        text.push_str(heard)
    }
}

/// Adds what the calls answer on a run of the program over full views.
fn add_viewed(
    alloc: Global,
    text: &mut String,
    program: &Program,
    calls: &str,
) -> Result<(), AllocError>
    requires { Sound program.now }
{
    let mut run: Run<Views<FullView>> = Run::open(alloc, program)?;
    let added = view_calls(alloc, text, &mut run, calls);
    drop(run);
    added
}

/// Makes calls on a run over full views, and adds what they answer.
fn view_calls(
    alloc: Global,
    text: &mut String,
    run: &mut Run<'_, Views<FullView>>,
    calls: &str,
) -> Result<(), AllocError> {
    for line in calls.lines() {
        let (verb, number, value, _) = words_of(line);
        if !run.make(text, verb, number, value)? {
            show_viewed(alloc, text, &run.system, verb, number)?;
        }
    }
    Ok(())
}

/// Adds what the calls answer on a run of the program over numbers of versions, with views of this type where one is asked for.
fn add_heard<V: Shown>(
    alloc: Global,
    text: &mut String,
    program: &Program,
    calls: &str,
) -> Result<(), AllocError>
    requires { Sound program.now }
{
    let mut run: Run<MarkedHearing> = Run::open(alloc, program)?;
    let added = hear_calls::<V>(alloc, text, &mut run, calls);
    drop(run);
    added
}

/// Makes calls on a run over numbers of versions, and adds what they answer.
fn hear_calls<V: Shown>(
    alloc: Global,
    text: &mut String,
    run: &mut Run<'_, MarkedHearing>,
    calls: &str,
) -> Result<(), AllocError> {
    for line in calls.lines() {
        let (verb, number, value, _) = words_of(line);
        if !run.make(text, verb, number, value)? {
            show_heard::<V>(alloc, text, &run.system, verb, number)?;
        }
    }
    Ok(())
}

/// The verb of a call, or the kind of a question, and its numbers, 0 where none stands.
pub(crate) fn words_of(line: &str) -> (&str, u32, u32, u32) {
    let mut words = line.split_whitespace();
    let verb = words.next().unwrap_or("");
    let first = number_of(words.next().unwrap_or(""));
    let second = number_of(words.next().unwrap_or(""));
    let third = number_of(words.next().unwrap_or(""));
    (verb, first, second, third)
}

/// The number that a word spells; 0 where it spells none.
pub(crate) fn number_of(word: &str) -> u32 {
    word.parse().unwrap_or(0)
}
