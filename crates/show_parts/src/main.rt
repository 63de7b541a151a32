//! Calls of the crates at the bottom, with what they answer. Standard input has sections: a line `# PART TITLE` or `# VERB TITLE`, and
//! what follows it. For each section the line is written, and then, for a part, each call that answers something, one a line, with its
//! answer:
//! - `sources`: a source, a sink and limits, with ` / ` between them, for each limit a copy of what is then left;
//! - `commands`: the words of a command line;
//! - `histories`, `sets`, `relations`, `chains`, `mailboxes`, `lists`: a verb, mostly the number of a thing that an earlier line of
//!   the section made, and more words. Each part's module tells its verbs.
//!
//! A call that can't be made answers `not made`. A verb is asked of a text, which ends before its last line feed:
//! - `forms`: the forms of the text, printed from a copy;
//! - `pieces`: how many forms each piece has that is read of the text, 1,000 times over, and the place behind it;
//! - `built`: the same as `forms`, where each word and text at the top was built anew, its last byte by a push;
//! - `numbers`: each word as a count and as an integer, written again;
//! - `values`: each form as a value, with the names `a` and `to-2` and the bound 9, printed from a copy;
//! - `program`: the program of the forms, printed from a copy that is found sound;
//! - `bodies`: for each post of the program of the forms the turn of its receiver that takes it, by a job and by the plain evaluator, each
//!   with the effects that it comes to. An effect that has a reply gets one: the opening state for get, true for dependent, a name for
//!   new, and unit for the others;
//! - `mixed`: whether the nodes and starts of a program are sound with the behaviours, posts and script of a second one, which
//!   follows a line `(with)`.
//!
//! In place of an answer to a verb stands the first fault. The status is 3 where the input is no text in UTF-8, 5 or 6 where reading or
//! writing failed, and 7 without memory.
#![tactic(auto)]

ghost use Rattle.std.specs.Prelude.{◌≤◌, All};
ghost use Rattle.tau_sexpr.specs.Tree.{HasWords, depths};

mod bodies;
mod calls;
mod chains;
mod commands;
mod effects;
mod histories;
mod mailboxes;
mod numbers;
mod operations;
mod plain;
mod points;
mod programs;
mod relations;
mod searches;
mod sets;
mod sources;
mod texts;
mod values;

use crate::bodies::add_bodies;
use crate::calls::{Call, Part};
use crate::chains::Chains;
use crate::commands::Commands;
use crate::histories::Histories;
use crate::mailboxes::Mail;
use crate::numbers::Lists;
use crate::programs::{add_mixed, add_program};
use crate::relations::Relations;
use crate::sets::Sets;
use crate::sources::Copies;
use crate::texts::{add_built, add_forms, add_pieces};
use crate::values::{add_numbers, add_values};
use std::alloc::{AllocError, Global};
use std::process::ExitCode;
use tau_io::{StdSink, StdSource, read_all, write_all_of};
use tau_sexpr::{Forms, read_forms};

fn main(rt: HostRuntime) -> ExitCode {
    let alloc = rt.alloc();
    let Ok(bytes) = read_all(alloc, &mut StdSource::new(rt.stdin()), 1_048_576) else {
        return ExitCode::from(5);
    };
    let Ok(input) = str::from_utf8(&bytes) else {
        return ExitCode::from(3);
    };
    let Ok(text) = text_of(alloc, input) else {
        return ExitCode::from(7);
    };
    match write_all_of(&mut StdSink::new(rt.stdout()), text.as_bytes()) {
        Ok(()) => ExitCode::from(0),
        Err(_) => ExitCode::from(6),
    }
}

/// The text for all sections.
fn text_of(alloc: Global, input: &str) -> Result<String, AllocError> {
    let mut text = String::new(alloc);
    for section in input.split("# ").skip(1) {
        add_section(alloc, &mut text, section)?;
    }
    Ok(text)
}

/// Adds the line of a section, and what its calls or its verb answer.
fn add_section(alloc: Global, text: &mut String, section: &str) -> Result<(), AllocError> {
    let (title, rest) = section.split_once("\n").unwrap_or((section, ""));
    let rest = rest.strip_suffix("\n").unwrap_or(rest);
    writeln!(text, "# {title}")?;
    match title.split_whitespace().next().unwrap_or("") {
        "sources" => add_answers(text, rest, &mut Copies::new(alloc)),
        "commands" => add_answers(text, rest, &mut Commands::new(alloc)),
        "histories" => add_answers(text, rest, &mut Histories::new(alloc)),
        "sets" => add_answers(text, rest, &mut Sets::new(alloc)),
        "relations" => add_answers(text, rest, &mut Relations::new(alloc)),
        "chains" => add_answers(text, rest, &mut Chains::new(alloc)),
        "mailboxes" => add_answers(text, rest, &mut Mail::new(alloc)),
        "lists" => add_answers(text, rest, &mut Lists::new(alloc)),
        verb => add_asked(alloc, text, verb, rest),
    }
}

/// Makes the call of each line, and adds what it answers.
fn add_answers<P: Part>(text: &mut String, lines: &str, part: &mut P) -> Result<(), AllocError> {
    for line in lines.lines() {
        part.call(text, Call::of(line))?;
    }
    Ok(())
}

/// Adds what a verb answers on a text.
fn add_asked(
    alloc: Global,
    text: &mut String,
    verb: &str,
    spelled: &str,
) -> Result<(), AllocError> {
    match verb {
        "mixed" => add_mixed(alloc, text, spelled),
        "pieces" => add_pieces(alloc, text, spelled),
        _ => add_answer(alloc, text, verb, spelled),
    }
}

/// Adds what a verb answers on the forms of a text; or the text's fault.
fn add_answer(
    alloc: Global,
    text: &mut String,
    verb: &str,
    spelled: &str,
) -> Result<(), AllocError> {
    match read_forms(alloc, spelled.as_bytes()) {
        Ok(forms) => add_read(alloc, text, verb, &forms),
        Err(error) => writeln!(text, "{error}"),
    }
}

/// Adds what a verb answers on forms that were read.
fn add_read(alloc: Global, text: &mut String, verb: &str, forms: &Forms) -> Result<(), AllocError>
    requires depth { depths forms.now ≤ 200 }
    requires words { All HasWords forms.now }
{
    match verb {
        "forms" => add_forms(alloc, text, forms),
        "built" => add_built(alloc, text, forms),
        "numbers" => add_numbers(alloc, text, forms),
        "values" => add_values(alloc, text, forms),
        "program" => add_program(alloc, text, forms),
        "bodies" => add_bodies(alloc, text, forms),
        _ => text.push_str("no such verb\n"),
    }
}
