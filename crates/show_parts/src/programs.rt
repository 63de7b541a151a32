//! Programs.
ghost use Rattle.std.specs.Prelude.{◌≤◌};
ghost use Rattle.tau_sexpr.specs.Tree.{depths};

use crate::texts::add_printed;
use std::alloc::{AllocError, Global};
use tau_forms::{forms_of, program_of};
use tau_sexpr::{Forms, read_forms};
use tau_tree::Program;

/// Adds the program of these forms, printed from a copy; or its fault.
pub(crate) fn add_program(alloc: Global, text: &mut String, forms: &Forms) -> Result<(), AllocError>
    requires { depths forms.now ≤ 200 }
{
    match program_of(alloc, forms.items()) {
        Ok(program) => add_copy(alloc, text, &program),
        Err(error) => writeln!(text, "{error}"),
    }
}

/// Adds a copy of a program.
fn add_copy(alloc: Global, text: &mut String, program: &Program) -> Result<(), AllocError> {
    add_sound(alloc, text, &program.copy()?)
}

/// Adds a program, printed, where it is sound.
fn add_sound(alloc: Global, text: &mut String, program: &Program) -> Result<(), AllocError> {
    if !program.sound(alloc)? {
        return text.push_str("not sound\n");
    }
    add_printed(alloc, text, &forms_of(alloc, program)?)
}

/// Adds whether the version, the nodes and the starts of a first program are sound with the behaviours, posts and script of a second one.
pub(crate) fn add_mixed(alloc: Global, text: &mut String, spelled: &str) -> Result<(), AllocError> {
    let (first, second) = spelled.split_once("(with)").unwrap_or((spelled, ""));
    let (Some(first), Some(second)) = (program_in(alloc, first), program_in(alloc, second)) else {
        return text.push_str("no programs\n");
    };
    add_soundness(alloc, text, &mixed_of(first, second))
}

/// The version, the nodes and the starts of a first program with the behaviours, posts and script of a second one.
fn mixed_of(first: Program, second: Program) -> Program {
    Program {
        version: first.version,
        nodes: first.nodes,
        behaviours: second.behaviours,
        starts: first.starts,
        posts: second.posts,
        script: second.script,
    }
}

/// Adds whether a program is sound.
fn add_soundness(alloc: Global, text: &mut String, program: &Program) -> Result<(), AllocError> {
    let is_sound = program.sound(alloc)?;
    text.push_str(if is_sound { "sound\n" } else { "not sound\n" })
}

fn program_in(alloc: Global, text: &str) -> Option<Program> {
    let forms = read_forms(alloc, text.as_bytes()).ok()?;
    program_of(alloc, forms.items()).ok()
}
