//! Programs that share nothing.
ghost use Rattle.std.specs.Prelude.{◌≡◌, IfOk};
ghost use Rattle.tau_tree.specs.Sound.{Sound};

use std::alloc::{AllocError, Global};
use tau_forms::{forms_mean_one_program, forms_of, program_of};
use tau_tree::Program;

/// An equal program that shares no text with this one: it is read from the other's forms. A copy of a text counts itself in the text, so
/// runs of copies of one program, in several threads, would all write to the same counts. The error is want of memory.
pub(crate) fn unshared(alloc: Global, program: &Program) -> Result<Program, AllocError>
    requires { Sound program.now }
    ensures { IfOk result (λ p. p ≡ program.now) }
{
    forms_mean_one_program();
    let forms = forms_of(alloc, program)?;
    match program_of(alloc, forms.items()) {
        Ok(own) => Ok(own),
        // The forms mean the program, so no other error can come.
        Err(_) => Err(AllocError),
    }
}
