//! The text of a program.
ghost use Rattle.std.specs.Prelude.{◌≡◌, IfOk};
ghost use Rattle.tau_sexpr.specs.Printing.{printed};
ghost use Rattle.tau_tree.specs.Sound.{Sound};
ghost use Rattle.tau_forms.specs.Printed as forms;
ghost use Rattle.tau_text.specs.Meaning.{IsProgram, IsPrintInput};

use std::alloc::{AllocError, Global};
use tau_forms::put_program;
use tau_tree::Program;

/// The text of a program: its forms in printing order, one a line (docs/formats.md, "Programs"). It is read back as the
/// program. The error is want of memory.
pub fn program_text(alloc: Global, program: &Program) -> Result<Vec<u8>, AllocError>
    requires { Sound program.now }
    ensures text { IfOk result (λ v. v.items ≡ printed (forms.printed program.now)) }
    ensures read_back { IfOk result (λ v. IsProgram v.items program.now) }
    ensures printed_back { IfOk result (λ v. IsPrintInput v.items program.now) }
{
    let mut text = Vec::new(alloc);
    put_program(alloc, &mut text, program)?;
    Ok(text)
}
