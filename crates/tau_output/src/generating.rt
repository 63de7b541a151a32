//! The command `gen`.
ghost use Rattle.std.specs.Prelude.{◌≡◌, IfOk};
ghost use Rattle.tau_output.specs.Printing.{GeneratesAs};

use crate::{End, Output};
use std::alloc::{AllocError, Global};
use tau_gen::generate;
use tau_text::program_text;

/// The forms of the generated program of a number, printed (docs/formats.md, "Generated programs").
pub(crate) fn generate_program(alloc: Global, number: u64) -> Result<Output, AllocError>
    ensures { IfOk result (λ o. GeneratesAs number o.text.items × (o.end ≡ End.Done)) }
{
    let program = generate(alloc, number)?;
    Ok(Output {
        text: program_text(alloc, &program)?,
        end: End::Done,
    })
}
