//! The command `print`.
ghost use Rattle.std.specs.Prelude.{◌≡◌, IfOk, IfErr};
ghost use Rattle.tau_text.specs.Errors.{TellsInputFault};
ghost use Rattle.tau_text.specs.Faults.{IsPrintFault};
ghost use Rattle.tau_output.specs.Printing.{PrintsAs};
ghost use Rattle.tau_output.specs.declared.outputs.End.{End};

use crate::Output;
use crate::outputs::done;
use std::alloc::Global;
use tau_text::{InputError, program_text, read_printed};

/// The forms of the program of a program's or a run's text, printed (docs/formats.md, "Programs").
pub(crate) fn print_program(alloc: Global, bytes: &[u8]) -> Result<Output, InputError>
    ensures output { IfOk result (λ o. PrintsAs bytes.now o.text.items × (o.end ≡ End.Done)) }
    ensures fault { IfErr result (TellsInputFault (IsPrintFault bytes.now)) }
{
    let program = read_printed(alloc, bytes)?;
    done(program_text(alloc, &program))
}
