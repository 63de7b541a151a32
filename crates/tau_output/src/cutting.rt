//! The command `cut`.
ghost use Rattle.std.specs.Prelude.{◌≡◌, IfOk, IfErr};
ghost use Rattle.tau_text.specs.Errors.{TellsInputFault};
ghost use Rattle.tau_text.specs.Faults.{IsRunFault};
ghost use Rattle.tau_output.specs.Cutting.{CutsAs};
ghost use Rattle.tau_output.specs.declared.outputs.End.{End};

use crate::Output;
use crate::outputs::done;
use std::alloc::Global;
use tau_cut::cut_text;
use tau_text::{InputError, read_run_text};

/// The greatest set of checkpoints of the run of a run text that could all be kept, and the states that are kept with it
/// (docs/formats.md, "Cuts").
pub(crate) fn cut_run(alloc: Global, bytes: &[u8]) -> Result<Output, InputError>
    ensures output { IfOk result (λ o. CutsAs bytes.now o.text.items × (o.end ≡ End.Done)) }
    ensures fault { IfErr result (TellsInputFault (IsRunFault bytes.now)) }
{
    let input = read_run_text(alloc, bytes)?;
    done(cut_text(alloc, &input.program, &input.trace))
}
