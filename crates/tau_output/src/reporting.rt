//! The command `report`.
ghost use Rattle.std.specs.Prelude.{◌≡◌, IfOk, IfErr};
ghost use Rattle.tau_text.specs.Errors.{TellsInputFault};
ghost use Rattle.tau_text.specs.Faults.{IsRunFault};
ghost use Rattle.tau_output.specs.Reports.{ReportsAs};
ghost use Rattle.tau_output.specs.declared.outputs.End.{End};

use crate::Output;
use crate::outputs::done;
use std::alloc::Global;
use tau_report::report;
use tau_text::{InputError, read_run_text};

/// The report of the program and the run of a run text (docs/formats.md, "Report").
pub(crate) fn report_run(alloc: Global, bytes: &[u8]) -> Result<Output, InputError>
    ensures output { IfOk result (λ o. ReportsAs bytes.now o.text.items × (o.end ≡ End.Done)) }
    ensures fault { IfErr result (TellsInputFault (IsRunFault bytes.now)) }
{
    let input = read_run_text(alloc, bytes)?;
    done(report(alloc, &input.program, &input.trace))
}
