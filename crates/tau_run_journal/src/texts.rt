//! The text of the last step of a trace, as it stands in a record.
ghost use Rattle.std.specs.Prelude.{◌≡◌, ◌<◌, ◌↔◌, IfOk, OnOk, IsTrue};
ghost use Rattle.tau_trace.specs.declared.step.Step.{Step};
ghost use Rattle.tau_trace.specs.Run.{Run, len, appended};
ghost use Rattle.tau_journal.specs.Records.{going_on};
ghost use Rattle.tau_run_journal.specs.Standing.{IsStepText};

use std::alloc::{AllocError, Global};
use tau_sexpr::put_form_line;
use tau_steps::form_of_step;
use tau_steps::laws::printed_steps_mean_themselves;
use tau_trace::Trace;

/// Puts the text of the last step, its form with a line feed, into a buffer, in place of what it had.
pub(crate) fn put_last_text(
    alloc: Global,
    text: &mut Vec<u8>,
    trace: &Trace,
) -> Result<(), AllocError>
    requires { 0 < len trace.now.run }
    ensures { OnOk result ((T : Run) (s : Step) → trace.now.run ≡ appended T s → IsStepText T s text.new.items) }
{
    let steps = trace.len();
    prove!(0 < steps);
    printed_steps_mean_themselves();
    let form = form_of_step(alloc, trace, steps - 1)?;
    text.clear();
    put_form_line(text, &form)
}

/// Whether a record is the text of the last step; the text is a buffer.
pub(crate) fn is_last_text(
    alloc: Global,
    text: &mut Vec<u8>,
    trace: &Trace,
    bytes: &[u8],
) -> Result<bool, AllocError>
    requires { 0 < len trace.now.run }
    ensures { IfOk result (λ b. (T : Run) (s : Step) → trace.now.run ≡ appended T s → IsTrue b ↔ IsStepText T s bytes.now) }
{
    put_last_text(alloc, text, trace)?;
    Ok(same_bytes(text, bytes))
}

/// Whether a record says that the run went on after a stop.
pub(crate) fn is_mark(bytes: &[u8]) -> bool
    ensures { IsTrue result ↔ (bytes.now ≡ going_on) }
{
    bytes == b"(resumed)\n".as_slice()
}

/// Whether two texts are the same.
pub(crate) fn same_bytes(one: &[u8], two: &[u8]) -> bool
    ensures { IsTrue result ↔ (one.now ≡ two.now) }
{
    one == two
}
