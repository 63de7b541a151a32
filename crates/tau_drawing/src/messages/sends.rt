//! The lines of messages that no drawn step receives or loses.
ghost use Rattle.std.specs.Prelude.{◌≡◌, ◌<◌, ◌↔◌, ℕ, Some, IsTrue, OnOk};
ghost use Rattle.tau_script.specs.Openings.{program_opening};
ghost use Rattle.tau_trace.specs.Run.{len};
ghost use Rattle.tau_trace.specs.Numbering.{sent, Removes};
ghost use Rattle.tau_svg.specs.Shapes.Each.{Writes};
ghost use Rattle.tau_layout.specs.Plans.{IsPlan};
ghost use Rattle.tau_layout.specs.Inner.Marking.{AreMarks};
ghost use Rattle.tau_drawing.specs.Messages.Messages.{IsMet, IsSentLine};
ghost use Rattle.tau_drawing.specs.Messages.Inner.Bearers.{AreBearers};

use crate::messages::bearers::bearer_at;
use crate::messages::drawing::{Drawing, Message, Sending};
use crate::messages::lines::put_sent_line;
use crate::messages::meetings::is_met;
use std::alloc::{AllocError, Global};
use tau_layout::paths::spot_at;
use tau_trace::{Step, Trace};

/// Whether no step of the trace takes a message out of flight.
pub(crate) fn flies(trace: &Trace, message: u32) -> bool
    ensures { IsTrue result ↔ ((j : ℕ) → ¬ Removes trace.now.run message j) }
{
    trace.ended_by(message).is_none()
}

/// The line of the message that a step at a place makes.
pub(crate) fn put_sent(
    alloc: Global,
    out: &mut Vec<u8>,
    drawing: &Drawing,
    step: &Step,
    place: u32,
    number: u32,
) -> Result<(), AllocError>
    requires opening { drawing.now.trace.now.run.opening ≡ program_opening drawing.now.program.now }
    requires plan { IsPlan drawing.now.trace.now.run drawing.now.layout.now.window drawing.now.layout.now }
    requires bearers { AreBearers drawing.now.trace.now.run (len drawing.now.trace.now.run) drawing.now.bearers.now }
    requires met { AreMarks (IsMet drawing.now.trace.now.run drawing.now.layout.now.window) (sent drawing.now.trace.now.run (len drawing.now.trace.now.run)) drawing.now.met.now }
    requires exists { number < sent drawing.now.trace.now.run (len drawing.now.trace.now.run) }
    ensures { OnOk result (Writes (IsSentLine drawing.now.program.now drawing.now.trace.now.run drawing.now.layout.now place step.now number) out.old.items out.new.items) }
{
    if is_met(drawing.met, number) {
        return Ok(());
    }
    let Some(to) = drawing.trace.target(number) else {
        return Ok(());
    };
    let Some(bearer) = bearer_at(drawing.bearers, number) else {
        unreachable!()
    };
    let message = Message { number, to, bearer };
    let at = spot_at(drawing.trace, drawing.layout, place);
    let flies = flies(drawing.trace, number);
    let sending = Sending {
        place,
        message,
        flies,
        at,
    };
    put_sent_line(alloc, out, drawing, step, sending)?;
    Ok(())
}
