//! The lines of messages to the steps that receive or lose them.
ghost use Rattle.std.specs.Prelude.{◌≡◌, ◌<◌, Some, OnOk};
ghost use Rattle.tau_script.specs.Openings.{program_opening};
ghost use Rattle.tau_trace.specs.Run.{len, step_at};
ghost use Rattle.tau_trace.specs.Known.{WellFormed};
ghost use Rattle.tau_svg.specs.Shapes.Each.{Writes};
ghost use Rattle.tau_layout.specs.Plans.{IsPlan};
ghost use Rattle.tau_layout.specs.Paths.Senders.{met_by};
ghost use Rattle.tau_drawing.specs.Messages.Messages.{IsReceiptLine};
ghost use Rattle.tau_drawing.specs.Messages.Inner.Bearers.{AreBearers};

use crate::messages::bearers::bearer_at;
use crate::messages::drawing::{Drawing, Message, Receipt};
use crate::messages::lines::put_receipt_line;
use std::alloc::{AllocError, Global};
use tau_layout::paths::{in_row, middle_of, source_of};
use tau_trace::Step;

/// The line of the message that a step at a place receives or loses.
pub(crate) fn put_receipt(
    alloc: Global,
    out: &mut Vec<u8>,
    drawing: &Drawing,
    step: &Step,
    place: u32,
    number: u32,
) -> Result<(), AllocError>
    requires opening { drawing.now.trace.now.run.opening ≡ program_opening drawing.now.program.now }
    requires plan { IsPlan drawing.now.trace.now.run drawing.now.layout.now.window drawing.now.layout.now }
    requires well_formed { WellFormed drawing.now.trace.now.run }
    requires bearers { AreBearers drawing.now.trace.now.run (len drawing.now.trace.now.run) drawing.now.bearers.now }
    requires stands { step_at drawing.now.trace.now.run place ≡ Some step.now }
    requires meets { met_by step.now ≡ Some number }
    ensures { OnOk result (Writes (IsReceiptLine drawing.now.program.now drawing.now.trace.now.run drawing.now.layout.now place step.now number) out.old.items out.new.items) }
{
    let Some(middle) = middle_of(drawing.trace, drawing.layout, place) else {
        return Ok(());
    };
    let Some(bearer) = bearer_at(drawing.bearers, number) else {
        unreachable!()
    };
    let source = source_of(drawing.trace, drawing.layout, number, middle.who);
    let message = Message {
        number,
        to: middle.who,
        bearer,
    };
    let at = in_row(drawing.layout, middle.x, place);
    let grid = drawing.layout.grid();
    let receipt = Receipt {
        place,
        message,
        source,
        middle: at,
    };
    put_receipt_line(alloc, out, drawing, grid, step, receipt)?;
    Ok(())
}
