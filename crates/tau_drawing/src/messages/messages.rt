//! The message lines of a picture.
ghost use Rattle.std.specs.Prelude.{◌≡◌, ◌<◌, Some, OnOk};
ghost use Rattle.tau_script.specs.Openings.{program_opening};
ghost use Rattle.tau_trace.specs.Run.{len, step_at};
ghost use Rattle.tau_trace.specs.Numbering.{sent};
ghost use Rattle.tau_trace.specs.Known.{WellFormed};
ghost use Rattle.tau_svg.specs.Shapes.Each.{Writes};
ghost use Rattle.tau_layout.specs.Plans.{IsPlan};
ghost use Rattle.tau_layout.specs.Inner.Marking.{AreMarks};
ghost use Rattle.tau_trace.specs.Stored.{IsMadeAt};
ghost use Rattle.tau_layout.specs.Paths.Senders.{met_by};
ghost use Rattle.tau_drawing.specs.Messages.Messages.{IsMet, IsLineTo, IsLineOf, IsMessageLine, AreMessageLines};
ghost use Rattle.tau_drawing.specs.Messages.Inner.Bearers.{AreBearers};

use crate::messages::bearers::bearers_of;
use crate::messages::drawing::{Birth, Drawing};
use crate::messages::meetings::meetings_in;
use crate::messages::news::put_new;
use crate::messages::receipts::put_receipt;
use crate::messages::sends::put_sent;
use std::alloc::{AllocError, Global};
use tau_layout::Layout;
use tau_layout::paths::met;
use tau_trace::{Step, Trace};
use tau_tree::Program;

/// The line of a step at a place by the message that it receives or loses, if it does.
fn put_line_to(
    alloc: Global,
    out: &mut Vec<u8>,
    drawing: &Drawing,
    step: &Step,
    place: u32,
) -> Result<(), AllocError>
    requires opening { drawing.now.trace.now.run.opening ≡ program_opening drawing.now.program.now }
    requires plan { IsPlan drawing.now.trace.now.run drawing.now.layout.now.window drawing.now.layout.now }
    requires well_formed { WellFormed drawing.now.trace.now.run }
    requires bearers { AreBearers drawing.now.trace.now.run (len drawing.now.trace.now.run) drawing.now.bearers.now }
    requires stands { step_at drawing.now.trace.now.run place ≡ Some step.now }
    ensures { OnOk result (Writes (IsLineTo drawing.now.program.now drawing.now.trace.now.run drawing.now.layout.now place step.now (met_by step.now)) out.old.items out.new.items) }
{
    match met(step) {
        Some(message) => put_receipt(alloc, out, drawing, step, place, message),
        None => Ok(()),
    }
}

/// The line of a step at a place, which made a number, if it made one.
fn put_line_of(
    alloc: Global,
    out: &mut Vec<u8>,
    drawing: &Drawing,
    step: &Step,
    place: u32,
    made: u32,
) -> Result<(), AllocError>
    requires opening { drawing.now.trace.now.run.opening ≡ program_opening drawing.now.program.now }
    requires plan { IsPlan drawing.now.trace.now.run drawing.now.layout.now.window drawing.now.layout.now }
    requires well_formed { WellFormed drawing.now.trace.now.run }
    requires bearers { AreBearers drawing.now.trace.now.run (len drawing.now.trace.now.run) drawing.now.bearers.now }
    requires met { AreMarks (IsMet drawing.now.trace.now.run drawing.now.layout.now.window) (sent drawing.now.trace.now.run (len drawing.now.trace.now.run)) drawing.now.met.now }
    requires stands { step_at drawing.now.trace.now.run place ≡ Some step.now }
    requires made { IsMadeAt drawing.now.trace.now.run place made }
    ensures { OnOk result (Writes (IsLineOf drawing.now.program.now drawing.now.trace.now.run drawing.now.layout.now place step.now) out.old.items out.new.items) }
{
    match step {
        Step::Send { .. } => put_sent(alloc, out, drawing, step, place, made),
        Step::Repeat { .. } => put_sent(alloc, out, drawing, step, place, made),
        Step::New { who, .. } => {
            let birth = Birth {
                place,
                who: *who,
                born: made,
            };
            put_new(alloc, out, drawing, birth)
        }
        _ => put_line_to(alloc, out, drawing, step, place),
    }
}

/// The message line of the step at a place, or none.
fn put_line_at(
    alloc: Global,
    out: &mut Vec<u8>,
    drawing: &Drawing,
    place: u32,
) -> Result<(), AllocError>
    requires opening { drawing.now.trace.now.run.opening ≡ program_opening drawing.now.program.now }
    requires plan { IsPlan drawing.now.trace.now.run drawing.now.layout.now.window drawing.now.layout.now }
    requires well_formed { WellFormed drawing.now.trace.now.run }
    requires bearers { AreBearers drawing.now.trace.now.run (len drawing.now.trace.now.run) drawing.now.bearers.now }
    requires met { AreMarks (IsMet drawing.now.trace.now.run drawing.now.layout.now.window) (sent drawing.now.trace.now.run (len drawing.now.trace.now.run)) drawing.now.met.now }
    ensures { OnOk result (Writes (IsMessageLine drawing.now.program.now drawing.now.trace.now.run drawing.now.layout.now place) out.old.items out.new.items) }
{
    let Some(step) = drawing.trace.step(place) else {
        return Ok(());
    };
    let Some(made) = drawing.trace.made_at(place) else {
        return Ok(());
    };
    put_line_of(alloc, out, drawing, step, place, made)?;
    Ok(())
}

/// The message lines, at most one for each step that is drawn (docs/formats.md, "Pictures"). It passes over the trace once. The error is
/// want of memory.
pub fn put_messages(
    alloc: Global,
    out: &mut Vec<u8>,
    program: &Program,
    trace: &Trace,
    layout: &Layout,
) -> Result<(), AllocError>
    requires opening { trace.now.run.opening ≡ program_opening program.now }
    requires plan { IsPlan trace.now.run layout.now.window layout.now }
    ensures { OnOk result (Writes (AreMessageLines program.now trace.now.run layout.now) out.old.items out.new.items) }
{
    let window = layout.window();
    let bearers = bearers_of(alloc, trace)?;
    let met = meetings_in(alloc, trace, window)?;
    let drawing = Drawing {
        program,
        trace,
        layout,
        bearers: &bearers,
        met: &met,
    };
    for place in window.from..window.to {
        put_line_at(alloc, out, &drawing, place)?;
    }
    Ok(())
}
