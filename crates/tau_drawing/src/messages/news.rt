//! The lines from transactors to those that they create.
ghost use Rattle.std.specs.Prelude.{OnOk};
ghost use Rattle.tau_trace.specs.Numbering.{IsNew};
ghost use Rattle.tau_svg.specs.Shapes.Each.{Writes};
ghost use Rattle.tau_layout.specs.Plans.{IsPlan};
ghost use Rattle.tau_drawing.specs.Messages.Messages.{IsNewLine};

use crate::messages::drawing::{Birth, Drawing};
use crate::messages::lines::put_new_line;
use std::alloc::{AllocError, Global};
use tau_layout::paths::{lane_middle, spot_at};

/// The line of the New of a transactor.
pub(crate) fn put_new(
    alloc: Global,
    out: &mut Vec<u8>,
    drawing: &Drawing,
    birth: Birth,
) -> Result<(), AllocError>
    requires plan { IsPlan drawing.now.trace.now.run drawing.now.layout.now.window drawing.now.layout.now }
    requires new { IsNew drawing.now.trace.now.run birth.place birth.who birth.born }
    ensures { OnOk result (Writes (IsNewLine drawing.now.trace.now.run drawing.now.layout.now birth.place birth.who) out.old.items out.new.items) }
{
    let Some(x) = lane_middle(drawing.layout, birth.born) else {
        return Ok(());
    };
    let at = spot_at(drawing.trace, drawing.layout, birth.place);
    put_new_line(alloc, out, drawing.trace, birth, at, x)?;
    Ok(())
}
