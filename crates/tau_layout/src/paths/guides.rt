//! Guides from the texts of steps to their spots.
ghost use Rattle.std.specs.Prelude.{◌≡◌, OnOk};
ghost use Rattle.tau_svg.specs.Markup.Lines.{with_line};
ghost use Rattle.tau_svg.specs.Shapes.Each.{Writes};
ghost use Rattle.tau_layout.specs.Plans.{IsPlan};
ghost use Rattle.tau_layout.specs.Paths.Guides.{guide_line, IsGuide, AreGuides};
ghost use Rattle.tau_layout.specs.Paths.Near.{IsNear};

use crate::Layout;
use crate::paths::spots::{Spot, spot_at};
use std::alloc::AllocError;
use tau_svg::markup::{begin, end, name, number, plain, put_word, quote};
use tau_trace::Trace;

/// The guide to a spot.
fn put_line(out: &mut Vec<u8>, at: Spot) -> Result<(), AllocError>
    requires { IsNear at }
    ensures { OnOk result (out.new.items ≡ with_line out.old.items (guide_line at)) }
{
    begin(out, b"path")?;
    put_word(out, b"class", b"guide")?;
    name(out, b"d")?;
    plain(out, b"M366 ")?;
    number(out, at.y)?;
    plain(out, b"H")?;
    number(out, at.x - 9)?;
    quote(out)?;
    end(out)
}

/// The guide of the step at a place.
fn put_guide(
    out: &mut Vec<u8>,
    trace: &Trace,
    layout: &Layout,
    place: u32,
) -> Result<(), AllocError>
    requires plan { IsPlan trace.now.run layout.now.window layout.now }
    ensures { OnOk result (Writes (IsGuide trace.now.run layout.now place) out.old.items out.new.items) }
{
    let at = spot_at(trace, layout, place);
    put_line(out, at)?;
    Ok(())
}

/// The guides, one for each step that is drawn (docs/formats.md, "Pictures"). The error is want of memory.
pub fn put_guides(out: &mut Vec<u8>, trace: &Trace, layout: &Layout) -> Result<(), AllocError>
    requires plan { IsPlan trace.now.run layout.now.window layout.now }
    ensures { OnOk result (Writes (AreGuides trace.now.run layout.now) out.old.items out.new.items) }
{
    let window = layout.window();
    for place in window.from..window.to {
        put_guide(out, trace, layout, place)?;
    }
    Ok(())
}
