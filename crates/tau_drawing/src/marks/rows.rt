//! Rows.
ghost use Rattle.std.specs.Prelude.{◌≡◌, ◌<◌, ◌≤◌, ◌++◌, length, IfOk, OnOk};
ghost use Rattle.tau_svg.specs.Markup.Texts as texts;
ghost use Rattle.tau_svg.specs.Markup.Lines.{with_line};
ghost use Rattle.tau_scene.specs.Words.Texts.{bare_text};
ghost use Rattle.tau_svg.specs.Shapes.Each.{Writes};
ghost use Rattle.tau_svg.specs.Shapes.Windows.{count, IsDrawn};
ghost use Rattle.tau_trace.specs.Run.{len};
ghost use Rattle.tau_layout.specs.Plans.{IsPlan};
ghost use Rattle.tau_layout.specs.Paths.Near.{IsNear};
ghost use Rattle.tau_drawing.specs.Marks.Rows as specs;
ghost use Rattle.tau_drawing.specs.Marks.Rows.{IsRow, AreRows};

use crate::marks::looks::look_at;
use std::alloc::{AllocError, Global};
use tau_layout::Layout;
use tau_layout::paths::{Spot, spot_at};
use tau_scene::looks::{Looks, RowLook, StepLook};
use tau_scene::words::put_bare;
use tau_svg::markup::{close, cut, number, said};
use tau_svg::shapes::text_at;
use tau_trace::Trace;

/// The class of a row.
fn row_word(row: RowLook) -> &'static [u8]
    ensures { result.now ≡ specs.row_word row }
{
    match row {
        RowLook::Good => b"good",
        RowLook::Warn => b"warn",
        RowLook::Bad => b"bad",
        RowLook::Gone => b"gone",
        RowLook::Minor => b"minor",
        RowLook::Row => b"row",
    }
}

/// The place of a step, in its row.
fn put_place(out: &mut Vec<u8>, place: u32, at: Spot) -> Result<(), AllocError>
    requires { IsNear at }
    ensures { OnOk result (out.new.items ≡ with_line out.old.items (specs.place_line place at)) }
{
    text_at(out, b"num", 44, at.y + 4)?;
    number(out, u64::from(place))?;
    close(out, b"text")
}

/// The step at a place without its outer brackets, and its note, of which at most 46 bytes stand.
fn row_said(
    alloc: Global,
    trace: &Trace,
    place: u32,
    look: &StepLook,
) -> Result<Vec<u8>, AllocError>
    requires { place < len trace.now.run }
    ensures { IfOk result (λ v. v.items ≡ texts.cut (bare_text trace.now.run place ++ look.now.note.items) 46) }
{
    let mut text = Vec::new(alloc);
    put_bare(alloc, &mut text, trace, place)?;
    text.extend_from_slice(&look.note)?;
    cut(&mut text, 46)?;
    Ok(text)
}

/// The text of a step, in its row.
fn put_text(
    alloc: Global,
    out: &mut Vec<u8>,
    trace: &Trace,
    place: u32,
    look: &StepLook,
    at: Spot,
) -> Result<(), AllocError>
    requires near { IsNear at }
    requires place { place < len trace.now.run }
    ensures { OnOk result (out.new.items ≡ with_line out.old.items (specs.row_line trace.now.run place look.now at)) }
{
    text_at(out, row_word(look.row), 54, at.y + 4)?;
    said(out, &row_said(alloc, trace, place, look)?)?;
    close(out, b"text")
}

/// The place and the text of the step at a place.
fn put_row(
    alloc: Global,
    out: &mut Vec<u8>,
    trace: &Trace,
    layout: &Layout,
    looks: &[StepLook],
    place: u32,
) -> Result<(), AllocError>
    requires plan { IsPlan trace.now.run layout.now.window layout.now }
    requires looks { length looks.now ≡ count layout.now.window }
    requires drawn { IsDrawn layout.now.window place }
    requires place { place < len trace.now.run }
    ensures { OnOk result (Writes (IsRow trace.now.run layout.now looks.now place) out.old.items out.new.items) }
{
    let Some(look) = look_at(looks, layout.window(), place) else {
        unreachable!()
    };
    let at = spot_at(trace, layout, place);
    put_place(out, place, at)?;
    put_text(alloc, out, trace, place, look, at)?;
    Ok(())
}

/// The places and the texts of the steps that are drawn, with their looks by place (docs/formats.md, "Pictures"). The error is want of
/// memory.
pub fn put_rows(
    alloc: Global,
    out: &mut Vec<u8>,
    trace: &Trace,
    layout: &Layout,
    looks: &Looks,
) -> Result<(), AllocError>
    requires plan { IsPlan trace.now.run layout.now.window layout.now }
    requires window { layout.now.window.to ≤ len trace.now.run }
    requires looks { length looks.now.steps.items ≡ count layout.now.window }
    ensures { OnOk result (Writes (AreRows trace.now.run layout.now looks.now.steps.items) out.old.items out.new.items) }
{
    let window = layout.window();
    for place in window.from..window.to {
        put_row(alloc, out, trace, layout, &looks.steps, place)?;
    }
    Ok(())
}
