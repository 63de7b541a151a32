//! What may be kept if all else is lost.
ghost use Rattle.std.specs.Prelude.{◌≡◌, ◌<◌, ◌++◌, ◌^◌, OnOk, IfOk, length, slice_get};
ghost use Rattle.tau_svg.specs.Markup.Texts as cuts;
ghost use Rattle.tau_svg.specs.Markup.Lines.{with_line, with_lines};
ghost use Rattle.tau_svg.specs.Shapes.Each.{EachPlace, Writes};
ghost use Rattle.tau_drawing.specs.States.EndLines as specs;
ghost use Rattle.tau_drawing.specs.States.EndLines.{IsEndAt, AreEndLines};

use crate::lanes::name_of;
use crate::states::kinds::{end_class, end_symbol};
use std::alloc::{AllocError, Global};
use tau_layout::Layout;
use tau_scene::looks::{EndLook, Ending, Looks};
use tau_svg::markup::{begin, close, cut, cut_inside, end, plain, said, title, title_close};
use tau_svg::shapes::{symbol_at, text_at};
use tau_trace::Trace;
use tau_value::Names;

/// Writes the heading of what may be kept.
fn put_heading(out: &mut Vec<u8>, layout: &Layout) -> Result<(), AllocError>
    ensures { OnOk result (out.new.items ≡ with_line out.old.items (specs.heading_line layout.now)) }
{
    text_at(out, b"b", 16, layout.grid().foot + 18)?;
    plain(out, b"What may be kept if all else is lost")?;
    close(out, b"text")
}

/// The title of what may be kept: the name of the transactor, and what is said of it.
fn title_of(alloc: Global, name: &[u8], text: &[u8]) -> Result<Vec<u8>, AllocError>
    ensures { IfOk result (λ v. v.items ≡ cuts.cut (name.now ++ text.now) 400) }
{
    let mut label = Vec::from_slice(alloc, name)?;
    label.extend_from_slice(text)?;
    cut(&mut label, 400)?;
    Ok(label)
}

/// The text of what may be kept in the list, where a longer name is cut in the middle.
fn label_of(alloc: Global, name: &[u8], text: &[u8]) -> Result<Vec<u8>, AllocError>
    ensures { IfOk result (λ v. v.items ≡ cuts.cut (cuts.cut_inside name.now 15 ++ text.now) 33) }
{
    let mut label = cut_inside(alloc, name, 15)?;
    label.extend_from_slice(text)?;
    cut(&mut label, 33)?;
    Ok(label)
}

/// Writes the symbol of what may be kept at the foot of a lane with this middle, with its title.
fn put_foot(
    alloc: Global,
    out: &mut Vec<u8>,
    layout: &Layout,
    x: u64,
    look: EndLook,
    name: &[u8],
    text: &[u8],
) -> Result<(), AllocError>
    ensures { OnOk result (out.new.items ≡ with_line out.old.items (specs.foot_line layout.now x look name.now text.now)) }
{
    let label = title_of(alloc, name, text)?;
    begin(out, b"use")?;
    symbol_at(
        out,
        b"#tau-end-",
        end_symbol(look),
        x,
        layout.grid().foot + 11,
    )?;
    title(out)?;
    said(out, &label)?;
    title_close(out, b"use")
}

/// In which column of the list what is kept of a lane stands.
fn end_x(layout: &Layout, rank: usize) -> u64
    requires { rank < 2 ^ 50 }
    ensures x { result ≡ specs.end_x layout.now rank }
    ensures most { result < 2 ^ 60 }
{
    24 + 250 * (rank as u64 % layout.grid().columns)
}

/// In which row.
fn end_y(layout: &Layout, rank: usize) -> u64
    requires { rank < 2 ^ 50 }
    ensures y { result ≡ specs.end_y layout.now rank }
    ensures most { result < 2 ^ 60 }
{
    let grid = layout.grid();
    grid.foot + 36 + 16 * (rank as u64 / grid.columns)
}

/// Writes the symbol of what may be kept in the list.
fn put_symbol(
    out: &mut Vec<u8>,
    layout: &Layout,
    rank: usize,
    look: EndLook,
) -> Result<(), AllocError>
    requires { rank < 2 ^ 50 }
    ensures { OnOk result (out.new.items ≡ with_line out.old.items (specs.symbol_line layout.now rank look)) }
{
    let x = end_x(layout, rank);
    let y = end_y(layout, rank);
    begin(out, b"use")?;
    symbol_at(out, b"#tau-end-", end_symbol(look), x, y)?;
    end(out)
}

/// Writes the text of what may be kept.
fn put_text(
    alloc: Global,
    out: &mut Vec<u8>,
    layout: &Layout,
    rank: usize,
    look: EndLook,
    name: &[u8],
    text: &[u8],
) -> Result<(), AllocError>
    requires { rank < 2 ^ 50 }
    ensures { OnOk result (out.new.items ≡ with_line out.old.items (specs.text_line layout.now rank look name.now text.now)) }
{
    let label = label_of(alloc, name, text)?;
    let x = end_x(layout, rank) + 12;
    let y = end_y(layout, rank) + 4;
    text_at(out, end_class(look), x, y)?;
    said(out, &label)?;
    close(out, b"text")
}

/// Writes what may be kept of the transactor with this name, of a lane with this middle.
fn put_end(
    alloc: Global,
    out: &mut Vec<u8>,
    layout: &Layout,
    rank: usize,
    x: u64,
    name: &[u8],
    ending: &Ending,
) -> Result<(), AllocError>
    requires { rank < 2 ^ 50 }
    ensures { OnOk result (out.new.items ≡ with_lines out.old.items (specs.end_lines layout.now rank x ending.now.look name.now ending.now.text.items)) }
{
    put_foot(alloc, out, layout, x, ending.look, name, &ending.text)?;
    put_symbol(out, layout, rank, ending.look)?;
    put_text(alloc, out, layout, rank, ending.look, name, &ending.text)
}

/// Writes what may be kept of the transactor of the lane of a rank, if that is told.
fn put_end_at(
    alloc: Global,
    out: &mut Vec<u8>,
    layout: &Layout,
    looks: &Looks,
    rank: usize,
    x: u64,
    name: &[u8],
) -> Result<(), AllocError>
    requires { rank < 2 ^ 50 }
    ensures { OnOk result (out.new.items ≡ with_lines out.old.items (specs.ending_lines layout.now rank x name.now (slice_get looks.now.ends.items rank))) }
{
    match looks.ends.get(rank) {
        Some(ending) => put_end(alloc, out, layout, rank, x, name, ending),
        None => Ok(()),
    }
}

/// Writes what may be kept of the transactor of each lane.
fn put_lanes(
    alloc: Global,
    out: &mut Vec<u8>,
    names: &Names,
    layout: &Layout,
    looks: &Looks,
) -> Result<(), AllocError>
    ensures { OnOk result (Writes (EachPlace (IsEndAt names.now layout.now looks.now) 0 (length layout.now.lanes)) out.old.items out.new.items) }
{
    let columns = layout.columns();
    for (rank, column) in columns.iter().enumerate() {
        let name = name_of(alloc, names, column.who)?;
        put_end_at(alloc, out, layout, looks, rank, column.x, &name)?;
    }
    Ok(())
}

/// Writes what may be kept if all else is lost: a heading, and for each lane, by rank, a symbol at its foot, and the same with a text
/// in a list below the rows (docs/formats.md, "Pictures"). The error is want of memory.
pub fn put_ends(
    alloc: Global,
    out: &mut Vec<u8>,
    trace: &Trace,
    layout: &Layout,
    looks: &Looks,
) -> Result<(), AllocError>
    ensures { OnOk result (Writes (AreEndLines trace.now.run layout.now looks.now) out.old.items out.new.items) }
{
    put_heading(out, layout)?;
    put_lanes(alloc, out, &trace.opening().names, layout, looks)?;
    Ok(())
}
