//! The names and the axes of lanes.
ghost use Rattle.std.specs.Prelude.{◌≡◌, ◌<◌, ◌≤◌, ◌^◌, OnOk, IfOk, codes};
ghost use Rattle.tau_svg.specs.Markup.Lines.{with_attribute, with_line};
ghost use Rattle.tau_value.specs.Written.{name_written};
ghost use Rattle.tau_trace.specs.Run.{len};
ghost use Rattle.tau_trace.specs.Numbering.{born};
ghost use Rattle.tau_trace.specs.Known.{WellFormed};
ghost use Rattle.tau_svg.specs.Shapes.Each.{Writes};
ghost use Rattle.tau_layout.specs.Plans.{IsPlan};
ghost use Rattle.tau_layout.specs.Inner.Laying.{lane_of};
ghost use Rattle.tau_drawing.specs.Lanes.LaneLines as specs;
ghost use Rattle.tau_drawing.specs.Lanes.LaneLines.{AreLinesAt, AreLaneLines};

use std::alloc::{AllocError, Global};
use tau_layout::{Column, Layout};
use tau_past::Index;
use tau_scene::words::put_who;
use tau_svg::markup::{
    begin, close, cut_inside, name, number, plain, put_word, quote, said, text, title, title_close,
};
use tau_svg::shapes::{Grid, put, put_pair, text_at};
use tau_trace::Trace;
use tau_value::Names;

/// The name of a transactor.
pub(crate) fn name_of(alloc: Global, names: &Names, who: u32) -> Result<Vec<u8>, AllocError>
    ensures { IfOk result (λ v. v.items ≡ name_written names.now who) }
{
    let mut name = Vec::new(alloc);
    put_who(&mut name, names, who)?;
    Ok(name)
}

/// Writes the name of a lane above it.
fn put_wide(out: &mut Vec<u8>, x: u64, y: u64, label: &[u8]) -> Result<(), AllocError>
    ensures { OnOk result (out.new.items ≡ with_line out.old.items (specs.wide_line x y label.now)) }
{
    text_at(out, b"lane", x, y)?;
    said(out, label)?;
    close(out, b"text")
}

/// A text stands upright at a place.
fn put_turn(out: &mut Vec<u8>, x: u64, y: u64) -> Result<(), AllocError>
    ensures { OnOk result (out.new.items ≡ with_attribute out.old.items (specs.turned x y)) }
{
    name(out, b"transform")?;
    plain(out, b"translate(")?;
    number(out, x)?;
    plain(out, b" ")?;
    number(out, y)?;
    plain(out, b")rotate(-90)")?;
    quote(out)
}

/// Writes the name of a lane upright above it.
fn put_tall(out: &mut Vec<u8>, x: u64, y: u64, label: &[u8]) -> Result<(), AllocError>
    ensures { OnOk result (out.new.items ≡ with_line out.old.items (specs.tall_line x y label.now)) }
{
    begin(out, b"text")?;
    put_word(out, b"class", b"tall")?;
    put_turn(out, x, y)?;
    text(out)?;
    said(out, label)?;
    close(out, b"text")
}

/// Writes the name of a lane above this height.
pub(crate) fn put_name(
    alloc: Global,
    out: &mut Vec<u8>,
    grid: Grid,
    x: u64,
    foot: u64,
    name: &[u8],
) -> Result<(), AllocError>
    requires foot { 8 ≤ foot }
    requires x { x < 2 ^ 50 }
    ensures { OnOk result (out.new.items ≡ with_line out.old.items (specs.name_line grid x foot name.now)) }
{
    if grid.is_wide {
        return put_wide(out, x, foot - 8, &cut_inside(alloc, name, 15)?);
    }
    put_tall(out, x + 4, foot - 6, &cut_inside(alloc, name, 12)?)
}

/// Where an axis begins.
fn axis_top(layout: &Layout, birth: Option<u32>) -> u64
    ensures { result ≡ specs.axis_top layout.now birth }
{
    match birth {
        Some(place) if layout.window().from <= place => layout.y(place),
        _ => layout.grid().top - 12,
    }
}

/// Where an axis ends.
fn axis_foot(layout: &Layout, end: Option<u32>) -> u64
    ensures { result ≡ specs.axis_foot layout.now end }
{
    match end {
        Some(place) => layout.y(place),
        None => layout.grid().foot,
    }
}

/// Writes the way of an axis.
fn put_way(out: &mut Vec<u8>, x: u64, top: u64, foot: u64) -> Result<(), AllocError>
    ensures { OnOk result (out.new.items ≡ with_attribute out.old.items (record { name = codes "d"; value = specs.axis_way x top foot })) }
{
    name(out, b"d")?;
    put_pair(out, b"M", x, top)?;
    put(out, b"V", foot)?;
    quote(out)
}

/// Writes an axis.
fn put_axis(
    out: &mut Vec<u8>,
    column: Column,
    top: u64,
    foot: u64,
    name: &[u8],
) -> Result<(), AllocError>
    ensures { OnOk result (out.new.items ≡ with_line out.old.items (specs.axis_line column.x top foot name.now column.node)) }
{
    begin(out, b"path")?;
    put_word(out, b"class", b"axis")?;
    put_way(out, column.x, top, foot)?;
    title(out)?;
    said(out, name)?;
    plain(out, b" on node ")?;
    number(out, u64::from(column.node))?;
    title_close(out, b"path")
}

/// Writes the name and the axis of the lane of a column.
fn put_lane(
    alloc: Global,
    out: &mut Vec<u8>,
    trace: &Trace,
    index: &Index,
    layout: &Layout,
    column: Column,
) -> Result<(), AllocError>
    requires index { index.now ≡ trace.now.run }
    requires exists { column.who < born trace.now.run (len trace.now.run) }
    requires x { column.x < 2 ^ 50 }
    ensures { OnOk result (Writes (AreLinesAt trace.now.run layout.now column.x (lane_of column)) out.old.items out.new.items) }
{
    let name = name_of(alloc, &trace.opening().names, column.who)?;
    let grid = layout.grid();
    put_name(alloc, out, grid, column.x, grid.top - 12, &name)?;
    let top = axis_top(layout, index.birth_of(column.who));
    let foot = axis_foot(layout, trace.end_of(column.who));
    put_axis(out, column, top, foot, &name)?;
    Ok(())
}

/// Writes for each lane, by rank, the name of its transactor, and the axis: from its New to the step that ended it, as far as the
/// picture shows these (docs/formats.md, "Pictures"). The error is want of memory.
pub fn put_lanes(
    alloc: Global,
    out: &mut Vec<u8>,
    trace: &Trace,
    index: &Index,
    layout: &Layout,
) -> Result<(), AllocError>
    requires well_formed { WellFormed trace.now.run }
    requires plan { IsPlan trace.now.run layout.now.window layout.now }
    requires index { index.now ≡ trace.now.run }
    ensures { OnOk result (Writes (AreLaneLines trace.now.run layout.now) out.old.items out.new.items) }
{
    for column in layout.columns() {
        put_lane(alloc, out, trace, index, layout, *column)?;
    }
    Ok(())
}
