//! The names of lanes again, below each 50 rows.
ghost use Rattle.std.specs.Prelude.{◌≡◌, ◌<◌, ◌≤◌, ◌^◌, OnOk, length};
ghost use Rattle.tau_svg.specs.Markup.Lines.{with_line, with_lines};
ghost use Rattle.tau_value.specs.Written.{name_written};
ghost use Rattle.tau_svg.specs.Shapes.Each.{EachPlace, Writes};
ghost use Rattle.tau_drawing.specs.Lanes.NameLines as specs;
ghost use Rattle.tau_drawing.specs.Lanes.NameLines.{IsNamed, AreNameLines};

use crate::lanes::lanes::{name_of, put_name};
use std::alloc::{AllocError, Global};
use tau_layout::{Column, Layout};
use tau_svg::markup::end;
use tau_svg::shapes::{Grid, rect};
use tau_trace::Trace;
use tau_value::Names;

/// Where the line of names below the first so many rows ends.
fn names_foot(grid: Grid, rows: u32) -> u64
    requires row { grid.row ≤ 18 }
    requires names { grid.names ≤ 98 }
    requires least { 124 ≤ grid.top }
    requires top { grid.top < 2 ^ 50 }
    ensures foot { result ≡ specs.names_foot grid rows }
    ensures least { 115 ≤ result }
{
    grid.top + grid.down(rows) - grid.row / 2
}

/// Half the width of the frame of a name.
fn frame_half(grid: Grid) -> u64
    ensures half { result ≡ specs.frame_half grid }
    ensures most { result ≤ 56 }
{
    if grid.is_wide { 56 } else { 7 }
}

/// Writes the frame of a name.
fn put_frame(out: &mut Vec<u8>, grid: Grid, x: u64, foot: u64) -> Result<(), AllocError>
    requires x { 386 ≤ x }
    requires names { 14 ≤ grid.names }
    requires foot { 8 ≤ foot }
    ensures { OnOk result (out.new.items ≡ with_line out.old.items (specs.frame_line grid x foot)) }
{
    let half = frame_half(grid);
    let top = foot.saturating_sub(grid.names) + 1;
    rect(out, b"node", x - half, top, 2 * half, grid.names - 2)?;
    end(out)
}

/// Writes the name of the lane of a column, in its frame.
fn put_named(
    alloc: Global,
    out: &mut Vec<u8>,
    names: &Names,
    grid: Grid,
    column: Column,
    foot: u64,
) -> Result<(), AllocError>
    requires left { 386 ≤ column.x }
    requires right { column.x < 2 ^ 50 }
    requires names { 14 ≤ grid.names }
    requires foot { 8 ≤ foot }
    ensures { OnOk result (out.new.items ≡ with_lines out.old.items (specs.named_lines grid column.x foot (name_written names.now column.who))) }
{
    let name = name_of(alloc, names, column.who)?;
    put_frame(out, grid, column.x, foot)?;
    put_name(alloc, out, grid, column.x, foot, &name)
}

/// Writes the names of the lanes below the first so many rows.
fn put_line(
    alloc: Global,
    out: &mut Vec<u8>,
    trace: &Trace,
    layout: &Layout,
    rows: u32,
) -> Result<(), AllocError>
    ensures { OnOk result (Writes (EachPlace (IsNamed trace.now.run layout.now rows) 0 (length layout.now.lanes)) out.old.items out.new.items) }
{
    let names = &trace.opening().names;
    let grid = layout.grid();
    let foot = names_foot(grid, rows);
    for column in layout.columns() {
        put_named(alloc, out, names, grid, *column, foot)?;
    }
    Ok(())
}

/// Writes below each 50 rows the name of each lane again, by rank, in a frame (docs/formats.md, "Pictures"). The error is want of
/// memory.
pub fn put_names(
    alloc: Global,
    out: &mut Vec<u8>,
    trace: &Trace,
    layout: &Layout,
) -> Result<(), AllocError>
    ensures { OnOk result (Writes (AreNameLines trace.now.run layout.now) out.old.items out.new.items) }
{
    let lines = layout.window().count() / 50;
    for number in 1..lines + 1 {
        put_line(alloc, out, trace, layout, 50 * number)?;
    }
    Ok(())
}
