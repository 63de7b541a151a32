//! The bands of nodes.
ghost use Rattle.std.specs.Prelude.{◌≡◌, ◌<◌, ◌≤◌, ◌^◌, nat_lt, OnOk};
ghost use Rattle.std.specs.List.{AllPairs};
ghost use Rattle.tau_svg.specs.Markup.Lines.{with_line, with_lines, with_pieces};
ghost use Rattle.tau_svg.specs.Shapes.Each.{Writes};
ghost use Rattle.tau_layout.specs.Lanes.{ComesBefore};
ghost use Rattle.tau_layout.specs.Plans.{IsPlan};
ghost use Rattle.tau_layout.specs.Inner.Laying.{lanes_of};
ghost use Rattle.tau_drawing.specs.Lanes.Bands as specs;
ghost use Rattle.tau_drawing.specs.Lanes.Bands.{lanes_below, AreNodeBands};

use std::alloc::AllocError;
use tau_layout::{Column, Layout};
use tau_svg::markup::{close, number, plain};
use tau_svg::shapes::{Grid, rect, rounded, text_at};
use tau_trace::Trace;

/// How many lanes stand at nodes below this one.
fn lanes_before(columns: &[Column], node: u32) -> usize
    requires { AllPairs ComesBefore (lanes_of columns.now) }
    ensures { result ≡ lanes_below (lanes_of columns.now) node }
{
    columns.partition_point(
        |column: &Column| -> bool
            ensures { result ≡ nat_lt column.now.node node }
        { column.node < node },
    )
}

/// How wide the lanes stand of which the first and the last have these middles.
fn span(grid: Grid, first: u64, last: u64) -> u64
    requires lane { grid.lane ≤ 116 }
    requires last { last < 2 ^ 50 }
    ensures { result ≡ specs.span grid first last }
{
    last.saturating_sub(first) + grid.lane
}

/// Writes the frame of the lanes of a node.
fn put_band(out: &mut Vec<u8>, grid: Grid, first: u64, last: u64) -> Result<(), AllocError>
    requires least { 28 ≤ grid.lane }
    requires lane { grid.lane ≤ 116 }
    requires band { grid.band ≤ grid.foot }
    requires foot { grid.foot < 2 ^ 50 }
    requires left { 386 ≤ first }
    requires first { first < 2 ^ 50 }
    requires last { last < 2 ^ 50 }
    ensures { OnOk result (out.new.items ≡ with_line out.old.items (specs.band_line grid first last)) }
{
    let x = first - grid.lane / 2 + 1;
    let width = span(grid, first, last) - 2;
    let height = grid.foot + 24 - grid.band;
    rect(out, b"node", x, grid.band, width, height)?;
    rounded(out, 4)
}

/// Writes the number of a node, with the word where there is room.
fn put_number_of(
    out: &mut Vec<u8>,
    grid: Grid,
    node: u32,
    first: u64,
    last: u64,
) -> Result<(), AllocError>
    requires lane { grid.lane ≤ 116 }
    requires last { last < 2 ^ 50 }
    ensures { OnOk result (out.new.items ≡ with_pieces out.old.items (specs.node_pieces grid node first last)) }
{
    if span(grid, first, last) < 56 {
        return number(out, u64::from(node));
    }
    plain(out, b"node ")?;
    number(out, u64::from(node))
}

/// Writes the text of a node.
fn put_text(
    out: &mut Vec<u8>,
    grid: Grid,
    node: u32,
    first: u64,
    last: u64,
) -> Result<(), AllocError>
    requires lane { grid.lane ≤ 116 }
    requires band { grid.band ≤ grid.foot }
    requires foot { grid.foot < 2 ^ 50 }
    requires left { 386 ≤ first }
    requires first { first < 2 ^ 50 }
    requires last { last < 2 ^ 50 }
    ensures { OnOk result (out.new.items ≡ with_line out.old.items (specs.node_line grid node first last)) }
{
    text_at(out, b"minor", first - grid.lane / 2 + 6, grid.band + 14)?;
    put_number_of(out, grid, node, first, last)?;
    close(out, b"text")
}

/// Writes the band of a node and its number, where it has a lane.
fn put_node(out: &mut Vec<u8>, layout: &Layout, node: u32) -> Result<(), AllocError>
    requires node { node < 2 ^ 31 }
    requires lanes { AllPairs ComesBefore layout.now.lanes }
    ensures { OnOk result (out.new.items ≡ with_lines out.old.items (specs.band_lines layout.now node)) }
{
    let columns = layout.columns();
    let begin = lanes_before(columns, node);
    let end = lanes_before(columns, node + 1);
    if end <= begin {
        return Ok(());
    }
    let grid = layout.grid();
    let first = columns[begin].x;
    let last = columns[end - 1].x;
    put_band(out, grid, first, last)?;
    put_text(out, grid, node, first, last)
}

/// Writes the band of each node that has a lane, by number, with the number of the node (docs/formats.md, "Pictures"). The error is
/// want of memory.
pub fn put_nodes(out: &mut Vec<u8>, trace: &Trace, layout: &Layout) -> Result<(), AllocError>
    requires { IsPlan trace.now.run layout.now.window layout.now }
    ensures { OnOk result (Writes (AreNodeBands trace.now.run layout.now) out.old.items out.new.items) }
{
    for node in 0..trace.opening().nodes {
        put_node(out, layout, node)?;
    }
    Ok(())
}
