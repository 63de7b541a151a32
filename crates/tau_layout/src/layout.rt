//! The layout of a picture.
ghost use Rattle.std.specs.Prelude.{◌≡◌, ◌≤◌, ◌<◌, ◌^◌, ◌+◌, IfOk, map, slice_get, option_map};
ghost use Rattle.tau_trace.specs.Run.{len};
ghost use Rattle.tau_layout.specs.Plans as plans;
ghost use Rattle.tau_layout.specs.Plans.{IsPlan, IsRank, IsX, row_y, strip_x};
ghost use Rattle.tau_svg.specs.Shapes.Windows as windows;
ghost use Rattle.tau_svg.specs.Shapes.Windows.{window_of};
ghost use Rattle.tau_layout.specs.declared.columns.Column.{Column};
ghost use Rattle.tau_layout.specs.Inner.Laying.{lanes_of, IsColumnOf};

use crate::columns::{Column, columns_of, ranks_of};
use crate::groups::{longest_name, marked_below, nodes_marked};
use crate::lanes::lanes_in;
use std::alloc::{AllocError, Global};
use std::marker::Model;
use tau_svg::shapes::{Grid, Window, grid_of, window_of};
use tau_trace::Trace;

/// The layout of a picture of a run (docs/formats.md, "Pictures"): the places that are drawn, the measures, the columns, and for
/// each transactor the rank of its column. Contracts see its plan.
#[derive(Drop)]
pub struct Layout {
    window: Window,
    grid: Grid,
    columns: Vec<Column>,
    ranks: Vec<Option<usize>>,
    nodes: u32,
    longest: u32,
}

impl Model for Layout {
    ghost use Rattle.tau_layout.specs.Plans.{Plan};
    ghost use Rattle.tau_layout.specs.Inner.Laying.{lanes_of, IsLaidOut};

    ghost Value = { Plan };

    ghost view = { λ l. record {
      window = l.window;
      lanes = lanes_of l.columns.items;
      nodes = l.nodes;
      longest = l.longest;
    } };

    ghost invariant = { λ l. IsLaidOut l.window l.grid l.columns.items l.ranks.items l.nodes l.longest };
}

/// The layout of a picture of the steps of a trace from one place up to another. The error is want of memory.
pub fn layout_of(alloc: Global, trace: &Trace, from: u32, to: u32) -> Result<Layout, AllocError>
    ensures { IfOk result (IsPlan trace.now.run (window_of (len trace.now.run) from to)) }
{
    let window = window_of(trace.len(), from, to);
    let lanes = lanes_in(alloc, trace, window)?;
    let nodes = trace.opening().nodes;
    let marks = nodes_marked(alloc, &lanes, nodes)?;
    let with_lane = marked_below(&marks, nodes);
    let longest = longest_name(&trace.opening().names, &lanes);
    let grid = grid_of(window.count(), lanes.len(), with_lane, longest);
    let columns = columns_of(alloc, &lanes, grid, nodes, &marks)?;
    let ranks = ranks_of(alloc, &lanes, trace.born())?;
    Ok(Layout {
        window,
        grid,
        columns,
        ranks,
        nodes: with_lane,
        longest,
    })
}

/// The rank of a transactor, in a list of ranks.
fn rank_in(ranks: &[Option<usize>], who: u32) -> Option<Option<usize>>
    ensures { result ≡ slice_get ranks.now who }
{
    ranks.get(who as usize).copied()
}

/// The column of a rank, in a list of columns.
fn column_in(columns: &[Column], rank: usize) -> Option<Column>
    ensures { result ≡ slice_get columns.now rank }
{
    columns.get(rank).copied()
}

/// The middle of the column of a rank, in a list of columns.
fn x_in(columns: &[Column], rank: usize) -> Option<u64>
    ensures { result ≡ option_map (λ (c : Column). c.x) (slice_get columns.now rank) }
{
    match column_in(columns, rank) {
        Some(column) => Some(column.x),
        None => None,
    }
}

impl Layout {
    /// The places that are drawn.
    pub fn window(&self) -> Window
        ensures window { result ≡ self.now.window }
        ensures ordered { result.from ≤ result.to }
        ensures few { windows.count result ≤ 2000 }
    {
        self.window
    }

    /// The measures.
    pub fn grid(&self) -> Grid
        ensures grid { result ≡ plans.grid self.now }
        ensures lane { 28 ≤ result.lane }
        ensures row { result.row ≤ 18 }
        ensures names_least { 14 ≤ result.names }
        ensures names { result.names ≤ 98 }
        ensures top { 124 ≤ result.top }
        ensures foot { result.top ≤ result.foot }
        ensures key { result.key < 2 ^ 50 }
        ensures width { 804 ≤ result.width }
        ensures columns { 3 ≤ result.columns }
    {
        self.grid
    }

    /// The columns, by rank.
    pub fn columns(&self) -> &[Column]
        ensures lanes { lanes_of result.now ≡ self.now.lanes }
        ensures columns { IsColumnOf self.now result.now }
    {
        &self.columns
    }

    /// How many lanes stand before that of a transactor; `None` where it has none.
    pub fn rank(&self, who: u32) -> Option<usize>
        ensures { IsRank self.now who result }
    {
        match rank_in(&self.ranks, who) {
            Some(rank) => rank,
            None => None,
        }
    }

    /// The middle of the lane of a transactor; `None` where it has none.
    pub fn x(&self, who: u32) -> Option<u64>
        ensures { IsX self.now who result }
    {
        match self.rank(who) {
            Some(rank) => x_in(&self.columns, rank),
            None => None,
        }
    }

    /// The middle of the row of a place.
    pub fn y(&self, place: u32) -> u64
        ensures y { result ≡ row_y self.now place }
        ensures least { (plans.grid self.now).top ≤ result }
        ensures most { result ≤ (plans.grid self.now).foot }
    {
        self.grid.y(self.window, place)
    }

    /// Where a place stands in the strip.
    pub fn strip(&self, place: u32) -> u64
        requires { self.now.window.from < self.now.window.to }
        ensures x { result ≡ strip_x self.now place }
        ensures least { 54 ≤ result }
        ensures most { result < 2 ^ 62 }
    {
        self.grid.strip(self.window, place)
    }
}
