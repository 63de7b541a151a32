//! The measures of a picture.
ghost use Rattle.std.specs.Prelude.{◌≡◌, ◌<◌, ◌≤◌, ◌^◌, ◌*◌, ◌+◌, ◌-◌, ◌/◌};
ghost use Rattle.tau_svg.specs.Shapes.Grids as grids;
ghost use Rattle.tau_svg.specs.Shapes.Grids.{grid_of};
ghost use Rattle.tau_svg.specs.Shapes.Windows as windows;

use crate::shapes::window::Window;

/// The measures of a picture (docs/formats.md, "Pictures"): whether its lanes are wide apart, the distances of lanes and of rows, the
/// height of a line of names, the height of the strip, where the band of nodes, the first row and the end of the rows stand, the
/// width, how many states that may be kept stand side by side, where the legend stands, and the height.
#[derive(Clone, Copy)]
pub struct Grid {
    pub is_wide: bool,
    pub lane: u64,
    pub row: u64,
    pub names: u64,
    pub over: u64,
    pub band: u64,
    pub top: u64,
    pub foot: u64,
    pub width: u64,
    pub columns: u64,
    pub key: u64,
    pub height: u64,
}

fn lane_width(lanes: u64) -> u64
    ensures { result ≡ grids.lane_width lanes }
{
    if lanes <= 6 {
        return 116;
    }
    if lanes <= 24 { 44 } else { 28 }
}

fn row_height(rows: u64) -> u64
    ensures height { result ≡ grids.row_height rows }
    ensures most { result ≤ 18 }
{
    if rows <= 200 { 18 } else { 14 }
}

/// The height of the strip.
fn strip_height(rows: u64, lanes: u64) -> u64
    ensures height { result ≡ grids.strip_height rows lanes }
    ensures most { result ≤ 542 }
{
    if 100 < rows && lanes <= 64 {
        8 * lanes + 30
    } else {
        0
    }
}

/// Where the first row stands.
fn first_row(band: u64, lanes: u64, longest: u64) -> u64
    requires band { band < 2 ^ 32 }
    requires longest { longest < 2 ^ 32 }
    ensures row { result ≡ grids.first_row band lanes longest }
    ensures most { result ≤ band + 58 + 7 * longest }
{
    if lanes <= 6 {
        band + 58
    } else {
        band + 46 + 7 * longest
    }
}

/// The width of so many lanes.
fn lanes_width(lanes: u64) -> u64
    requires { lanes < 2 ^ 40 }
    ensures width { result ≡ grids.lane_width lanes * lanes }
    ensures most { result ≤ 116 * lanes }
{
    if lanes <= 6 {
        return 116 * lanes;
    }
    if lanes <= 24 { 44 * lanes } else { 28 * lanes }
}

/// The height of a line of names.
fn names_height(lanes: u64, longest: u64) -> u64
    requires { longest < 2 ^ 32 }
    ensures height { result ≡ grids.names_height lanes longest }
    ensures most { result < 2 ^ 35 }
{
    if lanes <= 6 { 22 } else { 7 * longest + 14 }
}

/// How far so many rows go down, of this height, with lines of names of that height.
#[tactic(auto, using(crate::proofs::GridLemmas::row_step, crate::proofs::GridLemmas::names_step))]
fn rows_height(row: u64, names: u64, rows: u64) -> u64
    requires row { row ≤ 18 }
    requires names { names < 2 ^ 35 }
    requires rows { rows < 2 ^ 32 }
    ensures height { result ≡ grids.rows_height row names rows }
    ensures most { result < 2 ^ 63 }
{
    let lines = rows / 50;
    row * rows + names * lines
}

fn picture_width(lanes: u64, nodes: u64) -> u64
    requires lanes { lanes < 2 ^ 40 }
    requires nodes { nodes < 2 ^ 32 }
    ensures width { result ≡ grids.picture_width lanes nodes }
    ensures least { 804 ≤ result }
    ensures most { result < 2 ^ 50 }
{
    (384 + lanes_width(lanes) + 12 * nodes).max(804)
}

/// How many lines so many states that may be kept take, so many side by side.
#[tactic(auto, using(crate::proofs::GridLemmas::quotient_below))]
fn end_rows(lanes: u64, columns: u64) -> u64
    requires lanes { lanes < 2 ^ 40 }
    requires some { 1 ≤ columns }
    requires columns { columns < 2 ^ 50 }
    ensures rows { result ≡ (lanes + columns - 1) / columns }
    ensures most { result ≤ lanes + columns }
{
    (lanes + columns - 1) / columns
}

/// The measures of a picture with so many rows and lanes, so many nodes that have a lane, and so many bytes of the longest name.
pub fn grid_of(rows: u32, lanes: usize, nodes: u32, longest: u32) -> Grid
    requires { lanes < 2 ^ 40 }
    ensures { result ≡ grid_of rows lanes nodes longest }
{
    let rows = u64::from(rows);
    let lanes = lanes as u64;
    let over = strip_height(rows, lanes);
    let band = 78 + over;
    let top = first_row(band, lanes, u64::from(longest));
    let row = row_height(rows);
    let names = names_height(lanes, u64::from(longest));
    let foot = top + rows_height(row, names, rows);
    let width = picture_width(lanes, u64::from(nodes));
    let columns = (width - 32) / 250;
    let key = foot + 52 + 16 * end_rows(lanes, columns);
    Grid {
        is_wide: lanes <= 6,
        lane: lane_width(lanes),
        row,
        names,
        over,
        band,
        top,
        foot,
        width,
        columns,
        key,
        height: key + 74,
    }
}

impl Grid {
    /// The middle of the lane with so many lanes before it, and so many nodes before its node.
    #[tactic(auto, using(crate::proofs::GridLemmas::lane_step))]
    pub fn x(self, rank: usize, group: u32) -> u64
        requires least { 28 ≤ self.lane }
        requires lane { self.lane ≤ 116 }
        requires rank { rank < 2 ^ 40 }
        ensures x { result ≡ grids.x_of self rank group }
        ensures left { 386 ≤ result }
        ensures right { result < 2 ^ 50 }
    {
        let step = self.lane * rank as u64;
        372 + step + 12 * u64::from(group) + self.lane / 2
    }

    /// How far so many rows go down, with a line of names below each 50 of them.
    pub fn down(self, rows: u32) -> u64
        requires row { self.row ≤ 18 }
        requires names { self.names < 2 ^ 35 }
        ensures height { result ≡ grids.rows_height self.row self.names rows }
        ensures most { result < 2 ^ 63 }
    {
        rows_height(self.row, self.names, u64::from(rows))
    }

    /// The middle of the row of a place.
    pub fn y(self, window: Window, place: u32) -> u64
        requires window { window.from ≤ window.to }
        requires top { self.top < 2 ^ 40 }
        requires row { self.row ≤ 18 }
        requires names { self.names < 2 ^ 35 }
        ensures { result ≡ grids.y_of self window place }
    {
        self.top + self.down(window.row(place))
    }

    /// Where a place stands in the strip.
    #[tactic(auto, using(crate::proofs::GridLemmas::strip_part, crate::proofs::GridLemmas::quotient_below))]
    pub fn strip(self, window: Window, place: u32) -> u64
        requires window { window.from < window.to }
        requires rows { windows.count window ≤ 2000 }
        requires least { 78 ≤ self.width }
        requires width { self.width < 2 ^ 50 }
        ensures x { result ≡ grids.strip_of self window place }
        ensures least { 54 ≤ result }
        ensures most { result < 2 ^ 62 }
    {
        let part = (self.width - 78) * u64::from(window.row(place));
        54 + part / u64::from(window.count())
    }
}
