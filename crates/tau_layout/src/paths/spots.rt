//! Where steps are drawn.
ghost use Rattle.std.specs.Prelude.{◌≡◌, ◌≤◌, ◌<◌, ◌^◌, Some, IfSome, slice_get};
ghost use Rattle.tau_trace.specs.declared.step.Step.{Step};
ghost use Rattle.tau_trace.specs.Run.{step_at};
ghost use Rattle.tau_trace.specs.Known.{WellFormed};
ghost use Rattle.tau_layout.specs.Plans.{IsPlan, IsX, row_y};
ghost use Rattle.tau_layout.specs.Paths.Spots.{IsMiddle, StandsBeside, IsSpotX, IsSpot};
ghost use Rattle.tau_layout.specs.Paths.Near.{IsNear, IsNearX};

use crate::paths::senders::comes_from_right;
use crate::{Column, Layout, lane_at};
use tau_svg::shapes::beside;
use tau_trace::{Step, Trace};

/// Where a step is drawn.
#[derive(Clone, Copy)]
pub struct Spot {
    pub x: u64,
    pub y: u64,
}

/// The transactor in whose lane a step stands, and the middle of the lane.
#[derive(Clone, Copy)]
pub struct Middle {
    pub who: u32,
    pub x: u64,
}

/// The column of a rank.
fn column_at(columns: &[Column], rank: usize) -> Option<Column>
    ensures { result ≡ slice_get columns.now rank }
{
    columns.get(rank).copied()
}

/// The middle of the lane of a transactor; `None` where it has none.
pub fn lane_middle(layout: &Layout, who: u32) -> Option<u64>
    ensures x { IsX layout.now who result }
    ensures near { IfSome result IsNearX }
{
    let rank = layout.rank(who)?;
    Some(column_at(layout.columns(), rank)?.x)
}

/// The transactor in whose lane the step at a place stands, and the middle of the lane (docs/formats.md, "Pictures"); `None` where it
/// stands in none.
pub fn middle_of(trace: &Trace, layout: &Layout, place: u32) -> Option<Middle>
    ensures middle { IsMiddle trace.now.run layout.now place result }
    ensures near { IfSome result (λ m. IsNearX m.x) }
{
    let who = lane_at(trace, place)?;
    let x = lane_middle(layout, who)?;
    Some(Middle { who, x })
}

/// Where a step stands that has a lane.
fn beside_middle(trace: &Trace, layout: &Layout, step: &Step, middle: Middle) -> u64
    requires plan { IsPlan trace.now.run layout.now.window layout.now }
    requires well_formed { WellFormed trace.now.run }
    requires near { IsNearX middle.x }
    ensures x { StandsBeside trace.now.run layout.now step.now middle.who middle.x result }
    ensures left { 370 ≤ result }
    ensures right { result < 2 ^ 51 }
{
    match step {
        Step::Lose { message } => {
            let right = comes_from_right(trace, layout, *message, middle.who);
            beside(middle.x, right, 16)
        }
        Step::Repeat { .. } => middle.x - 16,
        _ => middle.x,
    }
}

/// How far to the right the step at a place stands.
fn spot_x(trace: &Trace, layout: &Layout, place: u32) -> u64
    requires plan { IsPlan trace.now.run layout.now.window layout.now }
    ensures x { (s : Step) → step_at trace.now.run place ≡ Some s → IsSpotX trace.now.run layout.now s place result }
    ensures left { 370 ≤ result }
    ensures right { result < 2 ^ 51 }
{
    if place >= trace.len() {
        return 375;
    }
    let Some(middle) = middle_of(trace, layout, place) else {
        return 375;
    };
    match trace.step(place) {
        Some(step) => beside_middle(trace, layout, step, middle),
        None => unreachable!(),
    }
}

/// The spot in the row of a place, so far to the right.
pub fn in_row(layout: &Layout, x: u64, place: u32) -> Spot
    requires left { 370 ≤ x }
    requires right { x < 2 ^ 51 }
    ensures x { result.x ≡ x }
    ensures y { result.y ≡ row_y layout.now place }
    ensures near { IsNear result }
{
    let grid = layout.grid();
    let y = layout.y(place);
    prove!(y <= grid.foot);
    Spot { x, y }
}

/// The spot of the step at a place (docs/formats.md, "Pictures").
pub fn spot_at(trace: &Trace, layout: &Layout, place: u32) -> Spot
    requires plan { IsPlan trace.now.run layout.now.window layout.now }
    ensures spot { IsSpot trace.now.run layout.now place result }
    ensures near { IsNear result }
{
    let x = spot_x(trace, layout, place);
    in_row(layout, x, place)
}
