//! What is shown of the states and steps of a picture.
ghost use Rattle.std.specs.Prelude.{◌≡◌, ◌⊎◌, ◌↔◌, ◌≤◌, Contains, IfOk, length};
ghost use Rattle.tau_points.specs.declared.point.Point.{Point};
ghost use Rattle.tau_trace.specs.Run.{len};
ghost use Rattle.tau_layout.specs.Plans.{IsPlan};
ghost use Rattle.tau_cut.specs.Cuts.{IsCut};
ghost use Rattle.tau_scene.specs.Causes.Looks.{AreLaneSeen, AreStepMarks};
ghost use Rattle.tau_scene.specs.Causes.Inner.Resting.{AsksInLanes, ChecksBetween};

use crate::causes::asking::{push_checkpoints, push_lanes};
use crate::causes::grounds::grounds_of;
use crate::causes::marks::StepMark;
use crate::causes::sources::{Sourced, sourced_lanes};
use crate::looks::Seen;
use crate::timelines::states_in;
use std::alloc::{AllocError, Global};
use tau_cut::Cut;
use tau_layout::Layout;
use tau_past::Index;
use tau_points::Point;
use tau_svg::shapes::Window;
use tau_trace::Trace;

/// For each lane, by rank, the states that are seen, by time, with their looks; and what is shown of the drawn steps, by place.
#[derive(Drop)]
pub struct Shown {
    pub states: Vec<Vec<Seen>>,
    pub marks: Vec<StepMark>,
}

/// The points that are asked for: those of the sources of states, and those of drawn Checkpoints.
fn asked(
    alloc: Global,
    index: &Index,
    lanes: &[Vec<Sourced>],
    window: Window,
) -> Result<Vec<Point>, AllocError>
    requires ordered { window.from ≤ window.to }
    requires within { window.to ≤ len index.now }
    ensures { IfOk result (λ v. (q : Point) → Contains v.items q ↔ (AsksInLanes lanes.now (length lanes.now) q ⊎ ChecksBetween index.now window.from window.to q)) }
{
    let mut points = Vec::new(alloc);
    push_lanes(lanes, &mut points)?;
    push_checkpoints(index, window, &mut points)?;
    Ok(points)
}

/// The states and steps of a picture of a trace, with their looks (docs/formats.md, "Pictures"), for the greatest consistent set of
/// Checkpoints. It passes over the trace a fixed number of times, and once more for each seen transactor that was created and never
/// made a step. The error is want of memory.
pub fn show(
    alloc: Global,
    trace: &Trace,
    index: &Index,
    layout: &Layout,
    cut: &Cut,
) -> Result<Shown, AllocError>
    requires index { index.now ≡ trace.now.run }
    requires plan { IsPlan trace.now.run layout.now.window layout.now }
    requires window { layout.now.window.to ≤ len trace.now.run }
    requires cut { IsCut trace.now.run cut.now }
    ensures states { IfOk result (λ s. AreLaneSeen trace.now.run layout.now cut.now s.states.items) }
    ensures marks { IfOk result (λ s. AreStepMarks trace.now.run layout.now.window cut.now s.marks.items) }
{
    let window = layout.window();
    let steps = trace.len();
    prove!(window.to <= steps);
    let starts = trace.opening().names.len() as u32;
    let lanes = states_in(alloc, layout, trace, index)?;
    let sourced = sourced_lanes(alloc, index, starts, &lanes)?;
    let points = asked(alloc, index, &sourced, window)?;
    let grounds = grounds_of(alloc, trace, index, cut, &points)?;
    let states = grounds.seen_lanes(alloc, trace, index, &sourced)?;
    let marks = grounds.marks_in(alloc, trace, index, window)?;
    Ok(Shown { states, marks })
}
