//! The lanes of a picture.
ghost use Rattle.std.specs.Prelude.{◌≡◌, ◌<◌, ◌≤◌, ◌*◌, ◌^◌, ◌∷◌, ◌++◌, [], Some, IfOk, OnOk, length, if◌then◌else◌, All};
ghost use Rattle.tau_trace.specs.Run.{len, step_at};
ghost use Rattle.tau_trace.specs.Numbering.{born};
ghost use Rattle.tau_trace.specs.Known.{IsSound, WellFormed};
ghost use Rattle.tau_layout.specs.Lanes.{StandsIn, HasLane, AreLanes, IsLaneOfStep, IsLaneAt};
ghost use Rattle.tau_layout.specs.Inner.Marking.{Marks, AreMarks, AreMarked, AddsLane, AddsLanes};

use std::alloc::{AllocError, Global};
use tau_svg::shapes::Window;
use tau_trace::{Step, Trace};

/// A transactor that has a lane, with its node.
#[derive(Clone, Copy)]
pub struct Lane {
    pub node: u32,
    pub who: u32,
}

/// The transactor in whose lane a step of the trace stands.
fn lane_of(trace: &Trace, step: &Step) -> Option<u32>
    ensures { IsLaneOfStep trace.now.run step.now result }
{
    match step {
        Step::Lose { message } => trace.target(*message),
        Step::Repeat { message } => trace.target(*message),
        _ => step.actor(),
    }
}

/// The transactor in whose lane the step at a place stands (docs/formats.md, "Pictures"): its own, or the receiver of the message
/// that a Lose takes or a Repeat repeats; `None` from the length on.
pub fn lane_at(trace: &Trace, place: u32) -> Option<u32>
    ensures { IsLaneAt trace.now.run place result }
{
    match trace.step(place) {
        Some(step) => lane_of(trace, step),
        None => None,
    }
}

/// Marks a transactor, if there is one.
fn mark(marks: &mut Vec<bool>, who: Option<u32>)
    ensures { Marks (λ t. who ≡ Some t) marks.old.items marks.new.items }
{
    let Some(who) = who else {
        return;
    };
    if who as usize >= marks.len() {
        return;
    }
    marks[who as usize] = true;
}

/// Marks the transactor in whose lane the step at a place stands.
fn mark_lane(trace: &Trace, place: u32, marks: &mut Vec<bool>)
    ensures { Marks (StandsIn trace.now.run place) marks.old.items marks.new.items }
{
    let who = lane_at(trace, place);
    mark(marks, who);
}

/// For each transactor whether it has a lane.
fn marks_of(alloc: Global, trace: &Trace, window: Window) -> Result<Vec<bool>, AllocError>
    requires { window.from ≤ window.to }
    ensures marks { IfOk result (λ v. AreMarks (HasLane trace.now.run window) (born trace.now.run (len trace.now.run)) v.items) }
    ensures few { IfOk result (λ v. length v.items < 2 ^ 32) }
{
    let mut marks = vec![in alloc; false; trace.born() as usize]?;
    for place in window.from..window.to {
        mark_lane(trace, place, &mut marks);
    }
    Ok(marks)
}

/// Adds a number, where it is marked.
fn add_marked(mark: bool, who: u32, all: &mut Vec<u32>) -> Result<(), AllocError>
    ensures { OnOk result (all.new.items ≡ all.old.items ++ (if mark then who ∷ [] else [])) }
{
    if mark {
        all.push(who)?;
    }
    Ok(())
}

/// The marked numbers, ascending.
fn marked(alloc: Global, marks: &[bool]) -> Result<Vec<u32>, AllocError>
    requires { length marks.now < 2 ^ 32 }
    ensures { IfOk result (λ v. AreMarked marks.now (length marks.now) v.items) }
{
    let mut all = Vec::new(alloc);
    for (who, mark) in marks.iter().enumerate() {
        add_marked(*mark, who as u32, &mut all)?;
    }
    Ok(all)
}

/// Adds the lane of a transactor, where it stands at the node.
fn add_lane(trace: &Trace, node: u32, who: u32, lanes: &mut Vec<Lane>) -> Result<(), AllocError>
    requires { IsSound trace.now.run.opening }
    ensures { OnOk result (AddsLane trace.now.run node who lanes.old.items lanes.new.items) }
{
    if trace.home(who) == Some(node) {
        lanes.push(Lane { node, who })?;
    }
    Ok(())
}

/// Adds the lanes of the transactors that stand at a node.
fn add_node(trace: &Trace, node: u32, all: &[u32], lanes: &mut Vec<Lane>) -> Result<(), AllocError>
    requires { IsSound trace.now.run.opening }
    ensures { OnOk result (AddsLanes trace.now.run node all.now lanes.old.items lanes.new.items) }
{
    for who in all {
        add_lane(trace, node, *who, lanes)?;
    }
    Ok(())
}

/// The lanes of a picture: the transactors of which a step is drawn, or to which a drawn Lose or Repeat takes a message, by node and then by
/// number (docs/formats.md, "Pictures"). The error is want of memory.
pub(crate) fn lanes_in(
    alloc: Global,
    trace: &Trace,
    window: Window,
) -> Result<Vec<Lane>, AllocError>
    requires window { window.from ≤ window.to }
    requires well_formed { WellFormed trace.now.run }
    ensures lanes { IfOk result (λ v. AreLanes trace.now.run window v.items) }
    ensures few { IfOk result (λ v. length v.items < 2 ^ 40) }
{
    let marks = marks_of(alloc, trace, window)?;
    let all = marked(alloc, &marks)?;
    let mut lanes = Vec::new(alloc);
    for node in 0..trace.opening().nodes {
        add_node(trace, node, &all, &mut lanes)?;
    }
    Ok(lanes)
}
