//! What tells whether a point of a state's past is rolled back.
ghost use Rattle.std.specs.Prelude.{◌≡◌, ◌↔◌, ◌<◌, ◌≤◌, ℕ, IsTrue, All, IfOk, map, length};
ghost use Rattle.tau_trace.specs.Run as runs;
ghost use Rattle.tau_trace.specs.Run.{Run, len};
ghost use Rattle.tau_trace.specs.Known.{WellFormed};
ghost use Rattle.tau_trace.specs.Numbering.{born};
ghost use Rattle.tau_trace.specs.Points.{IsOpeningPoint};
ghost use Rattle.tau_explain.specs.Links.Links.{IsMade};
ghost use Rattle.tau_layout.specs.Plans.{Plan};
ghost use Rattle.tau_scene.specs.Timelines.States.{IsState, AreLaneStates};
ghost use Rattle.tau_scene.specs.Causes.Inner.Resting.{IsSource, AreSourced, AreLanesSourced};

use crate::timelines::State;
use std::alloc::{AllocError, Global};
use tau_past::Index;
use tau_points::Point;

/// What tells whether a point of a state's past is rolled back: the past of a point at which a step was made, what a New at a place
/// carries, or nothing, and then none is.
#[derive(Clone, Copy)]
pub(crate) enum Source {
    Point(Point),
    Birth(u32),
    Nothing,
}

/// A state, and what tells of its past.
#[derive(Clone, Copy)]
pub(crate) struct Sourced {
    pub(crate) state: State,
    pub(crate) source: Source,
}

/// Whether a point is the opening point of one of so many starts.
fn is_opening(starts: u32, point: Point) -> bool
    ensures { (T : Run) → starts ≡ runs.starts T → IsTrue result ↔ IsOpeningPoint T point }
{
    point.who < starts && point.interval == 0 && point.incarnation == 0
}

/// What tells of a point at interval 0 at which no step was made.
fn source_of_first(index: &Index, point: Point) -> Source
    requires well_formed { WellFormed index.now }
    requires exists { point.who < born index.now (len index.now) }
    requires interval { point.interval ≡ 0 }
    requires idle { ¬ IsMade index.now point }
    ensures { IsSource index.now point result }
{
    if point.incarnation > 0 {
        return Source::Nothing;
    }
    match index.birth_of(point.who) {
        Some(place) => Source::Birth(place),
        None => Source::Nothing,
    }
}

/// What tells of a later point at which no step was made.
fn source_of_later(index: &Index, starts: u32, point: Point) -> Source
    requires well_formed { WellFormed index.now }
    requires starts { starts ≡ runs.starts index.now }
    requires interval { 1 ≤ point.interval }
    requires idle { ¬ IsMade index.now point }
    ensures { IsSource index.now point result }
{
    let Some(closing) = index.closing_before(&point) else {
        return Source::Nothing;
    };
    if is_opening(starts, closing) {
        return Source::Nothing;
    }
    Source::Point(closing)
}

/// What tells of the past of a state.
fn source_of(index: &Index, starts: u32, state: State) -> Source
    requires well_formed { WellFormed index.now }
    requires starts { starts ≡ runs.starts index.now }
    requires state { IsState index.now state }
    ensures { IsSource index.now state.point result }
{
    if state.made {
        return Source::Point(state.point);
    }
    if state.point.interval == 0 {
        return source_of_first(index, state.point);
    }
    source_of_later(index, starts, state.point)
}

/// The states of a lane, with what tells of their pasts.
fn sourced_lane(
    alloc: Global,
    index: &Index,
    starts: u32,
    states: &[State],
) -> Result<Vec<Sourced>, AllocError>
    requires well_formed { WellFormed index.now }
    requires starts { starts ≡ runs.starts index.now }
    requires states { All (IsState index.now) states.now }
    ensures { IfOk result (λ v. AreSourced index.now states.now (length states.now) v.items) }
{
    let mut sourced = Vec::with_capacity(alloc, states.len())?;
    for state in states {
        sourced.push(Sourced {
            state: *state,
            source: source_of(index, starts, *state),
        })?;
    }
    Ok(sourced)
}

/// The states of each lane, with what tells of their pasts.
pub(crate) fn sourced_lanes(
    alloc: Global,
    index: &Index,
    starts: u32,
    lanes: &[Vec<State>],
) -> Result<Vec<Vec<Sourced>>, AllocError>
    requires well_formed { WellFormed index.now }
    requires starts { starts ≡ runs.starts index.now }
    requires states { (plan : Plan) × AreLaneStates index.now plan lanes.now }
    ensures { IfOk result (λ v. AreLanesSourced index.now lanes.now (length lanes.now) v.items) }
{
    let mut sourced = Vec::with_capacity(alloc, lanes.len())?;
    for states in lanes {
        sourced.push(sourced_lane(alloc, index, starts, states)?)?;
    }
    Ok(sourced)
}
