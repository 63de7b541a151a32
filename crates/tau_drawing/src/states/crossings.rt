//! What would meet the interval and the incarnation of a state.
ghost use Rattle.std.specs.Prelude.{◌≡◌, ◌↔◌, ◌<◌, ◌≤◌, ℕ, Some, IsTrue, length, max, true};
ghost use Rattle.std.specs.Fmt.{decimal};
ghost use Rattle.tau_trace.specs.declared.step.Step.{Step};
ghost use Rattle.tau_trace.specs.Run.{step_at};
ghost use Rattle.tau_trace.specs.Numbering.{IsOrigin};
ghost use Rattle.tau_trace.specs.Known.{WellFormed};
ghost use Rattle.tau_svg.specs.Shapes.Windows.{IsDrawn};
ghost use Rattle.tau_layout.specs.Plans.{IsPlan, grid};
ghost use Rattle.tau_layout.specs.Paths.Paths as paths;
ghost use Rattle.tau_drawing.specs.States.StateLines as specs;
ghost use Rattle.tau_drawing.specs.States.StateLines.{HasHead, HasCircle, IsCrowded, CrossesAt, IsCrossed};
ghost use Rattle.tau_drawing.specs.States.Inner.Meetings as meetings;
ghost use Rattle.tau_drawing.specs.States.Inner.Meetings.{IsMetIn};

use crate::messages::flies;
use itoa::Buffer;
use tau_layout::paths::{comes_from_right, met, offset};
use tau_layout::{Layout, lane_at};
use tau_scene::timelines::State;
use tau_trace::{Step, Trace};

/// Whether a transactor, if there is one, is this one.
fn is_who(lane: Option<u32>, who: u32) -> bool
    ensures { IsTrue result ↔ (lane ≡ Some who) }
{
    lane == Some(who)
}

/// The message that the step at a place receives or loses, where it stands in the lane of this transactor.
fn met_in(trace: &Trace, who: u32, place: u32) -> Option<u32>
    ensures { IsMetIn trace.now.run who place result }
{
    if !is_who(lane_at(trace, place), who) {
        return None;
    }
    match trace.step(place) {
        Some(step) => met(step),
        None => None,
    }
}

/// Whether a message line comes from the right to the step at a place, in the lane of this transactor.
fn has_head(trace: &Trace, layout: &Layout, who: u32, place: u32) -> bool
    requires plan { IsPlan trace.now.run layout.now.window layout.now }
    requires well_formed { WellFormed trace.now.run }
    ensures { IsTrue result ↔ HasHead trace.now.run layout.now who place }
{
    let Some(message) = met_in(trace, who, place) else {
        return false;
    };
    comes_from_right(trace, layout, message, who)
}

/// The transactor that makes a Send.
fn sender_in(step: &Step) -> Option<u32>
    ensures { result ≡ meetings.sender_in step.now }
{
    match step {
        Step::Send { who, .. } => Some(*who),
        _ => None,
    }
}

/// Whether the step at a place is a Send of this transactor whose message no step takes.
fn has_circle(trace: &Trace, who: u32, place: u32) -> bool
    ensures { IsTrue result ↔ HasCircle trace.now.run who place }
{
    let Some(step) = trace.step(place) else {
        return false;
    };
    if !is_who(sender_in(step), who) {
        return false;
    }
    let Some(message) = trace.made_at(place) else {
        return false;
    };
    flies(trace, message)
}

/// Whether the head of a line that comes from the right or the circle of a Send stands where a state begins, which is drawn, and not
/// the first that is.
pub(crate) fn is_crowded(trace: &Trace, layout: &Layout, state: State) -> bool
    requires plan { IsPlan trace.now.run layout.now.window layout.now }
    requires well_formed { WellFormed trace.now.run }
    ensures { IsTrue result ↔ IsCrowded trace.now.run layout.now state }
{
    let window = layout.window();
    if state.begin <= window.from || window.to <= state.begin {
        return false;
    }
    let who = state.point.who;
    if has_head(trace, layout, who, state.begin) {
        return true;
    }
    has_circle(trace, who, state.begin)
}

/// How many bytes a number has, in decimal.
fn digits(number: u32) -> u64
    ensures count { result ≡ length (decimal number) }
    ensures most { result ≤ 40 }
{
    let mut buffer = Buffer::new();
    buffer.format(number).len() as u64
}

/// How far beside its lane the interval and the incarnation of a state end that begin so far beside it.
pub(crate) fn point_end(state: State, off: u64) -> u64
    requires { off ≤ 45 }
    ensures { result ≡ specs.point_end state off }
{
    off + 5 * (digits(state.point.interval) + 1 + digits(state.point.incarnation))
}

/// Whether the line of a message comes down to the step at a place no further beside the lane than this.
fn is_near(trace: &Trace, place: u32, message: u32, reach: u64) -> bool
    ensures { (s : Step) → step_at trace.now.run place ≡ Some s → IsTrue result ↔ (paths.offset true s message ≤ reach) }
{
    match trace.step(place) {
        Some(step) => offset(true, step, message) <= reach,
        None => false,
    }
}

/// Whether the origin of a message, if it has one, stands before a place.
fn is_earlier(trace: &Trace, message: u32, place: u32) -> bool
    ensures { IsTrue result ↔ ((j by : ℕ) → IsOrigin trace.now.run j by message → j < place) }
{
    match trace.origin(message) {
        Some(origin) => origin < place,
        None => true,
    }
}

/// Whether the line of the message that the step at a place receives or loses crosses the interval and the incarnation of a state.
fn crosses(trace: &Trace, layout: &Layout, state: State, place: u32) -> bool
    requires plan { IsPlan trace.now.run layout.now.window layout.now }
    requires well_formed { WellFormed trace.now.run }
    requires wide { IsTrue (grid layout.now).is_wide }
    requires drawn { IsDrawn layout.now.window place }
    requires later { state.begin ≤ place }
    ensures { IsTrue result ↔ CrossesAt trace.now.run layout.now state place }
{
    let who = state.point.who;
    let Some(message) = met_in(trace, who, place) else {
        return false;
    };
    if !is_earlier(trace, message, state.begin) {
        return false;
    }
    if !is_near(trace, place, message, point_end(state, 11)) {
        return false;
    }
    comes_from_right(trace, layout, message, who)
}

/// Whether the lanes are wide.
fn is_wide(layout: &Layout) -> bool
    ensures { result ≡ (grid layout.now).is_wide }
{
    layout.grid().is_wide
}

/// The first place from this one on that isn't before the one where a state begins.
fn first_place(state: State, from: u32) -> u32
    ensures { result ≡ max state.begin from }
{
    state.begin.max(from)
}

/// Whether a line that comes down on the right crosses the interval and the incarnation of a state. It passes over the places from the
/// one where the state begins.
pub(crate) fn is_crossed(trace: &Trace, layout: &Layout, state: State) -> bool
    requires plan { IsPlan trace.now.run layout.now.window layout.now }
    requires well_formed { WellFormed trace.now.run }
    ensures { IsTrue result ↔ IsCrossed trace.now.run layout.now state }
{
    if !is_wide(layout) {
        return false;
    }
    let window = layout.window();
    let first = first_place(state, window.from);
    for place in first..window.to {
        if crosses(trace, layout, state, place) {
            return true;
        }
    }
    false
}
