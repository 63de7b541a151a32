//! Where the turn from a place is, and where it ended.
ghost use Rattle.std.specs.Prelude.{◌≡◌, ◌↔◌, ◌||◌, Some, IsTrue};
ghost use Rattle.tau_trace.specs.Steps.{ends_turn, is_take};
ghost use Rattle.tau_trace.specs.Run.{len, Does};
ghost use Rattle.tau_trace.specs.Turns.{IsOpenTurn};
ghost use Rattle.tau_rules.specs.Answers.{NoTurnFrom, IsTurnEnd};
ghost use Rattle.tau_rules.specs.Inner.Acting.{IsTaker};

use tau_trace::{Step, Trace};

/// The transactor of the Take at a place; `None` where none stands there.
pub(crate) fn taker(trace: &Trace, place: u32) -> Option<u32>
    ensures { IsTaker trace.now.run place result }
{
    match trace.step(place) {
        Some(Step::Take { who, .. }) => Some(*who),
        _ => None,
    }
}

/// Whether the turn that a transactor began at a place is open.
pub(crate) fn is_open(trace: &Trace, who: u32, place: u32) -> bool
    requires { IsTaker trace.now.run place (Some who) }
    ensures { IsTrue result ↔ IsOpenTurn trace.now.run who (len trace.now.run) (Some place) }
{
    match trace.open_turn(who) {
        Some(turn) => turn == place,
        None => false,
    }
}

/// The place of the step that ended the turn that a transactor began at a place, and that isn't open.
pub(crate) fn turn_end(trace: &Trace, who: u32, turn: u32) -> u32
    requires takes { IsTaker trace.now.run turn (Some who) }
    requires closed { NoTurnFrom trace.now.run turn }
    ensures { IsTurnEnd trace.now.run turn result }
{
    let length = trace.len();
    for place in turn + 1..length {
        if bounds_turn_of(trace, who, place) {
            return place;
        }
    }
    unreachable!()
}

/// Whether the transactor makes the step at a place, and begins or ends a turn by it.
fn bounds_turn_of(trace: &Trace, who: u32, place: u32) -> bool
    ensures { IsTrue result ↔ Does (λ s. ends_turn s || is_take s) trace.now.run who place }
{
    match trace.step(place) {
        Some(step) => bounds_turn(step) && step.actor() == Some(who),
        None => false,
    }
}

/// Whether a step begins or ends a turn.
fn bounds_turn(step: &Step) -> bool
    ensures { result ≡ (ends_turn step.now || is_take step.now) }
{
    matches!(
        step,
        Step::Take { .. }
            | Step::Fall { .. }
            | Step::Done { .. }
            | Step::Checkpoint { .. }
            | Step::Hold { .. }
            | Step::Rollback { .. }
            | Step::Stay { .. }
            | Step::Trap { .. }
            | Step::Fail { .. }
    )
}
