//! What steps carry, each step by an earlier one.
ghost use Rattle.std.specs.Prelude.{◌≡◌, Option, slice_get, option_map};
ghost use Rattle.tau_past.specs.TableSteps.{carried_by, turn_after, send_place};
ghost use Rattle.tau_past.specs.Tables.{IsSendPlaceOf, TellsCarrier};

use tau_points::Point;
use tau_trace::{Step, Trace};

/// What a step carries: the point that was touched last, if one was, and all that the step at an earlier place carries,
/// if one is named (docs/definitions.md, "Carried").
#[derive(Clone, Copy)]
pub struct Carrying {
    pub touched: Option<Point>,
    pub rest: Option<u32>,
}

/// What a step of a transactor, or of nobody, carries, by what each transactor's turn does.
pub(crate) fn carried_by(turns: &[Option<Carrying>], who: Option<u32>) -> Carrying
    ensures { result ≡ carried_by turns.now who }
{
    if let Some(who) = who {
        if let Some(Some(carrying)) = turns.get(who as usize).copied() {
            return carrying;
        }
    }
    Carrying {
        touched: None,
        rest: None,
    }
}

/// What a turn carries after a step of its transactor at this place and point.
pub(crate) fn turn_after(
    step: &Step,
    place: u32,
    own: Point,
    origin: Option<u32>,
    turn: Option<Carrying>,
) -> Option<Carrying>
    ensures { result ≡ turn_after step.now place own origin turn }
{
    match step {
        Step::Take { .. } => Some(Carrying {
            touched: None,
            rest: origin,
        }),
        Step::Get { .. }
        | Step::Set { .. }
        | Step::Skip { .. }
        | Step::Stabilize { .. }
        | Step::Ask { .. } => turn.map(|_| Carrying {
            touched: Some(own),
            rest: Some(place),
        }),
        Step::Fall { .. }
        | Step::Done { .. }
        | Step::Checkpoint { .. }
        | Step::Hold { .. }
        | Step::Rollback { .. }
        | Step::Stay { .. }
        | Step::Trap { .. }
        | Step::Fail { .. } => None,
        Step::Drop { .. }
        | Step::Void { .. }
        | Step::Send { .. }
        | Step::New { .. }
        | Step::Lose { .. }
        | Step::Echo { .. }
        | Step::Heed { .. }
        | Step::Repeat { .. } => turn,
    }
}

/// The place of the Send that is the origin of the message that the step takes; `None` where it has none, and for other
/// steps.
pub(crate) fn carrier_of(trace: &Trace, step: &Step) -> Option<u32>
    ensures { TellsCarrier trace.now.run step.now result }
{
    match step {
        Step::Take { message, .. } => send_of(trace, *message),
        _ => None,
    }
}

/// The place of the origin of a message where a Send stands there; `None` where none does: for a post, a notice, copies of
/// them, and a message that doesn't exist (docs/definitions.md, "Origin").
pub fn send_of(trace: &Trace, message: u32) -> Option<u32>
    ensures { IsSendPlaceOf trace.now.run message result }
{
    match trace.origin(message) {
        Some(place) => send_at(trace, place),
        None => None,
    }
}

/// The place where a Send stands there; `None` where none does.
fn send_at(trace: &Trace, place: u32) -> Option<u32>
    ensures { result ≡ send_place trace.now.run place }
{
    match trace.step(place) {
        Some(Step::Send { .. }) => Some(place),
        _ => None,
    }
}
