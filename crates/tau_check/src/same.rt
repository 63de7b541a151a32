//! Whether two steps are equal.
ghost use Rattle.std.specs.Prelude.{◌≡◌, ◌↔◌, Some, IsTrue};
ghost use Rattle.tau_trace.specs.Run.{step_at};

use tau_trace::{Step, Trace};
use tau_value::Value;

/// Whether the step stands at a place of a trace.
pub(crate) fn stands_at(trace: &Trace, place: u32, step: &Step) -> bool
    ensures { IsTrue result ↔ (step_at trace.now.run place ≡ Some step.now) }
{
    match trace.step(place) {
        Some(other) => same_step(other, step),
        None => false,
    }
}

/// Whether two steps are equal.
pub(crate) fn same_step(one: &Step, two: &Step) -> bool
    ensures { IsTrue result ↔ (one.now ≡ two.now) }
{
    match (one, two) {
        (
            Step::Take { who, message },
            Step::Take {
                who: other,
                message: named,
            },
        )
        | (
            Step::Drop { who, message },
            Step::Drop {
                who: other,
                message: named,
            },
        )
        | (
            Step::Fall { who, message },
            Step::Fall {
                who: other,
                message: named,
            },
        )
        | (
            Step::Void { who, message },
            Step::Void {
                who: other,
                message: named,
            },
        )
        | (
            Step::Echo { who, message },
            Step::Echo {
                who: other,
                message: named,
            },
        )
        | (
            Step::Heed { who, message },
            Step::Heed {
                who: other,
                message: named,
            },
        ) => { who == other && message == named }
        (
            Step::Set { who, value },
            Step::Set {
                who: other,
                value: state,
            },
        ) => { who == other && same_value(value, state) }
        (
            Step::Send { who, to, value },
            Step::Send {
                who: other,
                to: receiver,
                value: sent,
            },
        ) => who == other && to == receiver && same_value(value, sent),
        (
            Step::New {
                who,
                behaviour,
                node,
                state,
            },
            Step::New {
                who: other,
                behaviour: named,
                node: home,
                state: given,
            },
        ) => who == other && behaviour == named && node == home && same_value(state, given),
        (
            Step::Ask { who, answer },
            Step::Ask {
                who: other,
                answer: given,
            },
        ) => { who == other && answer == given }
        (
            Step::Trap { who, code },
            Step::Trap {
                who: other,
                code: given,
            },
        ) => { who == other && code == given }
        (Step::Get { who }, Step::Get { who: other })
        | (Step::Skip { who }, Step::Skip { who: other })
        | (Step::Stabilize { who }, Step::Stabilize { who: other })
        | (Step::Checkpoint { who }, Step::Checkpoint { who: other })
        | (Step::Hold { who }, Step::Hold { who: other })
        | (Step::Rollback { who }, Step::Rollback { who: other })
        | (Step::Stay { who }, Step::Stay { who: other })
        | (Step::Done { who }, Step::Done { who: other })
        | (Step::Fail { who }, Step::Fail { who: other }) => who == other,
        (Step::Lose { message }, Step::Lose { message: named })
        | (Step::Repeat { message }, Step::Repeat { message: named }) => message == named,
        _ => false,
    }
}

/// Whether two values are equal.
fn same_value(one: &Value, two: &Value) -> bool
    ensures { IsTrue result ↔ (one.now ≡ two.now) }
{
    one.same(two)
}
