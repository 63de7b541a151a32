//! Whether a step names only what exists.
ghost use Rattle.std.specs.Prelude.{◌↔◌, IsTrue, length};
ghost use Rattle.tau_trace.specs.Known.{IsKnown, IsKnownValue, IsInVersion};

use crate::opening::Opening;
use crate::step::Step;
use tau_value::{Value, in_bounds, names_below};

/// Whether each number that the step names is that of something that exists, where there are so many transactors and
/// messages, its value is in bounds and names only these transactors, and its code is 1 to 8.
pub(crate) fn is_known(opening: &Opening, transactors: u32, messages: u32, step: &Step) -> bool
    ensures { IsTrue result ↔ IsKnown opening.now transactors messages step.now }
{
    match step {
        Step::Take { who, message }
        | Step::Drop { who, message }
        | Step::Fall { who, message }
        | Step::Void { who, message }
        | Step::Echo { who, message }
        | Step::Heed { who, message } => *who < transactors && *message < messages,
        Step::Set { who, value } => *who < transactors && is_known_value(value, transactors),
        Step::Send { who, to, value } => {
            *who < transactors && *to < transactors && is_known_value(value, transactors)
        }
        Step::New {
            who,
            behaviour,
            node,
            state,
        } => {
            *who < transactors
                && (*behaviour as usize) < opening.behaviours.len()
                && *node < opening.nodes
                && is_known_value(state, transactors)
        }
        Step::Trap { who, code } => *who < transactors && 1 <= *code && *code <= 8,
        Step::Lose { message } | Step::Repeat { message } => *message < messages,
        Step::Get { who }
        | Step::Skip { who }
        | Step::Stabilize { who }
        | Step::Ask { who, .. }
        | Step::Checkpoint { who }
        | Step::Hold { who }
        | Step::Rollback { who }
        | Step::Stay { who }
        | Step::Done { who }
        | Step::Fail { who } => *who < transactors,
    }
}

/// Whether steps of this kind stand in the version.
pub(crate) fn is_in_version(version: u32, step: &Step) -> bool
    ensures { IsTrue result ↔ IsInVersion version step.now }
{
    match step {
        Step::Echo { .. } | Step::Heed { .. } | Step::Repeat { .. } => version == 2,
        _ => true,
    }
}

/// Whether a value is in bounds and names only the first so many transactors.
fn is_known_value(value: &Value, transactors: u32) -> bool
    ensures { IsTrue result ↔ IsKnownValue transactors value.now }
{
    in_bounds(value) && names_below(value, transactors)
}
