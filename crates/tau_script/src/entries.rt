//! The entry at a cursor.
ghost use Rattle.std.specs.Prelude.{◌↔◌, IsTrue};
ghost use Rattle.tau_trace.specs.Run.{len};
ghost use Rattle.tau_trace.specs.Numbering.{InFlight};
ghost use Rattle.tau_script.specs.Cursors.{IsDueAs, IsPassedOver};

use crate::Cursor;
use tau_trace::{Step, Trace};
use tau_tree::{Failure, Script};

/// Whether the entry at the cursor is ripe and not due.
pub(crate) fn is_passed_over(script: &Script, cursor: Cursor, trace: &Trace) -> bool
    ensures { IsTrue result ↔ IsPassedOver script.now trace.now.run (len trace.now.run) cursor }
{
    match script.item(cursor.entry as usize) {
        Some(entry) => {
            entry.at <= trace.len() && due_as(entry.failure, cursor.who, trace).is_none()
        }
        None => false,
    }
}

/// The step as which a ripe failure is due, where the cursor's transactor is `from`.
pub(crate) fn due_as(failure: Failure, from: u32, trace: &Trace) -> Option<Step>
    ensures { IsDueAs trace.now.run (len trace.now.run) from failure result }
{
    match failure {
        Failure::Fail { node } => {
            let who = trace.next_living(node, from)?;
            Some(Step::Fail { who })
        }
        Failure::Lose { message } => {
            if is_in_flight(trace, message) {
                Some(Step::Lose { message })
            } else {
                None
            }
        }
        Failure::Repeat { message } => {
            if is_in_flight(trace, message) {
                Some(Step::Repeat { message })
            } else {
                None
            }
        }
    }
}

/// Whether a message is in flight.
fn is_in_flight(trace: &Trace, message: u32) -> bool
    ensures { IsTrue result ↔ InFlight trace.now.run message (len trace.now.run) }
{
    message < trace.sent() && trace.ended_by(message).is_none()
}
