//! The messages that drawn steps receive or lose.
ghost use Rattle.std.specs.Prelude.{◌≡◌, ◌≤◌, ◌↔◌, Some, IfOk, IsTrue, option_and_then};
ghost use Rattle.tau_trace.specs.Run.{len, step_at};
ghost use Rattle.tau_trace.specs.Numbering.{sent};
ghost use Rattle.tau_layout.specs.Inner.Marking.{IsMarked, Marks, AreMarks};
ghost use Rattle.tau_layout.specs.Paths.Senders.{met_by};
ghost use Rattle.tau_drawing.specs.Messages.Messages.{Meets, IsMet};

use std::alloc::{AllocError, Global};
use tau_layout::paths::met;
use tau_svg::shapes::Window;
use tau_trace::Trace;

/// The message that the step at a place receives or loses.
fn met_at(trace: &Trace, place: u32) -> Option<u32>
    ensures { result ≡ option_and_then met_by (step_at trace.now.run place) }
{
    match trace.step(place) {
        Some(step) => met(step),
        None => None,
    }
}

/// Marks a message, if there is one.
fn mark(marks: &mut Vec<bool>, message: Option<u32>)
    ensures { Marks (λ m. message ≡ Some m) marks.old.items marks.new.items }
{
    let Some(message) = message else {
        return;
    };
    if message as usize >= marks.len() {
        return;
    }
    marks[message as usize] = true;
}

/// Marks the message that the step at a place receives or loses.
fn mark_met(trace: &Trace, place: u32, marks: &mut Vec<bool>)
    ensures { Marks (Meets trace.now.run place) marks.old.items marks.new.items }
{
    let message = met_at(trace, place);
    mark(marks, message);
}

/// For each message whether a drawn step receives or loses it.
pub(crate) fn meetings_in(
    alloc: Global,
    trace: &Trace,
    window: Window,
) -> Result<Vec<bool>, AllocError>
    requires { window.from ≤ window.to }
    ensures { IfOk result (λ v. AreMarks (IsMet trace.now.run window) (sent trace.now.run (len trace.now.run)) v.items) }
{
    let mut marks = vec![in alloc; false; trace.sent() as usize]?;
    for place in window.from..window.to {
        mark_met(trace, place, &mut marks);
    }
    Ok(marks)
}

/// Whether a message is marked.
pub(crate) fn is_met(marks: &[bool], message: u32) -> bool
    ensures { IsTrue result ↔ IsMarked marks.now message }
{
    match marks.get(message as usize) {
        Some(mark) => *mark,
        None => false,
    }
}
