//! What a step changes in the records of transactors and messages.
ghost use Rattle.std.specs.Prelude.{◌≡◌, ◌<◌, ◌^◌, ℕ, Some, length, vec_len, IsTrue};
ghost use Rattle.std.specs.Vec.{vec_capacity};
ghost use Rattle.tau_trace.specs.Steps.{actor, removed_by};
ghost use Rattle.tau_trace.specs.Stored.{has_room, noted_of, with_new, removed_of, with_sent, sender_in};
ghost use Rattle.tau_trace.specs.Inner.Noting.{MakesNodeBelow};
ghost use Rattle.tau_trace.specs.Numbering.{number_made};

use crate::message::{Message, origin_of, target_of};
use crate::step::Step;
use crate::transactor::Transactor;
use crate::transactors::Transactors;

/// Notes the step in the record of the transactor that makes it.
pub(crate) fn note_actor(transactors: &mut Transactors, step: &Step, place: u32)
    requires { (t : ℕ) → actor step.now ≡ Some t → t < length transactors.old.transactors }
    ensures transactors { transactors.new.transactors ≡ noted_of step.now place transactors.old.transactors (actor step.now) }
    ensures nodes { transactors.new.nodes ≡ transactors.old.nodes }
    ensures ready { transactors.new.ready ≡ transactors.old.ready }
{
    if let Some(who) = step.actor() {
        transactors.note(who, step, place);
    }
}

/// Adds the transactor that a New makes, in the room that there is.
pub(crate) fn add_new(transactors: &mut Transactors, step: &Step)
    requires ready { IsTrue transactors.old.ready }
    requires node { MakesNodeBelow transactors.old.nodes step.now }
    requires fits { length transactors.old.transactors < 2 ^ 32 }
    ensures transactors { transactors.new.transactors ≡ with_new step.now transactors.old.transactors }
    ensures nodes { transactors.new.nodes ≡ transactors.old.nodes }
{
    if let Step::New { node, .. } = step {
        transactors.add_spare(Transactor::created(*node));
    }
}

/// Notes a step that takes a message out of flight.
pub(crate) fn note_removed(messages: &mut Vec<Message>, step: &Step, place: u32)
    requires { (m : ℕ) → removed_by step.now ≡ Some m → m < length messages.old.items }
    ensures messages { messages.new.items ≡ removed_of place messages.old.items (removed_by step.now) }
    ensures len { vec_len messages.new ≡ vec_len messages.old }
    ensures capacity { vec_capacity messages.new ≡ vec_capacity messages.old }
{
    if let Some(message) = step.removed() {
        let record = messages[message as usize];
        messages[message as usize] = record.removed(place);
    }
}

/// Adds the message that a Send, an Echo or a Repeat at this place makes, in the room that there is.
pub(crate) fn add_sent(messages: &mut Vec<Message>, steps: &[Step], step: &Step, place: u32)
    requires { IsTrue (has_room messages.old) }
    ensures { messages.new.items ≡ with_sent steps.now place step.now messages.old.items }
{
    match step {
        Step::Send { to, .. } => messages.push_reserved(Message::new(Some(*to), Some(place))),
        Step::Echo { message, .. } => {
            let sender = sender_of(steps, messages, *message);
            messages.push_reserved(Message::new(sender, Some(place)));
        }
        Step::Repeat { message } => {
            let copy = Message::new(target_of(messages, *message), origin_of(messages, *message));
            messages.push_reserved(copy);
        }
        _ => {}
    }
}

/// The sender of a message: the transactor of the step at the place of its origin.
fn sender_of(steps: &[Step], messages: &[Message], message: u32) -> Option<u32>
    ensures { result ≡ sender_in steps.now messages.now message }
{
    let place = origin_of(messages, message)?;
    steps.get(place as usize)?.actor()
}

/// The number that a Send, an Echo, a Repeat or a New makes, where there are so many transactors and messages; 0 for other steps.
pub(crate) fn number_made(step: &Step, transactors: usize, messages: usize) -> usize
    ensures { result ≡ number_made step.now transactors messages }
{
    match step {
        Step::Send { .. } | Step::Echo { .. } | Step::Repeat { .. } => messages,
        Step::New { .. } => transactors,
        _ => 0,
    }
}
