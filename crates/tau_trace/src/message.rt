//! What the steps so far say of one message.
ghost use Rattle.std.specs.Prelude.{◌≡◌, slice_get};
ghost use Rattle.tau_trace.specs.Stored.{sent_to, removed_at, origin_in, target_in};

/// Its receiver, the place of its origin, and that of the step that took it out of flight.
#[derive(Clone, Copy)]
pub(crate) struct Message {
    pub(crate) target: Option<u32>,
    pub(crate) origin: Option<u32>,
    pub(crate) ended_by: Option<u32>,
}

impl Message {
    /// A message in flight.
    pub(crate) fn new(target: Option<u32>, origin: Option<u32>) -> Message
        ensures { result ≡ sent_to target origin }
    {
        Message {
            target,
            origin,
            ended_by: None,
        }
    }

    /// The same after a step at this place that takes it out of flight: the first such step stays.
    pub(crate) fn removed(self, place: u32) -> Message
        ensures { result ≡ removed_at place self }
    {
        Message {
            ended_by: self.ended_by.or(Some(place)),
            ..self
        }
    }
}

/// The record of a message.
pub(crate) fn message_of(messages: &[Message], message: u32) -> Option<Message>
    ensures { result ≡ slice_get messages.now message }
{
    messages.get(message as usize).copied()
}

/// The place of the origin of a message, by its record.
pub(crate) fn origin_of(messages: &[Message], message: u32) -> Option<u32>
    ensures { result ≡ origin_in messages.now message }
{
    message_of(messages, message)?.origin
}

/// The receiver of a message, by its record.
pub(crate) fn target_of(messages: &[Message], message: u32) -> Option<u32>
    ensures { result ≡ target_in messages.now message }
{
    message_of(messages, message)?.target
}
