//! What the calls of the system answer.
use tau_eval::Job;
use tau_value::Value;

/// What a transactor is doing (docs/rules.md, "Steps").
#[derive(Clone, Copy, Debug, PartialEq, Eq)]
pub enum Standing {
    /// No turn of it is open.
    Idle,
    /// The turn of the Take at this place is open.
    Busy { turn: u32 },
    /// It ended at this place.
    Ended { place: u32 },
}

/// How a message was delivered (docs/rules.md, "Steps").
#[derive(Drop)]
pub enum Delivered<'p> {
    /// By a Take, with the job of the turn that it opens.
    Began(Job<'p>),
    /// By a Drop.
    Dropped,
    /// By a Fall; the message stays in flight.
    Fell,
    /// By a Void.
    Voided,
    /// By an Echo, which makes a notice to the sender of the message.
    Echoed,
    /// By a Heed: the message is a notice.
    Heeded,
}

/// What came of an effect (docs/rules.md, "Steps").
#[derive(Drop)]
pub enum Acted<'p> {
    /// Its step was appended, and this is the reply.
    Reply(Value),
    /// Its step was appended, and ended the turn.
    TurnOver,
    /// The job isn't that of the open turn; this one is. Nothing was appended.
    Redo(Job<'p>),
}
