//! What the system keeps of each transactor's turns.
ghost use Rattle.std.specs.Prelude.{◌≡◌, ◌<◌, Some, None, length, IfSome, IsNone, OnOk, OnErr, vec_len};
ghost use Rattle.std.specs.Vec.{vec_capacity};
ghost use Rattle.tau_rules.specs.Records.{IsChanged, HasChanged, IsNewborn};

use std::alloc::{AllocError, Global};
use tau_trace::Step;
use tau_value::{Value, Values};

/// A transactor's behaviour, and its open turn if it has one: the value of the message, and the replies so far. Without
/// an open turn the two are those of its last one.
#[derive(Drop)]
pub(crate) struct Record {
    pub(crate) behaviour: u32,
    pub(crate) message: Value,
    pub(crate) replies: Values,
}

/// What a step changes in its transactor's record.
#[derive(Drop)]
pub(crate) enum RecordChange {
    /// A turn begins, with the value of its message.
    Begins { message: Value },
    /// The turn goes on with a reply.
    Replied { reply: Value },
    /// Nothing: the step ends a turn, or leaves it as it is.
    Kept,
}

impl Record {
    /// The record of a transactor without a turn.
    pub(crate) fn idle(alloc: Global, behaviour: u32) -> Record
        ensures { result.behaviour ≡ behaviour }
    {
        Record {
            behaviour,
            message: Value::Unit,
            replies: Values::new(alloc),
        }
    }

    /// Takes a change. Without memory the record stays as it was.
    pub(crate) fn take(&mut self, alloc: Global, change: RecordChange) -> Result<(), AllocError>
        ensures ok { OnOk result (IsChanged change self.old self.new) }
        ensures err { OnErr result (self.new ≡ self.old) }
    {
        match change {
            RecordChange::Begins { message } => {
                self.message = message;
                self.replies = Values::new(alloc);
                Ok(())
            }
            RecordChange::Replied { reply } => match self.replies.push(reply) {
                Ok(()) => Ok(()),
                Err((_reply, failed)) => Err(failed),
            },
            RecordChange::Kept => Ok(()),
        }
    }
}

/// Changes the record of the transactor that makes a step, if one does. Without memory the records stay as they were.
pub(crate) fn change_record(
    alloc: Global,
    records: &mut Vec<Record>,
    who: Option<u32>,
    change: RecordChange,
) -> Result<(), AllocError>
    requires { IfSome who (λ t. t < length records.old.items) }
    ensures capacity { vec_capacity records.new ≡ vec_capacity records.old }
    ensures ok { OnOk result (HasChanged change who records.old.items records.new.items) }
    ensures err { OnErr result (records.new.items ≡ records.old.items) }
{
    match who {
        Some(who) => records[who as usize].take(alloc, change),
        None => Ok(()),
    }
}

/// The record of the transactor that a New makes.
pub(crate) fn newborn_of(alloc: Global, step: &Step) -> Option<Record>
    ensures { IsNewborn step.now result }
{
    match step {
        Step::New { behaviour, .. } => Some(Record::idle(alloc, *behaviour)),
        _ => None,
    }
}
