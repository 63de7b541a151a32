//! The messages in flight, in order, by receiver and by node, and the receivers in a turn: which messages are deliverable
//! (docs/rules.md, "Messages in flight" and "Choice of a worker").
#![tactic(auto)]

pub use letter::Letter;
pub use mailboxes::Mailboxes;

mod letter;
mod letters;
mod mail;
mod mailboxes;
mod order;
mod parts;
