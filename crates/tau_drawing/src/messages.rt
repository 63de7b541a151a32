//! The lines of messages in a picture of a run (docs/formats.md, "Pictures").

mod bearers;
mod drawing;
mod lines;
mod meetings;
mod messages;
mod news;
mod receipts;
mod sends;
mod titles;

pub use messages::put_messages;
pub(crate) use sends::flies;
