//! Runs kept in a journal: what its records mean, making them, and finding them (docs/journal.md, "What the records mean").
#![tactic(auto)]

mod faults;
mod finding;
mod items;
mod keeping;
pub mod laws;
mod making;
mod reading;
mod texts;

pub use faults::RecordFault;
pub use finding::{Found, find};
pub use keeping::{keep_mark, keep_step};
pub use making::create;
pub use reading::{Standing, read_records};
