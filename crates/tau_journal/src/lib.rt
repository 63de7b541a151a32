//! A journal: records one after another on a disk, each whole or not there after a crash at any moment.
#![tactic(auto)]

mod creating;
pub mod disk;
mod errors;
mod finding;
mod journal;
pub mod laws;
mod records;
mod room;

pub use errors::JournalError;
pub use journal::Journal;
pub use records::Records;
