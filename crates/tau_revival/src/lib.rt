//! Going on after a stop: the script by which each node fails where a run was stopped (docs/journal.md, "Going on").
#![tactic(auto)]

mod errors;
pub mod laws;
mod reviving;
mod scripts;

pub use errors::ReviveError;
pub use reviving::{pass_due, revive};
