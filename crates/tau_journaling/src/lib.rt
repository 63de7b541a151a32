//! A run whose steps are kept in a journal as they are made, and what a resume finds there (docs/journal.md, "Going on").
#![tactic(auto)]

pub mod found;
mod going;
mod keeping;
mod resuming;
mod reviving;
mod running;

pub use going::go_on;
pub use keeping::keep_run;
pub use resuming::{Resumed, resume_run};
