//! Failure scripts: which failure is due at a place of a run (docs/rules.md, "Scripts").
#![tactic(auto)]

mod cursor;
mod entries;
pub mod laws;
mod openings;
mod search;

pub use cursor::{Cursor, passed};
pub use openings::opening_of;
pub use search::due;
