//! A storm: how the runs of a program end wherever nodes fail and messages are lost, which outcomes there are, and whether a
//! claim holds at each of them (docs/rules.md, "Storm").
#![tactic(auto)]

mod apart;
mod claims;
mod dealing;
mod laws;
mod lines;
mod order;
mod outcomes;
mod rows;
mod storms;
mod table;
mod threads;
mod told;
mod totals;
mod trials;
mod watching;
mod writing;

pub use laws::{lines_are_unique, outcomes_are_unique, seeds_follow_on};
pub use lines::lines_of;
pub use outcomes::{Lines, Outcome, Outcomes};
pub use storms::{Told, Tried, storm, try_claim};
pub use table::Table;
pub use threads::{storm_by_threads, try_claim_by_threads};
pub use totals::Totals;
pub use watching::Watch;
pub use writing::{storm_text, totals_text};
