//! The report of a trace: saved states and counts (docs/formats.md, "Report").
#![tactic(auto)]

mod counts;
pub mod laws;
mod parts;
mod saved;
mod survey;
mod writing;

pub use counts::Counts;
pub use survey::counts_in;
pub use writing::{counts_form, put_report, put_saved, report};
