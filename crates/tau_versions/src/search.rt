//! The search that decides what becomes of a message and whether a transactor is free, over logs that all share
//! (docs/rules.md, "Known past", "Verdict", "Free").

pub use heard::{HeardVersions, fate_of, takes_of};
pub use numbered::{Numbered, Together};
pub use search::{Search, finds_not_firm};
pub use seen::goes_on;

mod heard;
pub mod laws;
mod numbered;
mod search;
mod seen;
mod walk;
