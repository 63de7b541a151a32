//! What a system needs to know of its run for its decisions, whatever the form in which that is kept.
#![tactic(auto)]

pub use knowledge::Knowledge;
pub use receipt::Receipt;

mod knowledge;
mod receipt;
