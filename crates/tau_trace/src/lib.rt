//! Traces: the list of the steps of a run, and what it says of transactors and messages at each place.
#![tactic(auto)]

mod ascending;
mod known;
pub mod laws;
mod message;
mod noting;
mod numbers;
mod opening;
mod step;
mod trace;
mod trace_parts;
mod transactor;
mod transactors;

pub use numbers::Numbers;
pub use opening::Opening;
pub use step::Step;
pub use trace::Trace;
