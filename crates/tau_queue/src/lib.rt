//! A system that follows the failure script of its program, so its run is legal, with what a worker chooses from: the letters of the
//! messages in flight, by receiver and node, and the places of the open turns (docs/rules.md, "Choice of a worker").
#![tactic(auto)]

mod due;
mod index;
mod indexing;
mod letters;
mod making;
mod receipts;
mod resuming;
mod scripted;
mod turns;

pub use scripted::Scripted;
