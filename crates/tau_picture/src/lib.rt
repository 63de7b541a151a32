//! Pictures of runs (docs/formats.md, "Pictures").
#![tactic(auto)]

mod asking;
mod chain;
mod drawing;
mod heading;
pub mod laws;
mod said;

pub use drawing::{Drawn, draw};
