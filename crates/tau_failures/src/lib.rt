//! A system that keeps to the failure script of its program: each step of the script is made when it is due, so its run is legal
//! (docs/definitions.md, "Due step", "Fitting and legal steps").
#![tactic(auto)]

mod cursors;
mod dues;
mod making;
mod stepping;
mod systems;

pub use dues::Due;
pub use systems::LegalSystem;
