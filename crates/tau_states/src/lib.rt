//! States and saved states of transactors, kept step by step (docs/definitions.md, "State and saved state").
#![tactic(auto)]

mod change;
pub mod laws;
mod state_record;
mod states;

pub use change::{Change, Effect};
pub use state_record::StateRecord;
pub use states::States;
