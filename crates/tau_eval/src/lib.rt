//! The evaluation of behaviours (docs/language.md).
#![tactic(auto)]

mod arguments;
mod course;
mod effects;
mod frames;
mod immediates;
mod job;
mod laws;
mod machine;
mod openings;
mod operations;
mod resumptions;
mod rounds;
mod scopes;
mod settings;

pub use effects::Effect;
pub use job::{Job, Pending, again, begin};
pub use laws::{effects_are_known, same_values_are_equal};
