//! The steps of a trace, written as forms and read from them (docs/formats.md, "Steps").
#![tactic(auto)]

mod errors;
mod items;
mod kinds;
pub mod laws;
mod reading;
mod rows;
mod writing;

pub use errors::StepError;
pub use reading::{add_steps, steps_of};
pub use writing::{form_of_step, word_of};
