//! Run texts: a program, the steps of a run and its report (docs/formats.md, "Run text").
#![tactic(auto)]

mod by_parts;
mod errors;
mod faults;
mod forms;
mod front;
mod laws;
mod marks;
mod parts;
mod printing;
mod programs;
mod reading;
mod steps;

pub use errors::InputError;
pub use faults::InputFault;
pub use forms::run_text;
pub use laws::{inputs_are_unique, run_texts_are_read_back, run_texts_tell};
pub use parts::RunText;
pub use printing::program_text;
pub use reading::{read_printed, read_program, read_run_text};
