//! What each command writes for the bytes of its input, and how it then ends (docs/formats.md, "Command line").
#![tactic(auto)]

mod auditing;
mod checking;
mod cutting;
mod drawing;
mod drilling;
mod explaining;
mod generating;
mod laws;
mod migrating;
mod outputs;
mod printing;
mod refusals;
mod reporting;
mod running;
mod storming;
mod storming_by_workers;
mod together;

pub use laws::{
    legal_runs_are_grounded, migrated_texts_are_accepted, output_is_unique, run_texts_are_accepted,
    run_texts_tell,
};
pub use outputs::{End, INPUT_LIMIT, Output, output_of, reads_input};
pub use refusals::{Refusal, Wanted};
pub use running::write_run;
pub use tau_storm::Watch;
pub use tau_workers::{Gate, OpenGate};
pub use together::output_by_workers;
