//! The step book: a legal run to which workers append steps, and what each of them does next.
#![tactic(auto)]

mod adopting;
mod answers;
mod beginnings;
mod book;
mod choosing;
mod gates;
mod hand;
mod jobs;
mod laws;
mod limits;
mod place;
mod ran;
mod resuming;
mod returns;
mod serial;
mod stepping;
mod tidying;

pub use answers::{Next, Told};
pub use beginnings::{
    adopted_has_all_jobs, adopted_is_at_work, opened_has_all_jobs, opened_is_at_work,
};
pub use book::Book;
pub use gates::{Gate, OpenGate};
pub use hand::Hand;
pub use laws::{
    adopted_is_not_idle, known_jobs_are_handed_on, run_after_is_unique, run_after_none_is_serial,
    serial_run_is_unique,
};
pub use limits::JOB_LIMIT;
pub use place::StepPlace;
pub use ran::Ran;
pub use serial::run_serially;
pub use stepping::{make_rest, next_step};
