//! A run of a program to its end by several workers, on threads, each at a seat at one book.
#![tactic(auto)]

mod alone;
mod locked;
mod running;
mod seats;
mod workers;

pub use alone::finish;
pub use locked::LockedBook;
pub use running::{Settings, run_workers};
pub use tau_book::{Gate, OpenGate};
pub use workers::{Task, Worker, run};
