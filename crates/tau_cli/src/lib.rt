//! The commands of the program `tau`, from the words of the command line to the status, and the process (docs/formats.md, "Command
//! line"; docs/journal.md, "Commands").
#![tactic(auto)]

mod calls;
mod keeping;
mod process;
mod progress;
mod reading;
mod resuming;
mod statuses;
mod texts;

pub use calls::{tau, tau_still};
pub use process::{exit_code, run_process, run_words};
pub use progress::Progress;
pub use statuses::{Status, number};
pub use tau_command::{Command, Line, TextCommand, Words, WordsError, read_words};
pub use tau_output::{Gate, OpenGate, Watch};
