//! The command that the words of a command line name (docs/formats.md, "Command line").
#![tactic(auto)]

mod arguments;
mod commands;
mod lines;
mod matched;
mod storms;

pub use commands::{Command, TextCommand, WordsError, read_words};
pub use lines::{Line, Words};
pub use storms::{Question, StormNumbers};
