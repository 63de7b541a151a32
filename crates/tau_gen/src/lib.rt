//! The generated program of a number (docs/formats.md, "Generated programs").
#![tactic(auto)]

mod expressions;
mod generated;
mod hop;

pub use generated::generate;
