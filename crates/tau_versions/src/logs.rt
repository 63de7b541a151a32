//! Logs of transactors: for each one the versions of it, which only grow in number.

pub use log::Log;
pub use version::Version;

pub mod laws;
mod log;
mod version;
