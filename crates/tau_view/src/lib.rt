//! What a transactor has heard, as a plain view: histories, edges and roots, the known past, and what is decided by it.
#![tactic(auto)]

mod dropping;
mod entry;
mod facts;
pub mod fate;
mod full;
mod histories;
pub mod laws;
mod past;
mod seen;
mod view;

pub use dropping::Dropping;
pub use facts::Facts;
pub use full::FullView;
pub use view::View;
