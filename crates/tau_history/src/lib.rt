// Histories of transactors: their moves, the order among them, and the fates of points.
#![tactic(auto)]

mod chunk;
mod closed;
mod fate;
mod history;
pub mod laws;

pub use fate::Fate;
pub use history::History;
