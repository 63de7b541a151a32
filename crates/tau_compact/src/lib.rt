//! Views without the edges and roots that no decision needs.
#![tactic(auto)]

mod pruned;
mod pruning;

pub use pruned::PrunedView;
