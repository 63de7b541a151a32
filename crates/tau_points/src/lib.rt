//! Points of transactors, sets of points, relations between points, and the search along links
//! (docs/rules.md, "Points" and "Known past").
#![tactic(auto)]

pub use point::Point;
pub use point_set::PointSet;
pub use reaching::{Links, reachable, search};
pub use relation::Relation;

pub mod laws;
mod point;
mod point_set;
mod reaching;
mod relation;
mod sorted;
mod visited;
