//! Shortest chains of links, from the points of one set to those of another (docs/definitions.md, "Chain").

mod chained;
mod distance;
mod incoming;
mod nearest;
mod places;
mod searching;
mod turned;

pub use chained::{Chain, Chained};
pub use distance::distances;
pub use incoming::Incoming;
pub use nearest::nearest_of;
pub use places::{Places, Points};
pub use searching::shortest;
