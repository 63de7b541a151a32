//! Points.
use std::alloc::AllocError;
use tau_lists::Item;

/// A point of a transactor's history (docs/rules.md, "Points"): the transactor's number, the number of its interval,
/// and the incarnation of that interval. Points are ordered by `who`, then `interval`, then `incarnation`.
#[derive(Clone, Copy, Debug, PartialEq, Eq, PartialOrd, Ord, Hash)]
pub struct Point {
    pub who: u32,
    pub interval: u32,
    pub incarnation: u32,
}

impl Item for Point {
    fn copied(&self) -> Result<Point, AllocError> {
        Ok(*self)
    }
}
