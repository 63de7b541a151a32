//! Chains of points.
use std::alloc::AllocError;
use tau_lists::{Item, ItemList};
use tau_points::Point;

/// A point of a chain (docs/definitions.md, "Chain"), and the place of a step that makes the link to it from the point before;
/// `None` for the first.
#[derive(Clone, Copy, Debug, PartialEq, Eq)]
pub struct Chained {
    pub point: Point,
    pub by: Option<u32>,
}

impl Item for Chained {
    fn copied(&self) -> Result<Chained, AllocError> {
        Ok(*self)
    }
}

/// A chain: points, each with the place of a step that makes the link to it.
pub type Chain = ItemList<Chained>;
