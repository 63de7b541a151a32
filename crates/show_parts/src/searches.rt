//! Links that are more than a relation.
ghost use Rattle.std.specs.Prelude.{◌≡◌, ◌⊎◌};
ghost use Rattle.tau_points.specs.Reach.{Leads};

use std::alloc::AllocError;
use tau_points::{Links, Point, Relation};

/// A relation and one pair more.
#[derive(Clone, Copy)]
pub(crate) struct Longer<'a> {
    links: &'a Relation,
    from: Point,
    to: Point,
}

impl<'a> Longer<'a> {
    pub(crate) fn new(links: &'a Relation, pair: (Point, Point)) -> Longer<'a> {
        let (from, to) = pair;
        Longer { links, from, to }
    }
}

impl<'a> Links for Longer<'a> {
    ghost leads = { λ longer p q. Leads longer.links.now p q ⊎ ((p ≡ longer.from) × (q ≡ longer.to)) };

    fn push_next(&self, point: &Point, stack: &mut Vec<Point>) -> Result<(), AllocError> {
        self.links.push_next(point, stack)?;
        if *point == self.from {
            stack.push(self.to)?;
        }
        Ok(())
    }
}
