//! A relation, turned round.
ghost use Rattle.std.specs.Prelude.{IfOk};
ghost use Rattle.tau_points.specs.Reach.{Leads};
ghost use Rattle.tau_explain.specs.Chains.Inner.Turned.{Turns};

use crate::chains::incoming::Incoming;
use std::alloc::{AllocError, Global};
use tau_points::{Links, Point, Relation};

/// The pairs of a relation, turned round.
#[derive(Drop)]
pub(crate) struct Turned {
    pairs: Relation,
}

impl Turned {
    /// The pairs of the relation, turned round.
    pub(crate) fn of(alloc: Global, links: &Relation) -> Result<Turned, AllocError>
        ensures { IfOk result (λ t. Turns links.now t.pairs) }
    {
        let mut pairs = Vec::new(alloc);
        for pair in links.pairs() {
            pairs.push((pair.1, pair.0))?;
        }
        Ok(Turned {
            pairs: Relation::from_slice(alloc, &pairs)?,
        })
    }
}

impl Incoming for Turned {
    ghost leads = { λ t p q. Leads t.pairs q p };

    ghost passed = { λ t p. ⊥ };

    ghost is_ready = { λ t. Unit {0} };

    fn push_incoming(&mut self, point: &Point, into: &mut Vec<Point>) -> Result<(), AllocError> {
        self.pairs.push_next(point, into)
    }
}
