ghost use Rattle.std.specs.Prelude.{◌≡◌, IfOk};

use crate::facts::Facts;
use crate::view::View;
use std::alloc::{AllocError, Global};
use std::marker::Model;
use tau_history::History;
use tau_points::{Point, PointSet, Relation};

/// A view that drops nothing: each call gives exactly what the rules say (`docs/rules.md`, "Views").
#[derive(Drop)]
pub struct FullView {
    facts: Facts,
}

impl Model for FullView {
    ghost use Rattle.tau_view.specs.Stored.{Stored};

    ghost Value = { Stored };

    ghost view = { λ v. v.facts };
}

impl FullView {
    /// The view's edges.
    pub fn edges(&self) -> Result<Relation, AllocError>
        ensures { IfOk result (λ edges. edges ≡ self.now.edges) }
    {
        self.facts.edges().copy()
    }
}

impl View for FullView {
    ghost use Rattle.tau_view.specs.Stored.{held as held_of};
    ghost use Rattle.tau_view.specs.Full.{drops_no_edge, drops_no_root, settled_edges, closed_roots, for_good};

    ghost held = { held_of };

    ghost drops_edge = { drops_no_edge };

    ghost drops_root = { drops_no_root };

    ghost drops_settled_edges = { settled_edges };

    ghost drops_closed_roots = { closed_roots };

    ghost drops_for_good = { for_good };

    fn empty(alloc: Global) -> FullView {
        FullView {
            facts: Facts::new(alloc),
        }
    }

    fn history_of(&self, who: u32) -> Option<&History> {
        self.facts.history_of(who)
    }

    fn past_of(&self, from: &PointSet) -> Result<PointSet, AllocError> {
        self.facts.past_of(from)
    }

    fn past_up_to_closed(&self, from: &PointSet) -> Result<PointSet, AllocError> {
        self.facts.past_up_to_closed(from)
    }

    fn roots(&self) -> &PointSet {
        self.facts.roots()
    }

    fn note(&mut self, who: u32, history: &History) -> Result<(), AllocError> {
        self.facts.note(who, history)
    }

    fn touch(&mut self, point: Point) -> Result<(), AllocError> {
        self.facts.touch(point)
    }

    fn depend(&mut self, from: Point) -> Result<(), AllocError> {
        self.facts.depend(from)
    }

    fn merge_facts(&mut self, other: &FullView) -> Result<(), AllocError> {
        self.facts.merge_facts(&other.facts)
    }

    fn take_roots(&mut self, other: &FullView) -> Result<(), AllocError> {
        self.facts.take_roots(&other.facts)
    }

    fn clear_roots(&mut self) {
        self.facts.clear_roots();
    }

    fn try_copy(&self) -> Result<FullView, AllocError> {
        let facts = self.facts.copy()?;
        Ok(FullView { facts })
    }
}
