ghost use Rattle.std.specs.Prelude.{◌≡◌, IfOk};

use crate::pruning::Pruning;
use std::alloc::{AllocError, Global};
use std::marker::Model;
use tau_history::{Fate, History};
use tau_points::{Point, PointSet, Relation};
use tau_view::{Dropping, Facts, View};

/// A view without the edges and roots that no decision needs (`docs/rules.md`, "Views"): it drops each edge whose
/// source is Closed or Fallen or whose target is Closed, and each Closed root, by its own histories.
#[derive(Drop)]
pub struct PrunedView {
    facts: Facts,
}

impl Model for PrunedView {
    ghost use Rattle.tau_view.specs.Stored.{Stored};
    ghost use Rattle.tau_compact.specs.Pruning.{IsPruned};

    ghost Value = { Stored };

    ghost view = { λ v. v.facts };

    ghost invariant = { λ v. IsPruned v.facts };
}

impl PrunedView {
    /// The view's edges.
    pub fn edges(&self) -> Result<Relation, AllocError>
        ensures { IfOk result (λ edges. edges ≡ self.now.edges) }
    {
        self.facts.edges().copy()
    }
}

impl View for PrunedView {
    ghost use Rattle.tau_view.specs.Stored.{held as held_of};
    ghost use Rattle.tau_compact.specs.Pruning.{prunes_edge, prunes_root};
    ghost use Rattle.tau_compact.specs.PruningLaws.{settled_edges, closed_roots, for_good};

    ghost held = { held_of };

    ghost drops_edge = { prunes_edge };

    ghost drops_root = { prunes_root };

    ghost drops_settled_edges = { settled_edges };

    ghost drops_closed_roots = { closed_roots };

    ghost drops_for_good = { for_good };

    fn empty(alloc: Global) -> PrunedView {
        PrunedView {
            facts: Facts::new(alloc),
        }
    }

    fn history_of(&self, who: u32) -> Option<&History> {
        self.facts.history_of(who)
    }

    fn past_of(&self, from: &PointSet) -> Result<PointSet, AllocError> {
        self.facts.past_of(from)
    }

    fn past_up_to_closed(&self, from: &PointSet) -> Result<PointSet, AllocError> {
        self.facts.past_up_to_closed(from)
    }

    fn roots(&self) -> &PointSet {
        self.facts.roots()
    }

    fn note(&mut self, who: u32, history: &History) -> Result<(), AllocError> {
        self.facts.note(who, history)?;
        self.facts.drop_by::<Pruning>();
        Ok(())
    }

    fn touch(&mut self, point: Point) -> Result<(), AllocError> {
        match self.facts.fate_of(&point) {
            Fate::Closed => Ok(()),
            _ => {
                self.facts.touch(point)?;
                Ok(())
            }
        }
    }

    fn depend(&mut self, from: Point) -> Result<(), AllocError> {
        match self.facts.fate_of(&from) {
            Fate::Closed | Fate::Fallen => Ok(()),
            _ => {
                self.facts.depend(from)?;
                Ok(())
            }
        }
    }

    fn merge_facts(&mut self, other: &PrunedView) -> Result<(), AllocError> {
        if self.facts.covers(&other.facts) {
            return Ok(());
        }
        self.facts.merge_facts(&other.facts)?;
        self.facts.drop_by::<Pruning>();
        Ok(())
    }

    fn take_roots(&mut self, other: &PrunedView) -> Result<(), AllocError> {
        self.facts.take_roots(&other.facts)?;
        self.facts.drop_roots_by::<Pruning>();
        Ok(())
    }

    fn clear_roots(&mut self) {
        self.facts.clear_roots();
    }

    fn try_copy(&self) -> Result<PrunedView, AllocError> {
        let facts = self.facts.copy()?;
        Ok(PrunedView { facts })
    }
}
