ghost use Rattle.std.specs.Prelude.{◌≡◌, [], IfOk, OnOk, OnErr};
ghost use Rattle.std.specs.Bool.{OnTrue};
ghost use Rattle.std.specs.Option.{option_map};
ghost use Rattle.tau_points.specs.Members.{HasAll};
ghost use Rattle.tau_view.specs.Held.{AllComparable, only};
ghost use Rattle.tau_view.specs.Rules.{noted, touched, depended, merged, with_roots, with_no_roots};
ghost use Rattle.tau_view.specs.Dropping.{edges_by, roots_by};
ghost use Rattle.tau_view.specs.Trim.{roots_kept, trim};
ghost use Rattle.tau_view.specs.Edges.{edges_to, both_edges};
ghost use Rattle.tau_view.specs.Stored.{history_in, point_in, pair_in, held};

use crate::dropping::{Dropping, drop_edges, drop_roots};
use crate::histories::Histories;
use std::alloc::{AllocError, Global};
use std::marker::Model;
use tau_history::History;
use tau_points::{Point, PointSet, Relation};

/// Histories, edges and roots, with the plain operations of the rules (`docs/rules.md`, "Views"). Every type of view
/// stores its own in this one. A call that answers `AllocError` leaves the value as it was.
#[derive(Drop)]
pub struct Facts {
    histories: Histories,
    edges: Relation,
    roots: PointSet,
    alloc: Global,
}

impl Model for Facts {
    ghost use Rattle.tau_view.specs.Stored.{Stored};

    ghost Value = { Stored };

    ghost view = { λ f. record { histories = f.histories; edges = f.edges; roots = f.roots } };
}

/// Adds the edge from a point to a root, unless the two are one.
fn add_edge(edges: &mut Relation, from: Point, root: Point) -> Result<(), AllocError>
    ensures { OnOk result (pair_in edges.new ≡ both_edges (pair_in edges.old) (edges_to from (only root))) }
{
    if root == from {
        return Ok(());
    }
    edges.insert(from, root)?;
    Ok(())
}

/// The edges from a point to each other one of these.
fn edges_from(alloc: Global, from: Point, roots: &PointSet) -> Result<Relation, AllocError>
    ensures { IfOk result (λ edges. pair_in edges ≡ edges_to from (point_in roots.now)) }
{
    let mut edges = Relation::new(alloc);
    for root in roots.points() {
        add_edge(&mut edges, from, *root)?;
    }
    Ok(edges)
}

/// Whether all of the second list stands in the first, in the same order.
fn has_in_order(ours: &[(Point, Point)], theirs: &[(Point, Point)]) -> bool
    ensures { OnTrue result (HasAll ours.now theirs.now) }
{
    let mut found = 0;
    for pair in ours {
        if found < theirs.len() && theirs[found] == *pair {
            found += 1;
        }
    }
    found == theirs.len()
}

impl Facts {
    /// No histories, edges and roots.
    pub fn new(alloc: Global) -> Facts
        ensures { result ≡ record { histories = []; edges = []; roots = [] } }
    {
        Facts {
            histories: Histories::new(alloc),
            edges: Relation::new(alloc),
            roots: PointSet::new(alloc),
            alloc,
        }
    }

    /// The allocator.
    pub(crate) fn allocator(&self) -> Global {
        self.alloc
    }

    /// The histories.
    pub(crate) fn histories(&self) -> &Histories
        ensures { result.now ≡ self.now.histories }
    {
        &self.histories
    }

    /// The history of a transactor, or `None` where there is none.
    pub fn history_of(&self, who: u32) -> Option<&History>
        ensures { option_map (λ h. h.now.history) result ≡ history_in self.now.histories who }
    {
        self.histories.get(who)
    }

    /// The edges.
    pub fn edges(&self) -> &Relation
        ensures { result.now ≡ self.now.edges }
    {
        &self.edges
    }

    /// The roots.
    pub fn roots(&self) -> &PointSet
        ensures { result.now ≡ self.now.roots }
    {
        &self.roots
    }

    /// Makes this history that of the transactor.
    pub fn note(&mut self, who: u32, history: &History) -> Result<(), AllocError>
        ensures ok { OnOk result (held self.new ≡ noted who history.now.history (held self.old)) }
        ensures err { OnErr result (self.new ≡ self.old) }
    {
        self.histories.note(who, history)
    }

    /// Adds the point to the roots.
    pub fn touch(&mut self, point: Point) -> Result<(), AllocError>
        ensures ok { OnOk result (held self.new ≡ touched point (held self.old)) }
        ensures err { OnErr result (self.new ≡ self.old) }
    {
        self.roots.insert(point)?;
        Ok(())
    }

    /// Adds an edge from the point to each other root.
    pub fn depend(&mut self, from: Point) -> Result<(), AllocError>
        ensures ok { OnOk result (held self.new ≡ depended from (held self.old)) }
        ensures err { OnErr result (self.new ≡ self.old) }
    {
        let edges = edges_from(self.alloc, from, &self.roots)?;
        self.edges.union(&edges)?;
        Ok(())
    }

    /// Merges the histories and edges of the other value. The two histories of a transactor are comparable. The time
    /// is by the number of histories and edges of both, whatever the length of a history.
    pub fn merge_facts(&mut self, other: &Facts) -> Result<(), AllocError>
        requires { AllComparable (history_in self.old.histories) (history_in other.now.histories) }
        ensures ok { OnOk result (held self.new ≡ merged (held self.old) (held other.now)) }
        ensures err { OnErr result (self.new ≡ self.old) }
    {
        if self.histories.covers(&other.histories) {
            self.edges.union(&other.edges)?;
            return Ok(());
        }
        let histories = self.histories.merged(&other.histories)?;
        self.edges.union(&other.edges)?;
        self.histories = histories;
        Ok(())
    }

    /// Whether a merge with the facts of the other value was found to give this one again. The two histories of a transactor
    /// are comparable. The time is by the number of histories and edges of both.
    pub fn covers(&self, other: &Facts) -> bool
        requires { AllComparable (history_in self.now.histories) (history_in other.now.histories) }
        ensures { OnTrue result (merged (held self.now) (held other.now) ≡ held self.now) }
    {
        self.histories.covers(&other.histories)
            && has_in_order(self.edges.pairs(), other.edges.pairs())
    }

    /// Makes the roots those of the other value.
    pub fn take_roots(&mut self, other: &Facts) -> Result<(), AllocError>
        ensures ok { OnOk result (self.new ≡ record self.old { roots = other.now.roots }) }
        ensures err { OnErr result (self.new ≡ self.old) }
    {
        self.roots = other.roots.copy()?;
        Ok(())
    }

    /// Takes all roots away.
    pub fn clear_roots(&mut self)
        ensures { self.new ≡ record self.old { roots = [] } }
    {
        self.roots.clear();
    }

    /// Drops edges and roots by the fates of their points. It takes no memory.
    pub fn drop_by<D: Dropping>(&mut self)
        ensures { held self.new ≡ trim (edges_by D.edge) (roots_by D.root) (held self.old) }
    {
        drop_edges::<D>(&self.histories, &mut self.edges);
        drop_roots::<D>(&self.histories, &mut self.roots);
    }

    /// Drops roots by their fates. It takes no memory.
    pub fn drop_roots_by<D: Dropping>(&mut self)
        ensures { held self.new ≡ with_roots (roots_kept (roots_by D.root) (history_in self.old.histories) (point_in self.old.roots)) (held self.old) }
    {
        drop_roots::<D>(&self.histories, &mut self.roots);
    }

    /// The same histories, edges and roots.
    pub fn copy(&self) -> Result<Facts, AllocError>
        ensures { IfOk result (λ facts. facts ≡ self.now) }
    {
        Ok(Facts {
            histories: self.histories.copy()?,
            edges: self.edges.copy()?,
            roots: self.roots.copy()?,
            alloc: self.alloc,
        })
    }
}
