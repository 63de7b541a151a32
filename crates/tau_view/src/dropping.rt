ghost use Rattle.std.specs.Prelude.{◌≡◌, Bool, not};
ghost use Rattle.tau_history.specs.declared.fate.Fate.{Fate};
ghost use Rattle.tau_view.specs.Trim.{edges_kept, roots_kept};
ghost use Rattle.tau_view.specs.Dropping.{edges_by, roots_by};
ghost use Rattle.tau_view.specs.Stored.{history_in, point_in, pair_in};

use crate::histories::Histories;
use tau_history::Fate;
use tau_points::{Point, PointSet, Relation};

/// Which edges and roots a type of view drops, told by the fates of their points.
pub trait Dropping {
    ghost edge: { Fate → Fate → Bool };

    ghost root: { Fate → Bool };

    /// Whether an edge between points of these fates is dropped.
    fn drops_edge(from: Fate, to: Fate) -> bool
        ensures { result ≡ edge from to };

    /// Whether a root of this fate is dropped.
    fn drops_root(fate: Fate) -> bool
        ensures { result ≡ root fate };
}

fn keeps_edge<D: Dropping>(histories: &Histories, edge: &(Point, Point)) -> bool
    ensures { result ≡ not (edges_by D.edge (history_in histories.now) edge.now.0 edge.now.1) }
{
    !D::drops_edge(histories.fate_of(&edge.0), histories.fate_of(&edge.1))
}

fn keeps_root<D: Dropping>(histories: &Histories, root: &Point) -> bool
    ensures { result ≡ not (roots_by D.root (history_in histories.now) root.now) }
{
    !D::drops_root(histories.fate_of(root))
}

/// Takes the edges away that are dropped under these histories.
pub(crate) fn drop_edges<D: Dropping>(histories: &Histories, edges: &mut Relation)
    ensures { pair_in edges.new ≡ edges_kept (edges_by D.edge) (history_in histories.now) (pair_in edges.old) }
{
    edges.retain(|edge| keeps_edge::<D>(histories, edge));
}

/// Takes the roots away that are dropped under these histories.
pub(crate) fn drop_roots<D: Dropping>(histories: &Histories, roots: &mut PointSet)
    ensures { point_in roots.new ≡ roots_kept (roots_by D.root) (history_in histories.now) (point_in roots.old) }
{
    roots.retain(|root| keeps_root::<D>(histories, root));
}
