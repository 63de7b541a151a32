ghost use Rattle.std.specs.Prelude.{◌≡◌, ℕ, ◌↔◌, Option, IfOk, OnOk, OnErr, IsTrue, Contains};
ghost use Rattle.std.specs.Option.{option_map};
ghost use Rattle.tau_points.specs.declared.point.Point.{Point};
ghost use Rattle.tau_points.specs.Order.{IsAscending};
ghost use Rattle.tau_view.specs.Held.{Held, AllPrecede, AllComparable};
ghost use Rattle.tau_view.specs.Rules.{nothing, noted, touched, depended, merged, with_roots, with_no_roots};
ghost use Rattle.tau_view.specs.Trim.{EdgeTest, RootTest, trim, DropsSettledEdges, DropsClosedRoots, DropsForGood};
ghost use Rattle.tau_view.specs.Past.{KnownPast, PastUpToClosed};
ghost use Rattle.tau_view.specs.Laws.{MayNote};
ghost use Rattle.tau_view.specs.Stored.{point_in};

use std::alloc::{AllocError, Global};
use tau_history::History;
use tau_points::{Point, PointSet};

/// What a transactor or a message has heard (`docs/rules.md`, "Views"): histories, edges and roots.
///
/// A type of view may drop edges and roots that no decision needs. Which ones it drops is told by two tests on the
/// view's histories, and after each call a view holds what the rules give without these. A call that answers
/// `AllocError` leaves the view as it was.
pub trait View: Sized {
    /// What the view holds.
    ghost held: { Self → Held };

    /// The edges that this type of view drops.
    ghost drops_edge: { EdgeTest };

    /// The roots that this type of view drops.
    ghost drops_root: { RootTest };

    /// A view without histories, edges and roots.
    fn empty(alloc: Global) -> Self
        ensures { held result ≡ trim drops_edge drops_root nothing };

    /// The history that the view has of a transactor, or `None` where it has none.
    fn history_of(&self, who: u32) -> Option<&History>
        ensures { option_map (λ h. h.now.history) result ≡ (held self.now).history who };

    /// The known past of these points (`docs/rules.md`, "Known past"): they, and all that the view's edges and
    /// histories lead to from them.
    fn past_of(&self, from: &PointSet) -> Result<PointSet, AllocError>
        ensures ascending { IfOk result IsAscending }
        ensures past { IfOk result
            (λ past. (q : Point) → Contains past q ↔ KnownPast (held self.now) (point_in from.now) q) };

    /// The part of the known past that is reached without going on from a Closed point.
    fn past_up_to_closed(&self, from: &PointSet) -> Result<PointSet, AllocError>
        ensures ascending { IfOk result IsAscending }
        ensures past { IfOk result
            (λ past. (q : Point) → Contains past q ↔ PastUpToClosed (held self.now) (point_in from.now) q) };

    /// The roots.
    fn roots(&self) -> &PointSet
        ensures { point_in result.now ≡ (held self.now).root };

    /// Makes this history that of the transactor. A history that is there already precedes it.
    fn note(&mut self, who: u32, history: &History) -> Result<(), AllocError>
        requires { MayNote who history.now.history (held self.old).history }
        ensures ok { OnOk result
            (held self.new ≡ trim drops_edge drops_root (noted who history.now.history (held self.old))) }
        ensures err { OnErr result (held self.new ≡ held self.old) };

    /// Adds the point to the roots.
    fn touch(&mut self, point: Point) -> Result<(), AllocError>
        ensures ok { OnOk result
            (held self.new ≡ trim drops_edge drops_root (touched point (held self.old))) }
        ensures err { OnErr result (held self.new ≡ held self.old) };

    /// Adds an edge from the point to each other root.
    fn depend(&mut self, from: Point) -> Result<(), AllocError>
        ensures ok { OnOk result
            (held self.new ≡ trim drops_edge drops_root (depended from (held self.old))) }
        ensures err { OnErr result (held self.new ≡ held self.old) };

    /// Merges the facts of the other view (`docs/rules.md`, "Merge of facts"): the later history of each transactor,
    /// and the edges of both. The two histories of a transactor are comparable. The roots stay.
    fn merge_facts(&mut self, other: &Self) -> Result<(), AllocError>
        requires { AllComparable (held self.old).history (held other.now).history }
        ensures ok { OnOk result
            (held self.new ≡ trim drops_edge drops_root (merged (held self.old) (held other.now))) }
        ensures err { OnErr result (held self.new ≡ held self.old) };

    /// Makes the roots those of the other view.
    fn take_roots(&mut self, other: &Self) -> Result<(), AllocError>
        ensures ok { OnOk result
            (held self.new ≡ trim drops_edge drops_root (with_roots (held other.now).root (held self.old))) }
        ensures err { OnErr result (held self.new ≡ held self.old) };

    /// Takes all roots away.
    fn clear_roots(&mut self)
        ensures { held self.new ≡ trim drops_edge drops_root (with_no_roots (held self.old)) };

    /// A view that holds the same.
    fn try_copy(&self) -> Result<Self, AllocError>
        ensures { IfOk result (λ view. held view ≡ held self.now) };

    /// A dropped edge leads from a Closed or Fallen point, or to a Closed one.
    ghost drops_settled_edges: { DropsSettledEdges drops_edge };

    /// A dropped root is Closed, and each edge to it is dropped.
    ghost drops_closed_roots: { DropsClosedRoots drops_edge drops_root };

    /// What is dropped is dropped under later histories too.
    ghost drops_for_good: { DropsForGood drops_edge drops_root };
}
