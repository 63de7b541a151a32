// The laws of ascending lists and of what is reached, each the contract of a function that does nothing. Their
// proofs are in proofs/SortedLists.antt and proofs/Reach.antt, for use in other proofs.
ghost use Rattle.std.specs.Prelude.{◌≡◌, List};
ghost use Rattle.tau_points.specs.declared.point.Point.{Point};
ghost use Rattle.tau_points.specs.Order.{IsAscending, IsAscendingInPairs};
ghost use Rattle.tau_points.specs.Members.{SameMembers};
ghost use Rattle.tau_points.specs.Reach.{Reach, IsClosedUnder};
ghost use Rattle.tau_points.specs.ReachLaws.{IsLeast, IsMonotone, ReachesUnion, IsNested, IsRestricted, IsReachedByPath, IsReachedBySimplePath};

/// Any relation on `A`, for the laws of what is reached.
pub trait AnyRelation<A> {
    ghost leads: { A → A → Type 0 };
}

/// Any set of values of `A`, for the laws of what is reached.
pub trait AnySet<A> {
    ghost holds: { A → Type 0 };
}

/// Two ascending lists of points with the same members are equal.
pub fn points_by_members()
    ensures { (xs ys : List Point) → IsAscending xs → IsAscending ys → SameMembers xs ys → xs ≡ ys }
{}

/// Two ascending lists of pairs with the same members are equal.
pub fn pairs_by_members()
    ensures { (xs ys : List (Point × Point)) → IsAscendingInPairs xs → IsAscendingInPairs ys → SameMembers xs ys → xs ≡ ys }
{}

/// What is reached holds the starts `P` and, with each value, all to which `L` leads from it.
pub fn reach_is_closed<A, L: AnyRelation<A>, P: AnySet<A>>()
    ensures { IsClosedUnder L.leads P.holds (Reach L.leads P.holds) }
{}

/// What is reached lies in every set `H` that holds the starts and, with each value, all to which `L` leads from it.
pub fn reach_is_least<A, L: AnyRelation<A>, P: AnySet<A>, H: AnySet<A>>()
    ensures { IsLeast L.leads P.holds H.holds }
{}

/// More links and more starts reach more.
pub fn reach_is_monotone<A, L: AnyRelation<A>, M: AnyRelation<A>, P: AnySet<A>, Q: AnySet<A>>()
    ensures { IsMonotone L.leads M.leads P.holds Q.holds }
{}

/// From two sets together the same is reached as from each of them.
pub fn reach_of_union<A, L: AnyRelation<A>, P: AnySet<A>, Q: AnySet<A>>()
    ensures { ReachesUnion L.leads P.holds Q.holds }
{}

/// From what is reached nothing more is reached.
pub fn reach_is_nested<A, L: AnyRelation<A>, P: AnySet<A>, Q: AnySet<A>>()
    ensures { IsNested L.leads P.holds Q.holds }
{}

/// In a set `H` that holds the starts and is closed under `L`, links that lead from its members as `L` does reach the
/// same, and all of it is in `H`.
pub fn reach_is_restricted<A, L: AnyRelation<A>, M: AnyRelation<A>, P: AnySet<A>, H: AnySet<A>>()
    ensures { IsRestricted L.leads M.leads P.holds H.holds }
{}

/// A value is reached exactly where a list begins in the starts, ends with it, and has a link from each of its items
/// to the next.
pub fn reached_by_path<A, L: AnyRelation<A>, P: AnySet<A>>()
    ensures { IsReachedByPath L.leads P.holds }
{}

/// Where equality of the carrier is decidable, a value is reached exactly where such a list without repetition leads
/// to it.
pub fn reached_by_simple_path<A, L: AnyRelation<A>, P: AnySet<A>>()
    ensures { IsReachedBySimplePath L.leads P.holds }
{}
