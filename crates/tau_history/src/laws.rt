//! Laws of the order of histories and of fates, each the contract of a function that does nothing.
ghost use Rattle.tau_history.specs.Laws.{OrderIsReflexive, OrderIsTransitive, OrderIsAntisymmetric, PredecessorsAreComparable, LaterIsPreceded, PrecedenceIsByParts, FatesAreTheTable, ReachedStaysReached, ClosedStaysClosed, FallenStaysFallen, StableClosesOrFalls, FallsMakeFallen, ClosesMakeClosed, StabilizesMakeStable};

/// Every history precedes itself (`docs/rules.md`, "Histories").
#[tactic(auto, using(crate::proofs::Paths::reflexive))]
pub fn order_is_reflexive()
    ensures { OrderIsReflexive }
{}

/// A history precedes what is preceded by one that it precedes (`docs/rules.md`, "Histories").
#[tactic(auto, using(crate::proofs::Paths::law_transitive))]
pub fn order_is_transitive()
    ensures { OrderIsTransitive }
{}

/// Two histories that precede one another are equal (`docs/rules.md`, "Histories").
#[tactic(auto, using(crate::proofs::Order::antisymmetric))]
pub fn order_is_antisymmetric()
    ensures { OrderIsAntisymmetric }
{}

/// Of two histories that precede a third, one precedes the other (`docs/rules.md`, "Histories").
#[tactic(auto, using(crate::proofs::Chain::law_comparable))]
pub fn predecessors_are_comparable()
    ensures { PredecessorsAreComparable }
{}

/// Of two histories of which one precedes the other, both precede the later one
/// (`docs/rules.md`, "Histories").
pub fn later_is_preceded()
    ensures { LaterIsPreceded }
{}

/// The closed form of the order: a history precedes another exactly where their intervals, incarnation numbers and modes lie so
/// (`docs/rules.md`, "Histories").
pub fn precedence_is_by_parts()
    ensures { PrecedenceIsByParts }
{}

/// Each point has exactly the fate whose row of the table it meets (`docs/rules.md`, "Fates").
#[tactic(auto, using(crate::proofs::Table::by_table))]
pub fn fates_are_the_table()
    ensures { FatesAreTheTable }
{}

/// Under a later history a point that is not Ahead stays so (`docs/rules.md`, "Fates").
#[tactic(auto, using(crate::proofs::Later::law_reached))]
pub fn reached_stays_reached()
    ensures { ReachedStaysReached }
{}

/// Under a later history a Closed point stays Closed (`docs/rules.md`, "Fates").
#[tactic(auto, using(crate::proofs::Later::law_closed))]
pub fn closed_stays_closed()
    ensures { ClosedStaysClosed }
{}

/// Under a later history a Fallen point stays Fallen (`docs/rules.md`, "Fates").
#[tactic(auto, using(crate::proofs::Later::law_fallen))]
pub fn fallen_stays_fallen()
    ensures { FallenStaysFallen }
{}

/// Under a later history a Stable point is Stable, Closed or Fallen (`docs/rules.md`, "Fates").
#[tactic(auto, using(crate::proofs::Later::law_stable))]
pub fn stable_closes_or_falls()
    ensures { StableClosesOrFalls }
{}

/// After a move a point is Fallen exactly where it was before, or where the move is a fall made at it
/// (`docs/rules.md`, "Fates").
#[tactic(auto, using(crate::proofs::Moves::fallen_after))]
pub fn falls_make_fallen()
    ensures { FallsMakeFallen }
{}

/// After a move a point is Closed exactly where it was before, or where the move is a close made at it
/// (`docs/rules.md`, "Fates").
#[tactic(auto, using(crate::proofs::Moves::closed_after))]
pub fn closes_make_closed()
    ensures { ClosesMakeClosed }
{}

/// After a move a point is Stable only where it was before, or where the move is a stabilize made at it
/// (`docs/rules.md`, "Fates").
#[tactic(auto, using(crate::proofs::Moves::stable_after))]
pub fn stabilizes_make_stable()
    ensures { StabilizesMakeStable }
{}
