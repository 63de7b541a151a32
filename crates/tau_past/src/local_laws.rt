//! That decisions are local, as the contract of a function that does nothing.
ghost use Rattle.tau_past.specs.LocalLaws.{DecisionsAreLocal};

/// What is heard, carried and decided at a place reads the opening and the steps before it alone (docs/definitions.md).
#[tactic(auto, using(crate::proofs::Agreement::decisions_local))]
pub fn decisions_are_local()
    ensures { DecisionsAreLocal }
{}
