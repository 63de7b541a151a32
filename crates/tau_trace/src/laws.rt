//! Laws of runs, each the contract of a function that does nothing.
ghost use Rattle.tau_trace.specs.Laws.{HistoriesAreCounted, LocalByAgreement, HistoriesLieOnAChain, PointsGrow, PointsDoNotReturn, FatesAreLocal, StableAtAPoint, VolatileFallsWereNeverStable, EachNumberIsMadeOnce};
ghost use Rattle.tau_trace.specs.MessageLaws.{EachMessageHasOneOrigin, CopiesHaveTheirOrigin};

/// Histories are what counting steps gives (docs/rules.md, "Histories", "Steps").
pub fn histories_are_counted()
    ensures { HistoriesAreCounted }
{}

/// What is said of a place reads the opening and the steps before it alone.
pub fn local_by_agreement()
    ensures { LocalByAgreement }
{}

/// A later history of a transactor is reached from an earlier one by moves (docs/rules.md, "Histories").
pub fn histories_lie_on_a_chain()
    ensures { HistoriesLieOnAChain }
{}

/// Points never go back, and change exactly at Checkpoints and falling steps (docs/rules.md, "Points").
pub fn points_grow()
    ensures { PointsGrow }
{}

/// A transactor that left a point does not come back to it (docs/rules.md, "Points").
pub fn points_do_not_return()
    ensures { PointsDoNotReturn }
{}

/// The fates of a point are told by the steps that were made at it (docs/rules.md, "Fates").
pub fn fates_are_local()
    ensures { FatesAreLocal }
{}

/// A transactor is stable where a Stabilize was made at its point (docs/rules.md, "Fates").
pub fn stable_at_a_point()
    ensures { StableAtAPoint }
{}

/// A point from which a volatile transactor falls was never stable, and never will be (docs/rules.md, "Fates").
pub fn volatile_falls_were_never_stable()
    ensures { VolatileFallsWereNeverStable }
{}

/// Each transactor has one node, and each message one receiver (docs/rules.md, "Numbers").
pub fn each_number_is_made_once()
    ensures { EachNumberIsMadeOnce }
{}

/// A message has one origin (docs/rules.md, "Numbers").
pub fn each_message_has_one_origin()
    ensures { EachMessageHasOneOrigin }
{}

/// A copy has the origin of the message that it repeats (docs/rules.md, "Numbers").
pub fn copies_have_their_origin()
    ensures { CopiesHaveTheirOrigin }
{}
