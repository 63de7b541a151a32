//! Laws of outcomes, each the contract of a function that does nothing.
ghost use Rattle.tau_storm.specs.Laws.{LinesAreUnique, OutcomesAreUnique, SeedsFollowOn};

/// A run of a program ends by the same lines always (docs/definitions.md, "Storm").
pub fn lines_are_unique()
    ensures { LinesAreUnique }
{}

/// Ends have one list of outcomes in order.
pub fn outcomes_are_unique()
    ensures { OutcomesAreUnique }
{}

/// The ends of two ranges of seeds that follow one another are those of the whole.
pub fn seeds_follow_on()
    ensures { SeedsFollowOn }
{}
