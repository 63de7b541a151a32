//! Laws of what is pending, heard and fixed, each the contract of a function that does nothing.
ghost use Rattle.std.specs.Prelude.{ℕ};
ghost use Rattle.tau_past.specs.KnownLaws.{TurnsStepByStep, PendingStepByStep, PendingNeedsATurn, PendingPointsWereTouched, CarriedPointsWereTouched, SentPointsWereTouched, WhatIsHeardIsClosed, UnionsAreClosed, ClosedSetsHoldWhatWasHeard, WhatIsHeardStandsBefore, HeardStepByStep, MessagesHearWithTheirSender, HeardGrows, ClosedSetsHoldEarlierSteps, BoundsAreUnique, UnionsHaveTheGreaterBound, StepsChangeTheirBoundAlone, BoundsTellHistories, WhatIsHeardHasBounds, CheckpointsFixTheirPast, CheckpointsWereStabilized};

/// Any set of places, for the laws of closed sets.
pub trait AnyPlaces {
    ghost holds: { ℕ → Type 0 };
}

/// Which turns are open after a step, by its kind (docs/definitions.md, "Open turn").
pub fn turns_step_by_step()
    ensures { TurnsStepByStep }
{}

/// What the next step would carry after a step, by its kind (docs/definitions.md, "Carried").
pub fn pending_step_by_step()
    ensures { PendingStepByStep }
{}

/// Between turns nothing would be carried (docs/definitions.md, "Carried").
pub fn pending_needs_a_turn()
    ensures { PendingNeedsATurn }
{}

/// What a step would carry was the point of a touching step that its transactor has heard of (docs/definitions.md,
/// "Carried", "Heard").
pub fn pending_points_were_touched()
    ensures { PendingPointsWereTouched }
{}

/// What a place of a closed set carries was the point of a touching step in the set (docs/definitions.md, "Carried").
pub fn carried_points_were_touched<H: AnyPlaces>()
    ensures { CarriedPointsWereTouched H.holds }
{}

/// What a message carries was the point of a touching step that it has heard of (docs/definitions.md, "Carried").
pub fn sent_points_were_touched()
    ensures { SentPointsWereTouched }
{}

/// What transactors and messages have heard is closed (docs/definitions.md, "Heard").
pub fn what_is_heard_is_closed()
    ensures { WhatIsHeardIsClosed }
{}

/// The union of two closed sets is closed (docs/definitions.md, "Heard").
pub fn unions_are_closed<H: AnyPlaces, G: AnyPlaces>()
    ensures { UnionsAreClosed H.holds G.holds }
{}

/// With a step a closed set contains all that was heard there (docs/definitions.md, "Heard").
pub fn closed_sets_hold_what_was_heard<H: AnyPlaces>()
    ensures { ClosedSetsHoldWhatWasHeard H.holds }
{}

/// What is heard stands before the place where it is heard (docs/definitions.md, "Heard").
pub fn what_is_heard_stands_before()
    ensures { WhatIsHeardStandsBefore }
{}

/// What a transactor has heard after a step, by its kind (docs/definitions.md, "Heard").
pub fn heard_step_by_step()
    ensures { HeardStepByStep }
{}

/// A message has heard what its sender had heard, and its Send (docs/definitions.md, "Heard").
pub fn messages_hear_with_their_sender()
    ensures { MessagesHearWithTheirSender }
{}

/// What was heard stays heard (docs/definitions.md, "Heard").
pub fn heard_grows()
    ensures { HeardGrows }
{}

/// With a step a closed set contains each earlier step of its actor (docs/definitions.md, "Heard").
pub fn closed_sets_hold_earlier_steps<H: AnyPlaces>()
    ensures { ClosedSetsHoldEarlierSteps H.holds }
{}

/// The steps of a transactor in a set are those before one bound at most (docs/definitions.md, "Heard").
pub fn bounds_are_unique<H: AnyPlaces>()
    ensures { BoundsAreUnique H.holds }
{}

/// The bound of a union is the greater of the two bounds (docs/definitions.md, "Heard").
pub fn unions_have_the_greater_bound<H: AnyPlaces, G: AnyPlaces>()
    ensures { UnionsHaveTheGreaterBound H.holds G.holds }
{}

/// A step that joins the earlier steps of its actor changes the actor's bound alone (docs/definitions.md, "Heard").
pub fn steps_change_their_bound_alone<H: AnyPlaces>()
    ensures { StepsChangeTheirBoundAlone H.holds }
{}

/// The history of a transactor at the bound of its steps before a place is its history at that place
/// (docs/definitions.md, "History").
pub fn bounds_tell_histories<H: AnyPlaces>()
    ensures { BoundsTellHistories H.holds }
{}

/// What transactors and messages have heard has a bound for each transactor (docs/definitions.md, "Heard").
pub fn what_is_heard_has_bounds()
    ensures { WhatIsHeardHasBounds }
{}

/// The past of a Checkpoint's point is what its transactor knew of it there, settled and never rolled back
/// (docs/definitions.md, "Past", "Known in a set", "Safe").
pub fn checkpoints_fix_their_past()
    ensures { CheckpointsFixTheirPast }
{}

/// A Checkpoint was made where its transactor had stabilized, at the same point (docs/definitions.md, "Free").
pub fn checkpoints_were_stabilized()
    ensures { CheckpointsWereStabilized }
{}
