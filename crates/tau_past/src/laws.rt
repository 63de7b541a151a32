//! Laws of pasts and decisions, each the contract of a function that does nothing.
ghost use Rattle.tau_past.specs.Laws.{RulesMakeSafe, NothingHeardAtFirst, PostsCarryNothing, OpeningPointsStandAlone, WithoutFallsAllIsTaken};

/// A trace that keeps the rules is safe: no checkpoint's past, found from the whole list of steps, holds a state rolled
/// back anywhere in it (docs/definitions.md, "Safe").
pub fn rules_make_safe()
    ensures { RulesMakeSafe }
{}

/// Before the first step a start has heard nothing (docs/definitions.md, "Heard").
pub fn nothing_heard_at_first()
    ensures { NothingHeardAtFirst }
{}

/// A post carries nothing (docs/definitions.md, "Carried").
pub fn posts_carry_nothing()
    ensures { PostsCarryNothing }
{}

/// The past of a start's opening point is that point alone (docs/definitions.md, "Past").
pub fn opening_points_stand_alone()
    ensures { OpeningPointsStandAlone }
{}

/// In a trace without falling steps every verdict is Take (docs/definitions.md, "Verdict").
pub fn without_falls_all_is_taken()
    ensures { WithoutFallsAllIsTaken }
{}
