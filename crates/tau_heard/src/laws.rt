//! Laws of what is kept, step by step, each the contract of a function that does nothing.
ghost use Rattle.tau_heard.specs.Laws.{BoundsTogether, BoundsStepByStep, LettersStay, TurnsStepByStep, CarriedStays, CopiesHearAlike, CopiesCarryAlike, NoneCountedNothingFalls, NoneCountedAllIsTaken};
ghost use Rattle.tau_heard.specs.Moves.{LogsStepByStep, HearsIsLocal};
ghost use Rattle.tau_heard.specs.Facts.{ChangesFollow};

/// What a transactor and a message have heard, together: of each transactor the later version (docs/definitions.md, "Heard").
pub fn bounds_together()
    ensures { BoundsTogether }
{}

/// What becomes of a transactor's numbers by a step, and which numbers a message and a created transactor have
/// (docs/definitions.md, "Heard").
pub fn bounds_step_by_step()
    ensures { BoundsStepByStep }
{}

/// What a message has heard stays what it is (docs/definitions.md, "Heard").
pub fn letters_stay()
    ensures { LettersStay }
{}

/// A copy has heard and carries what the message that it repeats does (docs/definitions.md, "Origin").
pub fn copies_are_alike()
    ensures heard { CopiesHearAlike }
    ensures carried { CopiesCarryAlike }
{}

/// What a turn takes along after a step, and what a message and a created transactor take along (docs/definitions.md, "Carried").
pub fn turns_step_by_step()
    ensures { TurnsStepByStep }
{}

/// What a message carries stays what it is (docs/definitions.md, "Carried").
pub fn carried_stays()
    ensures { CarriedStays }
{}

/// Where no falling step was counted, nothing has fallen (docs/definitions.md, "Falling step").
pub fn none_counted_nothing_falls()
    ensures { NoneCountedNothingFalls }
{}

/// Then every message is taken (docs/definitions.md, "Verdict").
pub fn none_counted_all_is_taken()
    ensures { NoneCountedAllIsTaken }
{}

/// How the log of a transactor goes on by a step (docs/definitions.md, "History", "Takes").
pub fn logs_step_by_step()
    ensures { LogsStepByStep }
{}

/// What is kept at a place reads the opening and the steps before it alone.
pub fn hears_is_local()
    ensures { HearsIsLocal }
{}

/// With the change of a step, what is kept is right after the step.
pub fn changes_follow()
    ensures { ChangesFollow }
{}
