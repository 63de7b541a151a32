//! Laws of pictures, each the contract of a function that does nothing.
ghost use Rattle.tau_picture.specs.Laws.{ArrowsJoin, BlueMayBeKept, GreyIsRolledBack, LanesStandApart, LegalRunsDrawSafe, MarksAreTheSteps, MarksStandInRows, PicturesAreMarkup, PicturesAreUnique, SafeRunsShowNoneBroken};

/// A program, a run of it, a window and the step that is asked for have one picture, and one text (docs/formats.md, "Pictures").
pub fn pictures_are_unique()
    ensures { PicturesAreUnique }
{}

/// A state looks fallen exactly where its point is rolled back (docs/formats.md, "Pictures").
pub fn grey_is_rolled_back()
    ensures { GreyIsRolledBack }
{}

/// A state and a mark look kept exactly where some consistent set holds their Checkpoint (docs/definitions.md, "Consistent").
pub fn blue_may_be_kept()
    ensures { BlueMayBeKept }
{}

/// In a picture of a safe run no state looks broken (docs/definitions.md, "Safe").
pub fn safe_runs_show_none_broken()
    ensures { SafeRunsShowNoneBroken }
{}

/// In a picture of a run in which every step fits no state and no mark looks broken (docs/definitions.md, "Fitting and legal
/// steps").
pub fn legal_runs_draw_safe()
    ensures { LegalRunsDrawSafe }
{}

/// Each drawn step has one mark, by place, at its spot (docs/formats.md, "Pictures").
pub fn marks_are_the_steps()
    ensures { MarksAreTheSteps }
{}

/// Each mark stands in the row of its step's place (docs/formats.md, "Pictures").
pub fn marks_stand_in_rows()
    ensures { MarksStandInRows }
{}

/// Lanes stand at least 28 apart, by node and number, and they and the spots of drawn steps stand within the picture
/// (docs/formats.md, "Pictures").
pub fn lanes_stand_apart()
    ensures { LanesStandApart }
{}

/// The message lines of a step that receives or loses a message are one arrow, from the spot of the message's sender to the step, and
/// those of other steps are of other kinds (docs/formats.md, "Pictures").
pub fn arrows_join()
    ensures { ArrowsJoin }
{}

/// A picture is one element of markup, and each line in it but the fixed ones one, whatever the texts in them (docs/formats.md,
/// "Pictures").
pub fn pictures_are_markup()
    ensures { PicturesAreMarkup }
{}
