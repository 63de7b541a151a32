//! Laws of markup, each the contract of a function that does nothing.
ghost use Rattle.tau_svg.specs.Markup.Laws.{LinesAreAppended, LinesAreJoined};

/// Lines that are written one after another stand behind what was written.
pub fn lines_are_appended()
    ensures { LinesAreAppended }
{}

/// Lists of lines are written one behind the other.
pub fn lines_are_joined()
    ensures { LinesAreJoined }
{}
