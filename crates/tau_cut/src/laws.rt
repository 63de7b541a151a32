//! Laws of cuts, each the contract of a function that does nothing.
ghost use Rattle.tau_cut.specs.Laws.{CutsAreUnique, CutTextsAreUnique};

/// A trace has one cut (docs/definitions.md, "Consistent").
pub fn cuts_are_unique()
    ensures { CutsAreUnique }
{}

/// A program and a trace have one text that tells the cut (docs/formats.md, "Cuts").
pub fn cut_texts_are_unique()
    ensures { CutTextsAreUnique }
{}
