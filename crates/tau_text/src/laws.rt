//! Laws of run texts, each the contract of a function that does nothing.
ghost use Rattle.tau_text.specs.Laws.{RunTextsTell};
ghost use Rattle.tau_text.specs.Faults.{IsProgramFault, IsRunFault, IsPrintFault};
ghost use Rattle.tau_text.specs.InputLaws.{IsUnique, IsRunInputOf, RunTextsAreReadBack};
ghost use Rattle.tau_text.specs.Meaning.{IsProgram, IsPrintInput};

/// A run text determines its program and its run (docs/definitions.md, "Run text").
pub fn run_texts_tell()
    ensures { RunTextsTell }
{}

/// As the input of each command, bytes have one meaning or one fault at most, and not both (docs/formats.md, "Run text",
/// "Input faults").
pub fn inputs_are_unique(_bytes: &[u8])
    ensures program { IsUnique (IsProgram _bytes.now) (IsProgramFault _bytes.now) }
    ensures run { IsUnique (IsRunInputOf _bytes.now) (IsRunFault _bytes.now) }
    ensures print { IsUnique (IsPrintInput _bytes.now) (IsPrintFault _bytes.now) }
{}

/// The run text of a program and a run is read back as the two (docs/formats.md, "Run text").
pub fn run_texts_are_read_back()
    ensures { RunTextsAreReadBack }
{}
