//! Laws of inputs and of what is written. The calls do nothing: what they ensure holds of all bytes.
ghost use Rattle.tau_output.specs.Laws.{WritesOnce, WritesWithoutFault, WritesWhereAsked, StormsAlike, FailsOnce, TextsTellRuns, RunTextsAreAccepted, MigratedTextsAreAccepted, LegalRunsAreGrounded};

/// For an input a command writes one text on one thread, or the input has one fault, and not both (docs/formats.md, "Input
/// faults"); nor does a command write that asks in vain. So `run` with one worker writes the same each time, and so does `drill`.
/// `storm` writes the same by any number of workers.
pub fn output_is_unique(_bytes: &[u8])
    ensures once { WritesOnce _bytes.now }
    ensures without_fault { WritesWithoutFault _bytes.now }
    ensures asked { WritesWhereAsked _bytes.now }
    ensures alike { StormsAlike _bytes.now }
    ensures one_fault { FailsOnce _bytes.now }
{}

/// The text that `run` writes determines the program, the run and the end (docs/definitions.md, "Run text").
pub fn run_texts_tell()
    ensures { TextsTellRuns }
{}

/// A text that `run` writes, and that isn't longer than an input may be, is read back as its program and its run; of it `check` says
/// that it is legal, `audit` that it is safe, and `print` writes its program (docs/formats.md, "Command line").
pub fn run_texts_are_accepted()
    ensures { RunTextsAreAccepted }
{}

/// A text that `migrate` writes, and that isn't longer than an input may be, is read back as the program in version 2 and a run with
/// the same steps; of it `check` says that it is legal, `audit` that it is safe, `print` writes its program, and `migrate` the text
/// again (docs/formats.md, "Migration").
pub fn migrated_texts_are_accepted()
    ensures { MigratedTextsAreAccepted }
{}

/// Each Hold, Drop and Fall of a legal run has its ground, so `why` writes `none` of no legal run (docs/definitions.md, "Cause").
pub fn legal_runs_are_grounded()
    ensures { LegalRunsAreGrounded }
{}
