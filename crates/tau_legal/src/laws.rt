//! Laws of fitting and legal traces, each the contract of a function that does nothing.
ghost use Rattle.tau_legal.specs.Laws.{FittingTracesAreSafe, LegalTracesAreSafe, FittingIsLocal, LegalityIsLocal, FittingTracesGrow, LegalTracesGrow, EmptyTracesAreComplete, CompleteWhereNoStepIsLegal};

/// Whatever the program, a trace in which every step fits is safe: no checkpoint's causal past, found from the whole list of
/// steps, holds a state rolled back anywhere in it (docs/definitions.md, "Fitting and legal steps").
#[tactic(auto, using(crate::proofs::SafetyLemmas::fitting_safe))]
pub fn fitting_traces_are_safe()
    ensures { FittingTracesAreSafe }
{}

/// And so is a legal trace.
#[tactic(auto, using(crate::proofs::TraceLemmas::legal_safe))]
pub fn legal_traces_are_safe()
    ensures { LegalTracesAreSafe }
{}

/// Which step fits at a place reads the opening and the steps before it alone (docs/definitions.md, "Fitting and legal
/// steps").
#[tactic(auto, using(crate::proofs::LocalLemmas::fits_same))]
pub fn fitting_is_local()
    ensures { FittingIsLocal }
{}

/// And so does which step is legal.
pub fn legality_is_local()
    ensures { LegalityIsLocal }
{}

/// A fitting trace and one more step that fits are a fitting trace (docs/definitions.md, "Fitting and legal steps").
#[tactic(auto, using(crate::proofs::TraceLemmas::fitting_grows))]
pub fn fitting_traces_grow()
    ensures { FittingTracesGrow }
{}

/// A legal trace and one more step that is legal are a legal trace.
#[tactic(auto, using(crate::proofs::TraceLemmas::legal_grows))]
pub fn legal_traces_grow()
    ensures { LegalTracesGrow }
{}

/// The trace without steps of a program without posts and script entries is complete (docs/definitions.md, "Complete").
pub fn empty_traces_are_complete()
    ensures { EmptyTracesAreComplete }
{}

/// After a complete trace no step is legal. A legal trace of a sound program is complete where no step is legal after it of those
/// that name only what exists (docs/definitions.md, "Complete").
pub fn complete_where_no_step_is_legal()
    ensures { CompleteWhereNoStepIsLegal }
{}
