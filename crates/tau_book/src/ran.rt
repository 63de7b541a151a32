//! What was made of a program.
use tau_trace::Trace;

/// What one worker, or several, made of a program.
#[derive(Drop)]
pub struct Ran {
    /// The trace: the program's opening, and the steps that were made.
    pub trace: Trace,
    /// Whether it is complete (docs/definitions.md, "Complete").
    pub is_complete: bool,
}
