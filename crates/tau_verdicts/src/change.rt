//! What a step changes.

use tau_heard::HearingChange;

/// What a step changes, with all memory that it takes.
#[derive(Drop)]
pub struct MarkedChange {
    /// What it changes in what was heard.
    pub change: HearingChange,
    /// The transactor that leaves its point.
    pub leaves: Option<u32>,
}
