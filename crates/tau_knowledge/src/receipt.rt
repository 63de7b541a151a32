//! What becomes of a message at its receipt.

/// What becomes of a message at its receipt (docs/rules.md, "Verdict").
#[derive(Clone, Copy, Debug, PartialEq, Eq)]
pub enum Receipt {
    /// The receiver takes it.
    Take,
    /// The message is discarded.
    Drop,
    /// The receiver falls.
    Fall,
}
