//! What a step changes.
use tau_value::Value;

/// What a step changes in a table of states, with the memory that it takes.
#[derive(Drop)]
pub enum Change {
    Nothing,
    /// The record of the transactor that makes the step.
    Own { who: u32, effect: Effect },
    /// One transactor more. Both values are the state that its New gives.
    New { state: Value, base: Value },
}

/// What a step changes in the record of the transactor that makes it.
#[derive(Drop)]
pub enum Effect {
    Nothing,
    /// The state, by a Set.
    Set { state: Value },
    /// The mode, by a Stabilize.
    Stabilize,
    /// The interval and the mode, by a Checkpoint; the value is what it saves.
    Checkpoint { base: Value },
    /// The state and the mode, by a falling step; the value is what it falls back to.
    Fall { state: Value },
}
