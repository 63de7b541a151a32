use crate::chains::Chain;

/// Why a Hold, a Drop or a Fall stands in a trace (docs/definitions.md, "Cause"): the shortest chain to a cause, that there is
/// none, or that the place has no such step.
#[derive(Drop)]
pub enum Why {
    Chain(Chain),
    NoChain,
    NotAsked,
}
