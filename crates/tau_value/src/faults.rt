//! What can be wrong with a form of a value.
use std::alloc::{AllocError, AllocFailed};
use thiserror::Error;

/// Why a form means no value; `node` is the faulty node, in preorder within the form, counted from 0
/// (docs/formats.md, "Values").
#[derive(Clone, Copy, Debug, PartialEq, Eq, Error)]
pub enum ValueError {
    /// The form is none of those of values, or its value is out of bounds.
    #[error("no value at node {node}")]
    Shape { node: u64 },
    /// A name or a count in `(name X)` names no transactor.
    #[error("unknown name at node {node}")]
    Unknown { node: u64 },
    #[error("out of memory")]
    NoMemory,
}

impl From<AllocError> for ValueError {
    ghost use Rattle.std.specs.Prelude.{◌≡◌};
    ghost use Rattle.tau_value.specs.declared.faults.ValueError.TheVariants.{NoMemory};

    ghost from_gives = { λ _ e. e ≡ NoMemory };

    fn from(_error: AllocError) -> ValueError {
        ValueError::NoMemory
    }
}

impl<T: Drop> From<AllocFailed<T>> for ValueError {
    ghost use Rattle.std.specs.Prelude.{◌≡◌};
    ghost use Rattle.tau_value.specs.declared.faults.ValueError.TheVariants.{NoMemory};

    ghost from_gives = { λ _ e. e ≡ NoMemory };

    fn from(_error: AllocFailed<T>) -> ValueError {
        ValueError::NoMemory
    }
}
