//! What can be wrong with the forms of a program.
use std::alloc::{AllocError, AllocFailed};
use thiserror::Error;

/// Why forms are no program (docs/formats.md, "Programs"). A node is numbered in preorder within the forms, from 0.
#[derive(Clone, Copy, Debug, PartialEq, Eq, Error)]
pub enum ProgramError {
    /// A form isn't of a shape that its place allows.
    #[error("wrong form at node {node}")]
    Shape { node: u64 },
    /// A name isn't defined.
    #[error("unknown name at node {node}")]
    Unknown { node: u64 },
    /// Something is defined a second time.
    #[error("second definition at node {node}")]
    Twice { node: u64 },
    /// There are too many: 1 of behaviours, 2 of starts, 3 of posts, 4 of script entries.
    #[error("too many forms of kind {which}")]
    Limit { which: u8 },
    #[error("out of memory")]
    NoMemory,
}

impl From<AllocError> for ProgramError {
    ghost use Rattle.std.specs.Prelude.{◌≡◌};
    ghost use Rattle.tau_forms.specs.declared.faults.ProgramError.TheVariants.{NoMemory};

    ghost from_gives = { λ _ e. e ≡ NoMemory };

    fn from(_error: AllocError) -> ProgramError {
        ProgramError::NoMemory
    }
}

impl<T: Drop> From<AllocFailed<T>> for ProgramError {
    ghost use Rattle.std.specs.Prelude.{◌≡◌};
    ghost use Rattle.tau_forms.specs.declared.faults.ProgramError.TheVariants.{NoMemory};

    ghost from_gives = { λ _ e. e ≡ NoMemory };

    fn from(_error: AllocFailed<T>) -> ProgramError {
        ProgramError::NoMemory
    }
}
