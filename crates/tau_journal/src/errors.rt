//! Why a journal isn't made, found or gone on with.
use crate::disk::DiskError;
use std::alloc::{AllocError, AllocFailed};
use thiserror::Error;

/// Why a call on a journal gave no answer (`docs/formats.md`, "Journal").
#[derive(Clone, Copy, Debug, PartialEq, Eq, Error)]
pub enum JournalError {
    /// The fault with this number, at this place.
    #[error("journal fault {fault} at {at}")]
    Fault { fault: u8, at: u64 },
    /// A call of the disk failed.
    #[error("the disk failed")]
    DiskFault,
    /// Memory ran out.
    #[error("out of memory")]
    NoMemory,
}

impl From<AllocError> for JournalError {
    ghost use Rattle.std.specs.Prelude.{◌≡◌};
    ghost use Rattle.tau_journal.specs.declared.errors.JournalError.TheVariants.{NoMemory};

    ghost from_gives = { λ _ e. e ≡ NoMemory };

    fn from(_error: AllocError) -> JournalError {
        JournalError::NoMemory
    }
}

impl<T: Drop> From<AllocFailed<T>> for JournalError {
    ghost use Rattle.std.specs.Prelude.{◌≡◌};
    ghost use Rattle.tau_journal.specs.declared.errors.JournalError.TheVariants.{NoMemory};

    ghost from_gives = { λ _ e. e ≡ NoMemory };

    fn from(_error: AllocFailed<T>) -> JournalError {
        JournalError::NoMemory
    }
}

impl From<DiskError> for JournalError {
    ghost use Rattle.std.specs.Prelude.{◌≡◌};
    ghost use Rattle.tau_journal.specs.Errors.{of_disk_error};

    ghost from_gives = { λ error e. e ≡ of_disk_error error };

    fn from(error: DiskError) -> JournalError {
        match error {
            DiskError::Failed => JournalError::DiskFault,
            DiskError::NoMemory => JournalError::NoMemory,
        }
    }
}
