//! What can be wrong with a text.
use std::alloc::{AllocError, AllocFailed};
use thiserror::Error;

/// Why a text has no forms; `at` is the place, in bytes counted from 0 (docs/formats.md, "Texts and forms").
#[derive(Clone, Copy, Debug, PartialEq, Eq, Error)]
pub enum FormError {
    /// Outside texts in quotes and comments the byte may not stand.
    #[error("bad byte at {at}")]
    BadByte { at: u64 },
    /// The byte is `)`, and no list is open.
    #[error("unopened list at {at}")]
    Unopened { at: u64 },
    /// The text ends while a list or a text in quotes is open.
    #[error("unclosed at {at}")]
    Unclosed { at: u64 },
    /// In quotes, the byte may not stand where it does.
    #[error("bad text at {at}")]
    BadText { at: u64 },
    /// The byte is `(`, and 200 lists are open.
    #[error("too deep at {at}")]
    TooDeep { at: u64 },
    #[error("out of memory")]
    NoMemory,
}

impl From<AllocError> for FormError {
    ghost use Rattle.std.specs.Prelude.{◌≡◌};
    ghost use Rattle.tau_sexpr.specs.declared.faults.FormError.TheVariants.{NoMemory};

    ghost from_gives = { λ _ e. e ≡ NoMemory };

    fn from(_error: AllocError) -> FormError {
        FormError::NoMemory
    }
}

impl<T: Drop> From<AllocFailed<T>> for FormError {
    ghost use Rattle.std.specs.Prelude.{◌≡◌};
    ghost use Rattle.tau_sexpr.specs.declared.faults.FormError.TheVariants.{NoMemory};

    ghost from_gives = { λ _ e. e ≡ NoMemory };

    fn from(_error: AllocFailed<T>) -> FormError {
        FormError::NoMemory
    }
}
