//! Why a program isn't revived.
use std::alloc::AllocError;
use thiserror::Error;

/// Why a program isn't revived (docs/journal.md, "Going on").
#[derive(Clone, Copy, Debug, PartialEq, Eq, Error)]
pub enum ReviveError {
    /// With one more entry for each node the script would have more than 4,096; it has this many.
    #[error("no room in a script of {entries} entries")]
    ScriptFull { entries: u64 },
    /// Memory ran out.
    #[error("out of memory")]
    NoMemory,
}

impl From<AllocError> for ReviveError {
    ghost use Rattle.std.specs.Prelude.{◌≡◌};
    ghost use Rattle.tau_revival.specs.declared.errors.ReviveError.TheVariants.{NoMemory};

    ghost from_gives = { λ _ e. e ≡ NoMemory };

    fn from(_error: AllocError) -> ReviveError {
        ReviveError::NoMemory
    }
}
