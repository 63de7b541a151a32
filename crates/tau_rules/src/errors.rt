//! Why the system refuses a call.
use std::alloc::AllocError;
use thiserror::Error;

/// Why a message wasn't delivered (docs/formats.md, "Error types").
#[derive(Clone, Copy, Debug, PartialEq, Eq, Error)]
pub enum DeliverError {
    /// The step at this place took the message out of flight.
    #[error("the message left at step {ended_by}")]
    NotInFlight { ended_by: u32 },
    /// The receiver is in the turn of the Take at this place.
    #[error("the receiver is in the turn of step {turn}")]
    Busy { turn: u32 },
    #[error("out of memory")]
    NoMemory,
}

/// Why the step of an effect wasn't made (docs/formats.md, "Error types").
#[derive(Clone, Copy, Debug, PartialEq, Eq, Error)]
pub enum ActError {
    /// The job's turn isn't open: the step at this place ended it, or, at the length of the trace, no Take stands at the
    /// job's place.
    #[error("the turn ended at step {ended_by}")]
    Stale { ended_by: u32 },
    #[error("out of memory")]
    NoMemory,
}

/// Why a transactor didn't fail (docs/formats.md, "Error types").
#[derive(Clone, Copy, Debug, PartialEq, Eq, Error)]
pub enum FailError {
    /// It ended at this place.
    #[error("the transactor ended at step {place}")]
    Ended { place: u32 },
    #[error("out of memory")]
    NoMemory,
}

/// Why a message wasn't lost (docs/formats.md, "Error types").
#[derive(Clone, Copy, Debug, PartialEq, Eq, Error)]
pub enum LoseError {
    /// The step at this place took the message out of flight.
    #[error("the message left at step {ended_by}")]
    NotInFlight { ended_by: u32 },
    #[error("out of memory")]
    NoMemory,
}

/// Why a message wasn't repeated (docs/formats.md, "Error types").
#[derive(Clone, Copy, Debug, PartialEq, Eq, Error)]
pub enum RepeatError {
    /// The step at this place took the message out of flight.
    #[error("the message left at step {ended_by}")]
    NotInFlight { ended_by: u32 },
    #[error("out of memory")]
    NoMemory,
}

impl From<AllocError> for DeliverError {
    ghost use Rattle.std.specs.Prelude.{◌≡◌};
    ghost use Rattle.tau_rules.specs.declared.errors.DeliverError.TheVariants.{NoMemory};

    ghost from_gives = { λ _ e. e ≡ NoMemory };

    fn from(_error: AllocError) -> DeliverError {
        DeliverError::NoMemory
    }
}

impl From<AllocError> for ActError {
    ghost use Rattle.std.specs.Prelude.{◌≡◌};
    ghost use Rattle.tau_rules.specs.declared.errors.ActError.TheVariants.{NoMemory};

    ghost from_gives = { λ _ e. e ≡ NoMemory };

    fn from(_error: AllocError) -> ActError {
        ActError::NoMemory
    }
}

impl From<AllocError> for FailError {
    ghost use Rattle.std.specs.Prelude.{◌≡◌};
    ghost use Rattle.tau_rules.specs.declared.errors.FailError.TheVariants.{NoMemory};

    ghost from_gives = { λ _ e. e ≡ NoMemory };

    fn from(_error: AllocError) -> FailError {
        FailError::NoMemory
    }
}

impl From<AllocError> for LoseError {
    ghost use Rattle.std.specs.Prelude.{◌≡◌};
    ghost use Rattle.tau_rules.specs.declared.errors.LoseError.TheVariants.{NoMemory};

    ghost from_gives = { λ _ e. e ≡ NoMemory };

    fn from(_error: AllocError) -> LoseError {
        LoseError::NoMemory
    }
}

impl From<AllocError> for RepeatError {
    ghost use Rattle.std.specs.Prelude.{◌≡◌};
    ghost use Rattle.tau_rules.specs.declared.errors.RepeatError.TheVariants.{NoMemory};

    ghost from_gives = { λ _ e. e ≡ NoMemory };

    fn from(_error: AllocError) -> RepeatError {
        RepeatError::NoMemory
    }
}
