//! What can be wrong with the forms of steps.
use std::alloc::AllocError;
use thiserror::Error;

/// Why forms are no steps of a trace; steps count from 0 (docs/formats.md, "Steps").
#[derive(Clone, Copy, Debug, PartialEq, Eq, Error)]
pub enum StepError {
    /// The form isn't of one of the shapes of steps, or there are too many forms.
    #[error("wrong form at step {step}")]
    Shape { step: u64 },
    /// The form has the shape of a step, and something that it names doesn't exist.
    #[error("unknown name at step {step}")]
    Unknown { step: u64 },
    #[error("out of memory")]
    NoMemory,
}

impl From<AllocError> for StepError {
    ghost use Rattle.std.specs.Prelude.{◌≡◌};
    ghost use Rattle.tau_steps.specs.declared.errors.StepError.TheVariants.{NoMemory};

    ghost from_gives = { λ _ e. e ≡ NoMemory };

    fn from(_error: AllocError) -> StepError {
        StepError::NoMemory
    }
}

/// Why a form, or an item of it, isn't read.
#[derive(Clone, Copy, Debug, PartialEq, Eq)]
pub(crate) enum ItemError {
    /// It isn't of the shape that its place allows.
    Shape,
    /// It has the shape, and what it names doesn't exist.
    Unknown,
    NoMemory,
}
