//! The faults of inputs.
use crate::InputFault;
use std::alloc::AllocError;
use tau_forms::ProgramError;
use tau_sexpr::FormError;
use tau_steps::StepError;
use thiserror::Error;

/// Why an input has no meaning.
#[derive(Clone, Copy, Debug, PartialEq, Eq, Error)]
pub enum InputError {
    /// The fault with this number, at this place (docs/formats.md, "Input faults").
    #[error("input fault {fault} at {at}")]
    Fault { fault: u8, at: u64 },
    #[error("out of memory")]
    NoMemory,
}

impl From<AllocError> for InputError {
    ghost use Rattle.std.specs.Prelude.{◌≡◌};
    ghost use Rattle.tau_text.specs.declared.errors.InputError.TheVariants.{NoMemory};

    ghost from_gives = { λ _ e. e ≡ NoMemory };

    fn from(_error: AllocError) -> InputError {
        InputError::NoMemory
    }
}

impl From<FormError> for InputError {
    ghost use Rattle.std.specs.Prelude.{◌≡◌};
    ghost use Rattle.tau_text.specs.Errors.{of_form_error};

    ghost from_gives = { λ error e. e ≡ of_form_error error };

    fn from(error: FormError) -> InputError {
        match error {
            FormError::BadByte { at } => InputFault::BadByte.at(at),
            FormError::Unopened { at } => InputFault::Unopened.at(at),
            FormError::Unclosed { at } => InputFault::Unclosed.at(at),
            FormError::BadText { at } => InputFault::BadText.at(at),
            FormError::TooDeep { at } => InputFault::TooDeep.at(at),
            FormError::NoMemory => InputError::NoMemory,
        }
    }
}

impl From<ProgramError> for InputError {
    ghost use Rattle.std.specs.Prelude.{◌≡◌};
    ghost use Rattle.tau_text.specs.Errors.{of_program_error};

    ghost from_gives = { λ error e. e ≡ of_program_error error };

    fn from(error: ProgramError) -> InputError {
        match error {
            ProgramError::Shape { node } => InputFault::ProgramShape.at(node),
            ProgramError::Unknown { node } => InputFault::ProgramUnknown.at(node),
            ProgramError::Twice { node } => InputFault::ProgramTwice.at(node),
            ProgramError::Limit { which } => InputFault::ProgramLimit.at(u64::from(which)),
            ProgramError::NoMemory => InputError::NoMemory,
        }
    }
}

impl From<StepError> for InputError {
    ghost use Rattle.std.specs.Prelude.{◌≡◌};
    ghost use Rattle.tau_text.specs.Errors.{of_step_error};

    ghost from_gives = { λ error e. e ≡ of_step_error error };

    fn from(error: StepError) -> InputError {
        match error {
            StepError::Shape { step } => InputFault::StepShape.at(step),
            StepError::Unknown { step } => InputFault::StepUnknown.at(step),
            StepError::NoMemory => InputError::NoMemory,
        }
    }
}
