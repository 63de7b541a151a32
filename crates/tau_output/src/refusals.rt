//! Why a command writes nothing for its input.
use std::alloc::AllocError;
use tau_text::InputError;
use thiserror::Error;

/// What a command wants of its input that this may lack (docs/formats.md, "Statuses").
#[derive(Clone, Copy, Debug, PartialEq, Eq)]
pub enum Wanted {
    /// That the step at this place of the run is one of those that the command may be asked for.
    Step { place: u64 },
    /// That the program has the behaviour that is claimed.
    Behaviour,
    /// That the storm has the outcome that is to be shown.
    Outcome,
}

/// Why a command writes nothing for the bytes of its input (docs/formats.md, "Statuses").
#[derive(Clone, Copy, Debug, PartialEq, Eq, Error)]
pub enum Refusal {
    /// The input has the fault with this number, at this place (docs/formats.md, "Input faults").
    #[error("input fault {fault} at {at}")]
    Fault { fault: u8, at: u64 },
    /// The input lacks what the command wants of it (docs/formats.md, "Statuses").
    #[error("the input lacks what is asked for")]
    Lacking { wanted: Wanted },
    #[error("out of memory")]
    NoMemory,
}

impl From<AllocError> for Refusal {
    ghost use Rattle.std.specs.Prelude.{◌≡◌};
    ghost use Rattle.tau_output.specs.declared.refusals.Refusal.TheVariants.{NoMemory};

    ghost from_gives = { λ _ e. e ≡ NoMemory };

    fn from(_error: AllocError) -> Refusal {
        Refusal::NoMemory
    }
}

impl From<InputError> for Refusal {
    ghost use Rattle.std.specs.Prelude.{◌≡◌};
    ghost use Rattle.tau_output.specs.Refusals.{of_input_error};

    ghost from_gives = { λ error e. e ≡ of_input_error error };

    fn from(error: InputError) -> Refusal {
        match error {
            InputError::Fault { fault, at } => Refusal::Fault { fault, at },
            InputError::NoMemory => Refusal::NoMemory,
        }
    }
}
