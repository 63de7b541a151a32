//! The faults of inputs and their numbers.
ghost use Rattle.std.specs.Prelude.{◌≡◌};
ghost use Rattle.tau_text.specs.FaultNumbers.{fault_number};

use crate::InputError;

/// A fault of an input (docs/formats.md, "Input faults").
#[derive(Clone, Copy, Debug, PartialEq, Eq)]
pub enum InputFault {
    BadByte,
    Unopened,
    Unclosed,
    BadText,
    TooDeep,
    ProgramShape,
    ProgramUnknown,
    ProgramTwice,
    ProgramLimit,
    TooLong,
    NoTrace,
    StepShape,
    StepUnknown,
}

impl InputFault {
    /// The number of the fault (docs/formats.md, "Input faults").
    pub fn number(self) -> u8
        ensures { result ≡ fault_number self }
    {
        match self {
            InputFault::BadByte => 1,
            InputFault::Unopened => 2,
            InputFault::Unclosed => 3,
            InputFault::BadText => 4,
            InputFault::TooDeep => 5,
            InputFault::ProgramShape => 6,
            InputFault::ProgramUnknown => 7,
            InputFault::ProgramTwice => 8,
            InputFault::ProgramLimit => 9,
            InputFault::TooLong => 10,
            InputFault::NoTrace => 11,
            InputFault::StepShape => 12,
            InputFault::StepUnknown => 13,
        }
    }

    /// The error that tells the fault at a place.
    pub(crate) fn at(self, at: u64) -> InputError
        ensures { result ≡ InputError.Fault (fault_number self) at }
    {
        InputError::Fault {
            fault: self.number(),
            at,
        }
    }
}
