//! How a run ended.
use crate::INPUT_LIMIT;
use std::alloc::AllocError;
use std::fmt;
use tau_io::{ReadError, WriteError};
use tau_text::{InputError, InputFault};

/// How a run ended: the statuses that `tau run` has (docs/formats.md, "Statuses"). It is displayed as its line on standard error.
#[derive(Clone, Copy, PartialEq, Eq)]
pub enum Ended {
    Done,
    Stopped,
    Words,
    Input { fault: u8, at: u64 },
    ReadFault,
    WriteFault,
    NoMemory,
}

impl Ended {
    /// The number with which the process ends.
    pub fn number(self) -> u8 {
        match self {
            Ended::Done => 0,
            Ended::Stopped => 1,
            Ended::Words => 2,
            Ended::Input { .. } => 3,
            Ended::ReadFault => 5,
            Ended::WriteFault => 6,
            Ended::NoMemory => 7,
        }
    }
}

impl From<ReadError> for Ended {
    fn from(error: ReadError) -> Ended {
        match error {
            ReadError::ReadFault => Ended::ReadFault,
            ReadError::TooLong => Ended::Input {
                fault: InputFault::TooLong.number(),
                at: INPUT_LIMIT as u64,
            },
            ReadError::NoMemory => Ended::NoMemory,
        }
    }
}

impl From<InputError> for Ended {
    fn from(error: InputError) -> Ended {
        match error {
            InputError::Fault { fault, at } => Ended::Input { fault, at },
            InputError::NoMemory => Ended::NoMemory,
        }
    }
}

impl From<WriteError> for Ended {
    fn from(error: WriteError) -> Ended {
        match error {
            WriteError::WriteFault => Ended::WriteFault,
            WriteError::NoMemory => Ended::NoMemory,
        }
    }
}

impl From<AllocError> for Ended {
    fn from(_error: AllocError) -> Ended {
        Ended::NoMemory
    }
}

impl fmt::Display for Ended {
    fn fmt<W: fmt::Write>(&self, f: &mut fmt::Formatter<W>) -> fmt::Result {
        match self {
            Ended::Done => Ok(()),
            Ended::Stopped => f.write_str("tau: stopped at the step limit"),
            Ended::Words => f.write_str(
                "tau: usage: tau run|check|audit|report|print|gen N|drill N|migrate|keep|resume|why N|cut|draw",
            ),
            Ended::Input { fault, at } => write!(f, "tau: input fault {fault} at {at}"),
            Ended::ReadFault => f.write_str("tau: reading failed"),
            Ended::WriteFault => f.write_str("tau: writing failed"),
            Ended::NoMemory => f.write_str("tau: out of memory"),
        }
    }
}
