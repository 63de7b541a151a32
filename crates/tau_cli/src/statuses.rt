//! How a command ended.
ghost use Rattle.std.specs.Prelude.{◌≡◌};
ghost use Rattle.tau_cli.specs.Status.{number_of};

use std::alloc::AllocError;
use std::fmt;
use tau_command::WordsError;
use tau_io::ReadError;
use tau_journal::JournalError;
use tau_output::{End, INPUT_LIMIT, Refusal, Wanted};
use tau_points::Point;
use tau_text::{InputError, InputFault};

/// How a command ended (docs/formats.md, "Statuses"). It is displayed as its line on standard error, without the line
/// feed; `Done` is displayed as nothing.
#[derive(Clone, Copy, Debug, PartialEq, Eq)]
pub enum Status {
    /// The whole text was written.
    Done,
    /// The whole text was written, of a run that has as many steps as its limit and isn't complete.
    Stopped,
    /// The words of the command line name no command.
    Words,
    /// The input has a fault, with this number and at this place (docs/formats.md, "Input faults").
    Input {
        fault: u8,
        at: u64,
    },
    /// The whole text was written, of a check or a migration: the step at this place is the first that isn't legal.
    Bad {
        place: u32,
    },
    /// A read failed.
    ReadFault,
    /// A write failed.
    WriteFault,
    NoMemory,
    /// The whole text was written, of an audit: the trace isn't safe. The place of the first Checkpoint whose causal past
    /// holds a rolled-back point, the least such point, and the first place at which it was rolled back.
    Broken {
        checkpoint: u32,
        point: Point,
        fall: u32,
    },
    /// The journal has a fault, with this number and at this place (docs/formats.md, "Journal"); nothing was written.
    Journal {
        fault: u8,
        at: u64,
    },
    /// A call of the disk failed; nothing was written.
    DiskFault,
    /// `why` or `draw` asks in vain for the step at this place of the run; nothing was written.
    Place {
        place: u64,
    },
    /// The whole text was written, of a storm: the claim is broken at an end, whose run text it is.
    Claim,
    /// The program of a storm has no behaviour with the name of the claim; nothing was written.
    NoClaim,
    /// The storm has no outcome with the number that is asked for; nothing was written.
    NoOutcome,
}

/// The number of a status, with which the process ends (docs/formats.md, "Statuses").
pub fn number(status: &Status) -> u8
    ensures { result ≡ number_of status.now }
{
    match status {
        Status::Done => 0,
        Status::Stopped => 1,
        Status::Words => 2,
        Status::Input { .. } => 3,
        Status::Bad { .. } => 4,
        Status::ReadFault => 5,
        Status::WriteFault => 6,
        Status::NoMemory => 7,
        Status::Broken { .. } => 8,
        Status::Journal { .. } => 9,
        Status::DiskFault => 10,
        Status::Place { .. } => 11,
        Status::Claim => 12,
        Status::NoClaim | Status::NoOutcome => 13,
    }
}

impl From<End> for Status {
    ghost use Rattle.std.specs.Prelude.{◌≡◌};
    ghost use Rattle.tau_cli.specs.Status.{of_end};

    ghost from_gives = { λ end s. s ≡ of_end end };

    fn from(end: End) -> Status {
        match end {
            End::Done => Status::Done,
            End::Stopped => Status::Stopped,
            End::Bad { place } => Status::Bad { place },
            End::Broken {
                checkpoint,
                point,
                fall,
            } => Status::Broken {
                checkpoint,
                point,
                fall,
            },
            End::Claimed => Status::Claim,
        }
    }
}

impl From<WordsError> for Status {
    ghost use Rattle.std.specs.Prelude.{◌≡◌};
    ghost use Rattle.tau_cli.specs.Status.{of_words_error};

    ghost from_gives = { λ error s. s ≡ of_words_error error };

    fn from(error: WordsError) -> Status {
        match error {
            WordsError::Words => Status::Words,
            WordsError::NoMemory => Status::NoMemory,
        }
    }
}

impl From<ReadError> for Status {
    ghost use Rattle.std.specs.Prelude.{◌≡◌};
    ghost use Rattle.tau_cli.specs.Status.{of_read_error};

    ghost from_gives = { λ error s. s ≡ of_read_error error };

    fn from(error: ReadError) -> Status {
        match error {
            ReadError::ReadFault => Status::ReadFault,
            ReadError::TooLong => Status::Input {
                fault: InputFault::TooLong.number(),
                at: INPUT_LIMIT as u64,
            },
            ReadError::NoMemory => Status::NoMemory,
        }
    }
}

impl From<InputError> for Status {
    ghost use Rattle.std.specs.Prelude.{◌≡◌};
    ghost use Rattle.tau_cli.specs.Status.{of_input_error};

    ghost from_gives = { λ error s. s ≡ of_input_error error };

    fn from(error: InputError) -> Status {
        match error {
            InputError::Fault { fault, at } => Status::Input { fault, at },
            InputError::NoMemory => Status::NoMemory,
        }
    }
}

impl From<JournalError> for Status {
    ghost use Rattle.std.specs.Prelude.{◌≡◌};
    ghost use Rattle.tau_cli.specs.Status.{of_journal_error};

    ghost from_gives = { λ error s. s ≡ of_journal_error error };

    fn from(error: JournalError) -> Status {
        match error {
            JournalError::Fault { fault, at } => Status::Journal { fault, at },
            JournalError::DiskFault => Status::DiskFault,
            JournalError::NoMemory => Status::NoMemory,
        }
    }
}

impl From<AllocError> for Status {
    ghost use Rattle.std.specs.Prelude.{◌≡◌};
    ghost use Rattle.tau_cli.specs.declared.statuses.Status.TheVariants.{NoMemory};

    ghost from_gives = { λ _ s. s ≡ NoMemory };

    fn from(_error: AllocError) -> Status {
        Status::NoMemory
    }
}

impl From<Refusal> for Status {
    ghost use Rattle.std.specs.Prelude.{◌≡◌};
    ghost use Rattle.tau_cli.specs.Status.{of_refusal};

    ghost from_gives = { λ refusal s. s ≡ of_refusal refusal };

    fn from(refusal: Refusal) -> Status {
        match refusal {
            Refusal::Fault { fault, at } => Status::Input { fault, at },
            Refusal::Lacking { wanted } => Status::from(wanted),
            Refusal::NoMemory => Status::NoMemory,
        }
    }
}

impl From<Wanted> for Status {
    ghost use Rattle.std.specs.Prelude.{◌≡◌};
    ghost use Rattle.tau_cli.specs.Status.{of_wanted};

    ghost from_gives = { λ wanted s. s ≡ of_wanted wanted };

    fn from(wanted: Wanted) -> Status {
        match wanted {
            Wanted::Step { place } => Status::Place { place },
            Wanted::Behaviour => Status::NoClaim,
            Wanted::Outcome => Status::NoOutcome,
        }
    }
}

impl fmt::Display for Status {
    ghost use Rattle.std.specs.Prelude.{Some};
    ghost use Rattle.tau_cli.specs.Status.{line_of};

    ghost output = { λ s. Some (line_of s) };

    fn fmt<W: fmt::Write>(&self, f: &mut fmt::Formatter<W>) -> fmt::Result {
        match self {
            Status::Done => Ok(()),
            Status::Stopped => f.write_str("tau: stopped at the step limit"),
            Status::Words => f.write_str(
                "tau: usage: tau run|check|audit|report|print|gen N|drill N|migrate|keep|resume|why N|cut|draw|storm",
            ),
            Status::Input { fault, at } => write!(f, "tau: input fault {fault} at {at}"),
            Status::Bad { .. } => f.write_str("tau: a step is not legal"),
            Status::ReadFault => f.write_str("tau: reading failed"),
            Status::WriteFault => f.write_str("tau: writing failed"),
            Status::NoMemory => f.write_str("tau: out of memory"),
            Status::Broken { .. } => f.write_str("tau: a checkpoint is not safe"),
            Status::Journal { fault, at } => write!(f, "tau: journal fault {fault} at {at}"),
            Status::DiskFault => f.write_str("tau: the disk failed"),
            Status::Place { place } => write!(f, "tau: no such decision at {place}"),
            Status::Claim => f.write_str("tau: the claim is broken"),
            Status::NoClaim => f.write_str("tau: no such claim"),
            Status::NoOutcome => f.write_str("tau: no such outcome"),
        }
    }
}
