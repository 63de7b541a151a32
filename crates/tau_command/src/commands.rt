//! The commands, and the words that name them.
ghost use Rattle.std.specs.Prelude.{◌≡◌, ◌≢◌, None, Some, [], IfOk, IsErrOf};
ghost use Rattle.clap.specs.Words.{fault_of, found_of, matches_of, rows_of};
ghost use Rattle.tau_command.specs.Arguments.{tau_command};
ghost use Rattle.tau_command.specs.Commands.{command_of, IsInRange};

use crate::arguments::tau_command;
use crate::matched::command_matched;
use crate::{Question, StormNumbers, Words};
use clap::ArgMatches;
use clap::error::ErrorKind;
use std::alloc::{AllocError, Global};
use thiserror::Error;

/// A command that makes one text of one input, with its numbers (docs/formats.md, "Command line").
#[derive(Debug, Drop)]
pub enum TextCommand {
    /// Runs a program, and writes its run text.
    Run {
        /// How many workers run the program.
        workers: u32,
        /// How many jobs a worker holds at most.
        jobs: u32,
        /// The seed of the first worker's choices.
        seed: u64,
        /// The most steps that the run does.
        steps: u32,
    },
    /// Tells whether each step of a run text is legal.
    Check,
    /// Tells whether each checkpoint of a run text is safe.
    Audit,
    /// Writes the report of a run text.
    Report,
    /// Prints the forms of a program in printing order.
    Print,
    /// Prints a generated program.
    Gen {
        /// The number of the program.
        number: u64,
    },
    /// Runs a generated program, and tells its steps and counts.
    Drill {
        /// The number of the program, which is the seed too.
        number: u64,
    },
    /// Writes the run text of the same steps in version 2, or tells the first step that isn't legal there.
    Migrate,
    /// Tells the shortest chain to a cause of a Hold, a Drop or a Fall of a run text.
    Why {
        /// The place of the step.
        place: u64,
    },
    /// Tells the greatest set of checkpoints of a run text that could all be kept.
    Cut,
    /// Draws a picture of a run text.
    Draw {
        /// The first place that is drawn.
        from: u32,
        /// The place at which drawing ends; it isn't drawn itself.
        to: u32,
        /// The place of the step of which the picture tells the cause.
        ask: Option<u64>,
    },
    /// Makes the serial runs of many seeds with every placement of so many faults, and tells how they end.
    Storm {
        /// How many workers make the runs.
        workers: u32,
        /// Which runs are made.
        numbers: StormNumbers,
        /// What is asked of them.
        question: Question,
    },
}

/// What the words of a command line ask for (docs/formats.md, "Command line").
#[derive(Debug, Drop)]
pub enum Command {
    /// Runs a program by one worker, keeps each step in a journal before the next is made, and writes the run text.
    Keep {
        /// How many jobs the worker holds at most.
        jobs: u32,
        /// The seed of the worker's choices.
        seed: u64,
        /// The most steps that the run does.
        steps: u32,
    },
    /// Goes on with the run that a journal keeps, and writes its run text.
    Resume {
        /// How many jobs the worker holds at most.
        jobs: u32,
        /// The seed of the worker's choices from here on.
        seed: u64,
        /// The most steps that the run does, those of the journal counted; no fewer than these.
        steps: u32,
    },
    /// Makes one text of one input, or of none, and writes it.
    Text(TextCommand),
}

/// Why words name no command (docs/formats.md, "Error types").
#[derive(Clone, Copy, Debug, PartialEq, Eq, Error)]
pub enum WordsError {
    /// The words aren't those of one command.
    #[error("the words name no command")]
    Words,
    #[error("out of memory")]
    NoMemory,
}

impl From<AllocError> for WordsError {
    ghost use Rattle.std.specs.Prelude.{◌≡◌};
    ghost use Rattle.tau_command.specs.declared.commands.WordsError.TheVariants.{NoMemory};

    ghost from_gives = { λ _ e. e ≡ NoMemory };

    fn from(_error: AllocError) -> WordsError {
        WordsError::NoMemory
    }
}

/// The command that the words of a command line name (docs/formats.md, "Command line").
/// `Words` comes exactly where they name none; want of memory may come in place of each answer.
pub fn read_words(alloc: Global, words: &Words) -> Result<Command, WordsError>
    ensures command { IfOk result (λ c. command_of words.now ≡ Some c) }
    ensures ranges { IfOk result IsInRange }
    ensures words { IsErrOf result WordsError.Words → command_of words.now ≡ None }
{
    let matches = match_words(alloc, words)?;
    let command = command_matched(alloc, &matches)?;
    command.ok_or(WordsError::Words)
}

/// The matches that `clap` has for the words.
fn match_words<'a>(alloc: Global, words: &'a Words) -> Result<ArgMatches<'a>, WordsError>
    ensures matched { IfOk result (λ m. (fault_of tau_command words.entry.now ≡ [])
        × (rows_of (found_of m) ≡ matches_of tau_command words.entry.now)) }
    ensures words { IsErrOf result WordsError.Words → fault_of tau_command words.entry.now ≢ [] }
{
    let command = tau_command(alloc)?;
    match command.try_get_matches_from(words.items()) {
        Ok(matches) => Ok(matches),
        Err(error) => Err(error_of(error.kind())),
    }
}

/// Each failure of `clap` other than want of memory is the words' own.
fn error_of(kind: ErrorKind) -> WordsError
    ensures { result ≡ WordsError.Words → kind ≢ ErrorKind.OutOfMemory }
{
    match kind {
        ErrorKind::OutOfMemory => WordsError::NoMemory,
        _ => WordsError::Words,
    }
}
