//! The command `storm` by what the matches of `clap` say.
ghost use Rattle.std.specs.Prelude.{◌≡◌, IfOk};
ghost use Rattle.clap.specs.Words.{found_of, rows_of};
ghost use Rattle.tau_command.specs.Storms.{question_of, storm_numbers, storm_of};

use crate::matched::{long_number, short_number};
use crate::{Line, TextCommand};
use clap::ArgMatches;
use std::alloc::{AllocError, Global};

/// Which runs a storm makes (docs/formats.md, "Command line"). How many workers make them isn't one of these numbers: nothing that a
/// storm tells depends on it.
#[derive(Clone, Copy, Debug, PartialEq, Eq)]
pub struct StormNumbers {
    /// How many jobs the worker of a run holds at most.
    pub jobs: u32,
    /// The first seed.
    pub seed: u64,
    /// How many seeds there are.
    pub seeds: u32,
    /// The most failures of nodes beside those of the script.
    pub fails: u32,
    /// The most losses of messages.
    pub losses: u32,
    /// The most repeats of messages.
    pub repeats: u32,
    /// Faults come at places that are multiples of this one.
    pub every: u32,
    /// The most steps of a run.
    pub steps: u32,
}

/// What is asked of a storm (docs/formats.md, "Command line").
#[derive(Debug, Drop)]
pub enum Question {
    /// Which outcomes there are.
    Outcomes,
    /// Whether a behaviour holds as a claim at each end.
    Claim {
        /// The name of the behaviour.
        name: Line,
    },
    /// The simplest run with an outcome.
    Show {
        /// The number of the outcome.
        outcome: u32,
    },
}

/// The command `storm` of the matches, unless both a claim and the number of an outcome stand there. The error is want of memory.
pub(crate) fn storm_of(
    alloc: Global,
    matches: &ArgMatches<'_>,
) -> Result<Option<TextCommand>, AllocError>
    ensures { IfOk result (λ c. c ≡ storm_of (rows_of (found_of matches.now))) }
{
    let Some(workers) = short_number(matches, "workers") else {
        return Ok(None);
    };
    let Some(numbers) = storm_numbers(matches) else {
        return Ok(None);
    };
    Ok(question_of(alloc, matches)?.map(|question| TextCommand::Storm {
        workers,
        numbers,
        question,
    }))
}

/// The numbers of the options of `storm`.
fn storm_numbers(matches: &ArgMatches<'_>) -> Option<StormNumbers>
    ensures { result ≡ storm_numbers (rows_of (found_of matches.now)) }
{
    Some(StormNumbers {
        jobs: short_number(matches, "jobs")?,
        seed: long_number(matches, "seed")?,
        seeds: short_number(matches, "seeds")?,
        fails: short_number(matches, "fails")?,
        losses: short_number(matches, "losses")?,
        repeats: short_number(matches, "repeats")?,
        every: short_number(matches, "every")?,
        steps: short_number(matches, "steps")?,
    })
}

/// What is asked of the storm. The error is want of memory.
fn question_of(alloc: Global, matches: &ArgMatches<'_>) -> Result<Option<Question>, AllocError>
    ensures { IfOk result (λ q. q ≡ question_of (rows_of (found_of matches.now))) }
{
    match (matches.get_str("claim"), short_number(matches, "show")) {
        (None, None) => Ok(Some(Question::Outcomes)),
        (Some(name), None) => {
            let name = Line::of(alloc, name)?;
            Ok(Some(Question::Claim { name }))
        }
        (None, Some(outcome)) => Ok(Some(Question::Show { outcome })),
        (Some(_), Some(_)) => Ok(None),
    }
}
