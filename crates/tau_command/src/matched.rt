//! What the matches of `clap` say.
ghost use Rattle.std.specs.Prelude.{◌≡◌, IfOk};
ghost use Rattle.clap.specs.Words.{found_of, rows_of};
ghost use Rattle.tau_command.specs.Numbers.{number_of};
ghost use Rattle.tau_command.specs.Commands.{command_allowed, command_matched, command_named, draw_of, has_choice_option, has_storm_option, has_window_option, is_from_words, plain_named, run_numbers, run_of, stands, stands_amiss, takes_choices, takes_number, text_named};

use crate::storms::storm_of;
use crate::{Command, TextCommand};
use clap::ArgMatches;
use clap::parser::ValueSource;
use std::alloc::{AllocError, Global};

/// The numbers of the options of `run`.
#[derive(Clone, Copy)]
struct RunNumbers {
    workers: u32,
    jobs: u32,
    seed: u64,
    steps: u32,
}

/// The command of the matches. The error is want of memory.
pub fn command_matched(
    alloc: Global,
    matches: &ArgMatches<'_>,
) -> Result<Option<Command>, AllocError>
    ensures { IfOk result (λ c. c ≡ command_matched (rows_of (found_of matches.now))) }
{
    match matches.get_str("command") {
        Some(name) => command_allowed(alloc, name, matches),
        None => Ok(None),
    }
}

/// The command with this name, where what stands on the line goes with it. The error is want of memory.
fn command_allowed(
    alloc: Global,
    name: &str,
    matches: &ArgMatches<'_>,
) -> Result<Option<Command>, AllocError>
    ensures { IfOk result (λ c. c ≡ command_allowed (rows_of (found_of matches.now)) name.now) }
{
    if stands_amiss(name, matches) {
        Ok(None)
    } else {
        command_named(alloc, name, matches)
    }
}

/// Whether an option stands with a command that it doesn't go with, or a number with one that takes none.
fn stands_amiss(name: &str, matches: &ArgMatches<'_>) -> bool
    ensures { result ≡ stands_amiss name.now (rows_of (found_of matches.now)) }
{
    (has_choice_option(matches) && !takes_choices(name))
        || (has_window_option(matches) && name != "draw")
        || (has_storm_option(matches) && name != "storm")
        || (stands(matches, "number") && !takes_number(name))
}

/// Whether the options of `run` may stand with a command.
fn takes_choices(name: &str) -> bool
    ensures { result ≡ takes_choices name.now }
{
    name == "run" || name == "keep" || name == "resume" || name == "storm"
}

/// Whether a number may stand with a command.
fn takes_number(name: &str) -> bool
    ensures { result ≡ takes_number name.now }
{
    name == "gen" || name == "drill" || name == "why" || name == "draw"
}

/// The command with this name. With `keep` and `resume` the number of workers is read and not used, since one makes the run. The error is
/// want of memory.
fn command_named(
    alloc: Global,
    name: &str,
    matches: &ArgMatches<'_>,
) -> Result<Option<Command>, AllocError>
    ensures { IfOk result (λ c. c ≡ command_named name.now (rows_of (found_of matches.now))) }
{
    match name {
        "keep" => Ok(run_numbers(matches).map(|numbers| Command::Keep {
            jobs: numbers.jobs,
            seed: numbers.seed,
            steps: numbers.steps,
        })),
        "resume" => Ok(run_numbers(matches).map(|numbers| Command::Resume {
            jobs: numbers.jobs,
            seed: numbers.seed,
            steps: numbers.steps,
        })),
        _ => Ok(text_named(alloc, name, matches)?.map(|command| Command::Text(command))),
    }
}

/// The command with this name that makes one text. The error is want of memory.
fn text_named(
    alloc: Global,
    name: &str,
    matches: &ArgMatches<'_>,
) -> Result<Option<TextCommand>, AllocError>
    ensures { IfOk result (λ c. c ≡ text_named name.now (rows_of (found_of matches.now))) }
{
    if name == "storm" {
        storm_of(alloc, matches)
    } else {
        Ok(plain_named(name, matches))
    }
}

/// The command with this name, where it has at most numbers.
fn plain_named(name: &str, matches: &ArgMatches<'_>) -> Option<TextCommand>
    ensures { result ≡ plain_named name.now (rows_of (found_of matches.now)) }
{
    match name {
        "run" => run_of(matches),
        "check" => Some(TextCommand::Check),
        "audit" => Some(TextCommand::Audit),
        "report" => Some(TextCommand::Report),
        "print" => Some(TextCommand::Print),
        "gen" => long_number(matches, "number").map(|number| TextCommand::Gen { number }),
        "drill" => long_number(matches, "number").map(|number| TextCommand::Drill { number }),
        "migrate" => Some(TextCommand::Migrate),
        "why" => long_number(matches, "number").map(|place| TextCommand::Why { place }),
        "cut" => Some(TextCommand::Cut),
        "draw" => draw_of(matches),
        _ => None,
    }
}

/// The command `run` with its four numbers.
fn run_of(matches: &ArgMatches<'_>) -> Option<TextCommand>
    ensures { result ≡ run_of (rows_of (found_of matches.now)) }
{
    run_numbers(matches).map(|numbers| TextCommand::Run {
        workers: numbers.workers,
        jobs: numbers.jobs,
        seed: numbers.seed,
        steps: numbers.steps,
    })
}

/// The numbers of the options of `run`.
fn run_numbers(matches: &ArgMatches<'_>) -> Option<RunNumbers>
    ensures { result ≡ run_numbers (rows_of (found_of matches.now)) }
{
    Some(RunNumbers {
        workers: short_number(matches, "workers")?,
        jobs: short_number(matches, "jobs")?,
        seed: long_number(matches, "seed")?,
        steps: short_number(matches, "steps")?,
    })
}

/// The command `draw` with its window, and the place of the step that is asked for, if one is.
fn draw_of(matches: &ArgMatches<'_>) -> Option<TextCommand>
    ensures { result ≡ draw_of (rows_of (found_of matches.now)) }
{
    Some(TextCommand::Draw {
        from: short_number(matches, "from")?,
        to: short_number(matches, "to")?,
        ask: long_number(matches, "number"),
    })
}

/// Whether an option of `run`, `keep`, `resume` and `storm` stands on the line.
fn has_choice_option(matches: &ArgMatches<'_>) -> bool
    ensures { result ≡ has_choice_option (rows_of (found_of matches.now)) }
{
    stands(matches, "workers")
        || stands(matches, "jobs")
        || stands(matches, "seed")
        || stands(matches, "steps")
}

/// Whether an option of `storm` alone stands on the line.
fn has_storm_option(matches: &ArgMatches<'_>) -> bool
    ensures { result ≡ has_storm_option (rows_of (found_of matches.now)) }
{
    stands(matches, "seeds")
        || stands(matches, "fails")
        || stands(matches, "losses")
        || stands(matches, "repeats")
        || stands(matches, "every")
        || stands(matches, "claim")
        || stands(matches, "show")
}

/// Whether an option of `draw` stands on the line.
fn has_window_option(matches: &ArgMatches<'_>) -> bool
    ensures { result ≡ has_window_option (rows_of (found_of matches.now)) }
{
    stands(matches, "from") || stands(matches, "to")
}

/// Whether an argument stands on the line, so that its value is no default.
fn stands(matches: &ArgMatches<'_>, id: &str) -> bool
    ensures { result ≡ stands id.now (rows_of (found_of matches.now)) }
{
    is_from_words(matches.value_source(id))
}

fn is_from_words(source: Option<ValueSource>) -> bool
    ensures { result ≡ is_from_words source }
{
    matches!(source, Some(ValueSource::CommandLine))
}

/// The number of 32 bits that an argument has.
pub(crate) fn short_number(matches: &ArgMatches<'_>, id: &str) -> Option<u32>
    ensures { result ≡ number_of 32 id.now (rows_of (found_of matches.now)) }
{
    matches.get_one::<u32>(id)
}

/// The number of 64 bits that an argument has.
pub(crate) fn long_number(matches: &ArgMatches<'_>, id: &str) -> Option<u64>
    ensures { result ≡ number_of 64 id.now (rows_of (found_of matches.now)) }
{
    matches.get_one::<u64>(id)
}
