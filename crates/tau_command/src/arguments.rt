//! The simple command by which `clap` reads the words.
ghost use Rattle.std.specs.Prelude.{◌≡◌, IfOk, false};
ghost use Rattle.clap.specs.Words.{app_of, rule_of};
ghost use Rattle.tau_command.specs.Arguments.{tau_command, command_rule, number_rule, workers_rule, jobs_rule, seed_rule, steps_rule, from_rule, to_rule, seeds_rule, fails_rule, losses_rule, repeats_rule, every_rule, claim_rule, show_rule};

use clap::Arg;
use std::alloc::{AllocError, Global};

/// The simple command.
pub fn tau_command<'a>(alloc: Global) -> Result<clap::Command<'a>, AllocError>
    ensures { IfOk result (λ c. app_of c ≡ tau_command) }
{
    clap::Command::new(alloc, "tau")
        .no_binary_name(true)
        .arg(command_argument(alloc))?
        .arg(number_argument(alloc))?
        .arg(workers_argument(alloc))?
        .arg(jobs_argument(alloc))?
        .arg(seed_argument(alloc))?
        .arg(steps_argument(alloc))?
        .arg(from_argument(alloc))?
        .arg(to_argument(alloc))?
        .arg(seeds_argument(alloc))?
        .arg(fails_argument(alloc))?
        .arg(losses_argument(alloc))?
        .arg(repeats_argument(alloc))?
        .arg(every_argument(alloc))?
        .arg(claim_argument(alloc))?
        .arg(show_argument(alloc))
}

fn command_argument<'a>(alloc: Global) -> Arg<'a>
    ensures rule { rule_of result ≡ command_rule }
    ensures local { result.global ≡ false }
{
    Arg::new(alloc, "command").required(true)
}

fn number_argument<'a>(alloc: Global) -> Arg<'a>
    ensures rule { rule_of result ≡ number_rule }
    ensures local { result.global ≡ false }
{
    Arg::new(alloc, "number").value_parser(clap::value_parser!(u64))
}

fn workers_argument<'a>(alloc: Global) -> Arg<'a>
    ensures rule { rule_of result ≡ workers_rule }
    ensures local { result.global ≡ false }
{
    Arg::new(alloc, "workers")
        .long("workers")
        .value_parser(clap::value_parser!(u32).range(1..=32))
        .default_value("4")
}

fn jobs_argument<'a>(alloc: Global) -> Arg<'a>
    ensures rule { rule_of result ≡ jobs_rule }
    ensures local { result.global ≡ false }
{
    Arg::new(alloc, "jobs")
        .long("jobs")
        .value_parser(clap::value_parser!(u32).range(1..=16))
        .default_value("1")
}

fn seed_argument<'a>(alloc: Global) -> Arg<'a>
    ensures rule { rule_of result ≡ seed_rule }
    ensures local { result.global ≡ false }
{
    Arg::new(alloc, "seed")
        .long("seed")
        .value_parser(clap::value_parser!(u64))
        .default_value("0")
}

fn steps_argument<'a>(alloc: Global) -> Arg<'a>
    ensures rule { rule_of result ≡ steps_rule }
    ensures local { result.global ≡ false }
{
    Arg::new(alloc, "steps")
        .long("steps")
        .value_parser(clap::value_parser!(u32).range(0..=200_000))
        .default_value("1000")
}

fn from_argument<'a>(alloc: Global) -> Arg<'a>
    ensures rule { rule_of result ≡ from_rule }
    ensures local { result.global ≡ false }
{
    Arg::new(alloc, "from")
        .long("from")
        .value_parser(clap::value_parser!(u32))
        .default_value("0")
}

fn to_argument<'a>(alloc: Global) -> Arg<'a>
    ensures rule { rule_of result ≡ to_rule }
    ensures local { result.global ≡ false }
{
    Arg::new(alloc, "to")
        .long("to")
        .value_parser(clap::value_parser!(u32))
        .default_value("4294967295")
}

fn seeds_argument<'a>(alloc: Global) -> Arg<'a>
    ensures rule { rule_of result ≡ seeds_rule }
    ensures local { result.global ≡ false }
{
    Arg::new(alloc, "seeds")
        .long("seeds")
        .value_parser(clap::value_parser!(u32).range(1..=1_000_000_000))
        .default_value("100")
}

fn fails_argument<'a>(alloc: Global) -> Arg<'a>
    ensures rule { rule_of result ≡ fails_rule }
    ensures local { result.global ≡ false }
{
    Arg::new(alloc, "fails")
        .long("fails")
        .value_parser(clap::value_parser!(u32).range(0..=16))
        .default_value("1")
}

fn losses_argument<'a>(alloc: Global) -> Arg<'a>
    ensures rule { rule_of result ≡ losses_rule }
    ensures local { result.global ≡ false }
{
    Arg::new(alloc, "losses")
        .long("losses")
        .value_parser(clap::value_parser!(u32).range(0..=16))
        .default_value("0")
}

fn repeats_argument<'a>(alloc: Global) -> Arg<'a>
    ensures rule { rule_of result ≡ repeats_rule }
    ensures local { result.global ≡ false }
{
    Arg::new(alloc, "repeats")
        .long("repeats")
        .value_parser(clap::value_parser!(u32).range(0..=16))
        .default_value("0")
}

fn every_argument<'a>(alloc: Global) -> Arg<'a>
    ensures rule { rule_of result ≡ every_rule }
    ensures local { result.global ≡ false }
{
    Arg::new(alloc, "every")
        .long("every")
        .value_parser(clap::value_parser!(u32).range(1..=200_000))
        .default_value("1")
}

fn claim_argument<'a>(alloc: Global) -> Arg<'a>
    ensures rule { rule_of result ≡ claim_rule }
    ensures local { result.global ≡ false }
{
    Arg::new(alloc, "claim").long("claim")
}

fn show_argument<'a>(alloc: Global) -> Arg<'a>
    ensures rule { rule_of result ≡ show_rule }
    ensures local { result.global ≡ false }
{
    Arg::new(alloc, "show")
        .long("show")
        .value_parser(clap::value_parser!(u32))
}
