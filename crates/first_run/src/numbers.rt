//! The numbers of `run`.
ghost use Rattle.std.specs.Prelude.{◌≤◌, IfOk};
ghost use Rattle.tau_book.specs.declared.limits.TheConstants.{JOB_LIMIT};
ghost use Rattle.tau_value.specs.declared.limits.TheConstants.{STEP_LIMIT};

use crate::ended::Ended;
use std::alloc::Allocator;
use std::env;
use std::rt::Env;
use tau_book::JOB_LIMIT;

/// The most workers of a run (docs/limits.md).
const WORKER_LIMIT: u32 = 32;

/// The most steps of a run (docs/limits.md).
const RUN_LIMIT: u32 = 200_000;

/// The numbers of `run` (docs/formats.md, "Command line").
#[derive(Clone, Copy)]
pub struct Numbers {
    pub workers: u32,
    pub jobs: u32,
    pub seed: u64,
    pub steps: u32,
}

/// The four numbers that the command line has, within their ranges.
pub fn read_numbers<R: Env + Alloc>(rt: &R) -> Result<Numbers, Ended>
    ensures workers { IfOk result (λ n. 1 ≤ n.workers) }
    ensures jobs { IfOk result (λ n. 1 ≤ n.jobs) }
    ensures few { IfOk result (λ n. n.jobs ≤ JOB_LIMIT) }
    ensures steps { IfOk result (λ n. n.steps ≤ STEP_LIMIT) }
{
    let mut words = env::args(rt).map_err(|_| Ended::NoMemory)?.skip(1);
    let workers = number_within(words.next(), 1, WORKER_LIMIT)?;
    let jobs = number_within(words.next(), 1, JOB_LIMIT)?;
    let seed = number_of(words.next())?;
    let steps = number_within(words.next(), 0, RUN_LIMIT)?;
    Ok(Numbers {
        workers,
        jobs,
        seed,
        steps,
    })
}

/// The number that a word spells, which is within these two.
fn number_within<A: Allocator + Drop>(
    word: Option<String<A>>,
    least: u32,
    most: u32,
) -> Result<u32, Ended>
    ensures least { IfOk result (λ n. least ≤ n) }
    ensures most { IfOk result (λ n. n ≤ most) }
{
    let number = number_of(word)?;
    match u32::try_from(number) {
        Ok(number) if least <= number && number <= most => Ok(number),
        _ => Err(Ended::Words),
    }
}

/// The number that a word spells.
fn number_of<A: Allocator + Drop>(word: Option<String<A>>) -> Result<u64, Ended> {
    match word {
        Some(word) => word.as_str().parse::<u64>().map_err(|_| Ended::Words),
        None => Err(Ended::Words),
    }
}
