//! Runs by workers on a book under a lock.
ghost use Rattle.std.specs.Prelude.{◌≤◌};
ghost use Rattle.tau_value.specs.declared.limits.TheConstants.{STEP_LIMIT};
ghost use Rattle.tau_tree.specs.Sound.{Sound};

use crate::limited::LimitedPlace;
use std::alloc::{AllocError, Global};
use std::sync::Wait;
use std::thread::Threads;
use tau_book::{Book, Hand, Ran};
use tau_tree::Program;
use tau_verdicts::MarkedHearing;
use tau_workers::{LockedBook, OpenGate, Settings, Worker, finish, run};

/// Runs the program by workers on a book under a lock, and by one hand alone where they leave it unfinished. Adds that the run ended, how
/// many of them were short of memory, and whether the run is complete. Where they are to be short, each has one answer, and what the
/// hand makes is told.
pub fn add_locked<R: Threads + Wait + Sync>(
    rt: &R,
    alloc: Global,
    text: &mut String,
    program: &Program,
    settings: Settings,
    are_short: bool,
) -> Result<(), AllocError>
    requires sound { Sound program.now }
    requires some { 1 ≤ settings.jobs }
    requires few { settings.jobs ≤ 16 }
    requires limit { settings.limit ≤ STEP_LIMIT }
{
    let answers = if are_short { 1 } else { u64::MAX };
    let locked = LockedBook::new(Book::open(alloc, program, settings.limit)?);
    let short = work(rt, alloc, &locked, settings, answers);
    let ran = finish(alloc, locked.into_book(), settings.seed, settings.jobs)?;
    let added = add_ran(text, settings.workers, short, &ran, are_short);
    drop(ran);
    added
}

/// Adds how many workers were short of memory, and what was made.
fn add_ran(
    text: &mut String,
    workers: u32,
    short: Result<usize, AllocError>,
    ran: &Ran,
    are_short: bool,
) -> Result<(), AllocError> {
    let short = short?;
    let is_complete = ran.is_complete;
    if are_short {
        let steps = ran.trace.len();
        return writeln!(
            text,
            "{workers} workers under a lock: short: {short}\none hand alone: ended, steps: {steps}, complete: {is_complete}"
        );
    }
    writeln!(
        text,
        "{workers} workers under a lock: ended, short: {short}, complete: {is_complete}"
    )
}

/// Lets workers work on a book under a lock, each with so many answers, until it is finished or all are short of memory. How many are
/// short then.
fn work<'p, R: Threads + Wait + Sync>(
    rt: &R,
    alloc: Global,
    locked: &LockedBook<'p, MarkedHearing>,
    settings: Settings,
    answers: u64,
) -> Result<usize, AllocError>
    requires some { 1 ≤ settings.jobs }
    requires few { settings.jobs ≤ 16 }
{
    let mut workers = make_workers(alloc, locked, settings, answers)?;
    run(rt, workers.as_mut_slice(), &OpenGate);
    let short = workers.iter().filter(|worker| worker.short).count();
    drop(workers);
    Ok(short)
}

/// The workers before their first step.
fn make_workers<'b, 'p>(
    alloc: Global,
    locked: &'b LockedBook<'p, MarkedHearing>,
    settings: Settings,
    answers: u64,
) -> Result<Vec<Worker<'p, LimitedPlace<'b, 'p>>>, AllocError>
    requires some { 1 ≤ settings.jobs }
    requires few { settings.jobs ≤ 16 }
{
    let mut workers = Vec::new(alloc);
    for number in 0..settings.workers {
        workers.push(Worker {
            number,
            place: LimitedPlace { locked, answers },
            hand: Hand::new(alloc, u64::from(number), settings.jobs)?,
            short: false,
        })?;
    }
    Ok(workers)
}
