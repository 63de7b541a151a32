//! The run that several workers make of a program.
ghost use Rattle.std.specs.Prelude.{◌≤◌, IfOk};
ghost use Rattle.tau_value.specs.declared.limits.TheConstants.{STEP_LIMIT};
ghost use Rattle.tau_tree.specs.Sound.{Sound};
ghost use Rattle.tau_legal.specs.Ends.{EndsAt};
ghost use Rattle.tau_book.specs.declared.limits.TheConstants.{JOB_LIMIT};

use crate::alone::finish;
use crate::seats::work;
use std::alloc::{AllocError, Global};
use std::sync::Wait;
use std::thread::Threads;
use tau_book::{Book, Gate, Ran};
use tau_seat::SeatBook;
use tau_tree::Program;
use tau_verdicts::MarkedHearing;

/// By how many workers a program is run, each with room for how many jobs, from which seed, and up to how many steps.
#[derive(Clone, Copy)]
pub struct Settings {
    pub workers: u32,
    pub jobs: u32,
    pub seed: u64,
    pub limit: u32,
}

/// A run of a program by at least one worker, each with room for 1 to `JOB_LIMIT` jobs, up to `limit` steps (docs/rules.md,
/// "Workers"). Worker `w`, counted from 0, chooses by the words of `Pcg32` seeded with `seed + w`, wrapping around. Which legal
/// trace comes of it isn't said. The error is want of memory.
///
/// Each worker has a seat with one number at the book (docs/rules.md, "Seats"). The seats are joined, and the book that comes back is of
/// this program and this limit. Where it is finished, it is the answer, also where a worker was short of memory, since others have then
/// finished the run. Where it isn't, every worker was short, and the caller goes on alone, as [`finish`] does.
pub fn run_workers<R: Threads + Wait + Sync, G: Gate + Sync>(
    rt: &R,
    alloc: Global,
    program: &Program,
    settings: Settings,
    gate: &G,
) -> Result<Ran, AllocError>
    requires sound { Sound program.now }
    requires some { 1 ≤ settings.workers }
    requires jobs { 1 ≤ settings.jobs }
    requires few { settings.jobs ≤ JOB_LIMIT }
    requires limit { settings.limit ≤ STEP_LIMIT }
    ensures ends { IfOk result (λ r. EndsAt settings.limit program.now r.trace.run r.is_complete) }
{
    let book: Book<'_, MarkedHearing> = Book::open(alloc, program, settings.limit)?;
    let Ok((table, seat)) = SeatBook::new(alloc, book, settings.workers) else {
        return Err(AllocError);
    };
    let seat = work(rt, alloc, &table, seat, settings, gate)?;
    finish(alloc, table.close(seat), settings.seed, settings.jobs)
}
