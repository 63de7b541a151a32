//! The run of one worker.
ghost use Rattle.std.specs.Prelude.{◌≤◌, IfOk};
ghost use Rattle.tau_value.specs.declared.limits.TheConstants.{STEP_LIMIT};
ghost use Rattle.tau_tree.specs.Sound.{Sound};
ghost use Rattle.tau_legal.specs.Ends.{EndsAt};
ghost use Rattle.tau_book.specs.declared.limits.TheConstants.{JOB_LIMIT};
ghost use Rattle.tau_book.specs.SerialRun.{IsSerialRun};

use crate::{Book, Hand, Ran, make_rest};
use std::alloc::{AllocError, Global};
use tau_tree::Program;
use tau_verdicts::MarkedHearing;

/// The serial run of a program (docs/definitions.md, "Serial run") by one worker with room for 1 to `JOB_LIMIT` jobs, whose
/// words are those of `Pcg32` seeded with `seed`, up to `limit` steps. The error is want of memory.
pub fn run_serially(
    alloc: Global,
    program: &Program,
    jobs: u32,
    seed: u64,
    limit: u32,
) -> Result<Ran, AllocError>
    requires sound { Sound program.now }
    requires some { 1 ≤ jobs }
    requires few { jobs ≤ JOB_LIMIT }
    requires limit { limit ≤ STEP_LIMIT }
    ensures serial { IfOk result (λ r. IsSerialRun program.now jobs seed limit r.trace.run) }
    ensures ends { IfOk result (λ r. EndsAt limit program.now r.trace.run r.is_complete) }
{
    let mut hand = Hand::new(alloc, seed, jobs)?;
    let mut book: Book<'_, MarkedHearing> = Book::open(alloc, program, limit)?;
    make_rest(&mut book, &mut hand)?;
    let is_complete = book.finished().unwrap_or(false);
    Ok(Ran {
        trace: book.into_trace(),
        is_complete,
    })
}
