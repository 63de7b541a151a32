//! Reviving a program, and going on with its run.
ghost use Rattle.std.specs.Prelude.{◌≡◌, ◌≢◌, ◌≤◌, ◌+◌, ◌⊎◌, max, ℕ, IfOk, IfSome, IsErrOf, length};
ghost use Rattle.tau_value.specs.declared.limits.TheConstants.{STEP_LIMIT};
ghost use Rattle.tau_io.specs.Faults.{HasRisen};
ghost use Rattle.tau_tree.specs.Sound.{Sound};
ghost use Rattle.tau_trace.specs.Run.{len};
ghost use Rattle.tau_legal.specs.Traces.{Legal};
ghost use Rattle.tau_legal.specs.Ends.{EndsAt};
ghost use Rattle.tau_journal.specs.Disk.Moments.{LeavesOnly, IsUntouched};
ghost use Rattle.tau_journal.specs.Records.{IsAtRest, going_on};
ghost use Rattle.tau_journal.specs.Room.{most_bytes, IsFaultOrFailure};
ghost use Rattle.tau_journal.specs.Gates.{gate_of};
ghost use Rattle.tau_revival.specs.Revival.{IsRevival, LeadsOn};
ghost use Rattle.tau_book.specs.declared.limits.TheConstants.{JOB_LIMIT};
ghost use Rattle.tau_book.specs.Onward.{BeginsWith};
ghost use Rattle.tau_book.specs.Alone.{IsRunAfter};
ghost use Rattle.tau_run_journal.specs.Standing.{StandsAt};
ghost use Rattle.tau_journaling.specs.Found.Reviving.{IsReviveFault};
ghost use Rattle.tau_journaling.specs.Going.{StandsBetween};
ghost use Rattle.tau_journaling.specs.Kept.{IsKeptOn, StandsForLonger, HasNoRoomAfter};
ghost use Rattle.tau_journaling.specs.Resumed.{StandsForResumed, StandsForFrontOf, IsGoneOnFault};

use crate::Resumed;
use crate::found::{FoundRun, revive};
use crate::running::run_on;
use std::alloc::Global;
use tau_book::{Book, Gate, Hand, Ran, adopted_has_all_jobs, adopted_is_at_work};
use tau_journal::disk::Disk;
use tau_journal::{Journal, JournalError};
use tau_revival::laws::revival_keeps_legality;
use tau_trace::Trace;
use tau_tree::Program;
use tau_verdicts::MarkedHearing;

/// Revives the program that was found, marks its journal, and goes on with its run up to the greater of `steps` and the number of
/// its steps.
pub(crate) fn run_on_revived<G: Gate, D: Disk>(
    alloc: Global,
    found: FoundRun,
    jobs: u32,
    seed: u64,
    steps: u32,
    disk: &mut D,
    gate: &G,
) -> Result<Resumed, JournalError>
    requires some { 1 ≤ jobs }
    requires few { jobs ≤ JOB_LIMIT }
    requires limit { steps ≤ STEP_LIMIT }
    requires sound { Sound found.program }
    requires legal { Legal found.program found.trace.run }
    requires cursor { LeadsOn found.program.script found.trace.run found.cursor }
    requires rest { IsAtRest (D.bytes disk.old) (D.images disk.old) (gate_of found.journal) }
    ensures revival { IfOk result (λ r. IsRevival found.program found.trace.run r.program) }
    ensures sound { IfOk result (λ r. Sound r.program) }
    ensures begins { IfOk result (λ r. BeginsWith found.trace.run r.ran.trace.run) }
    ensures after { IfOk result (λ r. IsRunAfter r.program jobs seed (max steps (len found.trace.run)) found.trace.run r.ran.trace.run) }
    ensures ends { IfOk result (λ r. EndsAt (max steps (len found.trace.run)) r.program r.ran.trace.run r.ran.is_complete) }
    ensures kept { IfOk result (λ r. StandsAt (D.bytes disk.old) (gate_of found.journal) found.program found.trace.run
        → IsKeptOn (D.bytes disk.new) (D.images disk.new) r.program r.ran.trace.run) }
    ensures any_moment { StandsAt (D.bytes disk.old) (gate_of found.journal) found.program found.trace.run
        → LeavesOnly D.moment D.left_since disk.old disk.new (StandsForResumed found.program found.trace.run) }
    ensures front { IfOk result (λ r. StandsAt (D.bytes disk.old) (gate_of found.journal) found.program found.trace.run
        → LeavesOnly D.moment D.left_since disk.old disk.new (StandsForFrontOf r.ran.trace.run)) }
    ensures fault { (fault at : ℕ) → IsErrOf result (JournalError.Fault fault at)
        → StandsAt (D.bytes disk.old) (gate_of found.journal) found.program found.trace.run
        → IsGoneOnFault found.program found.trace.run jobs seed steps (gate_of found.journal) (D.bytes disk.old) (D.bytes disk.new) fault at }
    ensures faulty { (fault at : ℕ) → StandsAt (D.bytes disk.old) (gate_of found.journal) found.program found.trace.run
        → IsReviveFault found.program (D.bytes disk.old) (gate_of found.journal + 5 + length going_on + 1) fault at → IsFaultOrFailure fault at result }
    ensures among { (fault at : ℕ) → IsErrOf result (JournalError.Fault fault at) → (fault ≡ 6) ⊎ (fault ≡ 8) }
    ensures unwritten { (fault at : ℕ) → fault ≢ 8 → IsErrOf result (JournalError.Fault fault at)
        → IsUntouched D.bytes D.images D.moment D.left_since disk.old disk.new }
    ensures stays { (fault at : ℕ) → StandsAt (D.bytes disk.old) (gate_of found.journal) found.program found.trace.run
        → IsReviveFault found.program (D.bytes disk.old) (gate_of found.journal + 5 + length going_on + 1) fault at
        → IsUntouched D.bytes D.images D.moment D.left_since disk.old disk.new }
    ensures disk_fault { IsErrOf result JournalError.DiskFault → HasRisen (D.faults disk.old) (D.faults disk.new) }
    ensures never_falls { D.faults disk.old ≤ D.faults disk.new }
{
    revival_keeps_legality();
    let revived = revive(
        found.journal,
        alloc,
        disk,
        &found.program,
        &found.trace,
        found.cursor,
    )?;
    let limit = steps.max(found.trace.len());
    let ran = run_on_trace(
        alloc,
        &revived.program,
        &found.trace,
        revived.journal,
        jobs,
        seed,
        limit,
        disk,
        gate,
    )?;
    Ok(Resumed {
        program: revived.program,
        ran,
    })
}

/// Goes on with a trace for which a journal stands, with one hand that has the jobs of its open turns.
fn run_on_trace<G: Gate, D: Disk>(
    alloc: Global,
    program: &Program,
    trace: &Trace,
    journal: Journal,
    jobs: u32,
    seed: u64,
    limit: u32,
    disk: &mut D,
    gate: &G,
) -> Result<Ran, JournalError>
    requires some { 1 ≤ jobs }
    requires few { jobs ≤ JOB_LIMIT }
    requires limit { limit ≤ STEP_LIMIT }
    requires within { len trace.now.run ≤ limit }
    requires sound { Sound program.now }
    requires legal { Legal program.now trace.now.run }
    requires rest { IsAtRest (D.bytes disk.old) (D.images disk.old) (gate_of journal) }
    ensures begins { IfOk result (λ r. BeginsWith trace.now.run r.trace.run) }
    ensures after { IfOk result (λ r. IsRunAfter program.now jobs seed limit trace.now.run r.trace.run) }
    ensures ends { IfOk result (λ r. EndsAt limit program.now r.trace.run r.is_complete) }
    ensures kept { IfOk result (λ r. StandsAt (D.bytes disk.old) (gate_of journal) program.now trace.now.run
        → IfSome (D.bytes disk.old) (λ file. length file ≤ most_bytes)
        → IsKeptOn (D.bytes disk.new) (D.images disk.new) program.now r.trace.run) }
    ensures any_moment { StandsAt (D.bytes disk.old) (gate_of journal) program.now trace.now.run
        → LeavesOnly D.moment D.left_since disk.old disk.new (StandsForLonger program.now trace.now.run) }
    ensures front { IfOk result (λ r. StandsAt (D.bytes disk.old) (gate_of journal) program.now trace.now.run
        → LeavesOnly D.moment D.left_since disk.old disk.new (StandsBetween program.now trace.now.run r.trace.run)) }
    ensures fault { (fault at : ℕ) → IsErrOf result (JournalError.Fault fault at) → fault ≡ 8 }
    ensures full { (fault at : ℕ) → IsErrOf result (JournalError.Fault fault at)
        → StandsAt (D.bytes disk.old) (gate_of journal) program.now trace.now.run
        → HasNoRoomAfter program.now jobs seed limit trace.now.run (D.bytes disk.new) at }
    ensures disk_fault { IsErrOf result JournalError.DiskFault → HasRisen (D.faults disk.old) (D.faults disk.new) }
    ensures never_falls { D.faults disk.old ≤ D.faults disk.new }
{
    adopted_is_at_work();
    adopted_has_all_jobs();
    let mut book = Book::resume(alloc, program, trace, limit)?;
    book.adopt()?;
    let hand = Hand::new(alloc, seed, jobs)?;
    run_on(alloc, book, hand, journal, disk, gate)
}
