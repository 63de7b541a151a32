//! Running a book to its end, each step of which is kept.
ghost use Rattle.std.specs.Prelude.{◌≡◌, ◌≤◌, ℕ, IfOk, IfSome, IsErrOf, length};
ghost use Rattle.tau_io.specs.Faults.{HasRisen};
ghost use Rattle.tau_trace.specs.Run.{Run};
ghost use Rattle.tau_legal.specs.Ends.{EndsAt};
ghost use Rattle.tau_journal.specs.Disk.Moments.{LeavesOnly};
ghost use Rattle.tau_journal.specs.Records.{IsAtRest};
ghost use Rattle.tau_journal.specs.Gates.{gate_of};
ghost use Rattle.tau_journal.specs.Room.{most_bytes};
ghost use Rattle.tau_run_journal.specs.Standing.{StandsAt};
ghost use Rattle.tau_book.specs.Onward.{BeginsWith};
ghost use Rattle.tau_book.specs.Working.{HasAllJobs, IsAtWork};
ghost use Rattle.tau_book.specs.Alone.{IsRunAfter};
ghost use Rattle.tau_journaling.specs.Going.{StandsBetween};
ghost use Rattle.tau_journaling.specs.Kept.{IsKeptOn, StandsForLonger, HasNoRoomAfter};

use crate::go_on;
use std::alloc::Global;
use tau_book::{Book, Gate, Hand, Ran};
use tau_journal::disk::Disk;
use tau_journal::{Journal, JournalError};
use tau_legal::legality_is_local;
use tau_run_journal::laws::records_stand_for_runs;
use tau_verdicts::MarkedHearing;

/// Goes on with a book by its one hand as `go_on` does, and answers what was made.
pub(crate) fn run_on<'p, G: Gate, D: Disk>(
    alloc: Global,
    book: Book<'p, MarkedHearing>,
    hand: Hand<'p>,
    journal: Journal,
    disk: &mut D,
    gate: &G,
) -> Result<Ran, JournalError>
    requires jobs { HasAllJobs book hand }
    requires rest { IsAtRest (D.bytes disk.old) (D.images disk.old) (gate_of journal) }
    ensures begins { IfOk result (λ r. BeginsWith book.entry.system.run r.trace.run) }
    ensures ends { IfOk result (λ r. EndsAt book.entry.limit book.entry.system.program r.trace.run r.is_complete) }
    ensures after { IfOk result (λ r. (seed : ℕ) (start : Run) → IsAtWork seed start book.entry hand.entry
        → IsRunAfter book.entry.system.program hand.entry.size seed book.entry.limit start r.trace.run) }
    ensures kept { IfOk result (λ r. StandsAt (D.bytes disk.old) (gate_of journal) book.entry.system.program book.entry.system.run
        → IfSome (D.bytes disk.old) (λ file. length file ≤ most_bytes)
        → IsKeptOn (D.bytes disk.new) (D.images disk.new) book.entry.system.program r.trace.run) }
    ensures any_moment { StandsAt (D.bytes disk.old) (gate_of journal) book.entry.system.program book.entry.system.run
        → LeavesOnly D.moment D.left_since disk.old disk.new (StandsForLonger book.entry.system.program book.entry.system.run) }
    ensures front { IfOk result (λ r. StandsAt (D.bytes disk.old) (gate_of journal) book.entry.system.program book.entry.system.run
        → LeavesOnly D.moment D.left_since disk.old disk.new (StandsBetween book.entry.system.program book.entry.system.run r.trace.run)) }
    ensures fault { (fault at : ℕ) → IsErrOf result (JournalError.Fault fault at) → fault ≡ 8 }
    ensures full { (fault at : ℕ) → IsErrOf result (JournalError.Fault fault at)
        → StandsAt (D.bytes disk.old) (gate_of journal) book.entry.system.program book.entry.system.run
        → (seed : ℕ) → IsAtWork seed book.entry.system.run book.entry hand.entry
        → HasNoRoomAfter book.entry.system.program hand.entry.size seed book.entry.limit book.entry.system.run (D.bytes disk.new) at }
    ensures disk_fault { IsErrOf result JournalError.DiskFault → HasRisen (D.faults disk.old) (D.faults disk.new) }
    ensures never_falls { D.faults disk.old ≤ D.faults disk.new }
{
    records_stand_for_runs();
    legality_is_local();
    let mut book = book;
    let mut hand = hand;
    let gone_on = go_on(alloc, &mut book, &mut hand, journal, disk, gate);
    // That what was made is legal, whatever was answered.
    let _system = book.system();
    let _journal = gone_on?;
    let is_complete = book.finished().unwrap_or(false);
    Ok(Ran {
        trace: book.into_trace(),
        is_complete,
    })
}
