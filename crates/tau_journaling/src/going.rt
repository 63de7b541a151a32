//! Going on with a run, each step of which is kept before the next is made.
ghost use Rattle.std.specs.Prelude.{◌≡◌, ◌⊎◌, ◌≤◌, ℕ, suc, IfOk, IfSome, IsErrOf, IsFalse, IsTrue, OnOk, length};
ghost use Rattle.tau_io.specs.Faults.{HasRisen};
ghost use Rattle.tau_trace.specs.Run.{Run, len};
ghost use Rattle.tau_journal.specs.Disk.Moments.{LeavesOnly};
ghost use Rattle.tau_journal.specs.Records.{IsAtRest};
ghost use Rattle.tau_journal.specs.Room.{most_bytes};
ghost use Rattle.tau_journal.specs.Gates.{gate_of};
ghost use Rattle.tau_run_journal.specs.Standing.{StandsAt};
ghost use Rattle.tau_book.specs.Books.{IsComplete, IsAtLimit};
ghost use Rattle.tau_book.specs.Onward.{GoesOnFrom};
ghost use Rattle.tau_book.specs.Working.{HasAllJobs, IsAtWork};
ghost use Rattle.tau_journaling.specs.Going.{StandsBetween, HasNoRoom};

use std::alloc::Global;
use tau_book::{Book, Gate, Hand, next_step};
use tau_journal::disk::Disk;
use tau_journal::{Journal, JournalError};
use tau_run_journal::keep_step;
use tau_verdicts::MarkedHearing;

/// Makes steps of a book by its one hand until its run is complete or has as many steps as the limit, and appends each to a
/// journal before the next is made (docs/journal.md, "Going on"). Each evaluation stands between a call of the gate's `enter`
/// and one of its `leave`, for worker 0.
///
/// Fault 8 comes where the disk has no room for the record of the step that was made last, and DiskFault only where the disk's
/// count of faults rose. After an error the journal is given up; it is found again on the disk.
pub fn go_on<'p, G: Gate, D: Disk>(
    alloc: Global,
    book: &mut Book<'p, MarkedHearing>,
    hand: &mut Hand<'p>,
    journal: Journal,
    disk: &mut D,
    gate: &G,
) -> Result<Journal, JournalError>
    requires jobs { HasAllJobs book.old hand.old }
    requires rest { IsAtRest (D.bytes disk.old) (D.images disk.old) (gate_of journal) }

    // Whatever is answered, the run goes on.
    ensures grows { GoesOnFrom book.old book.new }
    ensures size { hand.new.size ≡ hand.old.size }
    ensures finished { OnOk result (IsComplete book.new ⊎ IsAtLimit book.new) }
    ensures works { OnOk result ((seed : ℕ) (start : Run) → IsAtWork seed start book.old hand.old → IsAtWork seed start book.new hand.new) }

    // Where the disk stands for the run, it stands for the longer one, whatever crash comes then.
    ensures rest { IfOk result (λ j. IsAtRest (D.bytes disk.new) (D.images disk.new) (gate_of j)) }
    ensures stands { IfOk result (λ j. StandsAt (D.bytes disk.old) (gate_of journal) book.old.system.program book.old.system.run
        → StandsAt (D.bytes disk.new) (gate_of j) book.old.system.program book.new.system.run) }
    ensures within { OnOk result (IfSome (D.bytes disk.old) (λ file. length file ≤ most_bytes)
        → IfSome (D.bytes disk.new) (λ file. length file ≤ most_bytes)) }

    // A crash at any moment leaves it standing for a run between the two, whatever is answered.
    ensures any_moment { StandsAt (D.bytes disk.old) (gate_of journal) book.old.system.program book.old.system.run
        → LeavesOnly D.moment D.left_since disk.old disk.new (StandsBetween book.old.system.program book.old.system.run book.new.system.run) }

    // Where the disk has no room for the last step, that is the next one of the run.
    ensures fault { (fault at : ℕ) → IsErrOf result (JournalError.Fault fault at) → fault ≡ 8 }
    ensures unkept { (fault at : ℕ) → IsErrOf result (JournalError.Fault fault at) → (seed : ℕ) (start : Run)
        → IsAtWork seed start book.old hand.old → IsAtWork seed start book.new hand.new }
    ensures full { (fault at : ℕ) → IsErrOf result (JournalError.Fault fault at)
        → StandsAt (D.bytes disk.old) (gate_of journal) book.old.system.program book.old.system.run
        → HasNoRoom book.old.system.program book.old.system.run book.new.system.run (D.bytes disk.new) at }
    ensures disk_fault { IsErrOf result JournalError.DiskFault → HasRisen (D.faults disk.old) (D.faults disk.new) }
    ensures never_falls { D.faults disk.old ≤ D.faults disk.new }
{
    let mut journal = journal;
    for _ in 0..book.limit() {
        let (kept, made) = keep_next(alloc, book, hand, journal, disk, gate)?;
        journal = kept;
        if !made {
            return Ok(journal);
        }
    }
    // That its run has no more steps than the limit.
    let _system = book.system();
    Ok(journal)
}

/// Makes the next step and appends it. `false` where there is none to make, since the run is complete or has as many steps as
/// the limit. After an error the run may be a step longer than the journal.
fn keep_next<'p, G: Gate, D: Disk>(
    alloc: Global,
    book: &mut Book<'p, MarkedHearing>,
    hand: &mut Hand<'p>,
    journal: Journal,
    disk: &mut D,
    gate: &G,
) -> Result<(Journal, bool), JournalError>
    requires jobs { HasAllJobs book.old hand.old }
    requires rest { IsAtRest (D.bytes disk.old) (D.images disk.old) (gate_of journal) }
    ensures jobs { OnOk result (HasAllJobs book.new hand.new) }
    ensures grows { GoesOnFrom book.old book.new }
    ensures size { hand.new.size ≡ hand.old.size }
    ensures stepped { IfOk result (λ p. IsTrue p.1 → len book.new.system.run ≡ suc (len book.old.system.run)) }
    ensures over { IfOk result (λ p. IsFalse p.1 → IsComplete book.new ⊎ IsAtLimit book.new) }
    ensures works { OnOk result ((seed : ℕ) (start : Run) → IsAtWork seed start book.old hand.old → IsAtWork seed start book.new hand.new) }
    ensures rest { IfOk result (λ p. IsAtRest (D.bytes disk.new) (D.images disk.new) (gate_of p.0)) }
    ensures stands { IfOk result (λ p. StandsAt (D.bytes disk.old) (gate_of journal) book.old.system.program book.old.system.run
        → StandsAt (D.bytes disk.new) (gate_of p.0) book.old.system.program book.new.system.run) }
    ensures within { OnOk result (IfSome (D.bytes disk.old) (λ file. length file ≤ most_bytes)
        → IfSome (D.bytes disk.new) (λ file. length file ≤ most_bytes)) }
    ensures any_moment { StandsAt (D.bytes disk.old) (gate_of journal) book.old.system.program book.old.system.run
        → LeavesOnly D.moment D.left_since disk.old disk.new (StandsBetween book.old.system.program book.old.system.run book.new.system.run) }
    ensures fault { (fault at : ℕ) → IsErrOf result (JournalError.Fault fault at) → fault ≡ 8 }
    ensures unkept { (fault at : ℕ) → IsErrOf result (JournalError.Fault fault at) → (seed : ℕ) (start : Run)
        → IsAtWork seed start book.old hand.old → IsAtWork seed start book.new hand.new }
    ensures full { (fault at : ℕ) → IsErrOf result (JournalError.Fault fault at)
        → StandsAt (D.bytes disk.old) (gate_of journal) book.old.system.program book.old.system.run
        → HasNoRoom book.old.system.program book.old.system.run book.new.system.run (D.bytes disk.new) at }
    ensures disk_fault { IsErrOf result JournalError.DiskFault → HasRisen (D.faults disk.old) (D.faults disk.new) }
    ensures never_falls { D.faults disk.old ≤ D.faults disk.new }
{
    let made = next_step(book, hand, gate)?;
    if !made {
        return Ok((journal, false));
    }
    let kept = keep_step(journal, alloc, disk, book.system().trace())?;
    Ok((kept, true))
}
