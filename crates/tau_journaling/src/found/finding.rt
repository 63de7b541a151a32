//! Finding the legal run that the records of a disk stand for.
ghost use Rattle.std.specs.Prelude.{◌≡◌, ◌≤◌, ◌↔◌, ℕ, IfOk, IfErr, IfSome, IsErrOf, IsTrue, length};
ghost use Rattle.tau_io.specs.Faults.{HasRisen};
ghost use Rattle.tau_tree.specs.declared.programs.Program.{Program};
ghost use Rattle.tau_trace.specs.Run.{Run};
ghost use Rattle.tau_legal.specs.Traces.{Legal, Complete};
ghost use Rattle.tau_journal.specs.Disk.Moments.{LeavesOnly};
ghost use Rattle.tau_journal.specs.Records.{IsAtRest};
ghost use Rattle.tau_journal.specs.Room.{most_bytes, IsFailure, IsFaultOrFailure};
ghost use Rattle.tau_journal.specs.Gates.{gate_of};
ghost use Rattle.tau_revival.specs.Revival.{LeadsOn};
ghost use Rattle.tau_run_journal.specs.Laws.{IsRunOf};
ghost use Rattle.tau_run_journal.specs.Standing.{Stands, StandsAt};
ghost use Rattle.tau_journaling.specs.Found.Faults.{IsResumeFault, IsResumeNumber};

use crate::found::reading::{FoundRun, legal_run};
use std::alloc::Global;
use tau_journal::disk::Disk;
use tau_journal::{Journal, JournalError};
use tau_revival::laws::revival_keeps_steps;

/// Finds the program and the legal trace that the records of a disk stand for, and writes nothing (docs/journal.md, "Calls").
///
/// Fault 8 comes where the disk has too many bytes, then 1 where it is blank, 2 where a record isn't whole, 3 where the first
/// record isn't the text of a program, and then the first of 4, 5 and 6, in the order of the records; DiskFault only where
/// the disk's count of faults rose. It takes the time of a check of the trace, and besides what goes with the bytes.
pub fn find_legal<D: Disk>(alloc: Global, disk: &mut D) -> Result<FoundRun, JournalError>
    // The records stand for the program and the trace, which is legal, and can be gone on with.
    ensures stands { IfOk result (λ f. IfSome (D.bytes disk.old) (λ _. StandsAt (D.bytes disk.old) (gate_of f.journal) f.program f.trace.run)) }
    ensures run { IfOk result (λ f. IsRunOf f.program f.trace.run) }
    ensures cursor { IfOk result (λ f. LeadsOn f.program.script f.trace.run f.cursor) }
    ensures legal { IfOk result (λ f. Legal f.program f.trace.run) }
    ensures complete { IfOk result (λ f. IsTrue f.complete ↔ Complete f.program f.trace.run) }
    ensures rest { IfOk result (λ f. IsAtRest (D.bytes disk.new) (D.images disk.new) (gate_of f.journal)) }

    // Where the bytes stand for a program and a legal run, no fault is told.
    ensures found { IfSome (D.bytes disk.old) (λ file. (P : Program) (T : Run) → length file ≤ most_bytes → Stands file P T → Legal P T
        → IfErr result IsFailure) }

    ensures fault { (fault at : ℕ) → IsErrOf result (JournalError.Fault fault at) → IfSome (D.bytes disk.old) (λ file. IsResumeFault file fault at) }
    ensures faulty { IfSome (D.bytes disk.old) (λ file. (fault at : ℕ) → IsResumeFault file fault at → IsFaultOrFailure fault at result) }
    ensures among { (fault at : ℕ) → IsErrOf result (JournalError.Fault fault at) → IsResumeNumber fault }
    ensures same { D.bytes disk.new ≡ D.bytes disk.old }
    ensures untouched { LeavesOnly D.moment D.left_since disk.old disk.new (D.images disk.old) }
    ensures disk_fault { IsErrOf result JournalError.DiskFault → HasRisen (D.faults disk.old) (D.faults disk.new) }
    ensures never_falls { D.faults disk.old ≤ D.faults disk.new }
{
    revival_keeps_steps();
    let (journal, records) = Journal::find(alloc, disk)?;
    legal_run(alloc, journal, &records)
}
