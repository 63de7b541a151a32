//! Finding what the records of a disk stand for.
ghost use Rattle.std.specs.Prelude.{◌≡◌, ◌≤◌, ℕ, List, IfOk, IfErr, IfSome, IsErrOf, length};
ghost use Rattle.tau_io.specs.Faults.{HasRisen};
ghost use Rattle.tau_tree.specs.declared.programs.Program.{Program};
ghost use Rattle.tau_trace.specs.Run.{Run};
ghost use Rattle.tau_journal.specs.Disk.Moments.{LeavesOnly};
ghost use Rattle.tau_journal.specs.Records.{IsAtRest};
ghost use Rattle.tau_journal.specs.Room.{most_bytes, IsFailure, IsFaultOrFailure};
ghost use Rattle.tau_journal.specs.Gates.{gate_of};
ghost use Rattle.tau_run_journal.specs.Laws.{IsRunOf};
ghost use Rattle.tau_run_journal.specs.Standing.{Stands, StandsAt};
ghost use Rattle.tau_run_journal.specs.Reading.{IsFindFault, IsFindNumber};

use crate::read_records;
use std::alloc::Global;
use tau_journal::disk::Disk;
use tau_journal::{Journal, JournalError};
use tau_trace::Trace;
use tau_tree::Program;

/// What was found on a disk: its journal, and the program and the trace that the records stand for.
#[derive(Drop)]
pub struct Found {
    pub journal: Journal,
    pub program: Program,
    pub trace: Trace,
}

/// Finds what the records of a disk stand for, and writes nothing (docs/journal.md, "Calls"). Whether the steps are legal
/// isn't asked.
///
/// Fault 8 comes where the disk has too many bytes, then 1 where it is blank, 2 where a record isn't whole, 3 where the first
/// record isn't the text of a program, and then the first of 4 and 6, in the order of the records; DiskFault only where the
/// disk's count of faults rose.
pub fn find<D: Disk>(alloc: Global, disk: &mut D) -> Result<Found, JournalError>
    // The records stand for the program and the trace, and can be gone on with.
    ensures stands { IfOk result (λ f. IfSome (D.bytes disk.old) (λ _. StandsAt (D.bytes disk.old) (gate_of f.journal) f.program f.trace.run)) }
    ensures run { IfOk result (λ f. IsRunOf f.program f.trace.run) }
    ensures rest { IfOk result (λ f. IsAtRest (D.bytes disk.new) (D.images disk.new) (gate_of f.journal)) }

    // Where the bytes stand for a program and a run, no fault is told.
    ensures found { IfSome (D.bytes disk.old) (λ file. (P : Program) (T : Run) → length file ≤ most_bytes → Stands file P T → IfErr result IsFailure) }

    ensures fault { (fault at : ℕ) → IsErrOf result (JournalError.Fault fault at) → IfSome (D.bytes disk.old) (λ file. IsFindFault file fault at) }
    ensures faulty { IfSome (D.bytes disk.old) (λ file. (fault at : ℕ) → IsFindFault file fault at → IsFaultOrFailure fault at result) }
    ensures among { (fault at : ℕ) → IsErrOf result (JournalError.Fault fault at) → IsFindNumber fault }
    ensures same { D.bytes disk.new ≡ D.bytes disk.old }
    ensures untouched { LeavesOnly D.moment D.left_since disk.old disk.new (D.images disk.old) }
    ensures disk_fault { IsErrOf result JournalError.DiskFault → HasRisen (D.faults disk.old) (D.faults disk.new) }
    ensures never_falls { D.faults disk.old ≤ D.faults disk.new }
{
    let (journal, records) = Journal::find(alloc, disk)?;
    let standing = read_records(alloc, &records)?;
    match standing.fault {
        None => Ok(Found {
            journal,
            program: standing.program,
            trace: standing.trace,
        }),
        Some(fault) => Err(fault.error()),
    }
}
