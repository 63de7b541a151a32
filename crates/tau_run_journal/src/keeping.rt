//! Keeping a run: the records of its steps, and of going on after a stop.
ghost use Rattle.std.specs.Prelude.{◌≡◌, ◌+◌, ◌<◌, ◌≤◌, ℕ, List, Some, IfOk, IfErr, IfSome, IsErrOf, OnOk, length};
ghost use Rattle.tau_io.specs.Faults.{HasRisen};
ghost use Rattle.tau_tree.specs.declared.programs.Program.{Program};
ghost use Rattle.tau_trace.specs.declared.step.Step.{Step};
ghost use Rattle.tau_trace.specs.Run.{Run, len, appended};
ghost use Rattle.tau_journal.specs.Disk.Moments.{LeavesOnly, IsUntouched};
ghost use Rattle.tau_journal.specs.Records.{IsAtRest, going_on};
ghost use Rattle.tau_journal.specs.Room.{most_bytes, too_large, IsTooLarge, IsUnlessSmall};
ghost use Rattle.tau_journal.specs.Gates.{gate_of};
ghost use Rattle.tau_revival.specs.Revival.{IsRevival};
ghost use Rattle.tau_run_journal.specs.Standing.{IsStepText, HasStepText, StandsAt, StandsForEither};

use crate::texts::put_last_text;
use std::alloc::{AllocError, Global};
use tau_journal::disk::Disk;
use tau_journal::{Journal, JournalError};
use tau_trace::Trace;

/// Appends the last step of a trace to a journal that stands for the trace without it (docs/journal.md, "Calls").
///
/// Fault 8 comes where the disk has too many bytes, or would have, and before anything is written; DiskFault only where the
/// disk's count of faults rose.
pub fn keep_step<D: Disk>(
    journal: Journal,
    alloc: Global,
    disk: &mut D,
    trace: &Trace,
) -> Result<Journal, JournalError>
    requires rest { IsAtRest (D.bytes disk.old) (D.images disk.old) (gate_of journal) }
    requires some { 0 < len trace.now.run }

    // Where the disk stands for the run without the step, it stands for the run, whatever crash comes then.
    ensures rest { IfOk result (λ j. IsAtRest (D.bytes disk.new) (D.images disk.new) (gate_of j)) }
    ensures stands { IfOk result (λ j. (P : Program) (T : Run) (s : Step) → trace.now.run ≡ appended T s
        → StandsAt (D.bytes disk.old) (gate_of journal) P T → StandsAt (D.bytes disk.new) (gate_of j) P trace.now.run) }
    ensures within { OnOk result (IfSome (D.bytes disk.new) (λ file. length file ≤ most_bytes)) }

    // A crash at any moment leaves it standing for the run without the step, or with it, whatever is answered.
    ensures any_moment { (P : Program) (T : Run) (s : Step) → trace.now.run ≡ appended T s
        → StandsAt (D.bytes disk.old) (gate_of journal) P T
        → LeavesOnly D.moment D.left_since disk.old disk.new (StandsForEither P T P trace.now.run) }

    // Where a fault is told, the step has a text.
    ensures text { (fault at : ℕ) → IsErrOf result (JournalError.Fault fault at) → (T : Run) (s : Step)
        → trace.now.run ≡ appended T s → HasStepText T s }
    ensures fault { (fault at : ℕ) → IsErrOf result (JournalError.Fault fault at) → (T : Run) (s : Step) (r : List ℕ)
        → trace.now.run ≡ appended T s → IsStepText T s r
        → IsTooLarge (D.bytes disk.old) (gate_of journal + 5 + length r + 1) (JournalError.Fault fault at) }
    ensures faulty { (T : Run) (s : Step) (r : List ℕ) → trace.now.run ≡ appended T s → IsStepText T s r
        → IsUnlessSmall (D.bytes disk.old) (gate_of journal + 5 + length r + 1) result }

    // After a fault nothing was written.
    ensures unwritten { (fault at : ℕ) → IsErrOf result (JournalError.Fault fault at)
        → IsUntouched D.bytes D.images D.moment D.left_since disk.old disk.new }
    ensures disk_fault { IsErrOf result JournalError.DiskFault → HasRisen (D.faults disk.old) (D.faults disk.new) }
    ensures never_falls { D.faults disk.old ≤ D.faults disk.new }
{
    let text = last_text(alloc, trace)?;
    journal.append(alloc, disk, &text)
}

/// Marks a journal, so that it stands for the revival of the program that it stood for (docs/journal.md, "Going on").
pub fn keep_mark<D: Disk>(
    journal: Journal,
    alloc: Global,
    disk: &mut D,
) -> Result<Journal, JournalError>
    requires { IsAtRest (D.bytes disk.old) (D.images disk.old) (gate_of journal) }
    ensures rest { IfOk result (λ j. IsAtRest (D.bytes disk.new) (D.images disk.new) (gate_of j)) }
    ensures stands { IfOk result (λ j. (P Q : Program) (T : Run) → IsRevival P T Q
        → StandsAt (D.bytes disk.old) (gate_of journal) P T → StandsAt (D.bytes disk.new) (gate_of j) Q T) }
    ensures within { OnOk result (IfSome (D.bytes disk.new) (λ file. length file ≤ most_bytes)) }
    ensures any_moment { (P Q : Program) (T : Run) → IsRevival P T Q → StandsAt (D.bytes disk.old) (gate_of journal) P T
        → LeavesOnly D.moment D.left_since disk.old disk.new (StandsForEither P T Q T) }
    ensures fault { IfErr result (IsTooLarge (D.bytes disk.old) (gate_of journal + 5 + length going_on + 1)) }
    ensures faulty { IsUnlessSmall (D.bytes disk.old) (gate_of journal + 5 + length going_on + 1) result }

    // After a fault, and whatever is answered where there is no room, nothing was written.
    ensures unwritten { (fault at : ℕ) → IsErrOf result (JournalError.Fault fault at)
        → IsUntouched D.bytes D.images D.moment D.left_since disk.old disk.new }
    ensures full { IfSome (D.bytes disk.old) (λ file. (at : ℕ) → too_large (length file) (gate_of journal + 5 + length going_on + 1) ≡ Some at
        → IsUntouched D.bytes D.images D.moment D.left_since disk.old disk.new) }
    ensures disk_fault { IsErrOf result JournalError.DiskFault → HasRisen (D.faults disk.old) (D.faults disk.new) }
    ensures never_falls { D.faults disk.old ≤ D.faults disk.new }
{
    journal.mark(alloc, disk)
}

/// The text of the last step of a trace.
fn last_text(alloc: Global, trace: &Trace) -> Result<Vec<u8>, AllocError>
    requires { 0 < len trace.now.run }
    ensures { IfOk result (λ v. (T : Run) (s : Step) → trace.now.run ≡ appended T s → IsStepText T s v.items) }
{
    let mut text = Vec::new(alloc);
    put_last_text(alloc, &mut text, trace)?;
    Ok(text)
}
