//! Making a journal of a program, and the records of its steps.
ghost use Rattle.std.specs.Prelude.{◌≡◌, ◌+◌, ◌<◌, ◌≤◌, [], ◌∷◌, ℕ, List, Some, IfOk, IfSome, IsErrOf, OnOk, length};
ghost use Rattle.tau_io.specs.Faults.{HasRisen};
ghost use Rattle.tau_sexpr.specs.Printing.{printed};
ghost use Rattle.tau_tree.specs.Sound.{Sound};
ghost use Rattle.tau_forms.specs.Printed as forms;
ghost use Rattle.tau_journal.specs.Disk.Bytes.{Only};
ghost use Rattle.tau_journal.specs.Disk.Moments.{LeavesOnly, IsUntouched};
ghost use Rattle.tau_journal.specs.Records.{IsAtRest, TellsRecords};
ghost use Rattle.tau_journal.specs.Found.{IsBlank, IsCreateFault, IsCreateNumber};
ghost use Rattle.tau_journal.specs.Room.{most_bytes, IsFaultOrFailure};
ghost use Rattle.tau_journal.specs.Gates.{gate_of};
ghost use Rattle.tau_run_journal.specs.Standing.{opened, StandsAt, IsBlankOrBegins};

use std::alloc::Global;
use tau_journal::disk::Disk;
use tau_journal::{Journal, JournalError};
use tau_text::program_text;
use tau_tree::Program;

/// Makes a journal of a program, whose one record is the program's text, on a blank disk (docs/journal.md, "Calls"). Fault 7
/// comes where the disk isn't blank, otherwise 8 where it has too many bytes, or would have, and before anything is written;
/// DiskFault only where the disk's count of faults rose.
pub fn create<D: Disk>(
    alloc: Global,
    disk: &mut D,
    program: &Program,
) -> Result<Journal, JournalError>
    requires { Sound program.now }

    // The program's text is the one record, and the disk stands for the program and a run without steps.
    ensures rest { IfOk result (λ j. IsAtRest (D.bytes disk.new) (D.images disk.new) (gate_of j)) }
    ensures created { IfOk result (λ j. IfSome (D.bytes disk.old) (λ _. TellsRecords (D.bytes disk.new) (printed (forms.printed program.now) ∷ []) (gate_of j))) }
    ensures stands { IfOk result (λ j. IfSome (D.bytes disk.old) (λ _. StandsAt (D.bytes disk.new) (gate_of j) program.now (opened program.now))) }
    ensures within { OnOk result (IfSome (D.bytes disk.new) (λ file. length file ≤ most_bytes)) }

    // Where nothing is pending on a blank disk, a crash at any moment leaves a blank disk or the program's text as the one
    // record.
    ensures any_moment { IfSome (D.bytes disk.old) (λ file. IsBlank file → Only (D.bytes disk.old) (D.images disk.old)
        → LeavesOnly D.moment D.left_since disk.old disk.new (IsBlankOrBegins program.now)) }

    ensures fault { (fault at : ℕ) → IsErrOf result (JournalError.Fault fault at)
        → IfSome (D.bytes disk.old) (λ file. IsCreateFault (6 + length (printed (forms.printed program.now))) file fault at) }
    ensures faulty { IfSome (D.bytes disk.old) (λ file. (fault at : ℕ) → IsCreateFault (6 + length (printed (forms.printed program.now))) file fault at
        → IsFaultOrFailure fault at result) }
    ensures among { (fault at : ℕ) → IsErrOf result (JournalError.Fault fault at) → IsCreateNumber fault }

    // After a fault, and whatever is answered where the disk isn't blank, nothing was written.
    ensures unwritten { (fault at : ℕ) → IsErrOf result (JournalError.Fault fault at)
        → IsUntouched D.bytes D.images D.moment D.left_since disk.old disk.new }
    ensures held { IfSome (D.bytes disk.old) (λ file. (¬ IsBlank file)
        → IsUntouched D.bytes D.images D.moment D.left_since disk.old disk.new) }
    ensures disk_fault { IsErrOf result JournalError.DiskFault → HasRisen (D.faults disk.old) (D.faults disk.new) }
    ensures never_falls { D.faults disk.old ≤ D.faults disk.new }
{
    let text = program_text(alloc, program)?;
    Journal::create(alloc, disk, &text)
}
