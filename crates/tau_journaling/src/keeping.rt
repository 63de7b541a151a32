//! Keeping the run of a program from its beginning.
ghost use Rattle.std.specs.Prelude.{◌≡◌, ◌≤◌, ℕ, List, IfOk, IfSome, IsErrOf};
ghost use Rattle.tau_value.specs.declared.limits.TheConstants.{STEP_LIMIT};
ghost use Rattle.tau_io.specs.Faults.{HasRisen};
ghost use Rattle.tau_tree.specs.Sound.{Sound};
ghost use Rattle.tau_legal.specs.Ends.{EndsAt};
ghost use Rattle.tau_journal.specs.Disk.Bytes.{Only};
ghost use Rattle.tau_journal.specs.Disk.Moments.{LeavesOnly, IsUntouched};
ghost use Rattle.tau_journal.specs.Found.{IsBlank, IsCreateFault, IsCreateNumber};
ghost use Rattle.tau_journal.specs.Room.{IsFaultOrFailure};
ghost use Rattle.tau_book.specs.declared.limits.TheConstants.{JOB_LIMIT};
ghost use Rattle.tau_book.specs.SerialRun.{IsSerialRun};
ghost use Rattle.tau_journaling.specs.Kept.{IsKeptOn, IsBlankOrStands, IsBlankOrFrontOf, IsKeepFault, first_size};

use crate::running::run_on;
use std::alloc::Global;
use tau_book::{
    Book, Gate, Hand, Ran, opened_has_all_jobs, opened_is_at_work, run_after_none_is_serial,
};
use tau_journal::JournalError;
use tau_journal::disk::Disk;
use tau_run_journal::create;
use tau_tree::Program;
use tau_verdicts::MarkedHearing;

/// Makes the serial run of a program (docs/definitions.md, "Serial run") with room for 1 to `JOB_LIMIT` jobs, this seed and at
/// most `limit` steps, and keeps it in a new journal on a blank disk: the program first, and then each step before the next is
/// made (docs/journal.md, "Going on").
///
/// Fault 7 comes where the disk isn't blank, otherwise 8 where it has no room for the program, and both before anything is
/// written; 8 also where it has none for the record of the run's next step. DiskFault comes only where the disk's count of
/// faults rose.
pub fn keep_run<G: Gate, D: Disk>(
    alloc: Global,
    program: &Program,
    jobs: u32,
    seed: u64,
    limit: u32,
    disk: &mut D,
    gate: &G,
) -> Result<Ran, JournalError>
    requires sound { Sound program.now }
    requires some { 1 ≤ jobs }
    requires few { jobs ≤ JOB_LIMIT }
    requires limit { limit ≤ STEP_LIMIT }
    ensures serial { IfOk result (λ r. IsSerialRun program.now jobs seed limit r.trace.run) }
    ensures ends { IfOk result (λ r. EndsAt limit program.now r.trace.run r.is_complete) }

    // The disk then stands for the program and the run, whatever crash comes.
    ensures kept { IfOk result (λ r. IfSome (D.bytes disk.old) (λ _. IsKeptOn (D.bytes disk.new) (D.images disk.new) program.now r.trace.run)) }

    // Where nothing is pending on a blank disk, a crash at any moment leaves a blank disk, or one that stands for the program and
    // a legal run of it, whatever is answered; and where the run was made, a front of it.
    ensures any_moment { IfSome (D.bytes disk.old) (λ file. IsBlank file → Only (D.bytes disk.old) (D.images disk.old)
        → LeavesOnly D.moment D.left_since disk.old disk.new (IsBlankOrStands program.now)) }
    ensures front { IfOk result (λ r. IfSome (D.bytes disk.old) (λ file. IsBlank file → Only (D.bytes disk.old) (D.images disk.old)
        → LeavesOnly D.moment D.left_since disk.old disk.new (IsBlankOrFrontOf program.now r.trace.run))) }

    ensures fault { (fault at : ℕ) → IsErrOf result (JournalError.Fault fault at)
        → IfSome (D.bytes disk.old) (λ file. IsKeepFault program.now jobs seed limit file (D.bytes disk.new) fault at) }
    ensures faulty { IfSome (D.bytes disk.old) (λ file. (fault at : ℕ) → IsCreateFault (first_size program.now) file fault at
        → IsFaultOrFailure fault at result) }
    ensures among { (fault at : ℕ) → IsErrOf result (JournalError.Fault fault at) → IsCreateNumber fault }

    // After fault 7, and whatever is answered where the disk isn't blank, nothing was written.
    ensures unwritten { (at : ℕ) → IsErrOf result (JournalError.Fault 7 at)
        → IsUntouched D.bytes D.images D.moment D.left_since disk.old disk.new }
    ensures held { IfSome (D.bytes disk.old) (λ file. (¬ IsBlank file)
        → IsUntouched D.bytes D.images D.moment D.left_since disk.old disk.new) }
    ensures disk_fault { IsErrOf result JournalError.DiskFault → HasRisen (D.faults disk.old) (D.faults disk.new) }
    ensures never_falls { D.faults disk.old ≤ D.faults disk.new }
{
    opened_is_at_work();
    opened_has_all_jobs();
    run_after_none_is_serial();
    let journal = create(alloc, disk, program)?;
    let book: Book<'_, MarkedHearing> = Book::open(alloc, program, limit)?;
    let hand = Hand::new(alloc, seed, jobs)?;
    run_on(alloc, book, hand, journal, disk, gate)
}
