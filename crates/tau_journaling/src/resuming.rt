//! Going on with the run for which a disk stands.
ghost use Rattle.std.specs.Prelude.{◌≡◌, ◌≢◌, ◌≤◌, ℕ, List, IfOk, IfSome, IsErrOf, length};
ghost use Rattle.tau_value.specs.declared.limits.TheConstants.{STEP_LIMIT};
ghost use Rattle.tau_io.specs.Faults.{HasRisen};
ghost use Rattle.tau_tree.specs.declared.programs.Program.{Program};
ghost use Rattle.tau_trace.specs.Run.{Run};
ghost use Rattle.tau_legal.specs.Traces.{Legal, Complete};
ghost use Rattle.tau_journal.specs.Disk.Bytes.{Only};
ghost use Rattle.tau_journal.specs.Disk.Moments.{LeavesOnly, IsUntouched};
ghost use Rattle.tau_journal.specs.Room.{most_bytes, IsFaultOrFailure};
ghost use Rattle.tau_book.specs.declared.limits.TheConstants.{JOB_LIMIT};
ghost use Rattle.tau_run_journal.specs.Standing.{Stands};
ghost use Rattle.tau_journaling.specs.Found.Faults.{IsResumeFault, IsResumeNumber};
ghost use Rattle.tau_journaling.specs.Kept.{IsKeptOn};
ghost use Rattle.tau_journaling.specs.Resumed.{IsResumed, StandsForResumed, StandsForFrontOf, IsUnrevived, IsResumeRunFault};

use crate::found::find_legal;
use crate::reviving::run_on_revived;
use std::alloc::Global;
use tau_book::{Gate, Ran};
use tau_journal::JournalError;
use tau_journal::disk::Disk;
use tau_journal::laws::records_are_unique;
use tau_run_journal::laws::bytes_stand_for_one_run;
use tau_tree::Program;

/// What came of going on with a run: the program for which the disk stands then, and its run.
#[derive(Drop)]
pub struct Resumed {
    pub program: Program,
    pub ran: Ran,
}

/// Finds the run for which a disk stands. Where it is complete, that is the answer. Where it isn't, the program is revived and
/// the journal marked, and one hand, with room for 1 to `JOB_LIMIT` jobs and this seed, goes on with the run, each step of which is
/// kept before the next is made (docs/journal.md, "Going on"). The run has then at most as many steps as the greater of `steps` and
/// the number that were found.
///
/// Faults 8 and 1 to 5 come as of `find_legal`, then 6 and 8 as of `revive`, and all of these before anything is written; 8 also
/// where the disk has no room for the record of the run's next step. DiskFault comes only where the disk's count of faults
/// rose.
pub fn resume_run<G: Gate, D: Disk>(
    alloc: Global,
    jobs: u32,
    seed: u64,
    steps: u32,
    disk: &mut D,
    gate: &G,
) -> Result<Resumed, JournalError>
    requires some { 1 ≤ jobs }
    requires few { jobs ≤ JOB_LIMIT }
    requires limit { steps ≤ STEP_LIMIT }
    ensures resumed { IfOk result (λ r. IsResumed (D.bytes disk.old) jobs seed steps r.program r.ran.trace.run r.ran.is_complete) }

    // The disk then stands for the program and the run, whatever crash comes. Where the run that it stood for was complete, nothing was
    // written, whatever is answered.
    ensures kept { IfOk result (λ r. IfSome (D.bytes disk.old) (λ _. IsKeptOn (D.bytes disk.new) (D.images disk.new) r.program r.ran.trace.run)) }
    ensures stays { IfSome (D.bytes disk.old) (λ file. (P : Program) (T : Run) → Stands file P T → Legal P T → Complete P T
        → IsUntouched D.bytes D.images D.moment D.left_since disk.old disk.new) }

    // Where nothing is pending, a crash at any moment leaves it standing for the program, or for its revival, and a legal run that begins
    // with the one that it stood for, whatever is answered; and where the run was gone on with, a front of that.
    ensures any_moment { IfSome (D.bytes disk.old) (λ file. Only (D.bytes disk.old) (D.images disk.old)
        → (P : Program) (T : Run) → Stands file P T → Legal P T
        → LeavesOnly D.moment D.left_since disk.old disk.new (StandsForResumed P T)) }
    ensures front { IfOk result (λ r. IfSome (D.bytes disk.old) (λ file. Only (D.bytes disk.old) (D.images disk.old)
        → LeavesOnly D.moment D.left_since disk.old disk.new (StandsForFrontOf r.ran.trace.run))) }

    ensures fault { (fault at : ℕ) → IsErrOf result (JournalError.Fault fault at)
        → IfSome (D.bytes disk.old) (λ file. IsResumeRunFault jobs seed steps file (D.bytes disk.new) fault at) }
    ensures faulty { IfSome (D.bytes disk.old) (λ file. (fault at : ℕ) → IsResumeFault file fault at → IsFaultOrFailure fault at result) }
    ensures unrevived { IfSome (D.bytes disk.old) (λ file. (fault at : ℕ) → length file ≤ most_bytes → IsUnrevived file fault at
        → IsFaultOrFailure fault at result) }
    ensures among { (fault at : ℕ) → IsErrOf result (JournalError.Fault fault at) → IsResumeNumber fault }

    // After each fault but 8, and whatever is answered where nothing is found to go on with or the program isn't revived, nothing was
    // written.
    ensures unwritten { (fault at : ℕ) → fault ≢ 8 → IsErrOf result (JournalError.Fault fault at)
        → IsUntouched D.bytes D.images D.moment D.left_since disk.old disk.new }
    ensures stays_faulty { IfSome (D.bytes disk.old) (λ file. (fault at : ℕ) → IsResumeFault file fault at
        → IsUntouched D.bytes D.images D.moment D.left_since disk.old disk.new) }
    ensures stays_unrevived { IfSome (D.bytes disk.old) (λ file. (fault at : ℕ) → length file ≤ most_bytes → IsUnrevived file fault at
        → IsUntouched D.bytes D.images D.moment D.left_since disk.old disk.new) }
    ensures disk_fault { IsErrOf result JournalError.DiskFault → HasRisen (D.faults disk.old) (D.faults disk.new) }
    ensures never_falls { D.faults disk.old ≤ D.faults disk.new }
{
    records_are_unique();
    bytes_stand_for_one_run();
    let found = find_legal(alloc, disk)?;
    if found.complete {
        let ran = Ran {
            trace: found.trace,
            is_complete: true,
        };
        return Ok(Resumed {
            program: found.program,
            ran,
        });
    }
    run_on_revived(alloc, found, jobs, seed, steps, disk, gate)
}
