//! Reviving a program, and the mark that says so on a disk.
ghost use Rattle.std.specs.Prelude.{◌≡◌, ◌+◌, ◌≤◌, ◌↔◌, ℕ, Some, Err, IfOk, IfSome, IsErrOf, OnOk, length};
ghost use Rattle.tau_io.specs.Faults.{HasRisen};
ghost use Rattle.tau_tree.specs.Sound.{Sound};
ghost use Rattle.tau_legal.specs.Traces.{Legal};
ghost use Rattle.tau_journal.specs.Disk.Moments.{LeavesOnly, IsUntouched};
ghost use Rattle.tau_journal.specs.Records.{IsAtRest, going_on};
ghost use Rattle.tau_journal.specs.Room.{most_bytes, too_large, IsUnlessSmall};
ghost use Rattle.tau_journal.specs.Gates.{gate_of};
ghost use Rattle.tau_revival.specs.Revival.{IsRevival, IsScriptFull, LeadsOn};
ghost use Rattle.tau_run_journal.specs.Standing.{StandsAt};
ghost use Rattle.tau_journaling.specs.Found.Reviving.{StandsForRevival, IsReviveFault};

use std::alloc::Global;
use tau_journal::disk::Disk;
use tau_journal::{Journal, JournalError};
use tau_revival::ReviveError;
use tau_run_journal::keep_mark;
use tau_script::Cursor;
use tau_trace::Trace;
use tau_tree::Program;

/// The number of the fault of a script that has no room.
const SCRIPT_FULL: u8 = 6;

/// A program that was revived, and the journal that says so.
#[derive(Drop)]
pub struct Revived {
    pub journal: Journal,
    pub program: Program,
}

/// Revives the program that a journal stands for by its trace, and by the cursor of its script there, as both were found, and marks the
/// journal, so that it stands for the revival (docs/journal.md, "Going on").
///
/// Fault 6 comes where the script has no room for one entry more for each node, at the number of its entries; otherwise 8
/// where the disk has too many bytes, or would have. Both come before anything is written. DiskFault comes only where the
/// disk's count of faults rose.
pub fn revive<D: Disk>(
    journal: Journal,
    alloc: Global,
    disk: &mut D,
    program: &Program,
    trace: &Trace,
    cursor: Cursor,
) -> Result<Revived, JournalError>
    requires sound { Sound program.now }
    requires cursor { LeadsOn program.now.script trace.now.run cursor }
    requires rest { IsAtRest (D.bytes disk.old) (D.images disk.old) (gate_of journal) }

    // Where the disk stands for the program, it stands for the revival, whatever crash comes then.
    ensures revival { IfOk result (λ r. IsRevival program.now trace.now.run r.program) }
    ensures sound { IfOk result (λ r. Sound r.program) }
    ensures legal { IfOk result (λ r. Legal program.now trace.now.run ↔ Legal r.program trace.now.run) }
    ensures rest { IfOk result (λ r. IsAtRest (D.bytes disk.new) (D.images disk.new) (gate_of r.journal)) }
    ensures stands { IfOk result (λ r. StandsAt (D.bytes disk.old) (gate_of journal) program.now trace.now.run
        → StandsAt (D.bytes disk.new) (gate_of r.journal) r.program trace.now.run) }
    ensures within { OnOk result (IfSome (D.bytes disk.new) (λ file. length file ≤ most_bytes)) }

    // A crash at any moment leaves it standing for the program, or for its revival, whatever is answered.
    ensures any_moment { StandsAt (D.bytes disk.old) (gate_of journal) program.now trace.now.run
        → LeavesOnly D.moment D.left_since disk.old disk.new (StandsForRevival program.now trace.now.run) }

    ensures fault { (fault at : ℕ) → IsErrOf result (JournalError.Fault fault at)
        → IsReviveFault program.now (D.bytes disk.old) (gate_of journal + 5 + length going_on + 1) fault at }
    ensures full { (n : ℕ) → IsScriptFull program.now n → result ≡ Err (JournalError.Fault 6 n) }
    ensures faulty { ((n : ℕ) → ¬ IsScriptFull program.now n) → IsUnlessSmall (D.bytes disk.old) (gate_of journal + 5 + length going_on + 1) result }

    // After a fault, and whatever is answered where there is no room, nothing was written.
    ensures unwritten { (fault at : ℕ) → IsErrOf result (JournalError.Fault fault at)
        → IsUntouched D.bytes D.images D.moment D.left_since disk.old disk.new }
    ensures no_room { IfSome (D.bytes disk.old) (λ file. (at : ℕ) → too_large (length file) (gate_of journal + 5 + length going_on + 1) ≡ Some at
        → IsUntouched D.bytes D.images D.moment D.left_since disk.old disk.new) }
    ensures disk_fault { IsErrOf result JournalError.DiskFault → HasRisen (D.faults disk.old) (D.faults disk.new) }
    ensures never_falls { D.faults disk.old ≤ D.faults disk.new }
{
    let revived = revived_program(alloc, program, trace, cursor)?;
    let marked = keep_mark(journal, alloc, disk)?;
    Ok(Revived {
        journal: marked,
        program: revived,
    })
}

/// The revived program; fault 6 where its script would have too many entries.
fn revived_program(
    alloc: Global,
    program: &Program,
    trace: &Trace,
    mut cursor: Cursor,
) -> Result<Program, JournalError>
    requires sound { Sound program.now }
    requires cursor { LeadsOn program.now.script trace.now.run cursor }
    ensures revival { IfOk result (IsRevival program.now trace.now.run) }
    ensures sound { IfOk result Sound }
    ensures legal { IfOk result (λ q. Legal program.now trace.now.run ↔ Legal q trace.now.run) }
    ensures fault { (fault at : ℕ) → IsErrOf result (JournalError.Fault fault at) → (fault ≡ 6) × IsScriptFull program.now at }
    ensures full { (n : ℕ) → IsScriptFull program.now n → result ≡ Err (JournalError.Fault 6 n) }
    ensures no_disk { IsErrOf result JournalError.DiskFault → ⊥ }
{
    match tau_revival::revive(alloc, program, trace, &mut cursor) {
        Ok(revived) => Ok(revived),
        Err(ReviveError::ScriptFull { entries }) => Err(JournalError::Fault {
            fault: SCRIPT_FULL,
            at: entries,
        }),
        Err(ReviveError::NoMemory) => Err(JournalError::NoMemory),
    }
}
