//! The room of a disk.
ghost use Rattle.std.specs.Prelude.{◌≡◌, ◌≤◌, ℕ, List, None, IfErr, IfSome, IsErrOf, OnOk, length};
ghost use Rattle.tau_io.specs.Faults.{HasRisen};
ghost use Rattle.tau_journal.specs.Disk.Moments.{Elapses};
ghost use Rattle.tau_journal.specs.Room.{too_large, most_bytes, IsTooLarge, IsUnlessSmall};

use crate::disk::Disk;
use crate::errors::JournalError;

/// The most bytes of a disk (`docs/limits.md`).
pub const MOST_BYTES: u64 = 67_108_864;

/// The number of the fault of a disk that is too large.
pub const FULL: u8 = 8;

/// Tests that the disk has at most the most bytes, also once it has `need` of them.
pub fn test_room<D: Disk>(disk: &mut D, need: u64) -> Result<(), JournalError>
    ensures small { OnOk result (need ≤ most_bytes) }
    ensures room { OnOk result (IfSome (D.bytes disk.old) (λ file. too_large (length file) need ≡ None)) }
    ensures fits { OnOk result (IfSome (D.bytes disk.old) (λ file. length file ≤ most_bytes)) }
    ensures fault { IfErr result (IsTooLarge (D.bytes disk.old) need) }
    ensures faulty { IsUnlessSmall (D.bytes disk.old) need result }
    ensures same { D.bytes disk.new ≡ D.bytes disk.old }
    ensures crash { (c : List ℕ) → D.images disk.new c → D.images disk.old c }
    ensures time { Elapses (D.moment disk.old) (D.moment disk.new) (D.left_since disk.old) (D.left_since disk.new) (D.images disk.new) }
    ensures disk_fault { IsErrOf result JournalError.DiskFault → HasRisen (D.faults disk.old) (D.faults disk.new) }
    ensures never_falls { D.faults disk.old ≤ D.faults disk.new }
{
    let size = disk.size()?;
    if size > MOST_BYTES {
        return Err(JournalError::Fault {
            fault: FULL,
            at: size,
        });
    }
    if need > MOST_BYTES {
        return Err(JournalError::Fault {
            fault: FULL,
            at: need,
        });
    }
    Ok(())
}
