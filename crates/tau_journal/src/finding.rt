//! Finding the records of a disk.
ghost use Rattle.std.specs.Prelude.{◌≡◌, ◌≤◌, ◌<◌, ◌⊎◌, ℕ, List, IfOk, IfSome, IsErrOf, OnOk, length};
ghost use Rattle.tau_io.specs.Faults.{HasRisen};
ghost use Rattle.tau_journal.specs.Disk.Bytes.{Only};
ghost use Rattle.tau_journal.specs.Disk.Moments.{LeavesOnly};
ghost use Rattle.tau_journal.specs.Records.{HasRecords};
ghost use Rattle.tau_journal.specs.Room.{most_bytes};

use crate::disk::Disk;
use crate::errors::JournalError;
use crate::room::{FULL, MOST_BYTES};
use std::alloc::Global;

/// All bytes of a disk, which is synced first; fault 8 where there are too many.
pub fn read_all<D: Disk>(alloc: Global, disk: &mut D) -> Result<Vec<u8>, JournalError>
    ensures read { IfOk result (λ v. IfSome (D.bytes disk.old) (λ file. v.items ≡ file)) }
    ensures small { IfOk result (λ v. length v.items ≤ most_bytes) }
    ensures only { OnOk result (Only (D.bytes disk.new) (D.images disk.new)) }
    ensures full { (fault at : ℕ) → IsErrOf result (JournalError.Fault fault at)
        → (fault ≡ 8) × IfSome (D.bytes disk.old) (λ file. (at ≡ length file) × (most_bytes < length file)) }
    ensures fits { OnOk result (IfSome (D.bytes disk.old) (λ file. length file ≤ most_bytes)) }
    ensures same { D.bytes disk.new ≡ D.bytes disk.old }
    ensures untouched { LeavesOnly D.moment D.left_since disk.old disk.new (D.images disk.old) }
    ensures disk_fault { IsErrOf result JournalError.DiskFault → HasRisen (D.faults disk.old) (D.faults disk.new) }
    ensures never_falls { D.faults disk.old ≤ D.faults disk.new }
{
    disk.sync()?;
    let size = disk.size()?;
    if size > MOST_BYTES {
        return Err(JournalError::Fault {
            fault: FULL,
            at: size,
        });
    }
    let mut bytes = vec![in alloc; 0; size as usize]?;
    disk.read_at(0, &mut bytes)?;
    Ok(bytes)
}
