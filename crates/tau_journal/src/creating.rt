//! Making a journal on a blank disk.
ghost use Rattle.std.specs.Prelude.{◌≡◌, ◌≤◌, ◌<◌, [], ℕ, List, IfOk, IfSome, IsErrOf, OnOk, length};
ghost use Rattle.tau_io.specs.Faults.{HasRisen};
ghost use Rattle.tau_journal.specs.Disk.Bytes.{Only};
ghost use Rattle.tau_journal.specs.Disk.Moments.{LeavesOnly};
ghost use Rattle.tau_journal.specs.Records.{IsAtRest, TellsRecords};
ghost use Rattle.tau_journal.specs.Found.{IsBlank};
ghost use Rattle.tau_journal.specs.Room.{most_bytes};

use crate::disk::Disk;
use crate::errors::JournalError;

/// The number of the fault of a disk that isn't blank.
const HELD: u8 = 7;

/// The size of a blank disk, which is synced first; fault 7 where it isn't blank.
pub fn blank_size<D: Disk>(disk: &mut D) -> Result<u64, JournalError>
    ensures size { IfOk result (λ n. IfSome (D.bytes disk.old) (λ file. n ≡ length file)) }
    ensures blank { OnOk result (IfSome (D.bytes disk.old) IsBlank) }
    ensures only { OnOk result (Only (D.bytes disk.new) (D.images disk.new)) }
    ensures held { (fault at : ℕ) → IsErrOf result (JournalError.Fault fault at)
        → (fault ≡ 7) × (at ≡ 0) × IfSome (D.bytes disk.old) (λ file. ¬ IsBlank file) }
    ensures same { D.bytes disk.new ≡ D.bytes disk.old }
    ensures untouched { LeavesOnly D.moment D.left_since disk.old disk.new (D.images disk.old) }
    ensures crash { (c : List ℕ) → D.images disk.new c → D.images disk.old c }
    ensures disk_fault { IsErrOf result JournalError.DiskFault → HasRisen (D.faults disk.old) (D.faults disk.new) }
    ensures never_falls { D.faults disk.old ≤ D.faults disk.new }
{
    disk.sync()?;
    let size = disk.size()?;
    if size >= 6 {
        let mut first = [0];
        disk.read_at(0, &mut first)?;
        if first[0] == 1 {
            return Err(JournalError::Fault { fault: HELD, at: 0 });
        }
    }
    Ok(size)
}

/// Closes the first gate of a blank disk of `size` bytes; where there are 6 or more, it is closed.
pub fn close_first<D: Disk>(disk: &mut D, size: u64) -> Result<(), JournalError>
    requires blank { IfSome (D.bytes disk.old) IsBlank }
    requires size { IfSome (D.bytes disk.old) (λ file. size ≡ length file) }
    requires only { Only (D.bytes disk.old) (D.images disk.old) }
    requires room { IfSome (D.bytes disk.old) (λ file. length file ≤ most_bytes) }
    ensures rest { OnOk result (IsAtRest (D.bytes disk.new) (D.images disk.new) 0) }
    ensures empty { OnOk result (IfSome (D.bytes disk.old) (λ _. TellsRecords (D.bytes disk.new) [] 0)) }
    ensures room { OnOk result (IfSome (D.bytes disk.new) (λ file. length file ≤ most_bytes)) }
    ensures any_moment { IfSome (D.bytes disk.old) (λ _. LeavesOnly D.moment D.left_since disk.old disk.new IsBlank) }
    ensures no_fault { (fault at : ℕ) → IsErrOf result (JournalError.Fault fault at) → ⊥ }
    ensures disk_fault { IsErrOf result JournalError.DiskFault → HasRisen (D.faults disk.old) (D.faults disk.new) }
    ensures never_falls { D.faults disk.old ≤ D.faults disk.new }
{
    if size < 6 {
        disk.write_at(0, &[0])?;
        disk.sync()?;
    }
    Ok(())
}
