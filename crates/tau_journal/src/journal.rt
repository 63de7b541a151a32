//! A journal that is gone on with.
ghost use Rattle.std.specs.Prelude.{◌≡◌, ◌+◌, ◌≤◌, [], ◌∷◌, ◌++◌, ℕ, List, Some, None, IfOk, IfErr, IfSome, IsErrOf, OnOk, length};
ghost use Rattle.std.specs.Int.{w32, to_le_bytes};
ghost use Rattle.tau_io.specs.Faults.{HasRisen};
ghost use Rattle.tau_journal.specs.Disk.Moments.{LeavesOnly, IsUntouched};
ghost use Rattle.tau_journal.specs.Records.{HasRecords, IsAtRest, TellsRecords, IsBeforeOrAfter, going_on};
ghost use Rattle.tau_journal.specs.Found.{IsBlank, IsBlankOrHas, IsFault, IsCreateFault, IsCreateNumber, IsFindNumber};
ghost use Rattle.tau_journal.specs.Disk.Bytes.{Only};
ghost use Rattle.tau_journal.specs.Room.{most_bytes, too_large, IsTooLarge, IsUnlessSmall, IsFailure, IsFaultOrFailure};

use crate::creating::{blank_size, close_first};
use crate::disk::Disk;
use crate::errors::JournalError;
use crate::finding::read_all;
use crate::records::{Records, scan};
use crate::room::test_room;
use std::alloc::{AllocError, Global};

/// The number of the fault of a disk without a journal.
const BLANK: u8 = 1;

/// The records of a disk, to which more can be appended (`docs/formats.md`, "Journal").
///
/// Contracts see the place of the closed gate behind the records. An error of a call gives the journal up; it can be
/// found again on the disk.
#[derive(Debug, Drop)]
pub struct Journal {
    gate: u64,
    ghost within: { gate ≤ most_bytes },
}

impl Journal {
    ghost use Rattle.tau_journal.specs.Gates.{gate_of};

    /// The place of the closed gate behind the records.
    pub fn gate(&self) -> u64
        ensures { result ≡ gate_of self.now }
    {
        self.gate
    }

    /// Appends a record, which is on the disk when the call answers Ok.
    ///
    /// The record is written behind the closed gate, with a closed gate behind it, and synced; then the gate is opened
    /// by a write of its own, and synced. Fault 8 comes where the disk has too many bytes, or would have, and before
    /// anything is written; DiskFault only where the disk's count of faults rose.
    pub fn append<D: Disk>(
        self,
        alloc: Global,
        disk: &mut D,
        entry: &[u8],
    ) -> Result<Journal, JournalError>
        requires { IsAtRest (D.bytes disk.old) (D.images disk.old) (gate_of self) }

        // The record is there, behind those that were.
        ensures rest { IfOk result (λ j. IsAtRest (D.bytes disk.new) (D.images disk.new) (gate_of j)) }
        ensures appended { IfOk result (λ j. (rs : List (List ℕ)) → TellsRecords (D.bytes disk.old) rs (gate_of self)
            → TellsRecords (D.bytes disk.new) (rs ++ entry.now ∷ []) (gate_of j)) }
        ensures within { OnOk result (IfSome (D.bytes disk.new) (λ file. length file ≤ most_bytes)) }

        // A crash at any moment leaves the records from before, with this one or without, whatever is answered.
        ensures any_moment { (rs : List (List ℕ)) → TellsRecords (D.bytes disk.old) rs (gate_of self)
            → LeavesOnly D.moment D.left_since disk.old disk.new (IsBeforeOrAfter rs entry.now) }

        ensures fault { IfErr result (IsTooLarge (D.bytes disk.old) (gate_of self + 5 + length entry.now + 1)) }
        ensures faulty { IsUnlessSmall (D.bytes disk.old) (gate_of self + 5 + length entry.now + 1) result }

        // After a fault, and whatever is answered where there is no room, nothing was written.
        ensures unwritten { (fault at : ℕ) → IsErrOf result (JournalError.Fault fault at)
            → IsUntouched D.bytes D.images D.moment D.left_since disk.old disk.new }
        ensures full { IfSome (D.bytes disk.old) (λ file. (at : ℕ) → too_large (length file) (gate_of self + 5 + length entry.now + 1) ≡ Some at
            → IsUntouched D.bytes D.images D.moment D.left_since disk.old disk.new) }
        ensures disk_fault { IsErrOf result JournalError.DiskFault → HasRisen (D.faults disk.old) (D.faults disk.new) }
        ensures never_falls { D.faults disk.old ≤ D.faults disk.new }
    {
        test_room(disk, self.gate + 5 + entry.len() as u64 + 1)?;
        self.write_record(alloc, disk, entry)
    }

    /// Makes a journal of one record on a blank disk.
    ///
    /// The disk is synced. Where it has fewer than 6 bytes, a closed gate is written at byte 0 and synced; otherwise byte 0
    /// is a closed gate already. Then the record is appended. Fault 7 comes where the disk isn't blank, otherwise 8 where it
    /// has too many bytes, or would have, and before anything is written; DiskFault only where the disk's count of faults rose.
    pub fn create<D: Disk>(
        alloc: Global,
        disk: &mut D,
        entry: &[u8],
    ) -> Result<Journal, JournalError>
        // The record is there, and no other.
        ensures rest { IfOk result (λ j. IsAtRest (D.bytes disk.new) (D.images disk.new) (gate_of j)) }
        ensures created { IfOk result (λ j. IfSome (D.bytes disk.old) (λ _. TellsRecords (D.bytes disk.new) (entry.now ∷ []) (gate_of j))) }
        ensures within { OnOk result (IfSome (D.bytes disk.new) (λ file. length file ≤ most_bytes)) }

        // Where nothing is pending on a blank disk, a crash at any moment leaves a blank disk or the record, whatever is
        // answered.
        ensures any_moment { IfSome (D.bytes disk.old) (λ file. IsBlank file → Only (D.bytes disk.old) (D.images disk.old)
            → LeavesOnly D.moment D.left_since disk.old disk.new (IsBlankOrHas entry.now)) }

        ensures fault { (fault at : ℕ) → IsErrOf result (JournalError.Fault fault at)
            → IfSome (D.bytes disk.old) (λ file. IsCreateFault (6 + length entry.now) file fault at) }
        ensures faulty { IfSome (D.bytes disk.old) (λ file. (fault at : ℕ) → IsCreateFault (6 + length entry.now) file fault at
            → IsFaultOrFailure fault at result) }
        ensures among { (fault at : ℕ) → IsErrOf result (JournalError.Fault fault at) → IsCreateNumber fault }

        // After a fault, and whatever is answered where the disk isn't blank, nothing was written.
        ensures unwritten { (fault at : ℕ) → IsErrOf result (JournalError.Fault fault at)
            → IsUntouched D.bytes D.images D.moment D.left_since disk.old disk.new }
        ensures held { IfSome (D.bytes disk.old) (λ file. (¬ IsBlank file)
            → IsUntouched D.bytes D.images D.moment D.left_since disk.old disk.new) }
        ensures disk_fault { IsErrOf result JournalError.DiskFault → HasRisen (D.faults disk.old) (D.faults disk.new) }
        ensures never_falls { D.faults disk.old ≤ D.faults disk.new }
    {
        let size = blank_size(disk)?;
        test_room(disk, 6 + entry.len() as u64)?;
        close_first(disk, size)?;
        Journal { gate: 0 }.write_record(alloc, disk, entry)
    }

    /// Appends the record that tells of going on after a stop, as `append` does.
    pub fn mark<D: Disk>(self, alloc: Global, disk: &mut D) -> Result<Journal, JournalError>
        requires { IsAtRest (D.bytes disk.old) (D.images disk.old) (gate_of self) }
        ensures rest { IfOk result (λ j. IsAtRest (D.bytes disk.new) (D.images disk.new) (gate_of j)) }
        ensures appended { IfOk result (λ j. (rs : List (List ℕ)) → TellsRecords (D.bytes disk.old) rs (gate_of self)
            → TellsRecords (D.bytes disk.new) (rs ++ going_on ∷ []) (gate_of j)) }
        ensures within { OnOk result (IfSome (D.bytes disk.new) (λ file. length file ≤ most_bytes)) }
        ensures any_moment { (rs : List (List ℕ)) → TellsRecords (D.bytes disk.old) rs (gate_of self)
            → LeavesOnly D.moment D.left_since disk.old disk.new (IsBeforeOrAfter rs going_on) }
        ensures fault { IfErr result (IsTooLarge (D.bytes disk.old) (gate_of self + 5 + length going_on + 1)) }
        ensures faulty { IsUnlessSmall (D.bytes disk.old) (gate_of self + 5 + length going_on + 1) result }

        // After a fault, and whatever is answered where there is no room, nothing was written.
        ensures unwritten { (fault at : ℕ) → IsErrOf result (JournalError.Fault fault at)
            → IsUntouched D.bytes D.images D.moment D.left_since disk.old disk.new }
        ensures full { IfSome (D.bytes disk.old) (λ file. (at : ℕ) → too_large (length file) (gate_of self + 5 + length going_on + 1) ≡ Some at
            → IsUntouched D.bytes D.images D.moment D.left_since disk.old disk.new) }
        ensures disk_fault { IsErrOf result JournalError.DiskFault → HasRisen (D.faults disk.old) (D.faults disk.new) }
        ensures never_falls { D.faults disk.old ≤ D.faults disk.new }
    {
        self.append(alloc, disk, b"(resumed)\n")
    }

    /// Finds the records of a disk, and writes nothing; there is at least one.
    ///
    /// Fault 8 comes where the disk has too many bytes, then 1 where it is blank, then 2 where a record isn't whole;
    /// DiskFault only where the disk's count of faults rose.
    pub fn find<D: Disk>(alloc: Global, disk: &mut D) -> Result<(Journal, Records), JournalError>
        // The records are those of the bytes, and can be gone on with.
        ensures found { IfOk result (λ p. IfSome (D.bytes disk.old) (HasRecords p.1 (gate_of p.0))) }
        ensures some { IfOk result (λ p. 1 ≤ length p.1) }
        ensures rest { IfOk result (λ p. IsAtRest (D.bytes disk.new) (D.images disk.new) (gate_of p.0)) }

        ensures fault { (fault at : ℕ) → IsErrOf result (JournalError.Fault fault at) → IfSome (D.bytes disk.old) (λ file. IsFault file fault at) }
        ensures faulty { IfSome (D.bytes disk.old) (λ file. (fault at : ℕ) → IsFault file fault at → IsFaultOrFailure fault at result) }
        ensures among { (fault at : ℕ) → IsErrOf result (JournalError.Fault fault at) → IsFindNumber fault }
        ensures same { D.bytes disk.new ≡ D.bytes disk.old }
        ensures untouched { LeavesOnly D.moment D.left_since disk.old disk.new (D.images disk.old) }
        ensures disk_fault { IsErrOf result JournalError.DiskFault → HasRisen (D.faults disk.old) (D.faults disk.new) }
        ensures never_falls { D.faults disk.old ≤ D.faults disk.new }
    {
        let bytes = read_all(alloc, disk)?;
        if bytes.len() < 6 || bytes[0] != 1 {
            return Err(JournalError::Fault {
                fault: BLANK,
                at: 0,
            });
        }
        let (records, gate) = scan(alloc, bytes)?;
        Ok((Journal { gate }, records))
    }

    /// Appends a record for which there is room.
    fn write_record<D: Disk>(
        self,
        alloc: Global,
        disk: &mut D,
        entry: &[u8],
    ) -> Result<Journal, JournalError>
        requires rest { IsAtRest (D.bytes disk.old) (D.images disk.old) (gate_of self) }
        requires small { gate_of self + 5 + length entry.now + 1 ≤ most_bytes }
        requires room { IfSome (D.bytes disk.old) (λ file. length file ≤ most_bytes) }
        ensures rest { IfOk result (λ j. IsAtRest (D.bytes disk.new) (D.images disk.new) (gate_of j)) }
        ensures appended { IfOk result (λ j. (rs : List (List ℕ)) → TellsRecords (D.bytes disk.old) rs (gate_of self)
            → TellsRecords (D.bytes disk.new) (rs ++ entry.now ∷ []) (gate_of j)) }
        ensures within { OnOk result (IfSome (D.bytes disk.new) (λ file. length file ≤ most_bytes)) }
        ensures any_moment { (rs : List (List ℕ)) → TellsRecords (D.bytes disk.old) rs (gate_of self)
            → LeavesOnly D.moment D.left_since disk.old disk.new (IsBeforeOrAfter rs entry.now) }
        ensures no_fault { IfErr result IsFailure }
        ensures disk_fault { IsErrOf result JournalError.DiskFault → HasRisen (D.faults disk.old) (D.faults disk.new) }
        ensures never_falls { D.faults disk.old ≤ D.faults disk.new }
    {
        let body = body_of(alloc, entry)?;
        disk.write_at(self.gate + 1, &body)?;
        disk.sync()?;
        disk.write_at(self.gate, &[1])?;
        disk.sync()?;
        Ok(Journal {
            gate: self.gate + 5 + entry.len() as u64,
        })
    }
}

/// What stands behind the gate of a record: its length, the record, and the next gate, closed.
fn body_of(alloc: Global, entry: &[u8]) -> Result<Vec<u8>, AllocError>
    requires { length entry.now ≤ most_bytes }
    ensures { IfOk result (λ v. v.items ≡ to_le_bytes w32 (length entry.now) ++ (entry.now ++ 0 ∷ [])) }
{
    let mut body = Vec::with_capacity(alloc, entry.len() + 5)?;
    body.extend_from_slice(&(entry.len() as u32).to_le_bytes())?;
    body.extend_from_slice(entry)?;
    body.push(0)?;
    Ok(body)
}
