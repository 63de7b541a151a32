//! What a disk is.
ghost use Rattle.std.specs.Prelude.{◌≡◌, ◌+◌, ◌≤◌, ℕ, List, Option, length, IfOk, IfSome, OnOk, IsErrOf};
ghost use Rattle.tau_io.specs.Faults.{HasRisen};
ghost use Rattle.tau_journal.specs.Disk.Bytes.{Writes, Reads, Torn, Follows, Only};
ghost use Rattle.tau_journal.specs.Disk.Moments.{Elapses};

use std::alloc::AllocError;
use thiserror::Error;

/// Why a call of a disk gave no answer (`docs/rules.md`, "Disks").
#[derive(Clone, Copy, Debug, PartialEq, Eq, Error)]
pub enum DiskError {
    /// The call failed.
    #[error("the disk failed")]
    Failed,
    /// Memory ran out.
    #[error("out of memory")]
    NoMemory,
}

impl From<AllocError> for DiskError {
    ghost use Rattle.std.specs.Prelude.{◌≡◌};
    ghost use Rattle.tau_journal.specs.declared.disk.disks.DiskError.TheVariants.{NoMemory};

    ghost from_gives = { λ _ e. e ≡ NoMemory };

    fn from(_error: AllocError) -> DiskError {
        DiskError::NoMemory
    }
}

/// A disk: bytes that outlive a crash once they are synced (`docs/rules.md`, "Disks").
///
/// Contracts see the bytes that a read gives, where the disk tells them; the images, which are the lists of bytes that
/// a crash may leave; and the count of faults. A crash may come at any moment, also within a call.
pub trait Disk {
    /// The bytes that a read gives, where the disk tells them.
    ghost bytes: { Self → Option (List ℕ) };

    /// The images of this moment.
    ghost images: { Self → List ℕ → Type 0 };

    /// The moment, as a number that doesn't fall.
    ghost moment: { Self → ℕ };

    /// The images of the moments from that one on, during calls and between them.
    ghost left_since: { Self → ℕ → List ℕ → Type 0 };

    /// The count of faults.
    ghost faults: { Self → ℕ };

    /// How many bytes there are.
    fn size(&mut self) -> Result<u64, DiskError>
        ensures size { IfOk result (λ n. IfSome (bytes self.old) (λ b. n ≡ length b)) }
        ensures same { bytes self.new ≡ bytes self.old }
        ensures crash { (c : List ℕ) → images self.new c → images self.old c }
        ensures time { Elapses (moment self.old) (moment self.new) (left_since self.old) (left_since self.new) (images self.new) }
        ensures failed { IsErrOf result DiskError.Failed → HasRisen (faults self.old) (faults self.new) }
        ensures never_falls { faults self.old ≤ faults self.new };

    /// Reads the bytes from `at` on into the whole of `into`. After an error nothing is said of `into`.
    fn read_at(&mut self, at: u64, into: &mut [u8]) -> Result<(), DiskError>
        requires { IfSome (bytes self.old) (λ b. at + length into.old ≤ length b) }
        ensures read { OnOk result (Reads (bytes self.old) at into.new) }
        ensures same { bytes self.new ≡ bytes self.old }
        ensures crash { (c : List ℕ) → images self.new c → images self.old c }
        ensures time { Elapses (moment self.old) (moment self.new) (left_since self.old) (left_since self.new) (images self.new) }
        ensures failed { IsErrOf result DiskError.Failed → HasRisen (faults self.old) (faults self.new) }
        ensures never_falls { faults self.old ≤ faults self.new };

    /// Writes over the bytes from `at` on, and past the end. Until a sync succeeds, a crash may leave any bytes in the
    /// range that was written, also where the write failed.
    fn write_at(&mut self, at: u64, from: &[u8]) -> Result<(), DiskError>
        requires { IfSome (bytes self.old) (λ b. at ≤ length b) }
        ensures written { OnOk result (Writes (bytes self.old) at from.now (bytes self.new)) }
        ensures crash { Follows (Torn at (length from.now)) (images self.old) (images self.new) }
        ensures untouched { IsErrOf result DiskError.NoMemory → bytes self.new ≡ bytes self.old }
        ensures untorn { IsErrOf result DiskError.NoMemory → (c : List ℕ) → images self.new c → images self.old c }
        ensures time { Elapses (moment self.old) (moment self.new) (left_since self.old) (left_since self.new) (images self.new) }
        ensures failed { IsErrOf result DiskError.Failed → HasRisen (faults self.old) (faults self.new) }
        ensures never_falls { faults self.old ≤ faults self.new };

    /// After it, what a read gives is all that a crash may leave.
    fn sync(&mut self) -> Result<(), DiskError>
        ensures durable { OnOk result (Only (bytes self.old) (images self.new)) }
        ensures same { bytes self.new ≡ bytes self.old }
        ensures crash { (c : List ℕ) → images self.new c → images self.old c }
        ensures time { Elapses (moment self.old) (moment self.new) (left_since self.old) (left_since self.new) (images self.new) }
        ensures failed { IsErrOf result DiskError.Failed → HasRisen (faults self.old) (faults self.new) }
        ensures never_falls { faults self.old ≤ faults self.new };

    /// What a read gives is one of the images.
    ghost reads_as: { (d : Self) → IfSome (bytes d) (images d) };

    /// The present moment is one of those since an earlier one.
    ghost counts_now: { (d : Self) (t : ℕ) (c : List ℕ) → t ≤ moment d → images d c → left_since d t c };

    /// Since the present moment there is no other.
    ghost only_now: { (d : Self) (c : List ℕ) → left_since d (moment d) c → images d c };
}
