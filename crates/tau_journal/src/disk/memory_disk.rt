//! A disk in memory, which tells everything and fails at chosen calls.
ghost use Rattle.std.specs.Prelude.{◌≡◌, ◌≤◌, ◌↔◌, ℕ, List, [], ◌++◌, ◌∷◌, ◌+◌, Some, IsTrue, true, Contains, IfOk, IfSome, OnOk, OnErr, IsErrOf, length, take, slice_get, option_map};
ghost use Rattle.tau_io.specs.Faults.{HasRisen, one_more};
ghost use Rattle.tau_journal.specs.Disk.Bytes.{overwritten, Writes, Reads, Torn, Follows, Only};
ghost use Rattle.tau_journal.specs.Disk.Calls.{held, IsImage, WasImage, AreWithin};
ghost use Rattle.tau_journal.specs.Disk.Inner.{present_or, is_quiet, IsWithin, AreWithin-prop, reads_as_held, counts_now_in, only_now_in};
ghost use Rattle.tau_journal.specs.Disk.Stops.{IsWrite, write_length, stopped_by};
ghost use Rattle.tau_journal.specs.Disk.Moments.{Elapses};

use crate::disk::disks::{Disk, DiskError};
use std::alloc::{AllocError, Global};
use std::marker::Model;

/// The bytes of a write.
#[derive(Drop)]
pub(crate) struct Piece {
    bytes: Vec<u8>,
}

impl Model for Piece {
    ghost use Rattle.std.specs.Prelude.{ℕ, List};

    ghost Value = { List ℕ };

    ghost view = { λ p. p.bytes.items };
}

/// A call that a disk in memory has had.
#[derive(Drop)]
pub(crate) enum Call {
    /// It changed nothing.
    Looked,
    /// A write that succeeded.
    Wrote { at: u64, bytes: Piece },
    /// A write that failed.
    Tore { at: u64, bytes: Piece },
    /// A sync that succeeded.
    Synced,
}

/// A disk in memory, which notes its calls and fails at chosen ones (`docs/rules.md`, "Disks").
///
/// Contracts see its bytes at first, its calls, the numbers of the calls that fail and the count of faults. A write
/// copies the bytes.
#[derive(Drop)]
pub struct MemoryDisk {
    alloc: Global,
    first: Vec<u8>,
    present: Option<Vec<u8>>,
    calls: Vec<Call>,
    fails: Vec<u32>,
    faults: u64,
    ghost is_present: { held first.items calls.items ≡ present_or (option_map (λ v. v.items) present) first.items },
    ghost within: { AreWithin first.items calls.items } by { AreWithin-prop first.items calls.items },
}

impl MemoryDisk {
    ghost use Rattle.tau_journal.specs.Disk.Memory.{bytes_of, state_of};

    /// A disk of `bytes`, all of them synced. The calls whose numbers are in `fails` fail; calls are counted from 0.
    pub fn new(alloc: Global, bytes: Vec<u8>, fails: Vec<u32>) -> MemoryDisk
        ensures { state_of result ≡ record { first = bytes.items; calls = []; fails = fails.items; faults = 0 } }
    {
        MemoryDisk {
            alloc,
            first: bytes,
            present: None,
            calls: Vec::new(alloc),
            fails,
            faults: 0,
        }
    }

    /// The bytes that a read gives.
    pub fn bytes(&self) -> &[u8]
        ensures { result.now ≡ bytes_of self.now }
    {
        match &self.present {
            Some(bytes) => bytes.as_slice(),
            None => self.first.as_slice(),
        }
    }
}

/// The bytes with others written over them from a place on.
fn written_over(alloc: Global, bytes: &[u8], at: usize, from: &[u8]) -> Result<Vec<u8>, AllocError>
    requires { at ≤ length bytes.now }
    ensures { IfOk result (λ v. v.items ≡ overwritten bytes.now at from.now) }
{
    let mut next = bytes[..at].to_vec(alloc)?;
    next.extend_from_slice(from)?;
    if from.len() < bytes.len() - at {
        next.extend_from_slice(&bytes[at + from.len()..])?;
    }
    Ok(next)
}

impl MemoryDisk {
    ghost use Rattle.tau_journal.specs.Disk.Memory.{bytes_of, state_of, Calls};
    ghost use Rattle.tau_journal.specs.Disk.Noted.{noted, counted};

    /// Whether the next call fails.
    fn fails_next(&self) -> bool
        ensures { IsTrue result ↔ Contains self.now.fails.items (length self.now.calls.items) }
    {
        let call = self.calls.len() as u64;
        self.fails.iter().any(|number| u64::from(*number) == call)
    }

    /// Notes a call that leaves the bytes as they are.
    fn note(&mut self, call: Call) -> Result<(), AllocError>
        requires quiet { is_quiet call ≡ true }
        requires within { IsWithin call (bytes_of self.old) }
        ensures ok { OnOk result (state_of self.new ≡ noted (state_of self.old) call) }
        ensures err { OnErr result (state_of self.new ≡ state_of self.old) }
    {
        self.calls.reserve(1)?;
        self.calls.push_reserved(call);
        Ok(())
    }

    /// Notes a write, after which the bytes are `next`.
    fn note_write(&mut self, at: u64, bytes: Piece, next: Vec<u8>) -> Result<(), AllocError>
        requires within { at ≤ length (bytes_of self.old) }
        requires next { next.items ≡ overwritten (bytes_of self.old) at bytes }
        ensures ok { OnOk result (state_of self.new ≡ noted (state_of self.old) (Call.Wrote at bytes)) }
        ensures err { OnErr result (state_of self.new ≡ state_of self.old) }
    {
        self.calls.reserve(1)?;
        self.calls.push_reserved(Call::Wrote { at, bytes });
        self.present = Some(next);
        Ok(())
    }

    /// Counts a fault.
    fn count_fault(&mut self)
        ensures after { state_of self.new ≡ counted (state_of self.old) }
        ensures never_falls { self.old.faults ≤ self.new.faults }
    {
        self.faults = self.faults.saturating_add(1);
    }

    /// Makes a call that leaves the bytes as they are: it is noted as `done`, or fails and is noted as `torn`.
    fn call(&mut self, done: Call, torn: Call) -> Result<(), DiskError>
        requires done { is_quiet done ≡ true }
        requires torn { is_quiet torn ≡ true }
        requires done_within { IsWithin done (bytes_of self.old) }
        requires torn_within { IsWithin torn (bytes_of self.old) }
        ensures after { Calls (state_of self.old) result done torn (state_of self.new) }
        ensures never_falls { self.old.faults ≤ self.new.faults }
    {
        if self.fails_next() {
            self.note(torn)?;
            self.count_fault();
            return Err(DiskError::Failed);
        }
        self.note(done)?;
        Ok(())
    }

    /// Makes a write.
    fn write(&mut self, at: u64, from: &[u8]) -> Result<(), DiskError>
        requires { at ≤ length (bytes_of self.old) }
        ensures after { Calls (state_of self.old) result (Call.Wrote at from.now) (Call.Tore at from.now) (state_of self.new) }
        ensures never_falls { self.old.faults ≤ self.new.faults }
    {
        let bytes = Piece {
            bytes: from.to_vec(self.alloc)?,
        };
        if self.fails_next() {
            self.note(Call::Tore { at, bytes })?;
            self.count_fault();
            return Err(DiskError::Failed);
        }
        let next = written_over(self.alloc, self.bytes(), at as usize, from)?;
        self.note_write(at, bytes, next)?;
        Ok(())
    }
}

impl MemoryDisk {
    ghost use Rattle.tau_journal.specs.Disk.Memory.{state_of};

    /// How many bytes call `call` wrote, or would have written where it failed; `None` where it was no write, or wasn't made.
    pub fn write_len(&self, call: u32) -> Option<usize>
        ensures length { result ≡ write_length (slice_get (state_of self.now).calls call) }
        ensures at_most { IfSome result (λ n. (kept : ℕ) → kept ≤ n → IsWrite kept (slice_get (state_of self.now).calls call)) }
    {
        match self.calls.get(call as usize)? {
            Call::Wrote { bytes, .. } => Some(bytes.bytes.len()),
            Call::Tore { bytes, .. } => Some(bytes.bytes.len()),
            Call::Looked => None,
            Call::Synced => None,
        }
    }

    /// The disk that a stop within call `call` leaves, which was a write, where the first `kept` of its bytes were written:
    /// all writes before it that succeeded, and these bytes. None of its calls fails. Its bytes are one of the images after
    /// that call (`docs/rules.md`, "Disks"). The error is want of memory.
    pub fn stopped(&self, call: u32, kept: usize) -> Result<MemoryDisk, AllocError>
        requires { IsWrite kept (slice_get (state_of self.now).calls call) }
        ensures stopped { IfOk result (λ d. state_of d ≡ record {
          first = stopped_by kept (slice_get (state_of self.now).calls call) (held (state_of self.now).first (take call (state_of self.now).calls));
          calls = [];
          fails = [];
          faults = 0;
        }) }
        ensures image { IfOk result (λ d. IsImage (state_of self.now).first (take (call + 1) (state_of self.now).calls) (state_of d).first) }
    {
        let before = self.held_before(call as usize)?;
        let first = written_by(self.alloc, &self.calls[call as usize], &before, kept)?;
        Ok(MemoryDisk::new(self.alloc, first, Vec::new(self.alloc)))
    }

    /// The bytes that a read gave before call `count`.
    fn held_before(&self, count: usize) -> Result<Vec<u8>, AllocError>
        requires { count ≤ length self.now.calls.items }
        ensures { IfOk result (λ v. v.items ≡ held self.now.first.items (take count self.now.calls.items)) }
    {
        let mut bytes = self.first.as_slice().to_vec(self.alloc)?;
        for call in &self.calls[..count] {
            bytes = held_then(self.alloc, call, bytes)?;
        }
        Ok(bytes)
    }
}

/// The bytes that a read gives after one call more.
fn held_then(alloc: Global, call: &Call, bytes: Vec<u8>) -> Result<Vec<u8>, AllocError>
    requires { IsWithin call.now bytes.items }
    ensures { IfOk result (λ v. v.items ≡ held bytes.items (call.now ∷ [])) }
{
    match call {
        Call::Wrote { at, bytes: piece } => written_over(alloc, &bytes, *at as usize, &piece.bytes),
        _ => Ok(bytes),
    }
}

/// The bytes with the first `kept` of a write written over them.
fn written_by(alloc: Global, call: &Call, bytes: &[u8], kept: usize) -> Result<Vec<u8>, AllocError>
    requires write { IsWrite kept (Some call.now) }
    requires within { IsWithin call.now bytes.now }
    ensures { IfOk result (λ v. v.items ≡ stopped_by kept (Some call.now) bytes.now) }
{
    match call {
        Call::Wrote { at, bytes: piece } => {
            written_over(alloc, bytes, *at as usize, &piece.bytes[..kept])
        }
        Call::Tore { at, bytes: piece } => {
            written_over(alloc, bytes, *at as usize, &piece.bytes[..kept])
        }
        Call::Looked => unreachable!(),
        Call::Synced => unreachable!(),
    }
}

impl Disk for MemoryDisk {
    ghost use Rattle.std.specs.Prelude.{length};
    ghost use Rattle.tau_journal.specs.Disk.Memory.{state_of, Calls};

    ghost bytes = { λ m. Some (held m.first.items m.calls.items) };

    ghost images = { λ m c. IsImage m.first.items m.calls.items c };

    ghost moment = { λ m. length m.calls.items };

    ghost left_since = { λ m t c. WasImage m.first.items m.calls.items t c };

    ghost faults = { λ m. m.faults };

    ghost reads_as = { λ m. reads_as_held m.first.items m.calls.items m.within };

    ghost counts_now = { λ m t c le now. counts_now_in m.first.items m.calls.items t c le now };

    ghost only_now = { λ m c was. only_now_in m.first.items m.calls.items c was };

    /// As of every disk.
    fn size(&mut self) -> Result<u64, DiskError>
        ensures size { IfOk result (λ n. n ≡ length (held self.old.first.items self.old.calls.items)) }
        ensures same { Some (held self.new.first.items self.new.calls.items) ≡ Some (held self.old.first.items self.old.calls.items) }
        ensures crash { (c : List ℕ) → IsImage self.new.first.items self.new.calls.items c → IsImage self.old.first.items self.old.calls.items c }
        ensures time { Elapses (length self.old.calls.items) (length self.new.calls.items) (WasImage self.old.first.items self.old.calls.items)
            (WasImage self.new.first.items self.new.calls.items) (IsImage self.new.first.items self.new.calls.items) }
        ensures failed { IsErrOf result DiskError.Failed → HasRisen self.old.faults self.new.faults }
        ensures never_falls { self.old.faults ≤ self.new.faults }

        // Which answer comes, and what it leaves.
        ensures after { Calls (state_of self.old) result Call.Looked Call.Looked (state_of self.new) }
    {
        let size = self.bytes().len() as u64;
        self.call(Call::Looked, Call::Looked)?;
        Ok(size)
    }

    /// As of every disk.
    fn read_at(&mut self, at: u64, into: &mut [u8]) -> Result<(), DiskError>
        requires { at + length into.old ≤ length (held self.old.first.items self.old.calls.items) }
        ensures read { OnOk result (Reads (Some (held self.old.first.items self.old.calls.items)) at into.new) }
        ensures same { Some (held self.new.first.items self.new.calls.items) ≡ Some (held self.old.first.items self.old.calls.items) }
        ensures crash { (c : List ℕ) → IsImage self.new.first.items self.new.calls.items c → IsImage self.old.first.items self.old.calls.items c }
        ensures time { Elapses (length self.old.calls.items) (length self.new.calls.items) (WasImage self.old.first.items self.old.calls.items)
            (WasImage self.new.first.items self.new.calls.items) (IsImage self.new.first.items self.new.calls.items) }
        ensures failed { IsErrOf result DiskError.Failed → HasRisen self.old.faults self.new.faults }
        ensures never_falls { self.old.faults ≤ self.new.faults }

        // Which answer comes, and what it leaves.
        ensures after { Calls (state_of self.old) result Call.Looked Call.Looked (state_of self.new) }
    {
        self.call(Call::Looked, Call::Looked)?;
        let from = at as usize;
        let end = from + into.len();
        into.copy_from_slice(&self.bytes()[from..end]);
        Ok(())
    }

    /// As of every disk.
    fn write_at(&mut self, at: u64, from: &[u8]) -> Result<(), DiskError>
        requires { at ≤ length (held self.old.first.items self.old.calls.items) }
        ensures written { OnOk result (Writes (Some (held self.old.first.items self.old.calls.items)) at from.now (Some (held self.new.first.items self.new.calls.items))) }
        ensures crash { Follows (Torn at (length from.now)) (IsImage self.old.first.items self.old.calls.items) (IsImage self.new.first.items self.new.calls.items) }
        ensures untouched { IsErrOf result DiskError.NoMemory → Some (held self.new.first.items self.new.calls.items) ≡ Some (held self.old.first.items self.old.calls.items) }
        ensures untorn { IsErrOf result DiskError.NoMemory → (c : List ℕ) → IsImage self.new.first.items self.new.calls.items c → IsImage self.old.first.items self.old.calls.items c }
        ensures time { Elapses (length self.old.calls.items) (length self.new.calls.items) (WasImage self.old.first.items self.old.calls.items)
            (WasImage self.new.first.items self.new.calls.items) (IsImage self.new.first.items self.new.calls.items) }
        ensures failed { IsErrOf result DiskError.Failed → HasRisen self.old.faults self.new.faults }
        ensures never_falls { self.old.faults ≤ self.new.faults }

        // Which answer comes, and what it leaves.
        ensures after { Calls (state_of self.old) result (Call.Wrote at from.now) (Call.Tore at from.now) (state_of self.new) }
    {
        self.write(at, from)
    }

    /// As of every disk.
    fn sync(&mut self) -> Result<(), DiskError>
        ensures durable { OnOk result (Only (Some (held self.old.first.items self.old.calls.items)) (IsImage self.new.first.items self.new.calls.items)) }
        ensures same { Some (held self.new.first.items self.new.calls.items) ≡ Some (held self.old.first.items self.old.calls.items) }
        ensures crash { (c : List ℕ) → IsImage self.new.first.items self.new.calls.items c → IsImage self.old.first.items self.old.calls.items c }
        ensures time { Elapses (length self.old.calls.items) (length self.new.calls.items) (WasImage self.old.first.items self.old.calls.items)
            (WasImage self.new.first.items self.new.calls.items) (IsImage self.new.first.items self.new.calls.items) }
        ensures failed { IsErrOf result DiskError.Failed → HasRisen self.old.faults self.new.faults }
        ensures never_falls { self.old.faults ≤ self.new.faults }

        // Which answer comes, and what it leaves.
        ensures after { Calls (state_of self.old) result Call.Synced Call.Looked (state_of self.new) }
    {
        self.call(Call::Synced, Call::Looked)
    }
}
