//! A gate and a disk that tell what came first.
ghost use Rattle.std.specs.Prelude.{◌≡◌, ◌≤◌};
ghost use Rattle.tau_io.specs.Faults.{HasRisen};

use std::alloc::{AllocError, Global};
use std::sync::atomic::{AtomicU32, Ordering};
use tau_cli::Gate;
use tau_journal::disk::{Disk, DiskError};

/// A gate that counts the evaluations that have begun.
#[derive(Drop)]
pub(crate) struct CountingGate {
    entered: AtomicU32,
}

impl CountingGate {
    pub(crate) fn new() -> CountingGate {
        CountingGate {
            entered: AtomicU32::new(0),
        }
    }
}

impl Gate for CountingGate {
    fn enter(&self, _worker: u32, _turn: u32) {
        self.entered.fetch_add(1, Ordering::SeqCst);
    }

    fn leave(&self, _worker: u32, _turn: u32) {}
}

/// A disk that notes each write of an open gate alone, and before it each evaluation that began since the one before. It tells
/// no bytes.
#[derive(Drop)]
pub(crate) struct NotingDisk<'g> {
    alloc: Global,
    gate: &'g CountingGate,
    entered: u32,
    events: String,
    bytes: Vec<u8>,
    faults: u64,
}

impl<'g> NotingDisk<'g> {
    pub(crate) fn new(alloc: Global, gate: &'g CountingGate) -> NotingDisk<'g> {
        NotingDisk {
            alloc,
            gate,
            entered: 0,
            events: String::new(alloc),
            bytes: Vec::new(alloc),
            faults: 0,
        }
    }

    /// What was noted, a line each.
    pub(crate) fn events(&self) -> &str {
        self.events.as_str()
    }

    /// Counts a fault.
    fn failed(&mut self) -> DiskError
        ensures failed { HasRisen self.old.faults self.new.faults }
        ensures never_falls { self.old.faults ≤ self.new.faults }
    {
        self.faults = self.faults.saturating_add(1);
        DiskError::Failed
    }

    /// Notes the opening of a gate, behind the evaluations that began.
    fn note(&mut self, at: u64) -> Result<(), AllocError>
        ensures { self.new.faults ≡ self.old.faults }
    {
        let entered = self.gate.entered.load(Ordering::SeqCst);
        add_begun(&mut self.events, entered.saturating_sub(self.entered))?;
        self.entered = entered;
        writeln!(self.events, "write at {at}")?;
        Ok(())
    }

    /// Writes over the bytes from a place on, and past the end; `false` where they don't reach so far.
    fn write_over(&mut self, at: u64, from: &[u8]) -> Result<bool, AllocError>
        ensures { self.new.faults ≡ self.old.faults }
    {
        let Some(front) = self.bytes.get(..at as usize) else {
            return Ok(false);
        };
        let mut next = Vec::from_slice(self.alloc, front)?;
        next.extend_from_slice(from)?;
        if let Some(behind) = self.bytes.get(next.len()..) {
            next.extend_from_slice(behind)?;
        }
        self.bytes = next;
        Ok(true)
    }
}

/// Adds a line for each of so many evaluations.
fn add_begun(events: &mut String, count: u32) -> Result<(), AllocError> {
    for _ in 0..count {
        events.push_str("enter\n")?;
    }
    Ok(())
}

impl Disk for NotingDisk<'_> {
    ghost use Rattle.std.specs.Prelude.{None};
    ghost use Rattle.tau_journal.specs.Disk.Bytes.{AnyBytes};

    ghost bytes = { λ _. None };

    ghost images = { λ _ c. AnyBytes c };

    ghost moment = { λ _. 0 };

    ghost left_since = { λ _ _ c. AnyBytes c };

    ghost faults = { λ d. d.faults };

    ghost reads_as = { λ _. tt };

    ghost counts_now = { λ _ _ _ _ _. tt };

    ghost only_now = { λ _ _ _. tt };

    fn size(&mut self) -> Result<u64, DiskError> {
        Ok(self.bytes.len() as u64)
    }

    fn read_at(&mut self, at: u64, into: &mut [u8]) -> Result<(), DiskError> {
        let behind = self.bytes.get(at as usize..).unwrap_or(&[]);
        match behind.get(..into.len()) {
            Some(read) => {
                into.copy_from_slice(read);
                Ok(())
            }
            None => Err(self.failed()),
        }
    }

    fn write_at(&mut self, at: u64, from: &[u8]) -> Result<(), DiskError> {
        if from == [1].as_slice() {
            self.note(at)?;
        }
        if self.write_over(at, from)? {
            Ok(())
        } else {
            Err(self.failed())
        }
    }

    fn sync(&mut self) -> Result<(), DiskError> {
        Ok(())
    }
}
