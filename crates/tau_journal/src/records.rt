//! The records of a journal, as they were found on a disk.
ghost use Rattle.std.specs.Prelude.{◌≡◌, ◌+◌, ◌<◌, ◌≤◌, ℕ, Some, None, IfOk, IfSome, IsErrOf, length, take, drop, slice_get, option_map};
ghost use Rattle.std.specs.Int.{w32, to_le_bytes};
ghost use Rattle.tau_journal.specs.Records.{HasRecords};
ghost use Rattle.tau_journal.specs.Found.{IsBlank, IsCut, IsDamaged};
ghost use Rattle.tau_journal.specs.Room.{most_bytes};

use crate::errors::JournalError;
use std::alloc::{AllocError, Global};
use std::marker::Model;

/// The number of the fault of a record that isn't whole.
const DAMAGED: u8 = 2;

/// Where a record stands in the bytes of its disk.
#[derive(Clone, Copy, Debug)]
struct Place {
    start: u32,
    length: u32,
}

/// The records of a journal, in their order (`docs/formats.md`, "Journal"). Contracts see them as a list.
#[derive(Debug, Drop)]
pub struct Records {
    bytes: Vec<u8>,
    places: Vec<Place>,
}

impl Model for Records {
    ghost use Rattle.std.specs.Prelude.{◌+◌, ◌≤◌, ℕ, List, All, length, map};
    ghost use Rattle.tau_journal.specs.Places.{record_at, end_of};

    ghost Value = { List (List ℕ) };

    ghost view = { λ r. map (record_at r.bytes.items) r.places.items };

    ghost invariant = { λ r. All (λ p. end_of p ≤ length r.bytes.items) r.places.items };
}

impl Records {
    /// How many records there are.
    pub fn len(&self) -> usize
        ensures { result ≡ length self.now }
    {
        self.places.len()
    }

    /// Record `k`, counted from 0.
    pub fn item(&self, k: usize) -> Option<&[u8]>
        ensures { option_map (λ r. r.now) result ≡ slice_get self.now k }
    {
        match self.places.get(k) {
            Some(place) => {
                let start = place.start as usize;
                Some(&self.bytes[start..start + place.length as usize])
            }
            None => None,
        }
    }
}

/// The records of bytes that begin with an open gate, and the place of the closed gate behind them.
pub fn scan(alloc: Global, bytes: Vec<u8>) -> Result<(Records, u64), JournalError>
    requires small { length bytes.items ≤ most_bytes }
    requires begins { ¬ IsBlank bytes.items }
    ensures records { IfOk result (λ p. HasRecords p.0 p.1 bytes.items) }
    ensures within { IfOk result (λ p. p.1 < length bytes.items) }
    ensures some { IfOk result (λ p. 1 ≤ length p.0) }
    ensures damaged { (fault at : ℕ) → IsErrOf result (JournalError.Fault fault at) → (fault ≡ 2) × IsDamaged at bytes.items }
    ensures no_disk { IsErrOf result JournalError.DiskFault → ⊥ }
{
    let mut places = Vec::new(alloc);
    let mut gate = 0;
    while bytes[gate] == 1 {
        let Some(length) = length_at(&bytes, gate) else {
            return Err(JournalError::Fault {
                fault: DAMAGED,
                at: gate as u64,
            });
        };
        let start = gate + 5;
        places.push(Place {
            start: start as u32,
            length,
        })?;
        gate = start + length as usize;
    }
    Ok((Records { bytes, places }, gate as u64))
}

/// The length of the record behind an open gate, where the record and the next gate are whole.
fn length_at(bytes: &[u8], gate: usize) -> Option<u32>
    requires within { gate < length bytes.now }
    requires small { length bytes.now ≤ most_bytes }
    ensures whole { IfSome result (λ n. gate + 5 + n < length bytes.now) }
    ensures length { IfSome result (λ n. take 4 (drop (gate + 1) bytes.now) ≡ to_le_bytes w32 n) }
    ensures cut { result ≡ None → IsCut (drop (gate + 1) bytes.now) }
{
    let rest = &bytes[gate + 1..];
    if rest.len() < 4 {
        return None;
    }
    let length = u32::from_le_bytes([rest[0], rest[1], rest[2], rest[3]]);
    if rest.len() - 4 <= length as usize {
        return None;
    }
    Some(length)
}
