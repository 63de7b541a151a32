// A sink in memory that fails at chosen calls.
ghost use Rattle.std.specs.Prelude.{◌≡◌, ◌≤◌, ◌<◌, ◌↔◌, [], Contains, Some, length, min};
ghost use Rattle.tau_io.specs.Faults.{HasRisen};
ghost use Rattle.tau_io.specs.Put.{PutFits, PutAppends, TakesCount};
ghost use Rattle.tau_io.specs.Store.{after_write};

use crate::pieces::is_among;
use crate::sinks::{Put, Sink};
use std::alloc::Global;
use std::marker::Model;

/// A sink that keeps what it is given, and fails at chosen calls.
///
/// Contracts see the bytes held, the most bytes that a call takes, the numbers of the calls that
/// fail, and how many calls and faults there were (`docs/rules.md`, "Sources and sinks").
#[derive(Debug, Drop)]
pub struct MemorySink {
    bytes: Vec<u8>,
    piece: usize,
    fails: Vec<u32>,
    calls: u64,
    faults: u64,
}

impl Model for MemorySink {
    ghost use Rattle.std.specs.Prelude.{◌≤◌};
    ghost use Rattle.tau_io.specs.Store.{Store};

    ghost Value = { Store };

    ghost view = { λ s. record {
      held = s.bytes.items;
      piece = s.piece;
      fails = s.fails.items;
      calls = s.calls;
      faults = s.faults;
    } };

    ghost invariant = { λ s. 1 ≤ s.piece };
}

impl MemorySink {
    /// A sink that holds nothing. A call takes at most `piece` bytes, and the calls whose numbers
    /// are in `fails` fail; calls are counted from 0.
    pub fn new(alloc: Global, piece: usize, fails: Vec<u32>) -> MemorySink
        requires { 1 ≤ piece }
        ensures { result ≡ record {
          held = [];
          piece = piece;
          fails = fails.items;
          calls = 0;
          faults = 0;
        } }
    {
        MemorySink {
            bytes: Vec::new(alloc),
            piece,
            fails,
            calls: 0,
            faults: 0,
        }
    }

    /// The bytes held.
    pub fn bytes(&self) -> &[u8]
        ensures { result.now ≡ self.now.held }
    {
        self.bytes.as_slice()
    }
}

impl Sink for MemorySink {
    ghost use Rattle.std.specs.Prelude.{Some};

    ghost held = { λ s. Some s.held };

    ghost faults = { λ s. s.faults };

    /// As of every sink. Where memory runs out, the call isn't counted.
    fn write(&mut self, from: &[u8]) -> Put
        requires { 0 < length from.now }
        ensures count { PutFits result (length from.now) }
        ensures bytes { PutAppends result (Some self.old.held) (Some self.new.held) from.now }
        ensures failed { result ≡ Put.Failed → HasRisen self.old.faults self.new.faults }
        ensures never_falls { self.old.faults ≤ self.new.faults }

        // Which answer comes, and what it leaves.
        ensures fails { (result ≡ Put.Failed) ↔ Contains self.old.fails self.old.calls }
        ensures piece { TakesCount result (min self.old.piece (length from.now)) }
        ensures after { self.new ≡ after_write self.old result from.now }
    {
        let call = self.calls;
        if is_among(&self.fails, call) {
            self.calls = call.saturating_add(1);
            self.faults = self.faults.saturating_add(1);
            return Put::Failed;
        }
        let count = from.len().min(self.piece);
        match self.bytes.extend_from_slice(&from[..count]) {
            Ok(()) => {
                self.calls = call.saturating_add(1);
                Put::Bytes(count)
            }
            Err(_) => Put::NoMemory,
        }
    }
}
