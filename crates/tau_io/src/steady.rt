// A source and a sink in memory that never fail.
ghost use Rattle.std.specs.Prelude.{◌≡◌, ◌≢◌, ◌≤◌, ◌<◌, ◌↔◌, [], Some, length, min};
ghost use Rattle.tau_io.specs.Feed.{filled_by};
ghost use Rattle.tau_io.specs.Got.{GotFits, GotTakes, GivesCount};
ghost use Rattle.tau_io.specs.Put.{PutFits, PutAppends, TakesCount};

use crate::pieces::copy_front;
use crate::sinks::{Put, Sink};
use crate::sources::{Got, Source};
use std::alloc::Global;
use std::marker::Model;

/// A source of the bytes that it was made with. It never fails, and its count of faults is 0.
///
/// Contracts see the bytes left (`docs/rules.md`, "Sources and sinks").
#[derive(Debug, Drop)]
pub struct SteadySource {
    bytes: Vec<u8>,
    at: usize,
}

impl Model for SteadySource {
    ghost use Rattle.std.specs.Prelude.{ℕ, List, ◌≤◌, drop, vec_len};

    ghost Value = { List ℕ };

    ghost view = { λ s. drop s.at s.bytes.items };

    ghost invariant = { λ s. s.at ≤ vec_len s.bytes };
}

impl SteadySource {
    /// A source of `bytes`.
    pub fn new(bytes: Vec<u8>) -> SteadySource
        ensures { result ≡ bytes.items }
    {
        SteadySource { bytes, at: 0 }
    }
}

impl Source for SteadySource {
    ghost use Rattle.std.specs.Prelude.{Some};

    ghost left = { λ s. Some s };

    ghost faults = { λ _. 0 };

    /// As of every source. A call gives as much as there is room for.
    fn read(&mut self, into: &mut [u8]) -> Got
        requires { 0 < length into.old }
        ensures count { GotFits result (length into.new) }
        ensures bytes { GotTakes result (Some self.old) (Some self.new) into.new }

        // Which answer comes, and what it leaves.
        ensures steady { result ≢ Got.Failed }
        ensures end { (result ≡ Got.End) ↔ (self.old ≡ []) }
        ensures whole { GivesCount result (min (length into.old) (length self.old)) }
        ensures into { into.new ≡ filled_by result self.old into.old }
    {
        let left = &self.bytes[self.at..];
        if left.is_empty() {
            return Got::End;
        }
        let count = copy_front(left, into);
        self.at += count;
        Got::Bytes(count)
    }
}

/// A sink that keeps what it is given. It never fails, and its count of faults is 0.
///
/// Contracts see the bytes held (`docs/rules.md`, "Sources and sinks").
#[derive(Debug, Drop)]
pub struct SteadySink {
    bytes: Vec<u8>,
}

impl Model for SteadySink {
    ghost use Rattle.std.specs.Prelude.{ℕ, List};

    ghost Value = { List ℕ };

    ghost view = { λ s. s.bytes.items };
}

impl SteadySink {
    /// A sink that holds nothing.
    pub fn new(alloc: Global) -> SteadySink
        ensures { result ≡ [] }
    {
        SteadySink {
            bytes: Vec::new(alloc),
        }
    }

    /// The bytes held.
    pub fn bytes(&self) -> &[u8]
        ensures { result.now ≡ self.now }
    {
        self.bytes.as_slice()
    }
}

impl Sink for SteadySink {
    ghost use Rattle.std.specs.Prelude.{Some};

    ghost held = { λ s. Some s };

    ghost faults = { λ _. 0 };

    /// As of every sink. A call takes all that it is offered, or finds no memory.
    fn write(&mut self, from: &[u8]) -> Put
        requires { 0 < length from.now }
        ensures count { PutFits result (length from.now) }
        ensures bytes { PutAppends result (Some self.old) (Some self.new) from.now }

        // Which answer comes.
        ensures steady { result ≢ Put.Failed }
        ensures whole { TakesCount result (length from.now) }
    {
        match self.bytes.extend_from_slice(from) {
            Ok(()) => Put::Bytes(from.len()),
            Err(_) => Put::NoMemory,
        }
    }
}
