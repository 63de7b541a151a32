// A source in memory that fails at chosen calls.
ghost use Rattle.std.specs.Prelude.{◌≡◌, ◌≢◌, ◌≤◌, ◌<◌, ◌↔◌, [], Contains, length, min};
ghost use Rattle.tau_io.specs.Faults.{HasRisen};
ghost use Rattle.tau_io.specs.Feed.{after_read, filled_by};
ghost use Rattle.tau_io.specs.Got.{GotFits, GotTakes, GivesCount};

use crate::pieces::{copy_front, is_among};
use crate::sources::{Got, Source};
use std::marker::Model;

/// A source of the bytes that it was made with, which fails at chosen calls.
///
/// Contracts see the bytes left, the most bytes that a call gives, the numbers of the calls that
/// fail, and how many calls and faults there were (`docs/rules.md`, "Sources and sinks").
#[derive(Debug, Drop)]
pub struct MemorySource {
    bytes: Vec<u8>,
    at: usize,
    piece: usize,
    fails: Vec<u32>,
    calls: u64,
    faults: u64,
}

impl Model for MemorySource {
    ghost use Rattle.std.specs.Prelude.{◌≤◌, drop, vec_len};
    ghost use Rattle.tau_io.specs.Feed.{Feed};

    ghost Value = { Feed };

    ghost view = { λ s. record {
      left = drop s.at s.bytes.items;
      piece = s.piece;
      fails = s.fails.items;
      calls = s.calls;
      faults = s.faults;
    } };

    ghost invariant = { λ s. (s.at ≤ vec_len s.bytes) × (1 ≤ s.piece) };
}

impl MemorySource {
    /// A source of `bytes`, of which a call gives at most `piece`. The calls whose numbers are in
    /// `fails` fail; calls are counted from 0.
    pub fn new(bytes: Vec<u8>, piece: usize, fails: Vec<u32>) -> MemorySource
        requires { 1 ≤ piece }
        ensures { result ≡ record {
          left = bytes.items;
          piece = piece;
          fails = fails.items;
          calls = 0;
          faults = 0;
        } }
    {
        MemorySource {
            bytes,
            at: 0,
            piece,
            fails,
            calls: 0,
            faults: 0,
        }
    }
}

impl Source for MemorySource {
    ghost use Rattle.std.specs.Prelude.{Some};

    ghost left = { λ s. Some s.left };

    ghost faults = { λ s. s.faults };

    fn read(&mut self, into: &mut [u8]) -> Got
        // As of every source.
        requires { 0 < length into.old }
        ensures count { GotFits result (length into.new) }
        ensures bytes { GotTakes result (Some self.old.left) (Some self.new.left) into.new }
        ensures failed { result ≡ Got.Failed → HasRisen self.old.faults self.new.faults }
        ensures never_falls { self.old.faults ≤ self.new.faults }

        // Which answer comes, and what it leaves.
        ensures fails { (result ≡ Got.Failed) ↔ Contains self.old.fails self.old.calls }
        ensures end { (result ≡ Got.End)
            ↔ ((¬ Contains self.old.fails self.old.calls) × (self.old.left ≡ [])) }
        ensures piece { GivesCount result
            (min self.old.piece (min (length into.old) (length self.old.left))) }
        ensures after { self.new ≡ after_read self.old result }
        ensures into { into.new ≡ filled_by result self.old.left into.old }
    {
        let call = self.calls;
        self.calls = call.saturating_add(1);
        if is_among(&self.fails, call) {
            self.faults = self.faults.saturating_add(1);
            return Got::Failed;
        }
        let left = &self.bytes[self.at..];
        if left.is_empty() {
            return Got::End;
        }
        let most = left.len().min(self.piece);
        let count = copy_front(&left[..most], into);
        self.at += count;
        Got::Bytes(count)
    }
}
