//! What a terminal shows of a storm while its runs are made.

use std::sync::atomic::{AtomicU64, Ordering};
use std::time::Clock;
use tau_output::{Gate, Watch};

/// Tells on standard error how far a storm is, once a second, in one line that is cleaned away at the storm's end (docs/manual.md,
/// "storm"). It holds nobody, and no promise is made of what it writes.
#[derive(Drop)]
pub struct Progress<'r, R> {
    rt: &'r R,
    is_shown: bool,
    /// When the storm began, in milliseconds of the clock.
    begun: AtomicU64,
    /// The last second of the storm at which the line was written; 0 where it wasn't.
    told: AtomicU64,
    seeds: AtomicU64,
    done: AtomicU64,
    runs: AtomicU64,
    outcomes: AtomicU64,
}

impl<'r, R: Clock + Eprint> Progress<'r, R> {
    /// The progress of a storm that hasn't begun. Where it isn't shown, nothing is written.
    pub fn new(rt: &'r R, is_shown: bool) -> Progress<'r, R> {
        Progress {
            rt,
            is_shown,
            begun: AtomicU64::new(0),
            told: AtomicU64::new(0),
            seeds: AtomicU64::new(0),
            done: AtomicU64::new(0),
            runs: AtomicU64::new(0),
            outcomes: AtomicU64::new(0),
        }
    }

    /// The time of the clock in milliseconds, which is 0 where it can't be read.
    fn now(&self) -> u64 {
        match self.rt.monotonic() {
            Ok(time) => u64::try_from(time.as_millis()).unwrap_or(0),
            Err(_) => 0,
        }
    }

    /// Writes the line, if it wasn't written in this second of the storm.
    fn tell(&self) {
        let begun = self.begun.load(Ordering::Relaxed);
        let second = self.now().saturating_sub(begun) / 1000;
        let told = self.told.load(Ordering::Relaxed);
        if second > told && self.takes(told, second) {
            self.write(second);
        }
    }

    /// Whether it is this thread that writes the line in a second.
    fn takes(&self, told: u64, second: u64) -> bool {
        let taken = self
            .told
            .compare_exchange(told, second, Ordering::Relaxed, Ordering::Relaxed);
        taken.is_ok()
    }

    /// Writes the line over the one before. The outcomes are the most that one worker has found: of those of several workers some are
    /// the same.
    fn write(&self, second: u64) {
        let done = self.done.load(Ordering::Relaxed);
        let seeds = self.seeds.load(Ordering::Relaxed);
        let runs = self.runs.load(Ordering::Relaxed);
        let outcomes = self.outcomes.load(Ordering::Relaxed);
        // Nothing is left to do where standard error takes no line.
        let _ = eprint!(self.rt;
            "\r\x1b[Ktau: storm, {done} of {seeds} seeds, {runs} runs, at least {outcomes} outcomes, {second} s\r"
        );
    }
}

impl<'r, R: Clock + Eprint> Watch for Progress<'r, R> {
    fn begin(&self, seeds: u32) {
        self.begun.store(self.now(), Ordering::Relaxed);
        self.seeds.store(u64::from(seeds), Ordering::Relaxed);
    }

    fn run_made(&self, outcomes: usize) {
        if !self.is_shown {
            return;
        }
        self.runs.fetch_add(1, Ordering::Relaxed);
        let outcomes = outcomes as u64;
        if outcomes > self.outcomes.load(Ordering::Relaxed) {
            self.outcomes.store(outcomes, Ordering::Relaxed);
        }
        self.tell();
    }

    fn seed_done(&self) {
        self.done.fetch_add(1, Ordering::Relaxed);
    }

    fn end(&self) {
        if self.told.swap(0, Ordering::Relaxed) > 0 {
            let _ = eprint!(self.rt; "\r\x1b[K");
        }
    }
}

impl<'r, R> Gate for Progress<'r, R> {
    fn enter(&self, _worker: u32, _turn: u32) {}

    fn leave(&self, _worker: u32, _turn: u32) {}
}
