//! The hand of a worker.
ghost use Rattle.std.specs.Prelude.{◌≡◌, ◌<◌, ◌≤◌, ◌-◌, [], IfOk, length, fold};
ghost use Rattle.std.specs.Vec.{vec_capacity};
ghost use Rattle.rand_core.specs.Pcg32Seed.{pcg32_seed};
ghost use Rattle.rand_pcg.specs.Pcg.{pcg32, pcg32_of_seed};
ghost use Rattle.tau_book.specs.declared.limits.TheConstants.{JOB_LIMIT};
ghost use Rattle.tau_book.specs.Hands.{joined, IsNumbered};
ghost use Rattle.tau_book.specs.Books.{AreOfDifferentTurns};
ghost use Rattle.tau_book.specs.Offers.{open_jobs, stored};
ghost use Rattle.tau_book.specs.Inner.Returns.{AreOfTurns};
ghost use Rattle.tau_book.specs.Nexts.{begun_with};

use crate::jobs::{count_open, keep_open, place_of_number};
use crate::returns::give_all;
use rand_core::SeedableRng;
use rand_core::utils::NextWord;
use rand_pcg::Pcg32;
use std::alloc::{AllocError, Global};
use std::marker::Model;
use tau_eval::Job;
use tau_rules::Delivered;

/// The hand of a worker: the generator by whose words it chooses, and the jobs that it holds (docs/rules.md, "Choice of a worker").
/// Contracts see the generator, for how many jobs there is room, and the jobs in the order in which they came.
#[derive(Drop)]
pub struct Hand<'p> {
    pub(crate) generator: Pcg32,
    pub(crate) size: usize,
    pub(crate) jobs: Vec<Job<'p>>,
}

impl<'p> Model for Hand<'p> {
    ghost use Rattle.std.specs.Prelude.{◌≤◌, vec_len};
    ghost use Rattle.std.specs.Vec.{vec_capacity};
    ghost use Rattle.tau_book.specs.declared.limits.TheConstants.{JOB_LIMIT};
    ghost use Rattle.tau_book.specs.Hands.{Held, held_code};

    ghost Value = { Held };

    ghost coded = { held_code };

    ghost view = { λ h. record { generator = h.generator; size = h.size; jobs = h.jobs.items } };

    ghost invariant = { λ h. (vec_len h.jobs ≤ h.size) × (h.size ≤ vec_capacity h.jobs) × (1 ≤ h.size) × (h.size ≤ JOB_LIMIT) };
}

impl<'p> Hand<'p> {
    /// An empty hand, whose generator is `Pcg32` seeded with a number, with room for 1 to `JOB_LIMIT` jobs. The error is want
    /// of memory.
    pub fn new(alloc: Global, seed: u64, jobs: u32) -> Result<Hand<'p>, AllocError>
        requires some { 1 ≤ jobs }
        requires few { jobs ≤ JOB_LIMIT }
        ensures generator { IfOk result (λ h. h.generator ≡ pcg32_of_seed (pcg32_seed 16 seed)) }
        ensures size { IfOk result (λ h. h.size ≡ jobs) }
        ensures jobs { IfOk result (λ h. h.jobs ≡ []) }
    {
        let size = jobs as usize;
        Ok(Hand {
            generator: Pcg32::seed_from_u64(seed),
            size,
            jobs: Vec::with_capacity(alloc, size)?,
        })
    }

    /// How many jobs it holds.
    pub fn len(&self) -> usize
        ensures len { result ≡ length self.now.jobs }
        ensures within { length self.now.jobs ≤ self.now.size }
    {
        self.jobs.len()
    }

    /// How many more jobs fit.
    pub fn room(&self) -> usize
        ensures { result ≡ self.now.size - length self.now.jobs }
    {
        self.size - self.jobs.len()
    }

    /// Puts a job into the hand, which has room. It takes no memory.
    pub fn keep(&mut self, job: Job<'p>)
        requires { length self.old.jobs < self.old.size }
        ensures { self.new ≡ joined self.old job.entry }
    {
        self.jobs.push_reserved(job);
    }

    /// Gives up the jobs whose turn isn't one of these.
    pub(crate) fn keep_open(&mut self, turns: &[u32])
        ensures { self.new ≡ record self.old { jobs = open_jobs turns.now self.old.jobs } }
    {
        keep_open(turns, &mut self.jobs);
    }

    /// How many of its jobs are of one of these turns.
    pub(crate) fn count_open(&self, turns: &[u32]) -> usize
        ensures count { result ≡ length (open_jobs turns.now self.now.jobs) }
        ensures within { result ≤ self.now.size }
        ensures few { self.now.size ≤ JOB_LIMIT }
    {
        count_open(turns, &self.jobs)
    }

    /// For how many jobs there is room.
    pub(crate) fn size(&self) -> usize
        ensures size { result ≡ self.now.size }
        ensures some { 1 ≤ result }
    {
        self.size
    }

    /// Hands out the job that has a number by ascending turn, and has another generator then.
    pub(crate) fn hand_out(&mut self, number: usize, generator: Pcg32) -> Job<'p>
        requires { number < length self.old.jobs }
        ensures job { IsNumbered self.old.jobs number result self.new.jobs }
        ensures generator { self.new.generator ≡ generator }
        ensures size { self.new.size ≡ self.old.size }
    {
        self.generator = generator;
        let place = place_of_number(&self.jobs, number);
        self.jobs.remove(place)
    }

    /// Has another generator, and a job more where one began.
    pub(crate) fn take_in(&mut self, generator: Pcg32, delivered: Delivered<'p>)
        requires { length self.old.jobs < self.old.size }
        ensures { self.new ≡ record { generator = generator; size = self.old.size; jobs = begun_with self.old.jobs delivered.entry } }
    {
        self.generator = generator;
        match delivered {
            Delivered::Began(job) => self.jobs.push_reserved(job),
            Delivered::Dropped
            | Delivered::Fell
            | Delivered::Voided
            | Delivered::Echoed
            | Delivered::Heeded => {}
        }
    }

    /// Gives its jobs of these turns, which are the open ones, to the returned jobs, and is empty then.
    pub(crate) fn give_to(&mut self, turns: &[u32], store: &mut Vec<Job<'p>>)
        requires room { length turns.now ≤ vec_capacity store.old }
        requires differ { AreOfDifferentTurns store.old.items }
        requires open { AreOfTurns turns.now store.old.items }
        ensures hand { self.new ≡ record self.old { jobs = [] } }
        ensures store { store.new.items ≡ fold stored store.old.items (open_jobs turns.now self.old.jobs) }
        ensures differ { AreOfDifferentTurns store.new.items }
        ensures capacity { vec_capacity store.new ≡ vec_capacity store.old }
    {
        keep_open(turns, &mut self.jobs);
        give_all(turns, &mut self.jobs, store);
    }

    /// The next word of its generator, and the generator after it.
    pub(crate) fn next_word(&self) -> Result<(u32, Pcg32), AllocError>
        ensures { IfOk result (λ w. w ≡ pcg32 self.now.generator) }
    {
        let mut generator = self.generator.clone()?;
        let word = generator.next_word();
        Ok((word, generator))
    }
}
