//! Jobs for the open turns that have none.
ghost use Rattle.std.specs.Prelude.{◌≡◌, ◌++◌, ◌∷◌, [], ℕ, List, Some, IfOk, OnOk, OnErr};
ghost use Rattle.tau_trace.specs.Run.{len};
ghost use Rattle.tau_trace.specs.Turns.{IsOpenTurn};
ghost use Rattle.tau_rules.specs.Answers.{IsOpenJob};
ghost use Rattle.tau_rules.specs.Inner.Acting.{IsTaker};
ghost use Rattle.tau_queue.specs.OpenTurns.{IsOpenFrom};
ghost use Rattle.tau_book.specs.Adopted.{AreMissing, IsAdopted};

use crate::Book;
use crate::jobs::keep_open;
use crate::returns::{give_all, has_of};
use std::alloc::{AllocError, Global};
use tau_eval::Job;
use tau_knowledge::Knowledge;
use tau_queue::Scripted;
use tau_trace::{Step, Trace};

impl<'p, K: Knowledge + Drop> Book<'p, K> {
    /// Gives up the returned jobs whose turn isn't open, and makes a job for each open turn of which there is none, that of the record
    /// (docs/rules.md, "Workers"): each open turn has exactly one then. It tells how many it made. The error is want of memory, and
    /// nothing is different then.
    pub fn adopt(&mut self) -> Result<u32, AllocError>
        ensures ok { IfOk result (IsAdopted self.old self.new) }
        ensures err { OnErr result (self.new ≡ self.old) }
    {
        let turns = self.scripted.turns();
        let mut made = missing_jobs(self.alloc, &self.scripted, &self.store)?;
        let count = made.len() as u32;
        keep_open(turns, &mut self.store);
        give_all(turns, &mut made, &mut self.store);
        Ok(count)
    }
}

/// The jobs of the records of the open turns of which none of these is, by ascending turn. The error is want of memory.
fn missing_jobs<'p, K: Knowledge + Drop>(
    alloc: Global,
    scripted: &Scripted<'p, K>,
    jobs: &[Job<'p>],
) -> Result<Vec<Job<'p>>, AllocError>
    ensures { IfOk result (λ v. AreMissing scripted.now.system.program scripted.now.system.run jobs.now scripted.now.turns v.items) }
{
    let turns = scripted.turns();
    let mut made = Vec::new(alloc);
    for turn in turns {
        add_missing(&mut made, scripted, jobs, *turn)?;
    }
    Ok(made)
}

/// Adds the job of the record of an open turn, unless one of these jobs is of it. The error is want of memory.
fn add_missing<'p, K: Knowledge + Drop>(
    made: &mut Vec<Job<'p>>,
    scripted: &Scripted<'p, K>,
    jobs: &[Job<'p>],
    turn: u32,
) -> Result<(), AllocError>
    requires { IsOpenFrom scripted.now.system.run turn }
    ensures { OnOk result ((front : List ℕ) → AreMissing scripted.now.system.program scripted.now.system.run jobs.now front made.old.items
        → AreMissing scripted.now.system.program scripted.now.system.run jobs.now (front ++ turn ∷ []) made.new.items) }
{
    if has_of(jobs, turn) {
        return Ok(());
    }
    let job = job_from(scripted, turn)?;
    made.push(job)?;
    Ok(())
}

/// The job of the record of the turn that is open from a place. The error is want of memory.
fn job_from<'p, K: Knowledge + Drop>(
    scripted: &Scripted<'p, K>,
    turn: u32,
) -> Result<Job<'p>, AllocError>
    requires { IsOpenFrom scripted.now.system.run turn }
    ensures place { IfOk result (λ j. j.place ≡ turn) }
    ensures job { IfOk result (λ j. IsOpenJob scripted.now.system.program scripted.now.system.run j) }
{
    let system = scripted.system();
    let who = actor_of(system.trace(), turn);
    let found = system.job_of(who)?;
    match found {
        Some(job) => Ok(job),
        None => unreachable!(),
    }
}

/// The transactor whose turn is open from a place.
fn actor_of(trace: &Trace, place: u32) -> u32
    requires { IsOpenFrom trace.now.run place }
    ensures { IsOpenTurn trace.now.run result (len trace.now.run) (Some place) }
{
    match taker(trace, place) {
        Some(who) => who,
        None => unreachable!(),
    }
}

/// The transactor of the Take at a place; `None` where none stands there.
fn taker(trace: &Trace, place: u32) -> Option<u32>
    ensures { IsTaker trace.now.run place result }
{
    match trace.step(place) {
        Some(Step::Take { who, .. }) => Some(*who),
        _ => None,
    }
}
