//! The storm over several seeds, by several threads.
ghost use Rattle.std.specs.Prelude.{◌≡◌, ◌<◌, ◌≤◌, IfOk};
ghost use Rattle.tau_tree.specs.Sound.{Sound};
ghost use Rattle.tau_faults.specs.Visits.{IsSetting};
ghost use Rattle.tau_storm.specs.Storms.{HasOutcomes, HasTried};
ghost use Rattle.tau_storm.specs.Inner.Telling.{TellsEnds};
ghost use Rattle.tau_storm.specs.Inner.Claiming.{TellsTrial};
ghost use Rattle.tau_storm.specs.Inner.Dealing.{TellsPart};

use crate::Table;
use crate::apart::unshared;
use crate::dealing::Deal;
use crate::storms::{Told, Tried, storm, told_of, tried_of, visit_seeds};
use crate::trials::{Trial, TrialTold};
use crate::watching::{Watch, Watched};
use std::alloc::{AllocError, Global};
use std::thread;
use std::thread::Threads;
use tau_faults::Setting;
use tau_tree::Program;

/// What `storm` gives, made by so many workers, each in a thread of its own where one can be made (docs/rules.md, "Storm"). Each has
/// seeds that follow one another and a program of its own, so that what is told doesn't depend on them. The error is want of memory, or
/// of numbers, as there.
#[tactic(auto, using(crate::proofs::Sends::program_sync))]
pub fn storm_by_threads<R: Threads + Sync, W: Watch + Sync>(
    rt: &R,
    alloc: Global,
    program: &Program,
    setting: &Setting,
    seed: u64,
    seeds: u32,
    workers: u32,
    watch: &W,
) -> Result<Told, AllocError>
    requires sound { Sound program.now }
    requires setting { IsSetting setting.now }
    requires some { 1 ≤ workers }
    ensures told { IfOk result (λ t. HasOutcomes setting.now program.now seed seeds t.outcomes t.totals) }
{
    let deal = Deal {
        seed,
        seeds,
        workers,
    };
    let parts = thread::map_indices(
        rt,
        alloc,
        workers as usize,
        &|worker: usize| -> Result<Told, AllocError>
            requires { Sound program.now × IsSetting setting.now × (1 ≤ deal.workers) × (worker < deal.workers) }
            ensures { IfOk result (TellsPart TellsEnds setting.entry.now program.entry.now deal worker) }
        { storm_part(alloc, program, setting, deal, worker, watch) },
    )?;
    let mut table = Table::new(alloc);
    for part in parts {
        table.append(part?)?;
    }
    told_of(alloc, table)
}

/// What `try_claim` gives, made by so many workers in the same way.
#[tactic(auto, using(crate::proofs::Sends::program_sync))]
pub fn try_claim_by_threads<R: Threads + Sync, W: Watch + Sync>(
    rt: &R,
    alloc: Global,
    program: &Program,
    setting: &Setting,
    seed: u64,
    seeds: u32,
    workers: u32,
    behaviour: u32,
    watch: &W,
) -> Result<Tried, AllocError>
    requires sound { Sound program.now }
    requires setting { IsSetting setting.now }
    requires some { 1 ≤ workers }
    ensures tried { IfOk result (λ t. HasTried setting.now program.now seed seeds behaviour t.told.outcomes t.told.totals t.broken) }
{
    let deal = Deal {
        seed,
        seeds,
        workers,
    };
    let parts = thread::map_indices(
        rt,
        alloc,
        workers as usize,
        &|worker: usize| -> Result<TrialTold, AllocError>
            requires { Sound program.now × IsSetting setting.now × (1 ≤ deal.workers) × (worker < deal.workers) }
            ensures { IfOk result (TellsPart (TellsTrial behaviour) setting.entry.now program.entry.now deal worker) }
        { trial_part(alloc, program, setting, deal, worker, behaviour, watch) },
    )?;
    let mut trial = Trial::new(alloc, behaviour);
    for part in parts {
        trial.append(part?)?;
    }
    tried_of(alloc, trial)
}

/// What the storm over a worker's seeds comes to.
fn storm_part<W: Watch>(
    alloc: Global,
    program: &Program,
    setting: &Setting,
    deal: Deal,
    worker: usize,
    watch: &W,
) -> Result<Told, AllocError>
    requires sound { Sound program.now }
    requires setting { IsSetting setting.now }
    requires some { 1 ≤ deal.workers }
    requires worker { worker < deal.workers }
    ensures { IfOk result (TellsPart TellsEnds setting.now program.now deal worker) }
{
    let mut own = unshared(alloc, program)?;
    let worker = worker as u32;
    storm(
        alloc,
        &mut own,
        setting,
        deal.first(worker),
        deal.count(worker),
        watch,
    )
}

/// What is told of a trial of a behaviour at the ends of a worker's seeds.
fn trial_part<W: Watch>(
    alloc: Global,
    program: &Program,
    setting: &Setting,
    deal: Deal,
    worker: usize,
    behaviour: u32,
    watch: &W,
) -> Result<TrialTold, AllocError>
    requires sound { Sound program.now }
    requires setting { IsSetting setting.now }
    requires some { 1 ≤ deal.workers }
    requires worker { worker < deal.workers }
    ensures { IfOk result (TellsPart (TellsTrial behaviour) setting.now program.now deal worker) }
{
    let mut own = unshared(alloc, program)?;
    let mut trial = Watched {
        visitor: Trial::new(alloc, behaviour),
        watch,
    };
    let worker = worker as u32;
    visit_seeds(
        alloc,
        &mut own,
        setting,
        deal.first(worker),
        deal.count(worker),
        &mut trial,
        watch,
    )?;
    trial.visitor.told(alloc)
}
