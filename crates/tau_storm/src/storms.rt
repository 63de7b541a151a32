//! The storm over several seeds.
ghost use Rattle.std.specs.Prelude.{◌≡◌, ℕ, List, IfOk, OnOk};
ghost use Rattle.tau_tree.specs.Sound.{Sound};
ghost use Rattle.tau_faults.specs.Visits.{IsSetting};
ghost use Rattle.tau_faults.specs.Ends.{End};
ghost use Rattle.tau_faults.specs.Inner.Walking.{HasSeen};
ghost use Rattle.tau_storm.specs.Seeds.{AreEndsOfSeeds};
ghost use Rattle.tau_storm.specs.Tables.{IsTable};
ghost use Rattle.tau_storm.specs.Claims.{IsTried};
ghost use Rattle.tau_storm.specs.Inner.Telling.{TellsEnds};
ghost use Rattle.tau_storm.specs.Inner.Claiming.{IsTrial, IsFirstOf};
ghost use Rattle.tau_storm.specs.Storms.{HasOutcomes, HasTried};

use crate::trials::Trial;
use crate::watching::{Watch, Watched};
use crate::{Outcome, Outcomes, Table, Totals};
use std::alloc::{AllocError, Global};
use tau_faults::{Setting, Visit, visit_ends};
use tau_tree::Program;

/// What a storm comes to: its outcomes, in order, and what is counted over all its ends.
#[derive(Drop)]
pub struct Told {
    pub outcomes: Outcomes,
    pub totals: Totals,
}

/// What a storm comes to in which a claim is tried, and the first of the outcomes of the ends at which it is broken, if it is.
#[derive(Drop)]
pub struct Tried {
    pub told: Told,
    pub broken: Option<Outcome>,
}

/// The outcomes of the storm of a program over so many seeds from this one on (docs/definitions.md, "Storm"). The watch is told of each
/// run and of each seed. The error is want of memory, or of numbers: a storm of 2^64 runs or steps can't be counted. The program is the
/// same afterwards; after an error its script may be another.
pub fn storm<W: Watch>(
    alloc: Global,
    program: &mut Program,
    setting: &Setting,
    seed: u64,
    seeds: u32,
    watch: &W,
) -> Result<Told, AllocError>
    requires sound { Sound program.old }
    requires setting { IsSetting setting.now }
    ensures program { OnOk result (program.new ≡ program.old) }
    ensures told { IfOk result (λ t. HasOutcomes setting.now program.old seed seeds t.outcomes t.totals) }
{
    let mut table = Watched {
        visitor: Table::new(alloc),
        watch,
    };
    visit_seeds(alloc, program, setting, seed, seeds, &mut table, watch)?;
    told_of(alloc, table.visitor)
}

/// The same, with a behaviour that is tried as a claim at each end.
pub fn try_claim<W: Watch>(
    alloc: Global,
    program: &mut Program,
    setting: &Setting,
    seed: u64,
    seeds: u32,
    behaviour: u32,
    watch: &W,
) -> Result<Tried, AllocError>
    requires sound { Sound program.old }
    requires setting { IsSetting setting.now }
    ensures program { OnOk result (program.new ≡ program.old) }
    ensures tried { IfOk result (λ t. HasTried setting.now program.old seed seeds behaviour t.told.outcomes t.told.totals t.broken) }
{
    let mut trial = Watched {
        visitor: Trial::new(alloc, behaviour),
        watch,
    };
    visit_seeds(alloc, program, setting, seed, seeds, &mut trial, watch)?;
    tried_of(alloc, trial.visitor)
}

/// Shows a visitor the ends of the storm of a program over so many seeds from this one on, seed by seed. The error is want of memory. The
/// program is the same afterwards; after an error its script may be another.
pub(crate) fn visit_seeds<V: Visit, W: Watch>(
    alloc: Global,
    program: &mut Program,
    setting: &Setting,
    seed: u64,
    seeds: u32,
    visitor: &mut V,
    watch: &W,
) -> Result<(), AllocError>
    requires sound { Sound program.old }
    requires setting { IsSetting setting.now }
    ensures program { OnOk result (program.new ≡ program.old) }
    ensures ends { OnOk result (HasSeen V.visits (AreEndsOfSeeds setting.now program.old seed seeds) visitor.old visitor.new) }
{
    for number in 0..seeds {
        let seed = seed.wrapping_add(u64::from(number));
        visit_ends(alloc, program, setting, seed, visitor)?;
        watch.seed_done();
    }
    Ok(())
}

/// What a trial comes to. The error is want of memory.
pub(crate) fn tried_of(alloc: Global, trial: Trial) -> Result<Tried, AllocError>
    ensures { IfOk result (λ t. (behaviour : ℕ) (ends : List End) → IsTrial behaviour ends trial → TellsEnds ends t.told × IsTried behaviour ends t.broken) }
{
    Ok(Tried {
        broken: first_of(alloc, trial.broken)?,
        told: told_of(alloc, trial.all)?,
    })
}

/// The outcomes of a table, in order, and its totals.
pub(crate) fn told_of(alloc: Global, table: Table) -> Result<Told, AllocError>
    ensures { IfOk result (λ t. (ends : List End) → IsTable ends table → TellsEnds ends t) }
{
    let totals = table.totals();
    Ok(Told {
        outcomes: table.into_outcomes(alloc)?,
        totals,
    })
}

/// The first outcome of a table, if it has one.
fn first_of(alloc: Global, table: Table) -> Result<Option<Outcome>, AllocError>
    ensures { IfOk result (λ o. (ends : List End) → IsTable ends table → IsFirstOf ends o) }
{
    let outcomes = table.into_outcomes(alloc)?;
    Ok(outcomes.into_first())
}
