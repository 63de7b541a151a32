//! The walk through a storm.
ghost use Rattle.std.specs.Prelude.{◌≡◌, ◌<◌, ◌+◌, [], ◌∷◌, ◌++◌, List, All, length, IfOk, OnOk};
ghost use Rattle.tau_value.specs.declared.limits.TheConstants.{ENTRY_LIMIT};
ghost use Rattle.tau_tree.specs.declared.entries.Entry.{Entry};
ghost use Rattle.tau_tree.specs.Sound.{Sound};
ghost use Rattle.tau_trace.specs.Run.{Run, len};
ghost use Rattle.tau_book.specs.SerialRun.{IsSerialRun};
ghost use Rattle.tau_faults.specs.Faults.{fewer, with_entry};
ghost use Rattle.tau_faults.specs.Ends.{EndsFrom, EndsBelow, EndsWith};
ghost use Rattle.tau_faults.specs.Visits.{IsSetting, HasSeenAll};
ghost use Rattle.tau_faults.specs.Inner.Here.{CanBePlaced};
ghost use Rattle.tau_faults.specs.Inner.Walking.{AreFew, IsFaultAt, HasSeen};

use crate::faults::{come_to, go_on};
use crate::placing::{Spot, is_over, one_fewer, place_fault};
use crate::{FaultCounts, Setting, Visit};
use std::alloc::{AllocError, Global};
use tau_book::run_serially;
use tau_revival::laws::cursors_lead_on;
use tau_script::Cursor;
use tau_script::laws::scripts_are_local;
use tau_trace::Trace;
use tau_trace::laws::local_by_agreement;
use tau_tree::{Failure, Program};

/// A storm with one seed.
#[derive(Clone, Copy)]
struct Storm {
    setting: Setting,
    seed: u64,
}

/// How far the faults of a program have come: how many of each kind are left, the first place at which the next one may come, and how
/// many there are.
#[derive(Clone, Copy)]
struct Progress {
    left: FaultCounts,
    from: u32,
    placed: u32,
}

/// Shows the visitor the ends of the storm of a program with a seed, one after another, in their order (docs/definitions.md, "Storm").
/// Each run is made from its beginning; what takes memory is, for each fault that is placed, a run, its first steps once more and a script,
/// and the visitor. The program is the same afterwards; without memory its script may be another.
pub fn visit_ends<V: Visit>(
    alloc: Global,
    program: &mut Program,
    setting: &Setting,
    seed: u64,
    visitor: &mut V,
) -> Result<(), AllocError>
    requires sound { Sound program.old }
    requires setting { IsSetting setting.now }
    ensures program { OnOk result (program.new ≡ program.old) }
    ensures ends { OnOk result (HasSeenAll V.visits setting.now seed program.old visitor.old visitor.new) }
{
    let storm = Storm {
        setting: *setting,
        seed,
    };
    let progress = Progress {
        left: setting.faults,
        from: 0,
        placed: 0,
    };
    visit_from(alloc, program, storm, progress, visitor)
}

/// Shows the visitor the ends that come from the program: that of its own run, and those with a next fault.
#[cycle(visit)]
fn visit_from<V: Visit>(
    alloc: Global,
    program: &mut Program,
    storm: Storm,
    progress: Progress,
    visitor: &mut V,
) -> Result<(), AllocError>
    requires sound { Sound program.old }
    requires setting { IsSetting storm.setting }
    requires few { AreFew progress.placed progress.left }
    ensures program { OnOk result (program.new ≡ program.old) }
    ensures ends { OnOk result ((faults : List Entry) → length faults ≡ progress.placed
        → HasSeen V.visits (EndsFrom storm.setting storm.seed progress.left progress.from faults program.old) visitor.old visitor.new) }
{
    let trace = visit_own(alloc, program, storm, progress.placed, visitor)?;
    if is_over(progress.left, &program.script) {
        return Ok(());
    }
    visit_further(alloc, program, storm, progress, &trace, visitor)
}

/// Shows the visitor the end that is the program's own run, and gives the trace.
fn visit_own<V: Visit>(
    alloc: Global,
    program: &Program,
    storm: Storm,
    placed: u32,
    visitor: &mut V,
) -> Result<Trace, AllocError>
    requires sound { Sound program.now }
    requires setting { IsSetting storm.setting }
    ensures serial { IfOk result (λ t. IsSerialRun program.now storm.setting.jobs storm.seed storm.setting.steps t.run) }
    ensures visits { IfOk result (λ t. (faults : List Entry) → length faults ≡ placed
        → V.visits visitor.old (record { seed = storm.seed; program = program.now; faults = faults; run = t.run }) visitor.new) }
{
    let ran = run_serially(
        alloc,
        program,
        storm.setting.jobs,
        storm.seed,
        storm.setting.steps,
    )?;
    visitor.visit(program, storm.seed, placed, &ran)?;
    Ok(ran.trace)
}

/// Shows the visitor the ends with a next fault in the program's run, place by place.
#[cycle(visit)]
fn visit_further<V: Visit>(
    alloc: Global,
    program: &mut Program,
    storm: Storm,
    progress: Progress,
    trace: &Trace,
    visitor: &mut V,
) -> Result<(), AllocError>
    requires sound { Sound program.old }
    requires setting { IsSetting storm.setting }
    requires few { AreFew progress.placed progress.left }
    requires room { length program.old.script < ENTRY_LIMIT }
    ensures program { OnOk result (program.new ≡ program.old) }
    ensures ends { OnOk result ((faults : List Entry) → length faults ≡ progress.placed
        → HasSeen V.visits (EndsBelow storm.setting storm.seed progress.left progress.from faults program.old trace.now.run (len trace.now.run)) visitor.old visitor.new) }
{
    local_by_agreement();
    scripts_are_local();
    cursors_lead_on();
    let mut so_far = Trace::begin(alloc, trace.opening().copy()?)?;
    let mut cursor = Cursor::first();
    for place in 0..trace.len() {
        let faults = come_to(
            alloc,
            program,
            storm.setting.every,
            progress.left,
            progress.from,
            &mut cursor,
            &so_far,
        )?;
        let spot = Spot {
            place,
            entry: cursor.entry,
        };
        visit_each(alloc, program, storm, progress, spot, &faults, visitor)?;
        go_on(&mut so_far, trace, place)?;
    }
    Ok(())
}

/// Shows the visitor the ends whose next fault is one of these at one place, one fault after another.
#[cycle(visit)]
fn visit_each<V: Visit>(
    alloc: Global,
    program: &mut Program,
    storm: Storm,
    progress: Progress,
    spot: Spot,
    faults: &[Failure],
    visitor: &mut V,
) -> Result<(), AllocError>
    requires sound { Sound program.old }
    requires setting { IsSetting storm.setting }
    requires few { AreFew progress.placed progress.left }
    requires room { length program.old.script < ENTRY_LIMIT }
    requires place { spot.place < u32.MAX }
    requires placed { All (CanBePlaced progress.left program.old) faults.now }
    ensures program { OnOk result (program.new ≡ program.old) }
    ensures ends { OnOk result ((T : Run) (entries : List Entry) → length entries ≡ progress.placed
        → All (IsFaultAt storm.setting.every program.old T spot.place spot.entry) faults.now
        → HasSeen V.visits (EndsWith storm.setting storm.seed progress.left entries program.old T spot.place faults.now) visitor.old visitor.new) }
{
    for fault in faults {
        visit_with(alloc, program, storm, progress, spot, *fault, visitor)?;
    }
    Ok(())
}

/// Shows the visitor the ends that come from the program with one fault more.
#[cycle(visit)]
fn visit_with<V: Visit>(
    alloc: Global,
    program: &mut Program,
    storm: Storm,
    progress: Progress,
    spot: Spot,
    fault: Failure,
    visitor: &mut V,
) -> Result<(), AllocError>
    requires sound { Sound program.old }
    requires setting { IsSetting storm.setting }
    requires few { AreFew progress.placed progress.left }
    requires room { length program.old.script < ENTRY_LIMIT }
    requires place { spot.place < u32.MAX }
    requires placed { CanBePlaced progress.left program.old fault }
    ensures program { OnOk result (program.new ≡ program.old) }
    ensures ends { OnOk result ((entries : List Entry) → length entries ≡ progress.placed
        → HasSeen V.visits (EndsFrom storm.setting storm.seed (fewer progress.left fault) (spot.place + 1) (entries ++ record { at = spot.place; failure = fault } ∷ [])
        (with_entry program.old spot.entry (record { at = spot.place; failure = fault }))) visitor.old visitor.new) }
{
    let kept = place_fault(alloc, program, spot, fault)?;
    let further = Progress {
        left: one_fewer(progress.left, fault),
        from: spot.place + 1,
        placed: progress.placed + 1,
    };
    visit_from(alloc, program, storm, further, visitor)?;
    program.script = kept;
    Ok(())
}
