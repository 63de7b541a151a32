//! A program with one more fault in its script.
ghost use Rattle.std.specs.Prelude.{◌≡◌, ◌⊎◌, ◌+◌, ◌<◌, ◌≤◌, length, IsTrue, IsFalse, IfOk, OnOk, ◌++◌};
ghost use Rattle.tau_value.specs.declared.limits.TheConstants.{ENTRY_LIMIT};
ghost use Rattle.tau_tree.specs.Sound.{Sound, IsSoundFailure};
ghost use Rattle.tau_faults.specs.Faults.{inserted, with_entry, left_of, fewer};
ghost use Rattle.tau_faults.specs.Inner.Walking.{sum_of};

use crate::FaultCounts;
use std::alloc::{AllocError, Global};
use std::mem;
use tau_tree::{Entry, Failure, Program, Script};
use tau_value::ENTRY_LIMIT;

/// Where a fault is placed: before the step at a place of the run, its entry before this one of the script.
#[derive(Clone, Copy)]
pub(crate) struct Spot {
    pub(crate) place: u32,
    pub(crate) entry: u32,
}

/// Whether no more faults can come: none is left, or the script is full.
pub(crate) fn is_over(left: FaultCounts, script: &Script) -> bool
    ensures over { IsTrue result → (sum_of left ≡ 0) ⊎ (ENTRY_LIMIT ≤ length script.now) }
    ensures room { IsFalse result → length script.now < ENTRY_LIMIT }
{
    let none_left = left.fails == 0 && left.losses == 0 && left.repeats == 0;
    none_left || script.len() >= ENTRY_LIMIT as usize
}

/// One fewer of a fault's kind.
#[tactic(auto, using(crate::proofs::PlacingLemmas::sum_fewer))]
pub(crate) fn one_fewer(left: FaultCounts, fault: Failure) -> FaultCounts
    requires { 0 < left_of left fault }
    ensures left { result ≡ fewer left fault }
    ensures sum { sum_of result + 1 ≡ sum_of left }
{
    match fault {
        Failure::Fail { .. } => FaultCounts {
            fails: left.fails - 1,
            ..left
        },
        Failure::Lose { .. } => FaultCounts {
            losses: left.losses - 1,
            ..left
        },
        Failure::Repeat { .. } => FaultCounts {
            repeats: left.repeats - 1,
            ..left
        },
    }
}

/// Puts one more fault into the program's script, and gives the script as it was. The error is want of memory.
pub(crate) fn place_fault(
    alloc: Global,
    program: &mut Program,
    spot: Spot,
    fault: Failure,
) -> Result<Script, AllocError>
    requires sound { Sound program.old }
    requires room { length program.old.script < ENTRY_LIMIT }
    requires fault { IsSoundFailure program.old.nodes program.old.version fault }
    ensures kept { IfOk result (λ s. s ≡ program.old.script) }
    ensures placed { OnOk result (program.new ≡ with_entry program.old spot.entry (record { at = spot.place; failure = fault })) }
    ensures sound { OnOk result (Sound program.new) }
{
    let entry = Entry {
        at: spot.place,
        failure: fault,
    };
    let script = with_inserted(alloc, &program.script, spot.entry, entry)?;
    Ok(mem::replace(&mut program.script, script))
}

/// The script with one more entry before entry number `before`, or at the end where there are fewer. The error is want of memory.
fn with_inserted(
    alloc: Global,
    script: &Script,
    before: u32,
    entry: Entry,
) -> Result<Script, AllocError>
    ensures { IfOk result (λ s. s ≡ inserted script.now before entry) }
{
    let items = script.items();
    let split = items.len().min(before as usize);
    let mut more = Script::new(alloc);
    add_all(&mut more, &items[..split])?;
    more.add(entry)?;
    add_all(&mut more, &items[split..])?;
    Ok(more)
}

/// Adds entries at the end.
fn add_all(script: &mut Script, items: &[Entry]) -> Result<(), AllocError>
    ensures { OnOk result (script.new ≡ script.old ++ items.now) }
{
    for item in items {
        script.add(*item)?;
    }
    Ok(())
}
