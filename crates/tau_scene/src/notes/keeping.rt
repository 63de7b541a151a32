//! What is kept of transactors with the Checkpoints that a cut holds.
ghost use Rattle.std.specs.Prelude.{◌≡◌, ◌<◌, ◌+◌, ℕ, List, Option, Some, None, IfOk, OnOk, length, slice_get, option_and_then};
ghost use Rattle.tau_value.specs.declared.shared.Value.{Value};
ghost use Rattle.tau_trace.specs.Run.{len, step_at};
ghost use Rattle.tau_trace.specs.Known.{WellFormed};
ghost use Rattle.tau_states.specs.Opening.{opening_states};
ghost use Rattle.tau_layout.specs.Plans.{IsPlan};
ghost use Rattle.tau_scene.specs.Notes.Inner.Noting.{NotesStep};
ghost use Rattle.tau_scene.specs.Notes.Inner.Keeping.{closer, AreKept, PutsAt, KeepsStep};

use std::alloc::{AllocError, Global};
use tau_layout::Layout;
use tau_states::States;
use tau_trace::{Step, Trace};
use tau_tree::Starts;
use tau_value::Value;

/// What is kept of a transactor: the place of a Checkpoint, and the value that it saved.
#[derive(Drop)]
pub(crate) struct Kept {
    pub(crate) place: u32,
    pub(crate) value: Value,
}

/// Keeps something at a rank, if there is one.
fn put(kept: &mut Vec<Option<Kept>>, rank: Option<usize>, one: Kept)
    ensures { PutsAt rank one kept.old.items kept.new.items }
{
    let Some(rank) = rank else {
        return;
    };
    if rank >= kept.len() {
        return;
    }
    kept[rank] = Some(one);
}

/// Nothing is kept of so many transactors.
fn none_kept(alloc: Global, count: usize) -> Result<Vec<Option<Kept>>, AllocError>
    ensures count { IfOk result (λ v. length v.items ≡ count) }
    ensures none { IfOk result (λ v. (rank : ℕ) (o : Option Kept) → slice_get v.items rank ≡ Some o → o ≡ None) }
{
    let mut kept = Vec::with_capacity(alloc, count)?;
    for _rank in 0..count {
        kept.push(None)?;
    }
    Ok(kept)
}

/// The transactor whose Checkpoint stands at a place; `None` where none stands there.
fn closer_at(trace: &Trace, place: u32) -> Option<u32>
    ensures { result ≡ option_and_then closer (step_at trace.now.run place) }
{
    match trace.step(place) {
        Some(Step::Checkpoint { who }) => Some(*who),
        _ => None,
    }
}

/// Keeps what the Checkpoint at a place saved, by the states behind it; other steps save nothing.
fn keep(
    kept: &mut Vec<Option<Kept>>,
    states: &States,
    layout: &Layout,
    trace: &Trace,
    marks: &[bool],
    place: u32,
) -> Result<(), AllocError>
    requires well_formed { WellFormed trace.now.run }
    requires plan { IsPlan trace.now.run layout.now.window layout.now }
    requires place { place < len trace.now.run }
    requires marks { length marks.now ≡ len trace.now.run }
    ensures { OnOk result (KeepsStep trace.now.run layout.now marks.now place states.now.records kept.old.items kept.new.items) }
{
    if !marks[place as usize] {
        return Ok(());
    }
    let Some(who) = closer_at(trace, place) else {
        return Ok(());
    };
    let Some(value) = states.saved_of(who) else {
        return Ok(());
    };
    let one = Kept {
        place,
        value: value.copy()?,
    };
    put(kept, layout.rank(who), one);
    Ok(())
}

/// Notes the step at a place, and keeps what it saved.
fn note(
    states: &mut States,
    kept: &mut Vec<Option<Kept>>,
    layout: &Layout,
    trace: &Trace,
    marks: &[bool],
    place: u32,
) -> Result<(), AllocError>
    requires well_formed { WellFormed trace.now.run }
    requires plan { IsPlan trace.now.run layout.now.window layout.now }
    requires place { place < len trace.now.run }
    requires marks { length marks.now ≡ len trace.now.run }
    ensures states { OnOk result (NotesStep trace.now.run place states.old.records states.new.records) }
    ensures kept { OnOk result (KeepsStep trace.now.run layout.now marks.now place states.new.records kept.old.items kept.new.items) }
{
    let Some(step) = trace.step(place) else {
        unreachable!()
    };
    states.note(step)?;
    keep(kept, states, layout, trace, marks, place)?;
    Ok(())
}

/// For the transactor of each lane, by rank, the last marked Checkpoint and what it saved. One pass over the trace.
pub(crate) fn kept_of_lanes(
    alloc: Global,
    starts: &Starts,
    trace: &Trace,
    layout: &Layout,
    marks: &[bool],
) -> Result<Vec<Option<Kept>>, AllocError>
    requires well_formed { WellFormed trace.now.run }
    requires starts { length trace.now.run.opening.names ≡ length starts.now }
    requires plan { IsPlan trace.now.run layout.now.window layout.now }
    requires marks { length marks.now ≡ len trace.now.run }
    ensures { IfOk result (λ v. AreKept trace.now.run (opening_states starts.now) layout.now.lanes marks.now (len trace.now.run) v.items) }
{
    let mut states = States::open(alloc, starts)?;
    let mut kept = none_kept(alloc, layout.columns().len())?;
    for place in 0..trace.len() {
        note(&mut states, &mut kept, layout, trace, marks, place)?;
    }
    Ok(kept)
}
