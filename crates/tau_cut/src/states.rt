//! The states that are kept with a set of Checkpoints, transactor by transactor.
ghost use Rattle.std.specs.Prelude.{◌≡◌, ◌<◌, Some, length, set, IfOk, OnOk};
ghost use Rattle.tau_trace.specs.Run.{len};
ghost use Rattle.tau_trace.specs.Known.{WellFormed};
ghost use Rattle.tau_script.specs.Openings.{program_opening};
ghost use Rattle.tau_states.specs.Opening.{opening_states};
ghost use Rattle.tau_states.specs.Table.{Advances, Holds};
ghost use Rattle.tau_cut.specs.Inner.Keeping as kept_specs;
ghost use Rattle.tau_cut.specs.Inner.Keeping.{KeepsOf, KeepsClosed, KeepsHeld, AreKept};
ghost use Rattle.tau_cut.specs.Cuts.{places_in, IsCut};
ghost use Rattle.tau_cut.specs.KeptStates.{AreKeptWith, AreKeptStates};

use crate::cut::Cut;
use crate::kept::kept_places;
use crate::marking::greatest;
use std::alloc::{AllocError, Global};
use std::marker::Model;
use tau_states::{StateRecord, States};
use tau_trace::{Step, Trace};
use tau_tree::{Program, Starts};
use tau_value::Value;

/// What is kept of a transactor with a set of Checkpoints (docs/definitions.md, "Consistent").
#[derive(Drop)]
pub struct Kept {
    /// The interval after the greatest with which the transactor is kept.
    pub interval: u32,
    /// What it saved with that one.
    pub value: Value,
}

/// What is kept of each transactor of a trace, by number: `None` for one that is kept with no interval. Contracts see it as its
/// list.
#[derive(Drop)]
pub struct KeptStates {
    states: Vec<Option<Kept>>,
}

impl Model for KeptStates {
    ghost use Rattle.std.specs.Prelude.{List, Option};
    ghost use Rattle.std.specs.Coded.{codes};
    ghost use Rattle.tau_cut.specs.declared.states.Kept.{Kept};
    ghost use Rattle.tau_cut.specs.contracts.states.Kept as kept;

    ghost Value = { List (Option Kept) };

    ghost coded = { Prim.hlevel (codes, kept.the_row.coded) };

    ghost view = { λ s. s.states.items };
}

impl KeptStates {
    /// What is kept of each transactor.
    pub fn states(&self) -> &[Option<Kept>]
        ensures { result.now ≡ self.now }
    {
        &self.states
    }
}

/// The states after a trace, and what is kept of each of its transactors with a set of Checkpoints.
#[derive(Drop)]
pub struct EndStates {
    /// The states after the trace.
    pub states: States,
    /// What is kept of each transactor.
    pub kept: KeptStates,
}

/// What a record tells of the interval before its own.
fn kept_of(saved: &StateRecord) -> Result<Kept, AllocError>
    ensures { IfOk result (λ k. k ≡ kept_specs.kept_of saved.now) }
{
    Ok(Kept {
        interval: saved.interval,
        value: saved.base.copy()?,
    })
}

/// What is kept at first: the opening states of starts, and nothing of others.
fn kept_first(
    alloc: Global,
    records: &[StateRecord],
    born: u32,
) -> Result<Vec<Option<Kept>>, AllocError>
    ensures { IfOk result (λ v. kept_specs.IsKeptFirst records.now born v.items) }
{
    let mut kept = Vec::new(alloc);
    for record in records {
        kept.push(Some(kept_of(record)?))?;
    }
    for _who in records.len()..born as usize {
        kept.push(None)?;
    }
    Ok(kept)
}

/// Keeps what the record of a transactor tells.
fn keep(states: &States, kept: &mut Vec<Option<Kept>>, who: u32) -> Result<(), AllocError>
    ensures { OnOk result (KeepsOf states.now.records who kept.old.items kept.new.items) }
{
    match states.record_of(who) {
        Some(record) => put(kept, who, record),
        None => Ok(()),
    }
}

/// Keeps what a record tells, at the place of its transactor.
fn put(kept: &mut Vec<Option<Kept>>, who: u32, saved: &StateRecord) -> Result<(), AllocError>
    ensures { OnOk result (who < length kept.old.items → kept.new.items ≡ set kept.old.items who (Some (kept_specs.kept_of saved.now))) }
{
    let one = kept_of(saved)?;
    if who as usize >= kept.len() {
        return Ok(());
    }
    kept[who as usize] = Some(one);
    Ok(())
}

/// Keeps what a Checkpoint saved, by the states after it; other steps save nothing.
fn keep_closed(states: &States, kept: &mut Vec<Option<Kept>>, step: &Step) -> Result<(), AllocError>
    ensures { OnOk result (KeepsClosed step.now states.now.records kept.old.items kept.new.items) }
{
    match step {
        Step::Checkpoint { who } => keep(states, kept, *who),
        _ => Ok(()),
    }
}

/// Notes the next step of the run; what a Checkpoint that is held saved is kept.
fn note(
    states: &mut States,
    kept: &mut Vec<Option<Kept>>,
    step: &Step,
    held: bool,
) -> Result<(), AllocError>
    ensures states { OnOk result (Advances step.now states.old.records states.new.records) }
    ensures kept { OnOk result (KeepsHeld held step.now states.new.records kept.old.items kept.new.items) }
{
    states.note(step)?;
    if held {
        keep_closed(states, kept, step)?;
    }
    Ok(())
}

/// The states after a trace, and what is kept of each transactor with the marked Checkpoints: what it saved with the greatest of its
/// intervals that one of them ended, or its opening state where a start has none. One pass over the steps.
fn states_kept(
    alloc: Global,
    starts: &Starts,
    trace: &Trace,
    marks: &[bool],
) -> Result<EndStates, AllocError>
    requires starts { length trace.now.run.opening.names ≡ length starts.now }
    requires marks { length marks.now ≡ len trace.now.run }
    ensures well_formed { OnOk result (WellFormed trace.now.run) }
    ensures states { IfOk result (λ e. Holds trace.now.run (opening_states starts.now) e.states.records) }
    ensures kept { IfOk result (λ e. AreKept trace.now.run (opening_states starts.now) marks.now (len trace.now.run) e.kept) }
{
    let mut states = States::open(alloc, starts)?;
    let mut kept = kept_first(alloc, states.records(), trace.born())?;
    for place in 0..trace.len() {
        match trace.step(place) {
            Some(step) => note(&mut states, &mut kept, step, marks[place as usize])?,
            None => unreachable!(),
        }
    }
    Ok(EndStates {
        states,
        kept: KeptStates { states: kept },
    })
}

/// The states after a trace, and what is kept of each transactor with the Checkpoints that a cut marks In. The error is want of memory.
pub(crate) fn states_with(
    alloc: Global,
    program: &Program,
    trace: &Trace,
    cut: &Cut,
) -> Result<EndStates, AllocError>
    requires opening { trace.now.run.opening ≡ program_opening program.now }
    requires cut { IsCut trace.now.run cut.now }
    ensures states { IfOk result (λ e. Holds trace.now.run (opening_states program.now.starts) e.states.records) }
    ensures kept { IfOk result (λ e. AreKeptWith program.now trace.now.run (places_in cut.now) e.kept) }
{
    let marks = kept_places(alloc, trace, cut)?;
    states_kept(alloc, &program.starts, trace, &marks)
}

/// The states after a trace, and what is kept of each transactor with the greatest consistent set of Checkpoints (docs/definitions.md,
/// "Consistent"). It takes the time of `greatest` and one pass over the steps. The error is want of memory.
pub fn end_states(alloc: Global, program: &Program, trace: &Trace) -> Result<EndStates, AllocError>
    requires { trace.now.run.opening ≡ program_opening program.now }
    ensures states { IfOk result (λ e. Holds trace.now.run (opening_states program.now.starts) e.states.records) }
    ensures kept { IfOk result (λ e. AreKeptStates program.now trace.now.run e.kept) }
{
    let cut = greatest(alloc, trace)?;
    states_with(alloc, program, trace, &cut)
}
