//! What is shown of steps.
ghost use Rattle.std.specs.Prelude.{◌≡◌, ◌<◌, ◌≤◌, List, Some, IfOk, OnOk, option_copied, length};
ghost use Rattle.tau_value.specs.declared.shared.Value.{Value};
ghost use Rattle.tau_trace.specs.Run.{Run, len, step_at};
ghost use Rattle.tau_trace.specs.Known.{WellFormed};
ghost use Rattle.tau_states.specs.Opening.{opening_states};
ghost use Rattle.tau_states.specs.Table.{Holds};
ghost use Rattle.tau_cut.specs.Cuts.{IsCut};
ghost use Rattle.tau_scene.specs.Causes.Looks.{AreStepMarks};
ghost use Rattle.tau_scene.specs.Notes.Looks.{AreStepLooks};
ghost use Rattle.tau_scene.specs.Notes.Inner.Noting.{first_steps, IsSavedBy, IsNoteBy, NotesStep, IsLookBy};

use crate::causes::StepMark;
use crate::looks::StepLook;
use crate::notes::notes::{cause_of, note_of};
use std::alloc::{AllocError, Global};
use tau_cut::Cut;
use tau_states::States;
use tau_svg::shapes::Window;
use tau_trace::{Step, Trace};
use tau_tree::{Program, Starts};
use tau_value::Value;

/// The states behind the first steps of a trace.
fn states_behind(
    alloc: Global,
    starts: &Starts,
    trace: &Trace,
    count: u32,
) -> Result<States, AllocError>
    requires starts { length trace.now.run.opening.names ≡ length starts.now }
    requires within { count ≤ len trace.now.run }
    requires well_formed { WellFormed trace.now.run }
    ensures { IfOk result (λ s. Holds (first_steps trace.now.run count) (opening_states starts.now) s.records) }
{
    let mut states = States::open(alloc, starts)?;
    for place in 0..count {
        match trace.step(place) {
            Some(step) => states.note(step)?,
            None => unreachable!(),
        }
    }
    Ok(states)
}

/// What the transactor that makes a step saved before the interval in which it is.
fn saved_by<'a>(states: &'a States, step: &Step) -> Option<&'a Value>
    ensures { (T : Run) (opening : List Value) → Holds T opening states.now.records → IsSavedBy T opening step.now (option_copied result) }
{
    match step.actor() {
        Some(who) => states.saved_of(who),
        None => None,
    }
}

/// The note of the step at a place, by the states behind it.
fn note_at(
    alloc: Global,
    states: &States,
    trace: &Trace,
    cut: &Cut,
    step: &Step,
    falls: bool,
    place: u32,
) -> Result<Vec<u8>, AllocError>
    requires cut { IsCut trace.now.run cut.now }
    requires well_formed { WellFormed trace.now.run }
    requires place { place < len trace.now.run }
    requires stands { step_at trace.now.run place ≡ Some step.now }
    ensures { IfOk result (λ v. IsNoteBy trace.now.run cut.now place step.now falls states.now.records v.items) }
{
    let cause = cause_of(alloc, trace, cut, place)?;
    note_of(
        alloc,
        &trace.opening().names,
        step,
        falls,
        saved_by(states, step),
        &cause,
    )
}

/// What is shown of the step at a place, which is noted.
fn next_look(
    alloc: Global,
    states: &mut States,
    trace: &Trace,
    cut: &Cut,
    place: u32,
    mark: StepMark,
) -> Result<StepLook, AllocError>
    requires cut { IsCut trace.now.run cut.now }
    requires well_formed { WellFormed trace.now.run }
    requires place { place < len trace.now.run }
    ensures states { OnOk result (NotesStep trace.now.run place states.old.records states.new.records) }
    ensures look { IfOk result (IsLookBy trace.now.run cut.now place mark states.new.records) }
{
    let Some(step) = trace.step(place) else {
        unreachable!()
    };
    states.note(step)?;
    let text = note_at(alloc, states, trace, cut, step, mark.falls, place)?;
    Ok(StepLook {
        mark: mark.mark,
        row: mark.row,
        undone: mark.undone,
        note: text,
    })
}

/// What is shown of the steps of a window, by place. It passes over the trace up to the window's end.
pub(crate) fn step_looks(
    alloc: Global,
    program: &Program,
    trace: &Trace,
    cut: &Cut,
    window: Window,
    marks: &[StepMark],
) -> Result<Vec<StepLook>, AllocError>
    requires starts { length trace.now.run.opening.names ≡ length program.now.starts }
    requires cut { IsCut trace.now.run cut.now }
    requires well_formed { WellFormed trace.now.run }
    requires ordered { window.from ≤ window.to }
    requires within { window.to ≤ len trace.now.run }
    requires marks { AreStepMarks trace.now.run window cut.now marks.now }
    ensures { IfOk result (λ v. AreStepLooks program.now trace.now.run window cut.now v.items) }
{
    let mut states = states_behind(alloc, &program.starts, trace, window.from)?;
    let mut looks = Vec::new(alloc);
    for place in window.from..window.to {
        let mark = marks[(place - window.from) as usize];
        looks.push(next_look(alloc, &mut states, trace, cut, place, mark)?)?;
    }
    Ok(looks)
}
