//! Claims: behaviours that are to hold at each end of a storm.
ghost use Rattle.std.specs.Prelude.{◌≡◌, ◌<◌, ◌↔◌, ◌∷◌, ◌++◌, [], length, IsTrue, IfOk, OnOk};
ghost use Rattle.tau_value.specs.Value.{val_of};
ghost use Rattle.tau_script.specs.Openings.{program_opening};
ghost use Rattle.tau_trace.specs.Known.{WellFormed};
ghost use Rattle.tau_eval.specs.Eff as eff;
ghost use Rattle.tau_eval.specs.Effect.{eff_of};
ghost use Rattle.tau_states.specs.Opening.{opening_states};
ghost use Rattle.tau_states.specs.Table.{Holds as HasStates};
ghost use Rattle.tau_faults.specs.Ends.{End};
ghost use Rattle.tau_storm.specs.Claims.{AreSavedValues, AreKeptValues, IsClaimMessage, Holds};
ghost use Rattle.tau_storm.specs.Inner.Claiming.{IsDoneFor};

use std::alloc::{AllocError, Global};
use tau_cut::end_states;
use tau_eval::{Effect, begin};
use tau_states::States;
use tau_trace::Trace;
use tau_tree::{Program, Starts};
use tau_value::{Value, Values, in_bounds};

/// Whether the behaviour with this number holds as a claim at an end with this program and this run (docs/definitions.md, "Storm"). The
/// error is want of memory.
pub fn holds(
    alloc: Global,
    behaviour: u32,
    program: &Program,
    trace: &Trace,
) -> Result<bool, AllocError>
    requires { trace.now.run.opening ≡ program_opening program.now }
    ensures { IfOk result (λ b. (e : End) → e.program ≡ program.now → e.run ≡ trace.now.run → IsTrue b ↔ Holds behaviour e) }
{
    let message = message_of(alloc, program, trace)?;
    if !in_bounds(&message) {
        return Ok(false);
    }
    if behaviour as usize >= program.behaviours.len() {
        return Ok(false);
    }
    is_done(alloc, program, behaviour, message)
}

/// Whether the first effect of a behaviour for a message is that it is done.
fn is_done(
    alloc: Global,
    program: &Program,
    behaviour: u32,
    message: Value,
) -> Result<bool, AllocError>
    requires { behaviour < length program.now.behaviours }
    ensures { IfOk result (λ b. IsTrue b ↔ IsDoneFor program.now behaviour (val_of message)) }
{
    let job = begin(alloc, program, 0, behaviour, 0, message)?;
    match job.advance() {
        Ok(pending) => Ok(is_end(pending.effect())),
        Err((_job, failed)) => Err(failed),
    }
}

/// Whether an effect is that the turn is done.
fn is_end(effect: &Effect) -> bool
    ensures { IsTrue result ↔ eff_of effect.now ≡ eff.done }
{
    match effect {
        Effect::Done => true,
        _ => false,
    }
}

/// The message of a claim: what the starts saved, and what is kept of them.
fn message_of(alloc: Global, program: &Program, trace: &Trace) -> Result<Value, AllocError>
    requires { trace.now.run.opening ≡ program_opening program.now }
    ensures { IfOk result (λ v. IsClaimMessage program.now trace.now.run (val_of v)) }
{
    let saved = saved_values(alloc, program, trace)?;
    let kept = kept_values(alloc, program, trace)?;
    let mut parts = Values::new(alloc);
    add(&mut parts, Value::List(saved))?;
    add(&mut parts, Value::List(kept))?;
    Ok(Value::List(parts))
}

/// Adds a value at the end.
fn add(values: &mut Values, value: Value) -> Result<(), AllocError>
    ensures { OnOk result (values.new ≡ values.old ++ val_of value ∷ []) }
{
    match values.push(value) {
        Ok(()) => Ok(()),
        Err((_value, failed)) => Err(failed),
    }
}

/// What each start saved last.
fn saved_values(alloc: Global, program: &Program, trace: &Trace) -> Result<Values, AllocError>
    requires { trace.now.run.opening ≡ program_opening program.now }
    ensures { IfOk result (AreSavedValues program.now trace.now.run) }
{
    let states = states_after(alloc, &program.starts, trace)?;
    let mut values = Values::new(alloc);
    for who in 0..program.starts.items().len() {
        match states.records().get(who) {
            Some(record) => add(&mut values, record.base.copy()?)?,
            None => unreachable!(),
        }
    }
    Ok(values)
}

/// The states after a trace.
fn states_after(alloc: Global, starts: &Starts, trace: &Trace) -> Result<States, AllocError>
    requires { length trace.now.run.opening.names ≡ length starts.now }
    ensures states { IfOk result (λ s. HasStates trace.now.run (opening_states starts.now) s.records) }
    ensures well_formed { OnOk result (WellFormed trace.now.run) }
{
    let mut states = States::open(alloc, starts)?;
    for place in 0..trace.len() {
        match trace.step(place) {
            Some(step) => states.note(step)?,
            None => unreachable!(),
        }
    }
    Ok(states)
}

/// What is kept of each start.
fn kept_values(alloc: Global, program: &Program, trace: &Trace) -> Result<Values, AllocError>
    requires { trace.now.run.opening ≡ program_opening program.now }
    ensures { IfOk result (AreKeptValues program.now trace.now.run) }
{
    let end = end_states(alloc, program, trace)?;
    let mut values = Values::new(alloc);
    for who in 0..program.starts.items().len() {
        match end.kept.states().get(who) {
            Some(Some(state)) => add(&mut values, state.value.copy()?)?,
            Some(None) => unreachable!(),
            None => unreachable!(),
        }
    }
    Ok(values)
}
