//! The steps of a trace, read from forms.
ghost use Rattle.std.specs.Prelude.{◌≡◌, ◌≤◌, ◌++◌, OnOk, List, length, map, slice_range, IfOk, IfErr};
ghost use Rattle.tau_sexpr.specs.Form.{tree_of};
ghost use Rattle.tau_sexpr.specs.Tree.{Tree};
ghost use Rattle.tau_trace.specs.declared.opening.Opening.{Opening};
ghost use Rattle.tau_trace.specs.Known.{IsSound, MayFollow};
ghost use Rattle.tau_trace.specs.Run.{Run, appended};
ghost use Rattle.tau_steps.specs.Faults.{IsFault};
ghost use Rattle.tau_steps.specs.Meaning.{MeansSteps};
ghost use Rattle.tau_steps.specs.Inner.Reading.{AddsStep, TellsNext, step_error};

use crate::StepError;
use crate::errors::ItemError;
use crate::items::Place;
use crate::rows::read_step;
use std::alloc::Global;
use tau_sexpr::{Form, Forms};
use tau_trace::{Opening, Step, Trace};
use tau_value::STEP_LIMIT;

/// The trace of an opening whose steps the forms from `from` on and below `to` mean, in this order (docs/formats.md,
/// "Steps"). Whether the steps are legal isn't asked. `Shape` and `Unknown` come exactly at the first faulty step, counted
/// from 0; where it has both faults, Shape comes first.
pub fn steps_of(
    alloc: Global,
    forms: &Forms,
    from: usize,
    to: usize,
    opening: Opening,
) -> Result<Trace, StepError>
    requires order { from ≤ to }
    requires within { to ≤ length forms.now }
    requires sound { IsSound opening }
    ensures trace { IfOk result (λ t. MeansSteps opening (slice_range forms.now from to) t.run) }
    ensures fault { IfErr result (IsFault opening (slice_range forms.now from to)) }
    ensures read { (T : Run) → MeansSteps opening (slice_range forms.now from to) T
        → IfErr result (λ e. e ≡ StepError.NoMemory) }
{
    let mut trace = Trace::begin(alloc, opening)?;
    add_steps(alloc, &mut trace, &forms.items()[from..to])?;
    Ok(trace)
}

/// Adds the steps that forms mean behind those of a trace, in this order (docs/formats.md, "Steps"), so that the steps of a long
/// text can be read in parts. Whether the steps are legal isn't asked. Errors are those of `steps_of`: the first faulty step is
/// counted over all steps of the trace. After an error nothing is promised of the trace.
pub fn add_steps(alloc: Global, trace: &mut Trace, forms: &[Form]) -> Result<(), StepError>
    ensures steps { (o : Opening) (before : List Tree) → MeansSteps o before trace.old.run
        → OnOk result (MeansSteps o (before ++ map tree_of forms.now) trace.new.run) }
    ensures fault { (o : Opening) (before : List Tree) → MeansSteps o before trace.old.run
        → IfErr result (IsFault o (before ++ map tree_of forms.now)) }
{
    for form in forms {
        add_step(alloc, trace, form)?;
    }
    Ok(())
}

/// Adds the step that a form means behind those of a trace.
fn add_step(alloc: Global, trace: &mut Trace, form: &Form) -> Result<(), StepError>
    ensures { AddsStep trace.old.run (tree_of form.now) trace.new.run result }
{
    let step = trace.len();
    if step >= STEP_LIMIT {
        return Err(StepError::Shape {
            step: u64::from(step),
        });
    }
    match next_step(alloc, trace, form) {
        Ok(next) => push(trace, next),
        Err(error) => Err(error_at(error, step)),
    }
}

/// The step that a form means at the end of a trace.
fn next_step(alloc: Global, trace: &Trace, form: &Form) -> Result<Step, ItemError>
    ensures { TellsNext trace.now.run (tree_of form.now) result }
{
    let place = Place {
        opening: trace.opening(),
        transactors: trace.born(),
        messages: trace.sent(),
    };
    read_step(alloc, form, place)
}

fn push(trace: &mut Trace, step: Step) -> Result<(), StepError>
    requires { MayFollow trace.old.run step }
    ensures ok { OnOk result (trace.new.run ≡ appended trace.old.run step) }
    ensures err { IfErr result (λ e. e ≡ StepError.NoMemory) }
{
    match trace.push(step) {
        Ok(()) => Ok(()),
        Err((_step, failed)) => Err(StepError::from(failed)),
    }
}

/// The error of a step for that of its form.
fn error_at(error: ItemError, step: u32) -> StepError
    ensures { result ≡ step_error error step }
{
    let step = u64::from(step);
    match error {
        ItemError::Shape => StepError::Shape { step },
        ItemError::Unknown => StepError::Unknown { step },
        ItemError::NoMemory => StepError::NoMemory,
    }
}
