//! The program and the trace that the forms of an input mean.
ghost use Rattle.std.specs.Prelude.{◌≡◌, ◌+◌, ◌<◌, ◌≤◌, IfOk, IfErr, length, map};
ghost use Rattle.tau_sexpr.specs.Form.{tree_of};
ghost use Rattle.tau_sexpr.specs.Tree.{depths};
ghost use Rattle.tau_tree.specs.Sound.{Sound};
ghost use Rattle.tau_forms.specs.Meaning.{Means};
ghost use Rattle.tau_trace.specs.Run.{Run};
ghost use Rattle.tau_script.specs.Openings.{program_opening};
ghost use Rattle.tau_steps.specs.Meaning.{MeansSteps};
ghost use Rattle.tau_text.specs.Errors.{TellsInputFault};
ghost use Rattle.tau_text.specs.Faults.{ProgramFault, StepsFault, PartsFault, MarkedFault};
ghost use Rattle.tau_text.specs.Meaning.{MeansRun, MeansMarkedRun};
ghost use Rattle.tau_text.specs.Parts.{program_forms, step_forms};

use crate::marks::place_of_mark;
use crate::{InputError, InputFault};
use std::alloc::Global;
use tau_forms::program_of;
use tau_script::opening_of;
use tau_sexpr::{Form, Forms};
use tau_steps::steps_of;
use tau_trace::Trace;
use tau_tree::Program;

/// A program and a trace of it, as a run text has them (docs/formats.md, "Run text").
#[derive(Drop)]
pub struct RunText {
    pub program: Program,
    pub trace: Trace,
}

/// The program that forms mean.
fn program_meant(alloc: Global, forms: &[Form]) -> Result<Program, InputError>
    requires { depths (map tree_of forms.now) ≤ 200 }
    ensures program { IfOk result (Means (map tree_of forms.now)) }
    ensures sound { IfOk result Sound }
    ensures fault { IfErr result (TellsInputFault (ProgramFault (map tree_of forms.now))) }
{
    Ok(program_of(alloc, forms)?)
}

/// The program and the trace of forms with `(trace)` between them.
pub(crate) fn marked_text(alloc: Global, forms: &Forms) -> Result<RunText, InputError>
    requires { depths forms.now ≤ 200 }
    ensures means { IfOk result (λ r. MeansMarkedRun forms.now r.program r.trace.run) }
    ensures sound { IfOk result (λ r. Sound r.program) }
    ensures fault { IfErr result (TellsInputFault (MarkedFault forms.now)) }
{
    let mark = place_of_mark(forms.items(), b"trace");
    if mark == forms.len() {
        return Err(InputFault::NoTrace.at(mark as u64));
    }
    read_parts(alloc, forms, mark)
}

/// The program and the trace of forms, of which so many stand before `(trace)`.
pub(crate) fn read_parts(alloc: Global, forms: &Forms, mark: usize) -> Result<RunText, InputError>
    requires depth { depths forms.now ≤ 200 }
    requires mark { mark ≡ length (program_forms forms.now) }
    requires marked { mark < length forms.now }
    ensures means { IfOk result (λ r. MeansRun forms.now r.program r.trace.run) }
    ensures sound { IfOk result (λ r. Sound r.program) }
    ensures fault { IfErr result (TellsInputFault (PartsFault forms.now)) }
{
    let program = program_before(alloc, forms, mark)?;
    let trace = trace_behind(alloc, forms, mark, &program)?;
    Ok(RunText { program, trace })
}

/// The program that the forms before a mark mean.
fn program_before(alloc: Global, forms: &Forms, mark: usize) -> Result<Program, InputError>
    requires depth { depths forms.now ≤ 200 }
    requires mark { mark ≡ length (program_forms forms.now) }
    ensures program { IfOk result (Means (program_forms forms.now)) }
    ensures sound { IfOk result Sound }
    ensures fault { IfErr result (TellsInputFault (ProgramFault (program_forms forms.now))) }
{
    program_meant(alloc, &forms.items()[..mark])
}

/// The trace that the forms behind a mark mean, up to `(report)` or the end.
fn trace_behind(
    alloc: Global,
    forms: &Forms,
    mark: usize,
    program: &Program,
) -> Result<Trace, InputError>
    requires mark { mark ≡ length (program_forms forms.now) }
    requires marked { mark < length forms.now }
    requires sound { Sound program.now }
    ensures trace { IfOk result (λ t. MeansSteps (program_opening program.now) (step_forms forms.now) t.run) }
    ensures fault { IfErr result (TellsInputFault (StepsFault (program_opening program.now) (step_forms forms.now))) }
{
    let end = forms.len();
    let from = mark + 1;
    let to = from + place_of_mark(&forms.items()[from..end], b"report");
    let opening = opening_of(alloc, program)?;
    Ok(steps_of(alloc, forms, from, to, opening)?)
}
