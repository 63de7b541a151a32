//! One pass over a trace.
ghost use Rattle.std.specs.Prelude.{◌≡◌, ℕ, List, length, IfOk, OnOk};
ghost use Rattle.tau_value.specs.declared.shared.Value.{Value};
ghost use Rattle.tau_trace.specs.Run.{Run, len, appended};
ghost use Rattle.tau_trace.specs.Histories.{move_of, is_fall};
ghost use Rattle.tau_trace.specs.Known.{MayFollow, WellFormed};
ghost use Rattle.tau_script.specs.Openings.{program_opening};
ghost use Rattle.tau_states.specs.Opening.{opening_states};
ghost use Rattle.tau_states.specs.Table.{Holds};
ghost use Rattle.tau_report.specs.Report.{counts_in as counts_of_run, falls_at};
ghost use Rattle.tau_report.specs.Inner.Counted.{AreFew, IsSurvey, AdvancesSurvey};

use crate::counts::Counts;
use std::alloc::{AllocError, Global};
use tau_states::States;
use tau_trace::{Step, Trace};
use tau_tree::{Program, Starts};

/// The states and the counts after a run.
#[derive(Drop)]
pub(crate) struct Survey {
    pub(crate) states: States,
    pub(crate) counts: Counts,
}

impl Survey {
    /// Notes the next step of the run.
    fn note(&mut self, step: &Step) -> Result<(), AllocError>
        requires { AreFew self.old.counts }
        ensures { OnOk result (AdvancesSurvey step.now self.old.states.records self.old.counts self.new.states.records self.new.counts) }
    {
        self.counts = self.counts.after(step, is_falling(&self.states, step));
        self.states.note(step)
    }
}

/// The states and the counts after all steps of a trace.
pub(crate) fn survey_of(alloc: Global, starts: &Starts, trace: &Trace) -> Result<Survey, AllocError>
    requires { length trace.now.run.opening.names ≡ length starts.now }
    ensures survey { IfOk result (λ s. IsSurvey trace.now.run (opening_states starts.now) s.states.records s.counts) }
    ensures well_formed { OnOk result (WellFormed trace.now.run) }
{
    let mut survey = Survey {
        states: States::open(alloc, starts)?,
        counts: Counts::none(),
    };
    for place in 0..trace.len() {
        match trace.step(place) {
            Some(step) => survey.note(step)?,
            None => unreachable!(),
        }
    }
    Ok(survey)
}

/// How many steps of a trace are a Checkpoint, a Hold, a Drop, a falling step of any kind, and a Lose (docs/definitions.md,
/// "Report"). It passes over the trace once. The error is want of memory.
pub fn counts_in(alloc: Global, program: &Program, trace: &Trace) -> Result<Counts, AllocError>
    requires { trace.now.run.opening ≡ program_opening program.now }
    ensures { IfOk result (λ c. c ≡ counts_of_run trace.now.run) }
{
    let survey = survey_of(alloc, &program.starts, trace)?;
    Ok(survey.counts)
}

/// Whether a step, made next, is a falling step (docs/definitions.md, "Falling step").
fn is_falling(states: &States, step: &Step) -> bool
    ensures { (T : Run) (opening : List Value) → Holds T opening states.now.records → MayFollow T step.now
        → result ≡ falls_at (appended T step.now) (len T) }
{
    match step.actor() {
        Some(who) => falls(step, states.is_stable(who)),
        None => false,
    }
}

/// Whether a step makes the history of its transactor fall, in this mode.
fn falls(step: &Step, stable: bool) -> bool
    ensures { result ≡ is_fall (move_of stable step.now) }
{
    match step {
        Step::Fall { .. } | Step::Rollback { .. } => true,
        Step::Trap { .. } | Step::Fail { .. } => !stable,
        _ => false,
    }
}
