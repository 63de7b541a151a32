//! Laws of the forms of steps. The calls do nothing: what they ensure holds of all forms.
ghost use Rattle.tau_steps.specs.FormLaws.{StepFormsTellRuns, NoStepFormIsAMark};
ghost use Rattle.tau_steps.specs.Laws.{PrintedStepsMeanThemselves, PrintedTracesMeanThemselves, FormsMeanOneRun, PrintedTracesAreReadBack};

/// The form that a step of a trace is printed as means this step at its place (docs/formats.md, "Steps").
pub fn printed_steps_mean_themselves()
    ensures { PrintedStepsMeanThemselves }
{}

/// The forms that the steps of a trace are printed as mean the trace.
pub fn printed_traces_mean_themselves()
    ensures { PrintedTracesMeanThemselves }
{}

/// Forms mean the steps of one run at most.
pub fn forms_mean_one_run()
    ensures { FormsMeanOneRun }
{}

/// What is read from the forms that the steps of a trace are printed as is the trace.
pub fn printed_traces_are_read_back()
    ensures { PrintedTracesAreReadBack }
{}

/// Runs of one opening whose steps are written as the same forms are the same (docs/formats.md, "Steps").
pub fn step_forms_tell_runs()
    ensures { StepFormsTellRuns }
{}

/// No step is written as a mark of a run text (docs/formats.md, "Run text").
pub fn no_step_form_is_a_mark()
    ensures { NoStepFormIsAMark }
{}
