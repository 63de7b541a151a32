//! Reports.
ghost use Rattle.std.specs.Prelude.{◌≡◌, List, IfOk, OnOk};
ghost use Rattle.tau_sexpr.specs.Form.{tree_of};
ghost use Rattle.tau_sexpr.specs.Tree.{HasWords};
ghost use Rattle.tau_value.specs.declared.shared.Value.{Value};
ghost use Rattle.tau_tree.specs.declared.programs.Program.{Program};
ghost use Rattle.tau_tree.specs.Sound.{Sound};
ghost use Rattle.tau_script.specs.Openings.{program_opening};
ghost use Rattle.tau_states.specs.Opening.{opening_states};
ghost use Rattle.tau_states.specs.Table.{Holds};
ghost use Rattle.tau_report.specs.Report.{counts_form as form_of_run, IsReportText, PutsReport, PutsSaved};
ghost use Rattle.tau_report.specs.Inner.Rows.{counts_tree};

use crate::counts::Counts;
use crate::parts::{form_of_named, headed};
use crate::saved::put_rows;
use crate::survey::survey_of;
use std::alloc::{AllocError, Global};
use tau_sexpr::{Form, put_form_line};
use tau_states::States;
use tau_trace::Trace;
use tau_tree::Program;

/// The text of the report of a program and a trace (docs/formats.md, "Report"): the saved states, by transactor, and
/// the counts, one form a line. It passes over the trace once. The error is want of memory.
pub fn report(alloc: Global, program: &Program, trace: &Trace) -> Result<Vec<u8>, AllocError>
    requires opening { trace.now.run.opening ≡ program_opening program.now }
    requires sound { Sound program.now }
    ensures { IfOk result (λ v. IsReportText program.now trace.now.run v.items) }
{
    let mut text = Vec::new(alloc);
    put_report(alloc, &mut text, program, trace)?;
    Ok(text)
}

/// Adds the text of the report of a program and a trace to the end of `out` (docs/formats.md, "Report"): the saved states, by
/// transactor, and the counts, one form a line. It is read back as the report's forms. It passes over the trace once, and
/// takes memory for the text and a record of each transactor. The error is want of memory, and a part of the text may then be
/// added.
pub fn put_report(
    alloc: Global,
    out: &mut Vec<u8>,
    program: &Program,
    trace: &Trace,
) -> Result<(), AllocError>
    requires opening { trace.now.run.opening ≡ program_opening program.now }
    requires sound { Sound program.now }
    ensures { OnOk result (PutsReport program.now trace.now.run out.old.items out.new.items) }
{
    let survey = survey_of(alloc, &program.starts, trace)?;
    put_rows(out, trace.opening(), survey.states.records())?;
    let counts = form_of_counts(alloc, survey.counts)?;
    put_form_line(out, &counts)
}

/// Adds the lines of the saved states alone to the end of `out` (docs/formats.md, "Report"), by transactor, from the states after a
/// trace. The error is want of memory, and a part of the lines may then be added.
pub fn put_saved(out: &mut Vec<u8>, trace: &Trace, states: &States) -> Result<(), AllocError>
    requires { (opening : List Value) × Holds trace.now.run opening states.now.records }
    ensures { OnOk result ((P : Program) → Sound P → Holds trace.now.run (opening_states P.starts) states.now.records
        → PutsSaved P trace.now.run out.old.items out.new.items) }
{
    // Its contract says that the run is well formed.
    let _length = trace.len();
    put_rows(out, trace.opening(), states.records())
}

/// The form of the counts of a trace, the last one of its report (docs/formats.md, "Report"). The error is want of memory.
pub fn counts_form(alloc: Global, program: &Program, trace: &Trace) -> Result<Form, AllocError>
    requires opening { trace.now.run.opening ≡ program_opening program.now }
    requires sound { Sound program.now }
    ensures form { IfOk result (λ f. tree_of f ≡ form_of_run trace.now.run) }
    ensures words { IfOk result (λ f. HasWords (tree_of f)) }
{
    let survey = survey_of(alloc, &program.starts, trace)?;
    form_of_counts(alloc, survey.counts)
}

/// The form of the counts.
#[tactic(auto, using(tau_sexpr::proofs::Literals::word_literal), unfolding(tau_sexpr::specs::Bytes::is_word_byte, tau_sexpr::specs::Bytes::is_letter_or_digit, tau_sexpr::specs::Bytes::is_word_sign))]
fn form_of_counts(alloc: Global, counts: Counts) -> Result<Form, AllocError>
    ensures { IfOk result (λ f. tree_of f ≡ counts_tree counts) }
{
    let mut items = headed(alloc, b"counts")?;
    items.add(form_of_named(alloc, b"checkpoints", counts.checkpoints)?)?;
    items.add(form_of_named(alloc, b"holds", counts.holds)?)?;
    items.add(form_of_named(alloc, b"drops", counts.drops)?)?;
    items.add(form_of_named(alloc, b"falls", counts.falls)?)?;
    items.add(form_of_named(alloc, b"losses", counts.losses)?)?;
    Ok(Form::List(items))
}
