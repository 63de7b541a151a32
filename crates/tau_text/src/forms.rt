//! The text of a program and a trace, made part by part.
ghost use Rattle.std.specs.Prelude.{◌≡◌, ◌≢◌, ◌≤◌, ◌∷◌, [], All, IfOk, OnOk};
ghost use Rattle.tau_sexpr.specs.Bytes.{IsWordByte};
ghost use Rattle.tau_sexpr.specs.Form.{tree_of};
ghost use Rattle.tau_sexpr.specs.Tree.{depth_of, HasWords};
ghost use Rattle.tau_tree.specs.Sound.{Sound};
ghost use Rattle.tau_forms.specs.Printed as program_forms;
ghost use Rattle.tau_forms.specs.Meaning.{Means};
ghost use Rattle.tau_trace.specs.Run.{len};
ghost use Rattle.tau_script.specs.Openings.{program_opening};
ghost use Rattle.tau_text.specs.RunText.{mark as mark_of, IsRunText, IsReadBack};
ghost use Rattle.tau_text.specs.Inner.Written.{AddsForms, AddsSteps, AddsReport};

use crate::steps::put_step;
use std::alloc::{AllocError, Global};
use tau_forms::put_program;
use tau_report::put_report;
use tau_sexpr::{Form, Forms, Word, put_form_line};
use tau_trace::Trace;
use tau_tree::Program;

/// The run text of a program and a trace (docs/formats.md, "Run text"), from which both can be read back. It passes over the
/// trace once for the steps and once for the report. Beside the text, a record of each transactor takes memory while the report
/// is made. The error is want of memory.
#[tactic(auto, using(tau_sexpr::proofs::Literals::word_literal), unfolding(tau_sexpr::specs::Bytes::is_word_byte, tau_sexpr::specs::Bytes::is_letter_or_digit, tau_sexpr::specs::Bytes::is_word_sign))]
pub fn run_text(alloc: Global, program: &Program, trace: &Trace) -> Result<Vec<u8>, AllocError>
    requires opening { trace.now.run.opening ≡ program_opening program.now }
    requires sound { Sound program.now }
    ensures text { IfOk result (λ v. IsRunText program.now trace.now.run v.items) }
    ensures read_back { IfOk result (λ v. IsReadBack program.now trace.now.run v.items) }
{
    let mut text = Vec::new(alloc);
    add_program(alloc, &mut text, program)?;
    add_mark(alloc, &mut text, b"trace")?;
    add_steps(&mut text, trace)?;
    add_mark(alloc, &mut text, b"report")?;
    add_report(alloc, &mut text, program, trace)?;
    Ok(text)
}

/// Adds the text of a program.
fn add_program(alloc: Global, text: &mut Vec<u8>, program: &Program) -> Result<(), AllocError>
    requires { Sound program.now }
    ensures forms { OnOk result (AddsForms (program_forms.printed program.now) text.old.items text.new.items) }
    ensures read_back { OnOk result (Means (program_forms.printed program.now) program.now) }
{
    put_program(alloc, text, program)?;
    Ok(())
}

/// Adds the text of a mark: a list of one word.
fn add_mark(alloc: Global, text: &mut Vec<u8>, word: &[u8]) -> Result<(), AllocError>
    requires bytes { All IsWordByte word.now }
    requires some { word.now ≢ [] }
    ensures { OnOk result (AddsForms (mark_of word.now ∷ []) text.old.items text.new.items) }
{
    let mut items = Forms::new(alloc);
    items.add(Form::Word(Word::of(alloc, word)?))?;
    add_form(text, &Form::List(items))
}

/// Adds the texts of the steps of a trace, in order.
fn add_steps(text: &mut Vec<u8>, trace: &Trace) -> Result<(), AllocError>
    ensures { OnOk result (AddsSteps trace.now.run (len trace.now.run) text.old.items text.new.items) }
{
    for place in 0..trace.len() {
        put_step(text, trace, place)?;
    }
    Ok(())
}

/// Adds the text of the report of a program and a trace.
fn add_report(
    alloc: Global,
    text: &mut Vec<u8>,
    program: &Program,
    trace: &Trace,
) -> Result<(), AllocError>
    requires opening { trace.now.run.opening ≡ program_opening program.now }
    requires sound { Sound program.now }
    ensures { OnOk result (AddsReport program.now trace.now.run text.old.items text.new.items) }
{
    put_report(alloc, text, program, trace)
}

/// Adds the text of a form.
fn add_form(text: &mut Vec<u8>, form: &Form) -> Result<(), AllocError>
    requires depth { depth_of (tree_of form.now) ≤ 200 }
    requires words { HasWords (tree_of form.now) }
    ensures { OnOk result (AddsForms (tree_of form.now ∷ []) text.old.items text.new.items) }
{
    put_form_line(text, form)?;
    Ok(())
}
