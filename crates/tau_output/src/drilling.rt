//! The command `drill`.
ghost use Rattle.std.specs.Prelude.{◌≡◌, IfOk};
ghost use Rattle.tau_sexpr.specs.Form.{tree_of};
ghost use Rattle.tau_sexpr.specs.Tree.{HasWords};
ghost use Rattle.tau_sexpr.specs.Printing.{printed};
ghost use Rattle.tau_tree.specs.Sound.{Sound};
ghost use Rattle.tau_script.specs.Openings.{program_opening};
ghost use Rattle.tau_gen.specs.Generated.{generated};
ghost use Rattle.tau_output.specs.Drills.{steps_form as form_of_steps, drill_lines, DrillsAs};

use crate::Output;
use crate::running::end_of;
use std::alloc::{AllocError, Global};
use tau_gen::generate;
use tau_report::counts_form;
use tau_sexpr::{Form, Forms, Word, print_forms};
use tau_trace::Trace;
use tau_tree::Program;
use tau_value::word_of_count;

/// The most steps that a drill does (docs/limits.md).
const DRILL_LIMIT: u32 = 200_000;

/// The number of steps and the counts of the serial run of the generated program of a number, by one worker with room for
/// one job and this number as its seed, with at most 200,000 steps (docs/formats.md, "Drills").
pub(crate) fn drill_program(alloc: Global, number: u64) -> Result<Output, AllocError>
    ensures { IfOk result (λ o. DrillsAs number o.end o.text.items) }
{
    let program = generate(alloc, number)?;
    drill(alloc, &program, number)
}

/// The same of the generated program.
fn drill(alloc: Global, program: &Program, number: u64) -> Result<Output, AllocError>
    requires { Sound program.now }
    ensures { IfOk result (λ o. program.now ≡ generated number → DrillsAs number o.end o.text.items) }
{
    let made = tau_book::run_serially(alloc, program, 1, number, DRILL_LIMIT)?;
    Ok(Output {
        text: lines_of(alloc, program, &made.trace)?,
        end: end_of(made.is_complete),
    })
}

/// The two lines for a trace.
fn lines_of(alloc: Global, program: &Program, trace: &Trace) -> Result<Vec<u8>, AllocError>
    requires opening { trace.now.run.opening ≡ program_opening program.now }
    requires sound { Sound program.now }
    ensures { IfOk result (λ v. v.items ≡ printed (drill_lines trace.now.run)) }
{
    let mut lines = Forms::new(alloc);
    lines.add(steps_form(alloc, trace.len())?)?;
    lines.add(counts_form(alloc, program, trace)?)?;
    print_forms(alloc, &lines)
}

/// The form with a number of steps.
#[tactic(auto, using(tau_sexpr::proofs::Literals::word_literal), unfolding(tau_sexpr::specs::Bytes::is_word_byte, tau_sexpr::specs::Bytes::is_letter_or_digit, tau_sexpr::specs::Bytes::is_word_sign))]
fn steps_form(alloc: Global, steps: u32) -> Result<Form, AllocError>
    ensures form { IfOk result (λ f. tree_of f ≡ form_of_steps steps) }
    ensures words { IfOk result (λ f. HasWords (tree_of f)) }
{
    let mut items = Forms::new(alloc);
    items.add(Form::Word(Word::of(alloc, b"steps")?))?;
    items.add(Form::Word(word_of_count(alloc, u64::from(steps))?))?;
    Ok(Form::List(items))
}
