//! Forms of steps.
ghost use Rattle.std.specs.Prelude.{◌≡◌, ◌<◌, ◌≤◌, ◌∷◌, ◌++◌, [], All, Some, IfOk, OnOk};
ghost use Rattle.tau_sexpr.specs.Bytes.{IsWordByte};
ghost use Rattle.tau_sexpr.specs.Form.{tree_of};
ghost use Rattle.tau_sexpr.specs.Tree as tree;
ghost use Rattle.tau_sexpr.specs.Tree.{depth_of, HasWords};
ghost use Rattle.tau_value.specs.Names.{AreNames};
ghost use Rattle.tau_value.specs.Written.{name_written, written, count_form, IsWritten};
ghost use Rattle.tau_value.specs.Value.{val_of};
ghost use Rattle.tau_trace.specs.Run.{len};
ghost use Rattle.tau_steps.specs.StepForms.{kind_word, truth_form, item_forms, step_form, step_form_at, ValueIsWritten, IsWrittenAt};

use std::alloc::{AllocError, Global};
use tau_sexpr::{Form, Forms, Word};
use tau_trace::{Opening, Step, Trace};
use tau_value::{Names, Value, form_of, word_of_count};

/// How many items the form of a step has at most, its word with them.
const MOST_ITEMS: usize = 6;

/// The form of the step at a place (docs/formats.md, "Steps"), in time for the step's own size. Its value, if it has
/// one, is read back from its form. Its lists stand at most 65 deep, and none of its words is empty. The error is want
/// of memory.
pub fn form_of_step(alloc: Global, trace: &Trace, place: u32) -> Result<Form, AllocError>
    requires { place < len trace.now.run }
    ensures form { IfOk result (λ f. Some (tree_of f) ≡ step_form_at trace.now.run place) }
    ensures value { OnOk result (IsWrittenAt trace.now.run place) }
    ensures depth { IfOk result (λ f. depth_of (tree_of f) ≤ 65) }
    ensures words { IfOk result (λ f. HasWords (tree_of f)) }
{
    let steps = trace.len();
    prove!(place < steps);
    match (trace.step(place), trace.made_at(place)) {
        (Some(step), Some(made)) => write_step(alloc, trace.opening(), made, step),
        _ => unreachable!(),
    }
}

/// The form of a step; `made` is the number that a Send, an Echo, a Repeat or a New makes.
fn write_step(alloc: Global, opening: &Opening, made: u32, step: &Step) -> Result<Form, AllocError>
    requires { AreNames opening.now.names }
    ensures form { IfOk result (λ f. tree_of f ≡ step_form opening.now made step.now) }
    ensures value { OnOk result (ValueIsWritten opening.now step.now) }
{
    let mut forms = Forms::with_capacity(alloc, MOST_ITEMS)?;
    forms.add(Form::Word(Word::of(alloc, word_of(step))?))?;
    add_items(alloc, &mut forms, opening, made, step)?;
    Ok(Form::List(forms))
}

/// The word that begins the form of a step (docs/formats.md, "Steps").
#[tactic(auto, using(tau_sexpr::proofs::Literals::word_literal), unfolding(tau_sexpr::specs::Bytes::is_word_byte, tau_sexpr::specs::Bytes::is_letter_or_digit, tau_sexpr::specs::Bytes::is_word_sign))]
pub fn word_of(step: &Step) -> &'static [u8]
    ensures value { result.now ≡ kind_word step.now }
    ensures word { All IsWordByte result.now }
{
    match step {
        Step::Take { .. } => b"take",
        Step::Drop { .. } => b"drop",
        Step::Fall { .. } => b"fall",
        Step::Void { .. } => b"void",
        Step::Get { .. } => b"get",
        Step::Set { .. } => b"set",
        Step::Skip { .. } => b"skip",
        Step::Send { .. } => b"send",
        Step::New { .. } => b"new",
        Step::Stabilize { .. } => b"stabilize",
        Step::Ask { .. } => b"ask",
        Step::Checkpoint { .. } => b"checkpoint",
        Step::Hold { .. } => b"hold",
        Step::Rollback { .. } => b"rollback",
        Step::Stay { .. } => b"stay",
        Step::Done { .. } => b"done",
        Step::Trap { .. } => b"trap",
        Step::Fail { .. } => b"fail",
        Step::Lose { .. } => b"lose",
        Step::Echo { .. } => b"echo",
        Step::Heed { .. } => b"heed",
        Step::Repeat { .. } => b"repeat",
    }
}

/// Adds the items of a step's form after its word.
fn add_items(
    alloc: Global,
    forms: &mut Forms,
    opening: &Opening,
    made: u32,
    step: &Step,
) -> Result<(), AllocError>
    requires { AreNames opening.now.names }
    ensures items { OnOk result (forms.new ≡ forms.old ++ item_forms opening.now made step.now) }
    ensures value { OnOk result (ValueIsWritten opening.now step.now) }
{
    match step {
        Step::Take { who, message }
        | Step::Drop { who, message }
        | Step::Fall { who, message }
        | Step::Void { who, message }
        | Step::Heed { who, message } => {
            add_name(alloc, forms, &opening.names, *who)?;
            add_count(alloc, forms, *message)
        }
        Step::Set { who, value } => {
            add_name(alloc, forms, &opening.names, *who)?;
            add_value(alloc, forms, &opening.names, value)
        }
        Step::Send { who, to, value } => {
            add_name(alloc, forms, &opening.names, *who)?;
            add_count(alloc, forms, made)?;
            add_name(alloc, forms, &opening.names, *to)?;
            add_value(alloc, forms, &opening.names, value)
        }
        Step::New {
            who,
            behaviour,
            node,
            state,
        } => {
            add_name(alloc, forms, &opening.names, *who)?;
            add_count(alloc, forms, made)?;
            add_name(alloc, forms, &opening.behaviours, *behaviour)?;
            add_count(alloc, forms, *node)?;
            add_value(alloc, forms, &opening.names, state)
        }
        Step::Ask { who, answer } => {
            add_name(alloc, forms, &opening.names, *who)?;
            add_truth(alloc, forms, *answer)
        }
        Step::Trap { who, code } => {
            add_name(alloc, forms, &opening.names, *who)?;
            add_count(alloc, forms, u32::from(*code))
        }
        Step::Lose { message } => add_count(alloc, forms, *message),
        Step::Echo { who, message } => {
            add_name(alloc, forms, &opening.names, *who)?;
            add_count(alloc, forms, made)?;
            add_count(alloc, forms, *message)
        }
        Step::Repeat { message } => {
            add_count(alloc, forms, made)?;
            add_count(alloc, forms, *message)
        }
        Step::Get { who }
        | Step::Skip { who }
        | Step::Stabilize { who }
        | Step::Checkpoint { who }
        | Step::Hold { who }
        | Step::Rollback { who }
        | Step::Stay { who }
        | Step::Done { who }
        | Step::Fail { who } => add_name(alloc, forms, &opening.names, *who),
    }
}

/// Adds the name at a number, or the number where the list has none.
fn add_name(alloc: Global, forms: &mut Forms, names: &Names, number: u32) -> Result<(), AllocError>
    ensures { OnOk result (forms.new ≡ forms.old ++ tree.word (name_written names.now number) ∷ []) }
{
    let word = match names.item(number as usize) {
        Some(name) => name.copy()?,
        None => word_of_count(alloc, u64::from(number))?,
    };
    forms.add(Form::Word(word))
}

fn add_count(alloc: Global, forms: &mut Forms, count: u32) -> Result<(), AllocError>
    ensures { OnOk result (forms.new ≡ forms.old ++ count_form count ∷ []) }
{
    forms.add(Form::Word(word_of_count(alloc, u64::from(count))?))
}

#[tactic(auto, using(tau_sexpr::proofs::Literals::word_literal), unfolding(tau_sexpr::specs::Bytes::is_word_byte, tau_sexpr::specs::Bytes::is_letter_or_digit, tau_sexpr::specs::Bytes::is_word_sign))]
fn add_truth(alloc: Global, forms: &mut Forms, truth: bool) -> Result<(), AllocError>
    ensures { OnOk result (forms.new ≡ forms.old ++ truth_form truth ∷ []) }
{
    let word = if truth {
        Word::of(alloc, b"true")?
    } else {
        Word::of(alloc, b"false")?
    };
    forms.add(Form::Word(word))
}

fn add_value(
    alloc: Global,
    forms: &mut Forms,
    names: &Names,
    value: &Value,
) -> Result<(), AllocError>
    requires { AreNames names.now }
    ensures item { OnOk result (forms.new ≡ forms.old ++ written names.now (val_of value.now) ∷ []) }
    ensures value { OnOk result (IsWritten names.now (val_of value.now)) }
{
    forms.add(form_of(alloc, value, names)?)
}
