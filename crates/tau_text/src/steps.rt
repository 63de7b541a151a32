//! The texts of steps, put straight behind a text: no form of a step is made.
ghost use Rattle.std.specs.Prelude.{◌≡◌, ◌<◌, ◌∷◌, ◌++◌, [], OnOk};
ghost use Rattle.tau_sexpr.specs.Printing.{print_of, print_rest, printed, HasBytes, AllHaveBytes};
ghost use Rattle.tau_sexpr.specs.Tree as tree;
ghost use Rattle.tau_value.specs.Names.{AreNames};
ghost use Rattle.tau_trace.specs.Run.{len};
ghost use Rattle.tau_steps.specs.StepForms.{truth_form, item_forms, step_form, ValueIsWritten};
ghost use Rattle.tau_text.specs.Inner.Written.{AddsStep};

use std::alloc::AllocError;
use tau_forms::{add_count, add_name, add_value, put_truth};
use tau_steps::word_of;
use tau_trace::{Opening, Step, Trace};

/// Adds the text of the form of the step at a place (docs/formats.md, "Steps") and a line feed, in time for the step's own
/// size. What is added is read back as this form, and its value, if it has one, as the step's. It takes memory for the text
/// alone. The error is want of memory, and a part of the text may then be added.
pub(crate) fn put_step(out: &mut Vec<u8>, trace: &Trace, place: u32) -> Result<(), AllocError>
    requires { place < len trace.now.run }
    ensures { OnOk result (AddsStep trace.now.run place out.old.items out.new.items) }
{
    let steps = trace.len();
    prove!(place < steps);
    match (trace.step(place), trace.made_at(place)) {
        (Some(step), Some(made)) => put_line(out, trace.opening(), made, step),
        _ => unreachable!(),
    }
}

/// Adds the text of a step's form and a line feed; `made` is the number that a Send, an Echo, a Repeat or a New makes.
fn put_line(out: &mut Vec<u8>, opening: &Opening, made: u32, step: &Step) -> Result<(), AllocError>
    requires { AreNames opening.now.names }
    ensures text { OnOk result (out.new.items ≡ out.old.items ++ printed (step_form opening.now made step.now ∷ [])) }
    ensures bytes { OnOk result (HasBytes (step_form opening.now made step.now)) }
    ensures value { OnOk result (ValueIsWritten opening.now step.now) }
{
    out.push(b'(')?;
    out.extend_from_slice(word_of(step))?;
    add_items(out, opening, made, step)?;
    out.extend_from_slice(b")\n")
}

/// Adds the items of a step's form after its word, each behind a space.
fn add_items(out: &mut Vec<u8>, opening: &Opening, made: u32, step: &Step) -> Result<(), AllocError>
    requires { AreNames opening.now.names }
    ensures text { OnOk result (out.new.items ≡ out.old.items ++ print_rest (tree.inside (item_forms opening.now made step.now))) }
    ensures bytes { OnOk result (AllHaveBytes (tree.inside (item_forms opening.now made step.now))) }
    ensures value { OnOk result (ValueIsWritten opening.now step.now) }
{
    match step {
        Step::Take { who, message }
        | Step::Drop { who, message }
        | Step::Fall { who, message }
        | Step::Void { who, message }
        | Step::Heed { who, message } => {
            add_name(out, &opening.names, *who)?;
            add_count(out, *message)
        }
        Step::Set { who, value } => {
            add_name(out, &opening.names, *who)?;
            add_value(out, value, &opening.names)
        }
        Step::Send { who, to, value } => {
            add_name(out, &opening.names, *who)?;
            add_count(out, made)?;
            add_name(out, &opening.names, *to)?;
            add_value(out, value, &opening.names)
        }
        Step::New {
            who,
            behaviour,
            node,
            state,
        } => {
            add_name(out, &opening.names, *who)?;
            add_count(out, made)?;
            add_name(out, &opening.behaviours, *behaviour)?;
            add_count(out, *node)?;
            add_value(out, state, &opening.names)
        }
        Step::Ask { who, answer } => {
            add_name(out, &opening.names, *who)?;
            add_truth(out, *answer)
        }
        Step::Trap { who, code } => {
            add_name(out, &opening.names, *who)?;
            add_count(out, u32::from(*code))
        }
        Step::Lose { message } => add_count(out, *message),
        Step::Echo { who, message } => {
            add_name(out, &opening.names, *who)?;
            add_count(out, made)?;
            add_count(out, *message)
        }
        Step::Repeat { message } => {
            add_count(out, made)?;
            add_count(out, *message)
        }
        Step::Get { who }
        | Step::Skip { who }
        | Step::Stabilize { who }
        | Step::Checkpoint { who }
        | Step::Hold { who }
        | Step::Rollback { who }
        | Step::Stay { who }
        | Step::Done { who }
        | Step::Fail { who } => add_name(out, &opening.names, *who),
    }
}

/// Adds a space and a truth.
fn add_truth(out: &mut Vec<u8>, truth: bool) -> Result<(), AllocError>
    ensures text { OnOk result (out.new.items ≡ out.old.items ++ 32 ∷ print_of (truth_form truth)) }
    ensures bytes { OnOk result (HasBytes (truth_form truth)) }
{
    out.push(b' ')?;
    put_truth(out, truth)
}
