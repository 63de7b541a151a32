//! The lines that tell a cut.
ghost use Rattle.std.specs.Prelude.{◌≡◌, ◌≤◌, ◌<◌, ◌^◌, ◌∷◌, ◌++◌, [], All, IfOk, OnOk};
ghost use Rattle.tau_sexpr.specs.Form.{tree_of};
ghost use Rattle.tau_sexpr.specs.Printing.{printed};
ghost use Rattle.tau_sexpr.specs.Tree.{depth_of, depths, HasWords};
ghost use Rattle.tau_value.specs.Names.{AreNames};
ghost use Rattle.tau_tree.specs.Sound.{Sound};
ghost use Rattle.tau_script.specs.Openings.{program_opening};
ghost use Rattle.tau_explain.specs.Texts as chains;
ghost use Rattle.tau_cut.specs.Texts.{mark_form, mark_forms, IsCutText};
ghost use Rattle.tau_cut.specs.Inner.Keeping as kept_specs;

use crate::cut::{Cut, Marked};
use crate::marking::greatest;
use crate::parts::{add_count, headed};
use crate::state_lines::put_states;
use crate::states::states_with;
use std::alloc::{AllocError, Global};
use tau_explain::chains::Chain;
use tau_explain::form_of_chained;
use tau_sexpr::{Form, Forms, print_forms};
use tau_trace::{Opening, Trace};
use tau_tree::Program;

/// Adds the forms of the points of a chain.
fn add_points(
    alloc: Global,
    forms: &mut Forms,
    opening: &Opening,
    chain: &Chain,
) -> Result<(), AllocError>
    requires names { AreNames opening.now.names }
    requires depth { depths forms.old ≤ 1 }
    requires words { All HasWords forms.old }
    ensures forms { OnOk result (forms.new ≡ forms.old ++ chains.chain_forms opening.now chain.now) }
    ensures depth { OnOk result (depths forms.new ≤ 1) }
    ensures words { OnOk result (All HasWords forms.new) }
{
    for chained in chain.items() {
        forms.add(form_of_chained(alloc, opening, *chained)?)?;
    }
    Ok(())
}

/// The items of the form of a Checkpoint that is In: the word and the place.
#[tactic(auto, using(tau_sexpr::proofs::Literals::word_literal), unfolding(tau_sexpr::specs::Bytes::is_word_byte, tau_sexpr::specs::Bytes::is_letter_or_digit, tau_sexpr::specs::Bytes::is_word_sign))]
fn in_items(alloc: Global, place: u32) -> Result<Forms, AllocError>
    ensures forms { IfOk result (λ f. f ≡ kept_specs.in_front place) }
    ensures fits { OnOk result (place < 2 ^ 32) }
{
    let mut items = headed(alloc, b"in")?;
    add_count(alloc, &mut items, place)?;
    Ok(items)
}

/// The form of a Checkpoint that is In.
fn form_of_in(alloc: Global, place: u32) -> Result<Form, AllocError>
    ensures form { IfOk result (λ f. tree_of f ≡ kept_specs.in_form place) }
    ensures depth { IfOk result (λ f. depth_of (tree_of f) ≤ 2) }
    ensures words { IfOk result (λ f. HasWords (tree_of f)) }
{
    let items = in_items(alloc, place)?;
    Ok(Form::List(items))
}

/// The front of the form of a Checkpoint that is Out: the word and the place.
#[tactic(auto, using(tau_sexpr::proofs::Literals::word_literal), unfolding(tau_sexpr::specs::Bytes::is_word_byte, tau_sexpr::specs::Bytes::is_letter_or_digit, tau_sexpr::specs::Bytes::is_word_sign))]
fn out_items(alloc: Global, place: u32) -> Result<Forms, AllocError>
    ensures forms { IfOk result (λ f. f ≡ kept_specs.out_front place) }
    ensures fits { OnOk result (place < 2 ^ 32) }
{
    let mut items = headed(alloc, b"out")?;
    add_count(alloc, &mut items, place)?;
    Ok(items)
}

/// The form of a Checkpoint that is Out, with the points of its chain.
fn form_of_out(
    alloc: Global,
    opening: &Opening,
    place: u32,
    chain: &Chain,
) -> Result<Form, AllocError>
    requires { AreNames opening.now.names }
    ensures form { IfOk result (λ f. tree_of f ≡ kept_specs.out_form opening.now place chain.now) }
    ensures depth { IfOk result (λ f. depth_of (tree_of f) ≤ 2) }
    ensures words { IfOk result (λ f. HasWords (tree_of f)) }
{
    let mut items = out_items(alloc, place)?;
    add_points(alloc, &mut items, opening, chain)?;
    Ok(Form::List(items))
}

/// The form of a mark.
fn form_of_mark(alloc: Global, opening: &Opening, mark: &Marked) -> Result<Form, AllocError>
    requires { AreNames opening.now.names }
    ensures form { IfOk result (λ f. tree_of f ≡ mark_form opening.now mark.now) }
    ensures depth { IfOk result (λ f. depth_of (tree_of f) ≤ 2) }
    ensures words { IfOk result (λ f. HasWords (tree_of f)) }
{
    match mark {
        Marked::In { place } => form_of_in(alloc, *place),
        Marked::Out { place, chain } => form_of_out(alloc, opening, *place, chain),
    }
}

/// The line of a mark.
fn line_of_mark(alloc: Global, opening: &Opening, mark: &Marked) -> Result<Vec<u8>, AllocError>
    requires { AreNames opening.now.names }
    ensures { IfOk result (λ v. v.items ≡ printed (mark_form opening.now mark.now ∷ [])) }
{
    let mut forms = Forms::new(alloc);
    forms.add(form_of_mark(alloc, opening, mark)?)?;
    print_forms(alloc, &forms)
}

/// The lines of the marks of a cut. The forms of one mark at a time take memory.
fn lines_of_marks(alloc: Global, opening: &Opening, cut: &Cut) -> Result<Vec<u8>, AllocError>
    requires { AreNames opening.now.names }
    ensures { IfOk result (λ v. v.items ≡ printed (mark_forms opening.now cut.now)) }
{
    let mut text = Vec::new(alloc);
    for mark in cut.items() {
        let line = line_of_mark(alloc, opening, mark)?;
        text.extend_from_slice(&line)?;
    }
    Ok(text)
}

/// The text of the greatest consistent set of Checkpoints of a trace (docs/formats.md, "Cuts"), one form a line: the mark of each
/// Checkpoint, by place, and then for each transactor that is a start or has a Checkpoint marked In the state that is kept of it, by
/// number. The error is want of memory.
pub fn cut_text(alloc: Global, program: &Program, trace: &Trace) -> Result<Vec<u8>, AllocError>
    requires opening { trace.now.run.opening ≡ program_opening program.now }
    requires sound { Sound program.now }
    ensures { IfOk result (λ v. IsCutText program.now trace.now.run v.items) }
{
    let cut = greatest(alloc, trace)?;
    let end = states_with(alloc, program, trace, &cut)?;
    let mut text = lines_of_marks(alloc, trace.opening(), &cut)?;
    put_states(&mut text, trace, &end.kept)?;
    Ok(text)
}
