//! The lines that tell why a decision was made.
ghost use Rattle.std.specs.Prelude.{◌≡◌, ◌≤◌, ◌<◌, ◌^◌, ◌∷◌, ◌++◌, [], All, IfOk, OnOk};
ghost use Rattle.tau_sexpr.specs.Bytes.{IsWordByte};
ghost use Rattle.tau_sexpr.specs.Form.{tree_of};
ghost use Rattle.tau_sexpr.specs.Printing.{printed};
ghost use Rattle.tau_sexpr.specs.Tree as tree;
ghost use Rattle.tau_sexpr.specs.Tree.{depth_of, depths, HasWords};
ghost use Rattle.tau_value.specs.Names.{AreNames};
ghost use Rattle.tau_value.specs.Written.{count_form};
ghost use Rattle.tau_steps.specs.StepForms.{who_form};
ghost use Rattle.tau_explain.specs.Texts as texts;
ghost use Rattle.tau_explain.specs.Texts.{place_forms, point_form};
ghost use Rattle.tau_explain.specs.Inner.Fitting.{PlaceFits, Fits};

use crate::answers::Why;
use crate::chains::{Chain, Chained};
use std::alloc::{AllocError, Global};
use tau_sexpr::{Form, Forms, Word, print_forms};
use tau_trace::{Opening, Trace};
use tau_value::word_of_count;

/// The text of an answer (docs/formats.md, "Chains"), one form a line: the points of the chain, or the word `none`; no line
/// where the place is no decision. The names are those of the trace. The error is want of memory.
pub fn why_text(alloc: Global, trace: &Trace, why: &Why) -> Result<Vec<u8>, AllocError>
    ensures { IfOk result (λ v. v.items ≡ printed (texts.why_forms trace.now.run.opening why.now)) }
{
    let forms = why_forms(alloc, trace.opening(), why)?;
    print_forms(alloc, &forms)
}

/// The forms of an answer.
fn why_forms(alloc: Global, opening: &Opening, why: &Why) -> Result<Forms, AllocError>
    requires { AreNames opening.now.names }
    ensures forms { IfOk result (λ f. f ≡ texts.why_forms opening.now why.now) }
    ensures depth { IfOk result (λ f. depths f ≤ 1) }
    ensures words { IfOk result (λ f. All HasWords f) }
{
    match why {
        Why::Chain(chain) => chain_forms(alloc, opening, chain),
        Why::NoChain => none_forms(alloc),
        Why::NotAsked => Ok(Forms::new(alloc)),
    }
}

/// The word that tells that there is no chain.
#[tactic(auto, using(tau_sexpr::proofs::Literals::word_literal), unfolding(tau_sexpr::specs::Bytes::is_word_byte, tau_sexpr::specs::Bytes::is_letter_or_digit, tau_sexpr::specs::Bytes::is_word_sign))]
fn none_forms(alloc: Global) -> Result<Forms, AllocError>
    ensures { IfOk result (λ f. f ≡ texts.none_form ∷ []) }
{
    let mut forms = Forms::new(alloc);
    forms.add(Form::Word(Word::of(alloc, b"none")?))?;
    Ok(forms)
}

/// The forms of the points of a chain.
fn chain_forms(alloc: Global, opening: &Opening, chain: &Chain) -> Result<Forms, AllocError>
    requires { AreNames opening.now.names }
    ensures forms { IfOk result (λ f. f ≡ texts.chain_forms opening.now chain.now) }
    ensures depth { IfOk result (λ f. depths f ≤ 1) }
    ensures words { IfOk result (λ f. All HasWords f) }
{
    let mut forms = Forms::new(alloc);
    for chained in chain.items() {
        forms.add(form_of_point(alloc, opening, *chained)?)?;
    }
    Ok(forms)
}

/// The form of a point of a chain (docs/formats.md, "Chains"): its transactor by name or number, its interval, its incarnation, and
/// the place of a step that makes the link to it. The error is want of memory.
pub fn form_of_chained(
    alloc: Global,
    opening: &Opening,
    chained: Chained,
) -> Result<Form, AllocError>
    requires { AreNames opening.now.names }
    ensures form { IfOk result (λ f. tree_of f ≡ point_form opening.now chained) }
    ensures depth { IfOk result (λ f. depth_of (tree_of f) ≤ 1) }
    ensures words { IfOk result (λ f. HasWords (tree_of f)) }
{
    let form = form_of_point(alloc, opening, chained)?;
    Ok(form)
}

/// The form of a point of a chain.
fn form_of_point(alloc: Global, opening: &Opening, chained: Chained) -> Result<Form, AllocError>
    ensures form { IfOk result (λ f. tree_of f ≡ point_form opening.now chained) }
    ensures fits { OnOk result (Fits chained) }
{
    let mut items = Forms::new(alloc);
    add_head(alloc, &mut items)?;
    add_who(alloc, &mut items, opening, chained.point.who)?;
    add_count(alloc, &mut items, chained.point.interval)?;
    add_count(alloc, &mut items, chained.point.incarnation)?;
    add_place(alloc, &mut items, chained.by)?;
    Ok(Form::List(items))
}

/// Adds the word that begins the form of a point.
#[tactic(auto, using(tau_sexpr::proofs::Literals::word_literal), unfolding(tau_sexpr::specs::Bytes::is_word_byte, tau_sexpr::specs::Bytes::is_letter_or_digit, tau_sexpr::specs::Bytes::is_word_sign))]
fn add_head(alloc: Global, forms: &mut Forms) -> Result<(), AllocError>
    ensures { OnOk result (forms.new ≡ forms.old ++ tree.word texts.point_word ∷ []) }
{
    forms.add(Form::Word(Word::of(alloc, b"point")?))
}

/// Adds the name of a start, or the number of another transactor.
fn add_who(alloc: Global, forms: &mut Forms, opening: &Opening, who: u32) -> Result<(), AllocError>
    ensures form { OnOk result (forms.new ≡ forms.old ++ who_form opening.now who ∷ []) }
    ensures fits { OnOk result (who < 2 ^ 32) }
{
    let word = match opening.names.item(who as usize) {
        Some(name) => name.copy()?,
        None => word_of_count(alloc, u64::from(who))?,
    };
    forms.add(Form::Word(word))
}

/// Adds a number.
fn add_count(alloc: Global, forms: &mut Forms, count: u32) -> Result<(), AllocError>
    ensures form { OnOk result (forms.new ≡ forms.old ++ count_form count ∷ []) }
    ensures fits { OnOk result (count < 2 ^ 32) }
{
    forms.add(Form::Word(word_of_count(alloc, u64::from(count))?))
}

/// Adds the place of a step, if there is one.
fn add_place(alloc: Global, forms: &mut Forms, place: Option<u32>) -> Result<(), AllocError>
    ensures form { OnOk result (forms.new ≡ forms.old ++ place_forms place) }
    ensures fits { OnOk result (PlaceFits place) }
{
    match place {
        Some(place) => add_count(alloc, forms, place),
        None => Ok(()),
    }
}
