//! Parts of forms.
ghost use Rattle.std.specs.Prelude.{◌≡◌, ◌∷◌, [], All, IfOk};
ghost use Rattle.tau_sexpr.specs.Bytes.{IsWordByte};
ghost use Rattle.tau_sexpr.specs.Form.{tree_of};
ghost use Rattle.tau_sexpr.specs.Tree as tree;
ghost use Rattle.tau_report.specs.Report.{count_of};
ghost use Rattle.tau_value.specs.Written.{count_form};

use std::alloc::{AllocError, Global};
use tau_sexpr::{Form, Forms, Word};
use tau_value::word_of_count;

/// A list that begins with a word.
pub(crate) fn headed(alloc: Global, bytes: &[u8]) -> Result<Forms, AllocError>
    requires { All IsWordByte bytes.now }
    ensures { IfOk result (λ f. f ≡ tree.word bytes.now ∷ []) }
{
    let mut forms = Forms::new(alloc);
    forms.add(Form::Word(Word::of(alloc, bytes)?))?;
    Ok(forms)
}

/// A number.
fn form_of_count(alloc: Global, count: u32) -> Result<Form, AllocError>
    ensures { IfOk result (λ f. tree_of f ≡ count_form count) }
{
    Ok(Form::Word(word_of_count(alloc, u64::from(count))?))
}

/// A count with its word.
pub(crate) fn form_of_named(alloc: Global, bytes: &[u8], count: u32) -> Result<Form, AllocError>
    requires { All IsWordByte bytes.now }
    ensures { IfOk result (λ f. tree_of f ≡ count_of bytes.now count) }
{
    let mut items = headed(alloc, bytes)?;
    items.add(form_of_count(alloc, count)?)?;
    Ok(Form::List(items))
}
