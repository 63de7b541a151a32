//! Parts of forms.
ghost use Rattle.std.specs.Prelude.{◌≡◌, ◌<◌, ◌^◌, ◌∷◌, ◌++◌, [], All, IfOk, OnOk};
ghost use Rattle.tau_sexpr.specs.Bytes.{IsWordByte};
ghost use Rattle.tau_sexpr.specs.Tree as tree;
ghost use Rattle.tau_value.specs.Written.{count_form};

use std::alloc::{AllocError, Global};
use tau_sexpr::{Form, Forms, Word};
use tau_value::word_of_count;

/// A list that begins with a word.
pub(crate) fn headed(alloc: Global, bytes: &[u8]) -> Result<Forms, AllocError>
    requires { All IsWordByte bytes.now }
    ensures { IfOk result (λ f. f ≡ tree.word bytes.now ∷ []) }
{
    let mut forms = Forms::new(alloc);
    forms.add(Form::Word(Word::of(alloc, bytes)?))?;
    Ok(forms)
}

/// Adds a number.
pub(crate) fn add_count(alloc: Global, forms: &mut Forms, count: u32) -> Result<(), AllocError>
    ensures form { OnOk result (forms.new ≡ forms.old ++ count_form count ∷ []) }
    ensures fits { OnOk result (count < 2 ^ 32) }
{
    forms.add(Form::Word(word_of_count(alloc, u64::from(count))?))
}
