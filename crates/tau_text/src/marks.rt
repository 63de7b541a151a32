//! Marks: lists of one word at the top of an input.
ghost use Rattle.std.specs.Prelude.{◌≡◌, ◌↔◌, IsTrue, length, map};
ghost use Rattle.tau_sexpr.specs.Form.{tree_of};
ghost use Rattle.tau_text.specs.Parts.{is_mark as mark_test, before};

use tau_sexpr::Form;

/// How many forms stand before the first mark of a word; all, where there is none.
pub(crate) fn place_of_mark(forms: &[Form], word: &[u8]) -> usize
    ensures { result ≡ length (before word.now (map tree_of forms.now)) }
{
    for (place, form) in forms.iter().enumerate() {
        if is_mark(form, word) {
            return place;
        }
    }
    forms.len()
}

/// Whether a form is the list of this one word.
fn is_mark(form: &Form, word: &[u8]) -> bool
    ensures { result ≡ mark_test word.now (tree_of form.now) }
{
    let Form::List(items) = form else {
        return false;
    };
    let [only] = items.items() else {
        return false;
    };
    match only {
        Form::Word(only) => only.bytes() == word,
        Form::Text(_) | Form::List(_) => false,
    }
}
