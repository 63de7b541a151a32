//! The variables that are bound around an expression.
ghost use Rattle.std.specs.Prelude.{◌≡◌, map};
ghost use Rattle.tau_sexpr.specs.Form.{tree_of};
ghost use Rattle.tau_sexpr.specs.Tree.{inside};
ghost use Rattle.tau_forms.specs.Roles.{word_of, words_of};
ghost use Rattle.tau_forms.specs.Inner.Scopes.{names_of};
ghost use Rattle.tau_forms.specs.Tops.{has as is_among};

use tau_sexpr::{Form, Word};

/// The variables that are bound around an expression: those of the expressions around it, and the nearest, which are the
/// words among these forms.
#[derive(Drop)]
pub(crate) enum Scope<'s> {
    Empty,
    Inner {
        names: &'s [Form],
        outer: &'s Scope<'s>,
    },
}

impl Scope<'_> {
    /// Whether a variable is bound. It looks at each variable.
    pub(crate) fn has(&self, word: &Word) -> bool
        ensures { result ≡ is_among (names_of self.now) word.now }
    {
        match self {
            Scope::Empty => false,
            Scope::Inner { names, outer } => outer.has(word) || are_among(names, word),
        }
    }
}

/// Whether a word is one of these forms.
pub(crate) fn are_among(forms: &[Form], word: &Word) -> bool
    ensures { result ≡ is_among (words_of (inside (map tree_of forms.now))) word.now }
{
    for form in forms {
        if is_word(form, word) {
            return true;
        }
    }
    false
}

fn is_word(form: &Form, word: &Word) -> bool
    ensures { result ≡ is_among (word_of (tree_of form.now)) word.now }
{
    match form {
        Form::Word(own) => own.bytes() == word.bytes(),
        Form::Text(_) | Form::List(_) => false,
    }
}
