//! What is wanted at each place of a program's forms.
ghost use Rattle.std.specs.Prelude.{◌≡◌, ◌<◌, ◌^◌, None, Some, option_map, if◌then◌else◌};
ghost use Rattle.tau_forms.specs.Faults.{is_constant as constant_test, word_fault, text_fault};
ghost use Rattle.tau_forms.specs.Inner.Passing.{error_at};
ghost use Rattle.tau_forms.specs.Tops.{is_count_in as count_test};
ghost use Rattle.tau_value.specs.Names.{is_name as name_test};
ghost use Rattle.tau_forms.specs.Inner.Wanted.{role_of, fault_in};

use crate::ProgramError;
use crate::scopes::{Scope, are_among};
use tau_sexpr::{Form, Text, Word};
use tau_value::{Names, count_of, integer_of, is_name};

/// What is wanted of a form.
#[derive(Clone, Copy, Drop)]
pub(crate) enum Wanted<'s> {
    /// The word that begins a list.
    First,
    /// The word that begins a list (nodes K) or (version K); whether such a list stands before it.
    Mark { again: bool },
    /// A name that is defined: one of these.
    Known(&'s Names),
    /// A name that isn't one of these.
    Fresh(&'s Names),
    /// A name that isn't a word among these forms.
    OtherThan(&'s [Form]),
    /// A count, at least `low` and below `end`.
    Count { low: u64, end: u64 },
    /// What a script entry does.
    Failure,
    /// A value.
    Value,
    /// An expression, in which these variables are bound.
    Expression(&'s Scope<'s>),
    /// The two names of a fold.
    TwoNames,
}

/// What can be wrong with a node.
#[derive(Clone, Copy, Debug, PartialEq, Eq)]
pub(crate) enum FaultKind {
    Shape,
    Unknown,
    Twice,
}

impl FaultKind {
    /// The error for this fault at a node.
    pub(crate) fn at(self, node: u64) -> ProgramError
        ensures { result ≡ error_at self node }
    {
        match self {
            FaultKind::Shape => ProgramError::Shape { node },
            FaultKind::Unknown => ProgramError::Unknown { node },
            FaultKind::Twice => ProgramError::Twice { node },
        }
    }
}

/// The fault of a word where this is wanted.
pub(crate) fn fault_of_word(word: &Word, wanted: Wanted<'_>) -> Option<FaultKind>
    ensures { option_map fault_in result ≡ word_fault (role_of wanted.entry) word.now }
{
    match wanted {
        Wanted::First | Wanted::Value => None,
        Wanted::Mark { again } => fault_unless(!again, FaultKind::Twice),
        Wanted::Known(names) => fault_of_name(word, names.find(word).is_some(), FaultKind::Unknown),
        Wanted::Fresh(names) => fault_of_name(word, names.find(word).is_none(), FaultKind::Twice),
        Wanted::OtherThan(forms) => fault_of_name(word, !are_among(forms, word), FaultKind::Twice),
        Wanted::Count { low, end } => fault_unless(is_count_in(word, low, end), FaultKind::Shape),
        Wanted::Expression(scope) => {
            if is_constant(word) {
                return None;
            }
            fault_of_name(word, scope.has(word), FaultKind::Unknown)
        }
        Wanted::Failure | Wanted::TwoNames => Some(FaultKind::Shape),
    }
}

/// The fault of a text in quotes where this is wanted.
pub(crate) fn fault_of_text(text: &Text, wanted: Wanted<'_>) -> Option<FaultKind>
    ensures { option_map fault_in result ≡ text_fault (role_of wanted.entry) text.now }
{
    match wanted {
        Wanted::Value => None,
        Wanted::Expression(_) => fault_unless(text.len() <= 65_535, FaultKind::Shape),
        _ => Some(FaultKind::Shape),
    }
}

/// The fault of a word where a name is wanted of which this must hold.
fn fault_of_name(word: &Word, holds: bool, otherwise: FaultKind) -> Option<FaultKind>
    ensures { result ≡ (if name_test word.now then (if holds then None else Some otherwise) else Some FaultKind.Shape) }
{
    if !is_name(word) {
        return Some(FaultKind::Shape);
    }
    fault_unless(holds, otherwise)
}

fn fault_unless(holds: bool, fault: FaultKind) -> Option<FaultKind>
    ensures { result ≡ (if holds then None else Some fault) }
{
    if holds { None } else { Some(fault) }
}

/// Whether a word is one of the expressions that are no variables.
fn is_constant(word: &Word) -> bool
    ensures { result ≡ constant_test word.now }
{
    let bytes = word.bytes();
    bytes == b"unit".as_slice()
        || bytes == b"true".as_slice()
        || bytes == b"false".as_slice()
        || bytes == b"msg".as_slice()
        || bytes == b"self".as_slice()
        || integer_of(word).is_some()
}

/// Whether a word is a count, at least `low` and below `end`.
fn is_count_in(word: &Word, low: u64, end: u64) -> bool
    requires { end < 2 ^ 64 }
    ensures { result ≡ count_test low end word.now }
{
    match count_of(word) {
        Some(count) => low <= count && count < end,
        None => false,
    }
}
