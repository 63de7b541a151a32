//! Forms, printed, and words and texts that are built anew.
ghost use Rattle.std.specs.Prelude.{◌≤◌, All};
ghost use Rattle.tau_sexpr.specs.Form.{tree_of};
ghost use Rattle.tau_sexpr.specs.Tree.{HasWords, depth_of, depths};

use std::alloc::{AllocError, Global};
use tau_sexpr::{
    Form, Forms, Text, Word, are_text_bytes, are_word_bytes, is_text_byte, is_word_byte,
    print_forms, read_some,
};

/// Adds forms, printed from a copy.
pub(crate) fn add_forms(alloc: Global, text: &mut String, forms: &Forms) -> Result<(), AllocError>
    requires depth { depths forms.now ≤ 200 }
    requires words { All HasWords forms.now }
{
    add_printed(alloc, text, &forms.copy()?)
}

/// Adds how many forms each piece of a text has, which stands 1,000 times over, and the place behind it; or the fault.
pub(crate) fn add_pieces(
    alloc: Global,
    text: &mut String,
    spelled: &str,
) -> Result<(), AllocError> {
    let mut bytes = Vec::new(alloc);
    for _ in 0..1_000 {
        bytes.extend_from_slice(spelled.as_bytes())?;
    }
    let mut at = 0;
    while at < bytes.len() {
        match read_some(alloc, &bytes, at) {
            Ok((forms, next)) => {
                writeln!(text, "{} up to {next}", forms.len())?;
                at = next;
            }
            Err(error) => return writeln!(text, "{error}"),
        }
    }
    Ok(())
}

/// Adds forms, printed with words and texts that are built anew.
pub(crate) fn add_built(alloc: Global, text: &mut String, forms: &Forms) -> Result<(), AllocError>
    requires depth { depths forms.now ≤ 200 }
    requires words { All HasWords forms.now }
{
    let built = built_forms(alloc, forms)?;
    if !built.same(forms) {
        return text.push_str("other forms\n");
    }
    add_printed(alloc, text, &built)
}

/// Adds a printed form.
pub(crate) fn add_one(alloc: Global, text: &mut String, form: Form) -> Result<(), AllocError>
    requires depth { depth_of (tree_of form) ≤ 200 }
    requires words { HasWords (tree_of form) }
{
    let mut forms = Forms::new(alloc);
    forms.add(form)?;
    add_printed(alloc, text, &forms)
}

/// Adds the printed forms.
pub(crate) fn add_printed(alloc: Global, text: &mut String, forms: &Forms) -> Result<(), AllocError>
    requires depth { depths forms.now ≤ 200 }
    requires words { All HasWords forms.now }
{
    let bytes = print_forms(alloc, forms)?;
    text.push_str(str::from_utf8(&bytes).unwrap_or(""))
}

/// The same forms, whose words and texts at the top are built anew.
fn built_forms(alloc: Global, forms: &Forms) -> Result<Forms, AllocError> {
    let mut built = Forms::new(alloc);
    for form in forms.items() {
        built.add(built_form(alloc, form)?)?;
    }
    Ok(built)
}

fn built_form(alloc: Global, form: &Form) -> Result<Form, AllocError> {
    match form {
        Form::Word(word) => Ok(Form::Word(built_word(alloc, word)?)),
        Form::Text(text) => Ok(Form::Text(built_text(alloc, text)?)),
        Form::List(items) => Ok(Form::List(items.copy()?)),
    }
}

/// The word of the same bytes, the last of which is pushed.
fn built_word(alloc: Global, word: &Word) -> Result<Word, AllocError> {
    let Some((last, front)) = word.bytes().split_last() else {
        return Ok(Word::new(alloc));
    };
    if !are_word_bytes(front) || !is_word_byte(*last) {
        return Ok(Word::new(alloc));
    }
    let mut built = Word::of(alloc, front)?;
    match built.push(*last) {
        Ok(()) => Ok(built),
        Err((_byte, failed)) => Err(failed),
    }
}

/// The text of the same bytes, the last of which is pushed; another text shares the bytes before it.
fn built_text(alloc: Global, text: &Text) -> Result<Text, AllocError> {
    let Some((last, front)) = text.bytes().split_last() else {
        return Ok(Text::new(alloc));
    };
    if !are_text_bytes(front) || !is_text_byte(*last) {
        return Ok(Text::new(alloc));
    }
    let shared = Text::of(alloc, front)?;
    let mut built = shared.copy()?;
    match built.push(*last) {
        Ok(()) => Ok(built),
        Err((_byte, failed)) => Err(failed),
    }
}
