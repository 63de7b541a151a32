//! Numbers and values.
ghost use Rattle.tau_value.specs.Names.{AreNames};
ghost use Rattle.tau_value.specs.Sizes.{IsInBounds};
ghost use Rattle.tau_value.specs.Value.{val_of};

use crate::texts::add_one;
use std::alloc::{AllocError, Global};
use tau_sexpr::{Form, Forms, Word, read_forms};
use tau_value::{
    Names, Value, count_of, form_of, integer_of, value_of, word_of_count, word_of_integer,
};

/// The names that values are read with, and the bound.
const NAMES: &str = "a to-2";

const BOUND: u32 = 9;

/// Adds each word of these forms as a count and as an integer.
pub(crate) fn add_numbers(
    alloc: Global,
    text: &mut String,
    forms: &Forms,
) -> Result<(), AllocError> {
    for form in forms.items() {
        if let Form::Word(word) = form {
            add_word(text, word)?;
            add_count(alloc, text, word)?;
            add_integer(alloc, text, word)?;
        }
    }
    Ok(())
}

fn add_word(text: &mut String, word: &Word) -> Result<(), AllocError> {
    text.push_str(str::from_utf8(word.bytes()).unwrap_or(""))
}

fn add_count(alloc: Global, text: &mut String, word: &Word) -> Result<(), AllocError> {
    let Some(count) = count_of(word) else {
        return text.push_str(": no count");
    };
    text.push_str(": count ")?;
    add_word(text, &word_of_count(alloc, count)?)
}

fn add_integer(alloc: Global, text: &mut String, word: &Word) -> Result<(), AllocError> {
    let Some(integer) = integer_of(word) else {
        return text.push_str(", no integer\n");
    };
    text.push_str(", integer ")?;
    add_word(text, &word_of_integer(alloc, integer)?)?;
    text.push_str("\n")
}

/// Adds each form as a value, or its fault.
pub(crate) fn add_values(
    alloc: Global,
    text: &mut String,
    forms: &Forms,
) -> Result<(), AllocError> {
    let names = names_of(alloc)?;
    for form in forms.items() {
        add_value(alloc, text, form, &names)?;
    }
    Ok(())
}

fn names_of(alloc: Global) -> Result<Names, AllocError> {
    let Ok(forms) = read_forms(alloc, NAMES.as_bytes()) else {
        return Err(AllocError);
    };
    let mut names = Names::new(alloc);
    add_names(&mut names, &forms)?;
    names.copy()
}

/// Adds the words of these forms to a list of names.
fn add_names(names: &mut Names, forms: &Forms) -> Result<(), AllocError> {
    for form in forms.items() {
        if let Form::Word(word) = form {
            add_name(names, word)?;
        }
    }
    Ok(())
}

fn add_name(names: &mut Names, name: &Word) -> Result<(), AllocError> {
    match names.push(name.copy()?) {
        Ok(()) => Ok(()),
        Err((_name, failed)) => Err(failed),
    }
}

/// Adds a form as a value, or its fault.
fn add_value(
    alloc: Global,
    text: &mut String,
    form: &Form,
    names: &Names,
) -> Result<(), AllocError> {
    if !names.are_names() || names.len() > BOUND as usize {
        return text.push_str("no names\n");
    }
    match value_of(alloc, form, names, BOUND) {
        Ok(value) => add_copy(alloc, text, &value, names),
        Err(error) => writeln!(text, "{error}"),
    }
}

/// Adds a copy of a value, printed.
fn add_copy(
    alloc: Global,
    text: &mut String,
    value: &Value,
    names: &Names,
) -> Result<(), AllocError>
    requires within { IsInBounds (val_of value.now) }
    requires names { AreNames names.now }
{
    let copied = value.copy()?;
    add_one(alloc, text, form_of(alloc, &copied, names)?)
}
