//! Forms of values.
ghost use Rattle.std.specs.Prelude.{◌≡◌, All, IfOk, OnOk};
ghost use Rattle.tau_sexpr.specs.Bytes.{IsWordByte};
ghost use Rattle.tau_sexpr.specs.Form.{tree_of};
ghost use Rattle.tau_sexpr.specs.Tree as tree;
ghost use Rattle.tau_sexpr.specs.Tree.{depth_of, HasWords};
ghost use Rattle.tau_value.specs.Names.{AreNames};
ghost use Rattle.tau_value.specs.Sizes.{levels_of};
ghost use Rattle.tau_value.specs.Val as val;
ghost use Rattle.tau_value.specs.Val.{inside};
ghost use Rattle.tau_value.specs.Value.{val_of};
ghost use Rattle.tau_value.specs.Written.{written, NumbersFit, AllNumbersFit, ReadsBack};

use crate::{Names, Value, Values, word_of_count, word_of_integer};
use std::alloc::{AllocError, Global};
use tau_sexpr::{Form, Forms, Word};

/// The form of a value: start names for starts, and numbers for other transactors (docs/formats.md, "Values").
/// `value_of` reads it back as the same value, where that is in bounds and its names are below the bound.
/// Its lists stand as deep as the value has levels, and none of its words is empty. The error is want of memory.
pub fn form_of(alloc: Global, value: &Value, names: &Names) -> Result<Form, AllocError>
    requires { AreNames names.now }
    ensures form { IfOk result (λ f. tree_of f ≡ written names.now (val_of value.now)) }
    ensures read_back { IfOk result (λ f. ReadsBack names.now (val_of value.now) (tree_of f)) }
    ensures depth { IfOk result (λ f. depth_of (tree_of f) ≡ levels_of (val_of value.now)) }
    ensures words { IfOk result (λ f. HasWords (tree_of f)) }
{
    write(alloc, value, names)
}

#[cycle(write)]
fn write(alloc: Global, value: &Value, names: &Names) -> Result<Form, AllocError>
    ensures form { IfOk result (λ f. tree_of f ≡ written names.now (val_of value.now)) }
    ensures numbers { OnOk result (NumbersFit (val_of value.now)) }
{
    match value {
        Value::Unit => form_of_word(alloc, b"unit"),
        Value::Truth(true) => form_of_word(alloc, b"true"),
        Value::Truth(false) => form_of_word(alloc, b"false"),
        Value::Int(integer) => Ok(Form::Word(word_of_integer(alloc, *integer)?)),
        Value::Text(text) => Ok(Form::Text(text.copy()?)),
        Value::Name(number) => form_of_name(alloc, *number, names),
        Value::List(items) => write_all(alloc, items, names),
    }
}

#[cycle(write)]
fn write_all(alloc: Global, items: &Values, names: &Names) -> Result<Form, AllocError>
    ensures form { IfOk result (λ f. tree_of f ≡ written names.now (val.list (inside items.now))) }
    ensures numbers { OnOk result (AllNumbersFit (inside items.now)) }
{
    let mut forms = Forms::new(alloc);
    forms.add(form_of_word(alloc, b"list")?)?;
    for item in items.items() {
        forms.add(write(alloc, item, names)?)?;
    }
    Ok(Form::List(forms))
}

/// `(name X)` of a transactor.
fn form_of_name(alloc: Global, number: u32, names: &Names) -> Result<Form, AllocError>
    ensures { IfOk result (λ f. tree_of f ≡ written names.now (val.name number)) }
{
    let word = match names.item(number as usize) {
        Some(name) => name.copy()?,
        None => word_of_count(alloc, u64::from(number))?,
    };
    let mut forms = Forms::new(alloc);
    forms.add(form_of_word(alloc, b"name")?)?;
    forms.add(Form::Word(word))?;
    Ok(Form::List(forms))
}

fn form_of_word(alloc: Global, bytes: &[u8]) -> Result<Form, AllocError>
    requires { All IsWordByte bytes.now }
    ensures { IfOk result (λ f. tree_of f ≡ tree.word bytes.now) }
{
    Ok(Form::Word(Word::of(alloc, bytes)?))
}
