//! Values.
ghost use Rattle.std.specs.Prelude.{◌≡◌, ◌++◌, OnOk};
ghost use Rattle.std.specs.Fmt.{signed_decimal};
ghost use Rattle.tau_sexpr.specs.Printing.{print_of};
ghost use Rattle.tau_sexpr.specs.Tree as tree;
ghost use Rattle.tau_value.specs.Val as val;
ghost use Rattle.tau_value.specs.Val.{inside};
ghost use Rattle.tau_value.specs.Value.{val_of};
ghost use Rattle.tau_scene.specs.Words.Texts.{value_text};

use crate::words::forms::printed;
use crate::words::points::put_who;
use itoa::Buffer;
use std::alloc::{AllocError, Global};
use tau_sexpr::{Form, Text};
use tau_value::{Names, Value, Values};

/// Adds the printed form of a value (docs/formats.md, "Values"), with no line feed behind it. The error is want of memory.
#[cycle(put)]
pub fn put_value(
    alloc: Global,
    out: &mut Vec<u8>,
    names: &Names,
    value: &Value,
) -> Result<(), AllocError>
    ensures { OnOk result (out.new.items ≡ out.old.items ++ value_text names.now (val_of value.now)) }
{
    match value {
        Value::Unit => out.extend_from_slice(b"unit"),
        Value::Truth(true) => out.extend_from_slice(b"true"),
        Value::Truth(false) => out.extend_from_slice(b"false"),
        Value::Int(integer) => put_integer(out, *integer),
        Value::Text(text) => put_text(alloc, out, text),
        Value::Name(number) => put_name(out, names, *number),
        Value::List(items) => put_list(alloc, out, names, items),
    }
}

/// Adds a list of values.
#[cycle(put)]
fn put_list(
    alloc: Global,
    out: &mut Vec<u8>,
    names: &Names,
    items: &Values,
) -> Result<(), AllocError>
    ensures { OnOk result (out.new.items ≡ out.old.items ++ value_text names.now (val.list (inside items.now))) }
{
    out.extend_from_slice(b"(list")?;
    for item in items.items() {
        out.push(b' ')?;
        put_value(alloc, out, names, item)?;
    }
    out.push(b')')?;
    Ok(())
}

/// Adds an integer.
fn put_integer(out: &mut Vec<u8>, integer: i64) -> Result<(), AllocError>
    ensures { OnOk result (out.new.items ≡ out.old.items ++ signed_decimal integer) }
{
    let mut buffer = Buffer::new();
    out.extend_from_slice(buffer.format(integer).as_bytes())
}

/// Adds the name of a transactor, as a value.
fn put_name(out: &mut Vec<u8>, names: &Names, number: u32) -> Result<(), AllocError>
    ensures { OnOk result (out.new.items ≡ out.old.items ++ value_text names.now (val.name number)) }
{
    out.extend_from_slice(b"(name ")?;
    put_who(out, names, number)?;
    out.push(b')')?;
    Ok(())
}

/// Adds a text, in quotes.
fn put_text(alloc: Global, out: &mut Vec<u8>, text: &Text) -> Result<(), AllocError>
    ensures { OnOk result (out.new.items ≡ out.old.items ++ print_of (tree.text text.now)) }
{
    let quoted = printed(alloc, Form::Text(text.copy()?))?;
    out.extend_from_slice(&quoted)
}
