//! The texts of values, put straight behind a text: no form of a value is made.
ghost use Rattle.std.specs.Prelude.{◌≡◌, ◌∷◌, ◌++◌, [], All, OnOk, codes, if◌then◌else◌};
ghost use Rattle.std.specs.Fmt.{decimal, signed_decimal};
ghost use Rattle.std.specs.List.{flat_map};
ghost use Rattle.tau_sexpr.specs.Bytes.{IsWordByte, IsTextByte};
ghost use Rattle.tau_sexpr.specs.Printing.{quoted_byte, print_of, HasBytes, AllHaveBytes};
ghost use Rattle.tau_value.specs.Names.{AreNames};
ghost use Rattle.tau_value.specs.Val as val;
ghost use Rattle.tau_value.specs.Val.{inside};
ghost use Rattle.tau_value.specs.Value.{val_of};
ghost use Rattle.tau_value.specs.Written.{name_written, written, written_all, NumbersFit, AllNumbersFit, IsWritten};

use itoa::Buffer;
use std::alloc::AllocError;
use tau_sexpr::Text;
use tau_value::{Names, Value, Values};

/// Adds the text of a value's form to the end of `out` (docs/formats.md, "Values"): start names for starts, and numbers for
/// other transactors. It takes memory for the text alone. The error is want of memory, and a part of the text may then be added.
#[cycle(put)]
pub(crate) fn put_value(out: &mut Vec<u8>, value: &Value, names: &Names) -> Result<(), AllocError>
    ensures text { OnOk result (out.new.items ≡ out.old.items ++ print_of (written names.now (val_of value.now))) }
    ensures bytes { OnOk result (HasBytes (written names.now (val_of value.now))) }
    ensures numbers { OnOk result (NumbersFit (val_of value.now)) }
{
    match value {
        Value::Unit => out.extend_from_slice(b"unit"),
        Value::Truth(truth) => put_truth(out, *truth),
        Value::Int(integer) => put_integer(out, *integer),
        Value::Text(text) => put_text(out, text),
        Value::Name(number) => put_transactor(out, *number, names),
        Value::List(items) => put_list(out, items, names),
    }
}

#[cycle(put)]
fn put_list(out: &mut Vec<u8>, items: &Values, names: &Names) -> Result<(), AllocError>
    ensures text { OnOk result (out.new.items ≡ out.old.items ++ print_of (written names.now (val.list (inside items.now)))) }
    ensures bytes { OnOk result (AllHaveBytes (written_all names.now (inside items.now))) }
    ensures numbers { OnOk result (AllNumbersFit (inside items.now)) }
{
    out.extend_from_slice(b"(list")?;
    for item in items.items() {
        out.push(b' ')?;
        put_value(out, item, names)?;
    }
    out.push(b')')?;
    Ok(())
}

/// Adds `(name X)` of a transactor.
fn put_transactor(out: &mut Vec<u8>, number: u32, names: &Names) -> Result<(), AllocError>
    ensures text { OnOk result (out.new.items ≡ out.old.items ++ print_of (written names.now (val.name number))) }
    ensures bytes { OnOk result (All IsWordByte (name_written names.now number)) }
{
    out.extend_from_slice(b"(name ")?;
    put_name(out, names, number)?;
    out.push(b')')?;
    Ok(())
}

/// Adds the name at a number to the end of `out`, or the number in decimal where the list has none. The error is want of memory,
/// and a part may then be added.
pub(crate) fn put_name(out: &mut Vec<u8>, names: &Names, number: u32) -> Result<(), AllocError>
    ensures text { OnOk result (out.new.items ≡ out.old.items ++ name_written names.now number) }
    ensures bytes { OnOk result (All IsWordByte (name_written names.now number)) }
{
    match names.item(number as usize) {
        Some(name) => out.extend_from_slice(name.bytes()),
        None => put_count(out, number),
    }
}

/// Adds a number in decimal to the end of `out`. The error is want of memory.
pub(crate) fn put_count(out: &mut Vec<u8>, count: u32) -> Result<(), AllocError>
    ensures text { OnOk result (out.new.items ≡ out.old.items ++ decimal count) }
    ensures bytes { OnOk result (All IsWordByte (decimal count)) }
{
    let mut buffer = Buffer::new();
    out.extend_from_slice(buffer.format(u64::from(count)).as_bytes())
}

/// Adds a space and the name at a number, or the number where the list has none, to the end of `out`. The error is want of
/// memory, and a part may then be added.
pub fn add_name(out: &mut Vec<u8>, names: &Names, number: u32) -> Result<(), AllocError>
    ensures text { OnOk result (out.new.items ≡ out.old.items ++ 32 ∷ name_written names.now number) }
    ensures bytes { OnOk result (All IsWordByte (name_written names.now number)) }
{
    out.push(b' ')?;
    put_name(out, names, number)
}

/// Adds a space and a number in decimal to the end of `out`. The error is want of memory, and the space may then be added.
pub fn add_count(out: &mut Vec<u8>, count: u32) -> Result<(), AllocError>
    ensures text { OnOk result (out.new.items ≡ out.old.items ++ 32 ∷ decimal count) }
    ensures bytes { OnOk result (All IsWordByte (decimal count)) }
{
    out.push(b' ')?;
    put_count(out, count)
}

/// Adds a space and the text of a value's form, as `put_value` does, to the end of `out`; it is read back as the value. The error
/// is want of memory, and a part may then be added.
pub fn add_value(out: &mut Vec<u8>, value: &Value, names: &Names) -> Result<(), AllocError>
    ensures text { OnOk result (out.new.items ≡ out.old.items ++ 32 ∷ print_of (written names.now (val_of value.now))) }
    ensures bytes { OnOk result (HasBytes (written names.now (val_of value.now))) }
    ensures numbers { OnOk result (NumbersFit (val_of value.now)) }
    ensures written { AreNames names.now → OnOk result (IsWritten names.now (val_of value.now)) }
{
    out.push(b' ')?;
    put_value(out, value, names)
}

/// Adds an integer in decimal, with `-` before it where it is below 0.
pub(crate) fn put_integer(out: &mut Vec<u8>, integer: i64) -> Result<(), AllocError>
    ensures text { OnOk result (out.new.items ≡ out.old.items ++ signed_decimal integer) }
    ensures bytes { OnOk result (All IsWordByte (signed_decimal integer)) }
    ensures number { OnOk result (NumbersFit (val.int integer)) }
{
    let mut buffer = Buffer::new();
    out.extend_from_slice(buffer.format(integer).as_bytes())
}

/// Adds `true` or `false` to the end of `out`. The error is want of memory.
#[tactic(auto, using(tau_sexpr::proofs::Literals::word_literal), unfolding(tau_sexpr::specs::Bytes::is_word_byte, tau_sexpr::specs::Bytes::is_letter_or_digit, tau_sexpr::specs::Bytes::is_word_sign))]
pub fn put_truth(out: &mut Vec<u8>, truth: bool) -> Result<(), AllocError>
    ensures text { OnOk result (out.new.items ≡ out.old.items ++ (if truth then codes "true" else codes "false")) }
    ensures bytes { OnOk result (All IsWordByte (if truth then codes "true" else codes "false")) }
{
    if truth {
        out.extend_from_slice(b"true")
    } else {
        out.extend_from_slice(b"false")
    }
}

/// Adds a text in quotes.
pub(crate) fn put_text(out: &mut Vec<u8>, text: &Text) -> Result<(), AllocError>
    ensures text { OnOk result (out.new.items ≡ out.old.items ++ 34 ∷ (flat_map quoted_byte text.now ++ 34 ∷ [])) }
    ensures bytes { OnOk result (All IsTextByte text.now) }
{
    out.push(b'"')?;
    let bytes = text.bytes();
    for byte in bytes {
        put_byte(out, *byte)?;
    }
    out.push(b'"')?;
    Ok(())
}

/// Adds a byte of a text in quotes.
#[tactic(auto, unfolding(tau_sexpr::specs::Printing::quoted_byte))]
fn put_byte(out: &mut Vec<u8>, byte: u8) -> Result<(), AllocError>
    ensures { OnOk result (out.new.items ≡ out.old.items ++ quoted_byte byte) }
{
    match byte {
        b'"' => out.extend_from_slice(b"\\\""),
        b'\\' => out.extend_from_slice(b"\\\\"),
        b'\n' => out.extend_from_slice(b"\\n"),
        _ => {
            out.push(byte)?;
            Ok(())
        }
    }
}
