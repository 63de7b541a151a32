//! Elements, written part by part. Each call adds one part of a line; the error is want of memory.
ghost use Rattle.std.specs.Prelude.{◌≡◌, ◌∷◌, [], OnOk};
ghost use Rattle.tau_svg.specs.Markup.Lines.{plain, number, said, with_tag, with_name, with_piece, with_quote, with_end, with_open, with_close, with_title, with_title_close, with_constant, with_break, with_attribute};

use crate::markup::texts::escape;
use itoa::Buffer;
use std::alloc::AllocError;

/// Begins an element.
#[tactic(auto, unfolding(crate::specs::Markup::Lines::with_tag))]
pub fn begin(out: &mut Vec<u8>, tag: &[u8]) -> Result<(), AllocError>
    ensures { OnOk result (out.new.items ≡ with_tag out.old.items tag.now) }
{
    out.push(b'<')?;
    out.extend_from_slice(tag)
}

/// Begins an attribute, whose pieces follow, and then `quote`.
#[tactic(auto, unfolding(crate::specs::Markup::Lines::with_name))]
pub fn name(out: &mut Vec<u8>, name: &[u8]) -> Result<(), AllocError>
    ensures { OnOk result (out.new.items ≡ with_name out.old.items name.now) }
{
    out.push(b' ')?;
    out.extend_from_slice(name)?;
    out.extend_from_slice(b"=\"")
}

/// A piece of bytes that need no escaping.
#[tactic(auto, unfolding(crate::specs::Markup::Lines::with_piece))]
pub fn plain(out: &mut Vec<u8>, bytes: &[u8]) -> Result<(), AllocError>
    ensures { OnOk result (out.new.items ≡ with_piece out.old.items (plain bytes.now)) }
{
    out.extend_from_slice(bytes)
}

/// A piece that is a number, in decimal.
#[tactic(auto, unfolding(crate::specs::Markup::Lines::with_piece))]
pub fn number(out: &mut Vec<u8>, value: u64) -> Result<(), AllocError>
    ensures { OnOk result (out.new.items ≡ with_piece out.old.items (number value)) }
{
    let mut buffer = Buffer::new();
    out.extend_from_slice(buffer.format(value).as_bytes())
}

/// A piece that is a text, escaped.
#[tactic(auto, unfolding(crate::specs::Markup::Lines::with_piece))]
pub fn said(out: &mut Vec<u8>, text: &[u8]) -> Result<(), AllocError>
    ensures { OnOk result (out.new.items ≡ with_piece out.old.items (said text.now)) }
{
    escape(out, text)
}

/// Ends an attribute.
#[tactic(auto, unfolding(crate::specs::Markup::Lines::with_quote))]
pub fn quote(out: &mut Vec<u8>) -> Result<(), AllocError>
    ensures { OnOk result (out.new.items ≡ with_quote out.old.items) }
{
    out.push(b'"')?;
    Ok(())
}

/// An attribute whose value is a number.
pub fn put_number(out: &mut Vec<u8>, name: &[u8], value: u64) -> Result<(), AllocError>
    ensures { OnOk result (out.new.items ≡ with_attribute out.old.items (record { name = name.now; value = number value ∷ [] })) }
{
    crate::markup::elements::name(out, name)?;
    number(out, value)?;
    quote(out)
}

/// An attribute whose value is a word.
pub fn put_word(out: &mut Vec<u8>, name: &[u8], value: &[u8]) -> Result<(), AllocError>
    ensures { OnOk result (out.new.items ≡ with_attribute out.old.items (record { name = name.now; value = plain value.now ∷ [] })) }
{
    crate::markup::elements::name(out, name)?;
    plain(out, value)?;
    quote(out)
}

/// Ends an element that holds nothing, and its line.
#[tactic(auto, unfolding(crate::specs::Markup::Lines::with_end))]
pub fn end(out: &mut Vec<u8>) -> Result<(), AllocError>
    ensures { OnOk result (out.new.items ≡ with_end out.old.items) }
{
    out.extend_from_slice(b"/>\n")
}

/// Begins the text of an element, whose pieces follow, and then `close`.
#[tactic(auto, unfolding(crate::specs::Markup::Lines::with_open))]
pub fn text(out: &mut Vec<u8>) -> Result<(), AllocError>
    ensures { OnOk result (out.new.items ≡ with_open out.old.items) }
{
    out.push(b'>')?;
    Ok(())
}

/// Ends an element behind its text, and its line.
#[tactic(auto, unfolding(crate::specs::Markup::Lines::with_close))]
pub fn close(out: &mut Vec<u8>, tag: &[u8]) -> Result<(), AllocError>
    ensures { OnOk result (out.new.items ≡ with_close out.old.items tag.now) }
{
    out.extend_from_slice(b"</")?;
    out.extend_from_slice(tag)?;
    out.extend_from_slice(b">\n")
}

/// Begins the title of an element, whose pieces follow, and then `title_close`.
#[tactic(auto, unfolding(crate::specs::Markup::Lines::with_title))]
pub fn title(out: &mut Vec<u8>) -> Result<(), AllocError>
    ensures { OnOk result (out.new.items ≡ with_title out.old.items) }
{
    out.extend_from_slice(b"><title>")
}

/// Ends an element behind its title, and its line.
#[tactic(auto, unfolding(crate::specs::Markup::Lines::with_title_close))]
pub fn title_close(out: &mut Vec<u8>, tag: &[u8]) -> Result<(), AllocError>
    ensures { OnOk result (out.new.items ≡ with_title_close out.old.items tag.now) }
{
    out.extend_from_slice(b"</title></")?;
    out.extend_from_slice(tag)?;
    out.extend_from_slice(b">\n")
}

/// Ends the line that begins an element that holds further lines.
#[tactic(auto, unfolding(crate::specs::Markup::Lines::with_break))]
pub fn line_break(out: &mut Vec<u8>) -> Result<(), AllocError>
    ensures { OnOk result (out.new.items ≡ with_break out.old.items) }
{
    out.extend_from_slice(b">\n")
}

/// A line of these bytes.
#[tactic(auto, unfolding(crate::specs::Markup::Lines::with_constant))]
pub fn constant(out: &mut Vec<u8>, bytes: &[u8]) -> Result<(), AllocError>
    ensures { OnOk result (out.new.items ≡ with_constant out.old.items bytes.now) }
{
    out.extend_from_slice(bytes)?;
    out.push(b'\n')?;
    Ok(())
}
