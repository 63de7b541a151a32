//! Elements of the picture.
ghost use Rattle.std.specs.Prelude.{◌≡◌, ◌∷◌, [], OnOk, codes};
ghost use Rattle.tau_svg.specs.Markup.Lines.{plain, with_tag, with_attributes, with_open, with_end};
ghost use Rattle.tau_svg.specs.Shapes.Shapes as specs;

use crate::markup::{begin, end, name, number, plain, put_number, put_word, quote, text};
use std::alloc::AllocError;

/// Begins a rectangle.
pub fn rect(
    out: &mut Vec<u8>,
    class: &[u8],
    x: u64,
    y: u64,
    width: u64,
    height: u64,
) -> Result<(), AllocError>
    ensures { OnOk result (out.new.items ≡ with_attributes (with_tag out.old.items (codes "rect")) (specs.class class.now ∷ specs.box x y width height [])) }
{
    begin(out, b"rect")?;
    put_word(out, b"class", class)?;
    put_box(out, x, y, width, height)
}

/// Begins a rectangle whose class has an ending.
pub fn rect_of(
    out: &mut Vec<u8>,
    class: &[u8],
    ending: &[u8],
    x: u64,
    y: u64,
    width: u64,
    height: u64,
) -> Result<(), AllocError>
    ensures { OnOk result (out.new.items ≡ with_attributes (with_tag out.old.items (codes "rect")) (record { name = codes "class"; value = plain class.now ∷ plain ending.now ∷ [] } ∷ specs.box x y width height [])) }
{
    begin(out, b"rect")?;
    name(out, b"class")?;
    plain(out, class)?;
    plain(out, ending)?;
    quote(out)?;
    put_box(out, x, y, width, height)
}

/// The place and the size of a rectangle.
fn put_box(out: &mut Vec<u8>, x: u64, y: u64, width: u64, height: u64) -> Result<(), AllocError>
    ensures { OnOk result (out.new.items ≡ with_attributes out.old.items (specs.box x y width height [])) }
{
    put_number(out, b"x", x)?;
    put_number(out, b"y", y)?;
    put_number(out, b"width", width)?;
    put_number(out, b"height", height)
}

/// Ends a rectangle with round corners.
pub fn rounded(out: &mut Vec<u8>, radius: u64) -> Result<(), AllocError>
    ensures { OnOk result (out.new.items ≡ with_end (with_attributes out.old.items (specs.rounded radius))) }
{
    put_number(out, b"rx", radius)?;
    end(out)
}

/// Begins a text at a place.
pub fn text_at(out: &mut Vec<u8>, class: &[u8], x: u64, y: u64) -> Result<(), AllocError>
    ensures { OnOk result (out.new.items ≡ with_open (with_attributes (with_tag out.old.items (codes "text")) (specs.class class.now ∷ specs.is_number (codes "x") x ∷ specs.is_number (codes "y") y ∷ []))) }
{
    begin(out, b"text")?;
    put_word(out, b"class", class)?;
    put_number(out, b"x", x)?;
    put_number(out, b"y", y)?;
    text(out)
}

/// Begins the use of a symbol.
pub fn symbol_at(
    out: &mut Vec<u8>,
    prefix: &[u8],
    symbol: &[u8],
    x: u64,
    y: u64,
) -> Result<(), AllocError>
    ensures { OnOk result (out.new.items ≡ with_attributes out.old.items (specs.symbol_at prefix.now symbol.now x y)) }
{
    name(out, b"xlink:href")?;
    plain(out, prefix)?;
    plain(out, symbol)?;
    quote(out)?;
    put_number(out, b"x", x)?;
    put_number(out, b"y", y)
}
