//! The begin of a picture.
ghost use Rattle.std.specs.Prelude.{◌≡◌, OnOk};
ghost use Rattle.tau_svg.specs.Markup.Lines.{with_line, with_attribute};
ghost use Rattle.tau_svg.specs.Shapes.Shapes as specs;

use crate::markup::{
    begin, close, end, line_break, name, number, plain, put_number, put_word, quote, text,
};
use crate::shapes::shapes::rect;
use std::alloc::AllocError;

/// The line that begins a picture.
pub fn put_begin(out: &mut Vec<u8>, width: u64, height: u64) -> Result<(), AllocError>
    ensures { OnOk result (out.new.items ≡ with_line out.old.items (specs.begin_line width height)) }
{
    begin(out, b"svg")?;
    put_word(out, b"xmlns", b"http://www.w3.org/2000/svg")?;
    put_word(out, b"xmlns:xlink", b"http://www.w3.org/1999/xlink")?;
    put_word(out, b"version", b"1.1")?;
    put_word(out, b"class", b"tau")?;
    put_number(out, b"width", width)?;
    put_number(out, b"height", height)?;
    put_view(out, width, height)?;
    put_word(out, b"xml:space", b"preserve")?;
    line_break(out)
}

/// The part of the plane that is seen.
fn put_view(out: &mut Vec<u8>, width: u64, height: u64) -> Result<(), AllocError>
    ensures { OnOk result (out.new.items ≡ with_attribute out.old.items (specs.view_box width height)) }
{
    name(out, b"viewBox")?;
    plain(out, b"0 0 ")?;
    number(out, width)?;
    plain(out, b" ")?;
    number(out, height)?;
    quote(out)
}

/// The title of the picture.
pub fn put_title(out: &mut Vec<u8>, steps: u32) -> Result<(), AllocError>
    ensures { OnOk result (out.new.items ≡ with_line out.old.items (specs.title_line steps)) }
{
    begin(out, b"title")?;
    text(out)?;
    plain(out, b"A run of ")?;
    number(out, u64::from(steps))?;
    plain(out, b" steps")?;
    close(out, b"title")
}

/// The paper.
pub fn put_paper(out: &mut Vec<u8>, width: u64, height: u64) -> Result<(), AllocError>
    ensures { OnOk result (out.new.items ≡ with_line out.old.items (specs.paper_line width height)) }
{
    rect(out, b"paper", 0, 0, width, height)?;
    end(out)
}
