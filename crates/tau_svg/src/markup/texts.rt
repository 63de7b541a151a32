//! Texts within markup.
ghost use Rattle.std.specs.Prelude.{◌≡◌, ◌≤◌, ◌++◌, IfOk, OnOk};
ghost use Rattle.tau_svg.specs.Markup.Texts as texts;

use std::alloc::{AllocError, Global};

/// Adds a byte of a text: `&`, `<` and `>` as entities.
#[tactic(auto, unfolding(crate::specs::Markup::Texts::escaped_byte))]
fn put_byte(out: &mut Vec<u8>, byte: u8) -> Result<(), AllocError>
    ensures { OnOk result (out.new.items ≡ out.old.items ++ texts.escaped_byte byte) }
{
    match byte {
        b'&' => out.extend_from_slice(b"&amp;"),
        b'<' => out.extend_from_slice(b"&lt;"),
        b'>' => out.extend_from_slice(b"&gt;"),
        _ => {
            out.push(byte)?;
            Ok(())
        }
    }
}

/// Adds a text (docs/formats.md, "Pictures"): `&`, `<` and `>` as entities, and each other byte as it is. The error is want of
/// memory.
pub fn escape(out: &mut Vec<u8>, text: &[u8]) -> Result<(), AllocError>
    ensures { OnOk result (out.new.items ≡ out.old.items ++ texts.escaped text.now) }
{
    for byte in text {
        put_byte(out, *byte)?;
    }
    Ok(())
}

/// Cuts a text that has more than so many bytes: the first, but for two, stay, and two full stops follow. The error is want of
/// memory.
pub fn cut(text: &mut Vec<u8>, most: usize) -> Result<(), AllocError>
    requires { 2 ≤ most }
    ensures { OnOk result (text.new.items ≡ texts.cut text.old.items most) }
{
    if text.len() <= most {
        return Ok(());
    }
    text.truncate(most - 2);
    text.extend_from_slice(b"..")
}

/// A text that is cut in the middle where it has more than so many bytes: its begin and its end stay, with two full stops between
/// them, as many bytes in all. So texts differ that have one long begin and different ends. The error is want of memory.
pub fn cut_inside(alloc: Global, text: &[u8], most: usize) -> Result<Vec<u8>, AllocError>
    requires { 2 ≤ most }
    ensures { IfOk result (λ v. v.items ≡ texts.cut_inside text.now most) }
{
    if text.len() <= most {
        return Vec::from_slice(alloc, text);
    }
    let mut short = Vec::from_slice(alloc, &text[..(most - 2) / 2])?;
    short.extend_from_slice(b"..")?;
    short.extend_from_slice(&text[text.len() - (most - 1) / 2..])?;
    Ok(short)
}
