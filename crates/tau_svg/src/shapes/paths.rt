//! Parts of paths.
ghost use Rattle.std.specs.Prelude.{◌≡◌, ◌++◌, ◌≤◌, ◌<◌, ◌^◌, OnOk, codes};
ghost use Rattle.tau_svg.specs.Markup.Lines.{with_pieces};
ghost use Rattle.tau_svg.specs.Shapes.Shapes as specs;
ghost use Rattle.tau_svg.specs.Shapes.Shapes.{go, go_to};

use crate::markup::{number, plain};
use std::alloc::AllocError;

/// A letter or a space, and a number.
pub fn put(out: &mut Vec<u8>, letter: &[u8], value: u64) -> Result<(), AllocError>
    ensures { OnOk result (out.new.items ≡ with_pieces out.old.items (go letter.now value)) }
{
    plain(out, letter)?;
    number(out, value)
}

/// A letter and two numbers.
pub fn put_pair(out: &mut Vec<u8>, letter: &[u8], x: u64, y: u64) -> Result<(), AllocError>
    ensures { OnOk result (out.new.items ≡ with_pieces out.old.items (go_to letter.now x y)) }
{
    put(out, letter, x)?;
    put(out, b" ", y)
}

/// A curve by one middle to an end.
pub fn put_curve(out: &mut Vec<u8>, x: u64, y: u64, to_x: u64, to_y: u64) -> Result<(), AllocError>
    ensures { OnOk result (out.new.items ≡ with_pieces out.old.items (go_to (codes "Q") x y ++ go_to (codes " ") to_x to_y)) }
{
    put_pair(out, b"Q", x, y)?;
    put_pair(out, b" ", to_x, to_y)
}

/// A number to the right of another, or to the left of it.
pub fn beside(x: u64, right: bool, off: u64) -> u64
    requires least { off ≤ x }
    requires most { x < 2 ^ 63 }
    requires near { off < 2 ^ 10 }
    ensures { result ≡ specs.beside right x off }
{
    if right { x + off } else { x - off }
}
