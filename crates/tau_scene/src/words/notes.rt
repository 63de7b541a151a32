//! The parts of the notes of steps.
ghost use Rattle.std.specs.Prelude.{◌≡◌, ◌++◌, OnOk};
ghost use Rattle.tau_value.specs.Value.{val_of};
ghost use Rattle.tau_scene.specs.Words.Texts.{saves_text, fell_text, needs_text, back_text, ends_text};

use crate::words::points::put_point;
use crate::words::values::put_value;
use std::alloc::{AllocError, Global};
use tau_points::Point;
use tau_value::{Names, Value};

/// Adds what a Checkpoint saves (docs/formats.md, "Pictures"). The error is want of memory.
pub fn put_saves(
    alloc: Global,
    out: &mut Vec<u8>,
    names: &Names,
    value: &Value,
) -> Result<(), AllocError>
    ensures { OnOk result (out.new.items ≡ out.old.items ++ saves_text names.now (val_of value.now)) }
{
    out.extend_from_slice(b", saves ")?;
    put_value(alloc, out, names, value)
}

/// Adds the point for which a Drop or a Fall is made (docs/formats.md, "Pictures"). The error is want of memory.
pub fn put_fell(out: &mut Vec<u8>, names: &Names, point: Point) -> Result<(), AllocError>
    ensures { OnOk result (out.new.items ≡ out.old.items ++ fell_text names.now point) }
{
    out.extend_from_slice(b", ")?;
    put_point(out, names, point)?;
    out.extend_from_slice(b" fell")
}

/// Adds the point that a Hold or a Checkpoint lacks (docs/formats.md, "Pictures"). The error is want of memory.
pub fn put_needs(out: &mut Vec<u8>, names: &Names, point: Point) -> Result<(), AllocError>
    ensures { OnOk result (out.new.items ≡ out.old.items ++ needs_text names.now point) }
{
    out.extend_from_slice(b", needs ")?;
    put_point(out, names, point)
}

/// Adds the saved state that a falling step leads back to (docs/formats.md, "Pictures"). The error is want of memory.
pub fn put_back(
    alloc: Global,
    out: &mut Vec<u8>,
    names: &Names,
    value: &Value,
) -> Result<(), AllocError>
    ensures { OnOk result (out.new.items ≡ out.old.items ++ back_text names.now (val_of value.now)) }
{
    out.extend_from_slice(b", back to ")?;
    put_value(alloc, out, names, value)
}

/// Adds that a falling step ends its transactor (docs/formats.md, "Pictures"). The error is want of memory.
pub fn put_ends(out: &mut Vec<u8>) -> Result<(), AllocError>
    ensures { OnOk result (out.new.items ≡ out.old.items ++ ends_text) }
{
    out.extend_from_slice(b", ends")
}
