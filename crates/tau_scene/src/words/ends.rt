//! What may be kept of transactors if all else is lost.
ghost use Rattle.std.specs.Prelude.{◌≡◌, ◌++◌, OnOk};
ghost use Rattle.tau_value.specs.Value.{val_of};
ghost use Rattle.tau_scene.specs.Words.Texts.{kept_text, opened_text, nothing_text};

use crate::words::points::put_number;
use crate::words::values::put_value;
use std::alloc::{AllocError, Global};
use tau_value::{Names, Value};

/// Adds, behind the name of a transactor, that what it saved at a place may be kept (docs/formats.md, "Pictures"). The error is want
/// of memory.
pub fn put_kept(
    alloc: Global,
    out: &mut Vec<u8>,
    names: &Names,
    value: &Value,
    place: u32,
) -> Result<(), AllocError>
    ensures { OnOk result (out.new.items ≡ out.old.items ++ kept_text names.now (val_of value.now) place) }
{
    out.push(b' ')?;
    put_value(alloc, out, names, value)?;
    out.extend_from_slice(b", saved at ")?;
    put_number(out, u64::from(place))
}

/// Adds, behind the name of a start, that its opening state may be kept (docs/formats.md, "Pictures"). The error is want of memory.
pub fn put_opened(
    alloc: Global,
    out: &mut Vec<u8>,
    names: &Names,
    value: &Value,
) -> Result<(), AllocError>
    ensures { OnOk result (out.new.items ≡ out.old.items ++ opened_text names.now (val_of value.now)) }
{
    out.push(b' ')?;
    put_value(alloc, out, names, value)?;
    out.extend_from_slice(b", as it opened")
}

/// Adds, behind the name of a transactor, that nothing of it may be kept (docs/formats.md, "Pictures"). The error is want of memory.
pub fn put_nothing(out: &mut Vec<u8>) -> Result<(), AllocError>
    ensures { OnOk result (out.new.items ≡ out.old.items ++ nothing_text) }
{
    out.extend_from_slice(b", nothing")
}
