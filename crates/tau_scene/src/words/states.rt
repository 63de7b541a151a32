//! The titles of states.
ghost use Rattle.std.specs.Prelude.{◌≡◌, ◌++◌, OnOk};
ghost use Rattle.tau_scene.specs.Words.Texts.{up_to_text, state_title};

use crate::words::points::{put_number, put_point};
use std::alloc::AllocError;
use tau_points::Point;
use tau_value::Names;

/// Adds the place up to which a state lasts, if it ends.
fn put_up_to(out: &mut Vec<u8>, end: Option<u32>) -> Result<(), AllocError>
    ensures { OnOk result (out.new.items ≡ out.old.items ++ up_to_text end) }
{
    let Some(place) = end else {
        return Ok(());
    };
    out.extend_from_slice(b" up to ")?;
    put_number(out, u64::from(place))
}

/// Adds the title of a state (docs/formats.md, "Pictures"): its point, the place where it begins, that of the step that ends it, and
/// what is said of its look. The error is want of memory.
pub fn put_state_title(
    out: &mut Vec<u8>,
    names: &Names,
    point: Point,
    begin: u32,
    end: Option<u32>,
    said: &[u8],
) -> Result<(), AllocError>
    ensures { OnOk result (out.new.items ≡ out.old.items ++ state_title names.now point begin end said.now) }
{
    out.extend_from_slice(b"state ")?;
    put_point(out, names, point)?;
    out.extend_from_slice(b" from ")?;
    put_number(out, u64::from(begin))?;
    put_up_to(out, end)?;
    out.extend_from_slice(b", ")?;
    out.extend_from_slice(said)
}
