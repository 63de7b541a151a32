//! Numbers, transactors and points.
ghost use Rattle.std.specs.Prelude.{◌≡◌, ◌++◌, OnOk};
ghost use Rattle.std.specs.Fmt.{decimal};
ghost use Rattle.tau_scene.specs.Words.Texts.{who_text, point_text};

use itoa::Buffer;
use std::alloc::AllocError;
use tau_points::Point;
use tau_value::Names;

/// Adds a number, in decimal. The error is want of memory.
pub fn put_number(out: &mut Vec<u8>, number: u64) -> Result<(), AllocError>
    ensures { OnOk result (out.new.items ≡ out.old.items ++ decimal number) }
{
    let mut buffer = Buffer::new();
    out.extend_from_slice(buffer.format(number).as_bytes())
}

/// Adds the name of a start, or the number of another transactor (docs/formats.md, "Pictures"). The error is want of memory.
pub fn put_who(out: &mut Vec<u8>, names: &Names, who: u32) -> Result<(), AllocError>
    ensures { OnOk result (out.new.items ≡ out.old.items ++ who_text names.now who) }
{
    match names.item(who as usize) {
        Some(name) => out.extend_from_slice(name.bytes()),
        None => put_number(out, u64::from(who)),
    }
}

/// Adds a point: its transactor, its interval and its incarnation (docs/formats.md, "Pictures"). The error is want of memory.
pub fn put_point(out: &mut Vec<u8>, names: &Names, point: Point) -> Result<(), AllocError>
    ensures { OnOk result (out.new.items ≡ out.old.items ++ point_text names.now point) }
{
    put_who(out, names, point.who)?;
    out.push(b' ')?;
    put_number(out, u64::from(point.interval))?;
    out.push(b' ')?;
    put_number(out, u64::from(point.incarnation))
}
