//! The paths of messages to those that receive them.
ghost use Rattle.std.specs.Prelude.{◌≡◌, ◌≤◌, ◌<◌, ◌^◌, ◌+◌, OnOk};
ghost use Rattle.tau_svg.specs.Markup.Lines.{with_pieces};
ghost use Rattle.tau_layout.specs.Paths.Paths as paths;
ghost use Rattle.tau_layout.specs.Paths.Near.{IsNear, IsNearSource};

use crate::paths::sources::{Sender, Source};
use crate::paths::spots::Spot;
use std::alloc::AllocError;
use tau_svg::shapes::{beside, put, put_curve, put_pair};
use tau_trace::Step;

/// How far beside the middle of a lane a line comes down, by a number.
fn track(wide: bool, number: u64) -> u64
    ensures track { result ≡ paths.track wide number }
    ensures most { result ≤ 43 }
{
    let part = number % 4;
    if wide { 28 + 5 * part } else { 10 + 3 * part }
}

/// How far beside the middle of the lane the line of a message comes down to a step.
pub fn offset(wide: bool, step: &Step, message: u32) -> u64
    ensures offset { result ≡ paths.offset wide step.now message }
    ensures most { result ≤ 43 }
{
    match step {
        Step::Lose { .. } => 16,
        Step::Fall { .. } => track(wide, u64::from(message) + 2),
        _ => track(wide, u64::from(message)),
    }
}

/// How far beside the middle of the lane the line of a post ends.
fn gap(step: &Step) -> u64
    ensures gap { result ≡ paths.gap step.now }
    ensures most { result ≤ 16 }
{
    match step {
        Step::Lose { .. } => 16,
        _ => 6,
    }
}

/// The end of a line beside the middle of a lane.
fn put_turn(out: &mut Vec<u8>, right: bool, down: u64, middle: Spot) -> Result<(), AllocError>
    requires near { IsNear middle }
    requires left { 300 ≤ down }
    requires right { down < 2 ^ 52 }
    ensures { OnOk result (out.new.items ≡ with_pieces out.old.items (paths.turn right down middle)) }
{
    put(out, b"V", middle.y - 5)?;
    put_curve(out, down, middle.y, beside(down, !right, 3), middle.y)?;
    put(out, b"H", beside(middle.x, right, 6))
}

/// The end of a line to a step.
fn put_end(
    out: &mut Vec<u8>,
    step: &Step,
    right: bool,
    down: u64,
    middle: Spot,
) -> Result<(), AllocError>
    requires near { IsNear middle }
    requires left { 300 ≤ down }
    requires right { down < 2 ^ 52 }
    ensures { OnOk result (out.new.items ≡ with_pieces out.old.items (paths.line_end step.now right down middle)) }
{
    match step {
        Step::Lose { .. } => put(out, b"V", middle.y),
        _ => put_turn(out, right, down, middle),
    }
}

/// The path of a post.
fn put_post(out: &mut Vec<u8>, step: &Step, middle: Spot) -> Result<(), AllocError>
    requires near { IsNear middle }
    ensures { OnOk result (out.new.items ≡ with_pieces out.old.items (paths.post_path step.now middle)) }
{
    put_pair(out, b"M", middle.x - 24, middle.y)?;
    put(out, b"H", middle.x - gap(step))
}

/// The path of a message whose origin isn't drawn.
fn put_earlier(
    out: &mut Vec<u8>,
    top: u64,
    step: &Step,
    down: u64,
    middle: Spot,
) -> Result<(), AllocError>
    requires near { IsNear middle }
    requires left { 300 ≤ down }
    requires right { down < 2 ^ 52 }
    requires top { 124 ≤ top }
    ensures { OnOk result (out.new.items ≡ with_pieces out.old.items (paths.earlier_path top step.now down middle)) }
{
    put_pair(out, b"M", down, top - 12)?;
    put_end(out, step, false, down, middle)
}

/// Where the way along the row of a sender ends.
fn way_end(sender: Sender, down: u64) -> u64
    requires left { 300 ≤ down }
    requires right { down < 2 ^ 52 }
    ensures { result ≡ paths.way_end sender down }
{
    if sender.own {
        return down - 5;
    }
    beside(down, sender.right, 5)
}

/// The path of a message from the spot of its sender.
fn put_drawn(
    out: &mut Vec<u8>,
    sender: Sender,
    step: &Step,
    down: u64,
    middle: Spot,
) -> Result<(), AllocError>
    requires near { IsNear middle }
    requires sender { IsNear sender.spot }
    requires left { 300 ≤ down }
    requires right { down < 2 ^ 52 }
    ensures { OnOk result (out.new.items ≡ with_pieces out.old.items (paths.drawn_path sender step.now down middle)) }
{
    let from = sender.spot;
    put_pair(out, b"M", from.x, from.y)?;
    put(out, b"H", way_end(sender, down))?;
    put_curve(out, down, from.y, down, from.y + 5)?;
    put_end(out, step, sender.right, down, middle)
}

/// The pieces of the path of a message to a step (docs/formats.md, "Pictures"), the lanes' top and the middle of the step's lane being
/// given. The error is want of memory.
pub fn put_receipt(
    out: &mut Vec<u8>,
    wide: bool,
    top: u64,
    step: &Step,
    message: u32,
    source: Source,
    middle: Spot,
) -> Result<(), AllocError>
    requires near { IsNear middle }
    requires source { IsNearSource source }
    requires top { 124 ≤ top }
    ensures { OnOk result (out.new.items ≡ with_pieces out.old.items (paths.receipt_path wide top step.now message source middle)) }
{
    let offset = offset(wide, step, message);
    match source {
        Source::Post => put_post(out, step, middle),
        Source::Earlier(_) => put_earlier(out, top, step, middle.x - offset, middle),
        Source::Drawn(sender) => {
            let down = beside(middle.x, sender.right, offset);
            put_drawn(out, sender, step, down, middle)
        }
    }
}
