//! Message lines.
ghost use Rattle.std.specs.Prelude.{◌≡◌, ◌≤◌, OnOk};
ghost use Rattle.tau_svg.specs.Markup.Lines.{with_line, with_pieces};
ghost use Rattle.tau_layout.specs.Paths.Near.{IsNear, IsNearSource};
ghost use Rattle.tau_drawing.specs.Messages.Arrows as specs;
ghost use Rattle.tau_drawing.specs.Messages.Inner.Bearers.{borne};

use crate::messages::drawing::{Birth, Drawing, Receipt, Sending};
use crate::messages::titles::{put_new_title, put_receipt_title, put_sent_title};
use std::alloc::{AllocError, Global};
use tau_layout::paths::{Source, Spot, put_receipt};
use tau_svg::markup::{begin, name, plain, put_word, quote, title, title_close};
use tau_svg::shapes::{Grid, put, put_pair};
use tau_trace::{Step, Trace};

/// The kind of the line to a step that receives or loses a message.
fn line_kind(step: &Step) -> &'static [u8]
    ensures { result.now ≡ specs.line_kind step.now }
{
    match step {
        Step::Drop { .. } => b"drop",
        Step::Fall { .. } => b"fall",
        Step::Void { .. } | Step::Echo { .. } => b"void",
        Step::Lose { .. } => b"lose",
        _ => b"take",
    }
}

/// Whether a line is long.
fn is_long(place: u32, source: Source) -> bool
    ensures { result ≡ specs.is_long place source }
{
    match source {
        Source::Drawn(sender) => u64::from(sender.origin.place) + 40 < u64::from(place),
        _ => false,
    }
}

/// The class of a line to a step at a place.
fn put_receipt_class(
    out: &mut Vec<u8>,
    step: &Step,
    place: u32,
    source: Source,
) -> Result<(), AllocError>
    ensures { OnOk result (out.new.items ≡ with_pieces out.old.items (specs.receipt_class place step.now source)) }
{
    plain(out, b"m m-")?;
    plain(out, line_kind(step))?;
    if is_long(place, source) {
        plain(out, b" long")?;
    }
    Ok(())
}

/// The line of a message to a step that receives or loses it.
pub(crate) fn put_receipt_line(
    alloc: Global,
    out: &mut Vec<u8>,
    drawing: &Drawing,
    grid: Grid,
    step: &Step,
    receipt: Receipt,
) -> Result<(), AllocError>
    requires near { IsNear receipt.middle }
    requires source { IsNearSource receipt.source }
    requires top { 124 ≤ grid.top }
    ensures { OnOk result (out.new.items ≡ with_line out.old.items (specs.receipt_line drawing.now.trace.now.run.opening.names grid receipt.place step.now receipt.message.number receipt.message.to (borne drawing.now.program.now drawing.now.trace.now.run receipt.message.bearer) receipt.source receipt.middle)) }
{
    begin(out, b"path")?;
    name(out, b"class")?;
    put_receipt_class(out, step, receipt.place, receipt.source)?;
    quote(out)?;
    name(out, b"d")?;
    put_receipt(
        out,
        grid.is_wide,
        grid.top,
        step,
        receipt.message.number,
        receipt.source,
        receipt.middle,
    )?;
    quote(out)?;
    title(out)?;
    put_receipt_title(alloc, out, drawing, step, receipt)?;
    title_close(out, b"path")
}

/// The class of a line of a message that no drawn step receives or loses.
fn sent_class(flies: bool) -> &'static [u8]
    ensures { result.now ≡ specs.sent_class flies }
{
    if flies { b"m m-fly" } else { b"m m-out" }
}

/// The line of a message from the step that makes it.
pub(crate) fn put_sent_line(
    alloc: Global,
    out: &mut Vec<u8>,
    drawing: &Drawing,
    step: &Step,
    sending: Sending,
) -> Result<(), AllocError>
    requires near { IsNear sending.at }
    ensures { OnOk result (out.new.items ≡ with_line out.old.items (specs.sent_line drawing.now.trace.now.run.opening.names sending.place step.now sending.message.number sending.message.to (borne drawing.now.program.now drawing.now.trace.now.run sending.message.bearer) sending.flies sending.at)) }
{
    begin(out, b"path")?;
    put_word(out, b"class", sent_class(sending.flies))?;
    name(out, b"d")?;
    put_pair(out, b"M", sending.at.x, sending.at.y)?;
    put(out, b"H", sending.at.x + 16)?;
    quote(out)?;
    title(out)?;
    put_sent_title(alloc, out, drawing, step, sending)?;
    title_close(out, b"path")
}

/// The line from a transactor at its New, at a spot, to the lane of the one that it creates, with this middle.
pub(crate) fn put_new_line(
    alloc: Global,
    out: &mut Vec<u8>,
    trace: &Trace,
    birth: Birth,
    at: Spot,
    x: u64,
) -> Result<(), AllocError>
    requires near { IsNear at }
    ensures { OnOk result (out.new.items ≡ with_line out.old.items (specs.new_line trace.now.run.opening.names birth.place birth.who birth.born at x)) }
{
    begin(out, b"path")?;
    put_word(out, b"class", b"m m-new")?;
    name(out, b"d")?;
    put_pair(out, b"M", at.x, at.y)?;
    put(out, b"H", x)?;
    put(out, b"V", at.y + 8)?;
    quote(out)?;
    title(out)?;
    put_new_title(alloc, out, &trace.opening().names, birth)?;
    title_close(out, b"path")
}
