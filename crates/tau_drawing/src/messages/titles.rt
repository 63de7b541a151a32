//! The titles of message lines.
ghost use Rattle.std.specs.Prelude.{◌≡◌, OnOk};
ghost use Rattle.tau_svg.specs.Markup.Texts.{cut};
ghost use Rattle.tau_svg.specs.Markup.Lines.{with_piece, with_pieces, said};
ghost use Rattle.tau_scene.specs.Words.Texts.{who_text, value_text};
ghost use Rattle.tau_drawing.specs.Messages.Titles as specs;
ghost use Rattle.tau_drawing.specs.Messages.Inner.Bearers.{borne};

use crate::messages::bearers::{Bearer, put_borne};
use crate::messages::drawing::{Birth, Drawing, Message, Receipt, Sending};
use std::alloc::{AllocError, Global};
use tau_layout::paths::{Origin, Source};
use tau_scene::words::put_who;
use tau_svg::markup::{cut, number, plain, said};
use tau_trace::{Step, Trace};
use tau_tree::Program;
use tau_value::Names;

/// The name of a start, or the number of another transactor.
fn said_who(alloc: Global, out: &mut Vec<u8>, names: &Names, who: u32) -> Result<(), AllocError>
    ensures { OnOk result (out.new.items ≡ with_piece out.old.items (said (who_text names.now who))) }
{
    let mut text = Vec::new(alloc);
    put_who(&mut text, names, who)?;
    said(out, &text)
}

/// The value of a message, of which at most 400 bytes stand.
fn said_value(
    alloc: Global,
    out: &mut Vec<u8>,
    program: &Program,
    trace: &Trace,
    bearer: Bearer,
) -> Result<(), AllocError>
    ensures { OnOk result (out.new.items ≡ with_piece out.old.items (said (cut (value_text trace.now.run.opening.names (borne program.now trace.now.run bearer)) 400))) }
{
    let mut text = Vec::new(alloc);
    put_borne(alloc, &mut text, program, trace, bearer)?;
    cut(&mut text, 400)?;
    said(out, &text)
}

/// A message, the one to whom its line leads, and its value.
fn put_message(
    alloc: Global,
    out: &mut Vec<u8>,
    program: &Program,
    trace: &Trace,
    message: Message,
) -> Result<(), AllocError>
    ensures { OnOk result (out.new.items ≡ with_pieces out.old.items (specs.message_words trace.now.run.opening.names message.number message.to (borne program.now trace.now.run message.bearer))) }
{
    plain(out, b"message ")?;
    number(out, u64::from(message.number))?;
    plain(out, b" to ")?;
    said_who(alloc, out, &trace.opening().names, message.to)?;
    plain(out, b", ")?;
    said_value(alloc, out, program, trace, message.bearer)
}

/// Who sent a message, and where.
fn put_origin(
    alloc: Global,
    out: &mut Vec<u8>,
    names: &Names,
    origin: Origin,
) -> Result<(), AllocError>
    ensures { OnOk result (out.new.items ≡ with_pieces out.old.items (specs.sent_words names.now origin)) }
{
    plain(out, b", sent by ")?;
    said_who(alloc, out, names, origin.who)?;
    plain(out, b" at ")?;
    number(out, u64::from(origin.place))
}

/// Where a message comes from.
fn put_source(
    alloc: Global,
    out: &mut Vec<u8>,
    names: &Names,
    source: Source,
) -> Result<(), AllocError>
    ensures { OnOk result (out.new.items ≡ with_pieces out.old.items (specs.source_words names.now source)) }
{
    match source {
        Source::Post => plain(out, b", posted"),
        Source::Earlier(origin) => put_origin(alloc, out, names, origin),
        Source::Drawn(sender) => put_origin(alloc, out, names, sender.origin),
    }
}

/// What becomes of a message by the step that receives or loses it.
fn receipt_word(step: &Step) -> &'static [u8]
    ensures { result.now ≡ specs.receipt_word step.now }
{
    match step {
        Step::Drop { .. } => b", dropped at ",
        Step::Fall { .. } => b", forces a fall at ",
        Step::Void { .. } | Step::Echo { .. } => b", to an ended transactor at ",
        Step::Lose { .. } => b", lost at ",
        Step::Heed { .. } => b", heeded at ",
        _ => b", taken at ",
    }
}

/// The title of the line of a message to the step at a place.
pub(crate) fn put_receipt_title(
    alloc: Global,
    out: &mut Vec<u8>,
    drawing: &Drawing,
    step: &Step,
    receipt: Receipt,
) -> Result<(), AllocError>
    ensures { OnOk result (out.new.items ≡ with_pieces out.old.items (specs.receipt_title drawing.now.trace.now.run.opening.names receipt.place step.now receipt.message.number receipt.message.to (borne drawing.now.program.now drawing.now.trace.now.run receipt.message.bearer) receipt.source)) }
{
    put_message(alloc, out, drawing.program, drawing.trace, receipt.message)?;
    put_source(alloc, out, &drawing.trace.opening().names, receipt.source)?;
    plain(out, receipt_word(step))?;
    number(out, u64::from(receipt.place))
}

/// How a message was made.
fn send_word(step: &Step) -> &'static [u8]
    ensures { result.now ≡ specs.send_word step.now }
{
    match step {
        Step::Repeat { .. } => b", repeated at ",
        _ => b", sent at ",
    }
}

/// What becomes of a message that no drawn step receives or loses.
fn later_word(flies: bool) -> &'static [u8]
    ensures { result.now ≡ specs.later_word flies }
{
    if flies {
        return b", in flight at the end";
    }
    b", received further on"
}

/// The title of the line of a message from the step at a place, which makes it.
pub(crate) fn put_sent_title(
    alloc: Global,
    out: &mut Vec<u8>,
    drawing: &Drawing,
    step: &Step,
    sending: Sending,
) -> Result<(), AllocError>
    ensures { OnOk result (out.new.items ≡ with_pieces out.old.items (specs.sent_title drawing.now.trace.now.run.opening.names sending.place step.now sending.message.number sending.message.to (borne drawing.now.program.now drawing.now.trace.now.run sending.message.bearer) sending.flies)) }
{
    put_message(alloc, out, drawing.program, drawing.trace, sending.message)?;
    plain(out, send_word(step))?;
    number(out, u64::from(sending.place))?;
    plain(out, later_word(sending.flies))
}

/// The title of the line from a transactor to the one that it creates.
pub(crate) fn put_new_title(
    alloc: Global,
    out: &mut Vec<u8>,
    names: &Names,
    birth: Birth,
) -> Result<(), AllocError>
    ensures { OnOk result (out.new.items ≡ with_pieces out.old.items (specs.new_title names.now birth.place birth.who birth.born)) }
{
    said_who(alloc, out, names, birth.who)?;
    plain(out, b" creates ")?;
    said_who(alloc, out, names, birth.born)?;
    plain(out, b" at ")?;
    number(out, u64::from(birth.place))
}
