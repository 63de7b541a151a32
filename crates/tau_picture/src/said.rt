//! The line that tells the cause of the step that was asked for.
ghost use Rattle.std.specs.Prelude.{◌≡◌, ◌<◌, ◌++◌, [], OnOk};
ghost use Rattle.std.specs.Option.{option_map_or};
ghost use Rattle.tau_svg.specs.Markup.Lines.{with_line};
ghost use Rattle.tau_trace.specs.Run.{len, step_at};
ghost use Rattle.tau_picture.specs.Said as said_specs;

use std::alloc::{AllocError, Global};
use tau_explain::chains::{Chain, Chained};
use tau_scene::words::{put_number, put_point, put_step};
use tau_svg::markup::{close, cut, said};
use tau_svg::shapes::text_at;
use tau_trace::{Step, Trace};
use tau_value::Names;

/// Adds by which step a point of a chain is rested on.
fn put_by(text: &mut Vec<u8>, by: Option<u32>) -> Result<(), AllocError>
    ensures { OnOk result (text.new.items ≡ text.old.items ++ said_specs.by_text by) }
{
    let Some(place) = by else {
        return Ok(());
    };
    text.extend_from_slice(b", by ")?;
    put_number(text, u64::from(place))?;
    text.extend_from_slice(b" on ")
}

/// Adds a point of a chain.
fn put_chained(text: &mut Vec<u8>, names: &Names, chained: Chained) -> Result<(), AllocError>
    ensures { OnOk result (text.new.items ≡ text.old.items ++ said_specs.chained_text names.now chained) }
{
    put_by(text, chained.by)?;
    put_point(text, names, chained.point)
}

/// Adds the points of a chain.
fn put_chain(text: &mut Vec<u8>, names: &Names, chain: &Chain) -> Result<(), AllocError>
    ensures { OnOk result (text.new.items ≡ text.old.items ++ said_specs.chain_text names.now chain.now) }
{
    for chained in chain.items() {
        put_chained(text, names, *chained)?;
    }
    Ok(())
}

/// Adds what is wrong with the last point of the chain of a step.
fn put_wrong(text: &mut Vec<u8>, step: &Step) -> Result<(), AllocError>
    ensures { OnOk result (text.new.items ≡ text.old.items ++ said_specs.wrong_text step.now) }
{
    match step {
        Step::Hold { .. } => text.extend_from_slice(b", which isn't firm"),
        Step::Checkpoint { .. } => text.extend_from_slice(b", which isn't saved"),
        _ => text.extend_from_slice(b", which fell"),
    }
}

/// Adds what is wrong with the last point of the chain of the step at a place.
fn put_wrong_at(text: &mut Vec<u8>, trace: &Trace, place: u32) -> Result<(), AllocError>
    ensures { OnOk result (text.new.items ≡ text.old.items ++ option_map_or said_specs.wrong_text (step_at trace.now.run place) []) }
{
    match trace.step(place) {
        Some(step) => put_wrong(text, step),
        None => Ok(()),
    }
}

/// Adds a place and the step there.
fn put_asked(alloc: Global, text: &mut Vec<u8>, trace: &Trace, place: u32) -> Result<(), AllocError>
    requires { place < len trace.now.run }
    ensures { OnOk result (text.new.items ≡ text.old.items ++ said_specs.asked_text trace.now.run place) }
{
    put_number(text, u64::from(place))?;
    text.push(b' ')?;
    put_step(alloc, text, trace, place)
}

/// Adds the points of a chain of the trace.
fn put_points(text: &mut Vec<u8>, trace: &Trace, chain: &Chain) -> Result<(), AllocError>
    ensures { OnOk result (text.new.items ≡ text.old.items ++ said_specs.chain_text trace.now.run.opening.names chain.now) }
{
    put_chain(text, &trace.opening().names, chain)
}

/// Adds why the step at a place was made, by the chain to its cause.
fn put_reason(
    alloc: Global,
    text: &mut Vec<u8>,
    trace: &Trace,
    place: u32,
    chain: &Chain,
) -> Result<(), AllocError>
    requires { place < len trace.now.run }
    ensures { OnOk result (text.new.items ≡ text.old.items ++ said_specs.reason_text trace.now.run place chain.now) }
{
    text.extend_from_slice(b"Why ")?;
    put_asked(alloc, text, trace, place)?;
    text.extend_from_slice(b": it rests on ")?;
    put_points(text, trace, chain)?;
    put_wrong_at(text, trace, place)
}

/// Adds that the step at a place has no cause.
fn put_no_reason(
    alloc: Global,
    text: &mut Vec<u8>,
    trace: &Trace,
    place: u32,
) -> Result<(), AllocError>
    requires { place < len trace.now.run }
    ensures { OnOk result (text.new.items ≡ text.old.items ++ said_specs.no_reason_text trace.now.run place) }
{
    put_asked(alloc, text, trace, place)?;
    text.extend_from_slice(b": no cause")
}

/// Adds what is said of the step at a place and its cause, if it has one.
fn put_said_text(
    alloc: Global,
    text: &mut Vec<u8>,
    trace: &Trace,
    place: u32,
    cause: &Option<Chain>,
) -> Result<(), AllocError>
    requires { place < len trace.now.run }
    ensures { OnOk result (text.new.items ≡ text.old.items ++ said_specs.said_text trace.now.run place cause.now) }
{
    match cause {
        Some(chain) => put_reason(alloc, text, trace, place, chain),
        None => put_no_reason(alloc, text, trace, place),
    }
}

/// Adds the line that tells the cause of the step at a place, or that it has none (docs/formats.md, "Pictures"). The error is want
/// of memory.
pub(crate) fn put_said(
    alloc: Global,
    out: &mut Vec<u8>,
    trace: &Trace,
    place: u32,
    cause: &Option<Chain>,
) -> Result<(), AllocError>
    requires { place < len trace.now.run }
    ensures { OnOk result (out.new.items ≡ with_line out.old.items (said_specs.said_line trace.now.run place cause.now)) }
{
    let mut text = Vec::new(alloc);
    put_said_text(alloc, &mut text, trace, place, cause)?;
    cut(&mut text, 110)?;
    text_at(out, b"said", 16, 68)?;
    said(out, &text)?;
    close(out, b"text")
}
