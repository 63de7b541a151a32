//! Where the values of messages stand.
ghost use Rattle.std.specs.Prelude.{◌≡◌, ◌++◌, ◌<◌, ◌^◌, slice_get, IfOk, OnOk};
ghost use Rattle.tau_trace.specs.Run.{len};
ghost use Rattle.tau_trace.specs.Known.{WellFormed};
ghost use Rattle.tau_scene.specs.Words.Texts.{value_text};
ghost use Rattle.tau_drawing.specs.Messages.Inner.Bearers as specs;
ghost use Rattle.tau_drawing.specs.Messages.Inner.Bearers.{AreBearers, ArePosted};

use std::alloc::{AllocError, Global};
use tau_scene::words::put_value;
use tau_trace::{Step, Trace};
use tau_tree::Program;
use tau_value::Value;

/// Where the value of a message stands: that of a post in the program, by its number, and that of another message in the step that made
/// it, by its place. A copy has that of the message that it repeats.
#[derive(Clone, Copy)]
pub(crate) enum Bearer {
    Posted(u32),
    Made(u32),
}

/// The bearers of so many posts.
fn posted(alloc: Global, posts: usize) -> Result<Vec<Bearer>, AllocError>
    requires { posts < 2 ^ 32 }
    ensures { IfOk result (λ v. ArePosted posts v.items) }
{
    let mut bearers = Vec::new(alloc);
    for post in 0..posts {
        bearers.push(Bearer::Posted(post as u32))?;
    }
    Ok(bearers)
}

/// The bearer of a message.
pub(crate) fn bearer_at(bearers: &[Bearer], message: u32) -> Option<Bearer>
    ensures { result ≡ slice_get bearers.now message }
{
    bearers.get(message as usize).copied()
}

/// The bearer of the message that a step makes; `None` where it makes none.
fn bearer_made(bearers: &[Bearer], step: &Step, place: u32) -> Option<Bearer>
    ensures { result ≡ specs.bearer_made bearers.now step.now place }
{
    match step {
        Step::Send { .. } | Step::Echo { .. } => Some(Bearer::Made(place)),
        Step::Repeat { message } => bearer_at(bearers, *message),
        _ => None,
    }
}

/// Adds a bearer, if there is one.
fn add(bearers: &mut Vec<Bearer>, bearer: Option<Bearer>) -> Result<(), AllocError>
    ensures { OnOk result (bearers.new.items ≡ specs.with_bearer bearers.old.items bearer) }
{
    if let Some(bearer) = bearer {
        bearers.push(bearer)?;
    }
    Ok(())
}

/// Adds the bearer of the message that the step at a place makes.
fn add_made(bearers: &mut Vec<Bearer>, step: &Step, place: u32) -> Result<(), AllocError>
    ensures { OnOk result (bearers.new.items ≡ specs.with_bearer bearers.old.items (specs.bearer_made bearers.old.items step.now place)) }
{
    let bearer = bearer_made(bearers, step, place);
    add(bearers, bearer)
}

/// The bearers of all messages of a trace, in one pass.
pub(crate) fn bearers_of(alloc: Global, trace: &Trace) -> Result<Vec<Bearer>, AllocError>
    ensures bearers { IfOk result (λ v. AreBearers trace.now.run (len trace.now.run) v.items) }
    ensures well_formed { OnOk result (WellFormed trace.now.run) }
{
    let steps = trace.len();
    let mut bearers = posted(alloc, trace.opening().targets.len())?;
    for place in 0..steps {
        match trace.step(place) {
            Some(step) => add_made(&mut bearers, step, place)?,
            None => unreachable!(),
        }
    }
    Ok(bearers)
}

/// Adds the value that a step sends; an Echo sends unit.
fn put_sent(alloc: Global, out: &mut Vec<u8>, trace: &Trace, step: &Step) -> Result<(), AllocError>
    ensures { OnOk result (out.new.items ≡ out.old.items ++ value_text trace.now.run.opening.names (specs.value_sent step.now)) }
{
    let names = &trace.opening().names;
    match step {
        Step::Send { value, .. } => put_value(alloc, out, names, value),
        _ => put_value(alloc, out, names, &Value::Unit),
    }
}

/// Adds the value of a message.
pub(crate) fn put_borne(
    alloc: Global,
    out: &mut Vec<u8>,
    program: &Program,
    trace: &Trace,
    bearer: Bearer,
) -> Result<(), AllocError>
    ensures { OnOk result (out.new.items ≡ out.old.items ++ value_text trace.now.run.opening.names (specs.borne program.now trace.now.run bearer)) }
{
    let names = &trace.opening().names;
    match bearer {
        Bearer::Posted(post) => match program.posts.item(post as usize) {
            Some(post) => put_value(alloc, out, names, &post.value),
            None => put_value(alloc, out, names, &Value::Unit),
        },
        Bearer::Made(place) => match trace.step(place) {
            Some(step) => put_sent(alloc, out, trace, step),
            None => put_value(alloc, out, names, &Value::Unit),
        },
    }
}
