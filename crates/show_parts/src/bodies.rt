//! Bodies with what a turn of each comes to, effect by effect: by its job, and by the plain evaluator.
ghost use Rattle.std.specs.Prelude.{◌≤◌};
ghost use Rattle.tau_sexpr.specs.Tree.{depths};

use crate::effects::add_effect;
use crate::plain::next;
use std::alloc::{AllocError, Global};
use tau_eval::{Effect, Job, Pending, begin};
use tau_forms::program_of;
use tau_sexpr::Forms;
use tau_tree::{Behaviour, Post, Program, Start};
use tau_value::Value;

/// The effects of a turn that are followed at most.
const LIMIT: u32 = 100;

/// A turn: its program, its transactor with the behaviour, and its message.
#[derive(Clone, Copy)]
struct Turn<'p> {
    program: &'p Program,
    who: u32,
    start: &'p Start,
    behaviour: &'p Behaviour,
    message: &'p Value,
}

/// Adds the turns that the posts of a program begin, or its fault.
pub(crate) fn add_bodies(alloc: Global, text: &mut String, forms: &Forms) -> Result<(), AllocError>
    requires { depths forms.now ≤ 200 }
{
    match program_of(alloc, forms.items()) {
        Ok(program) => {
            let added = add_turns(alloc, text, &program);
            drop(program);
            added
        }
        Err(error) => writeln!(text, "{error}"),
    }
}

/// Adds the turn that each post of a program begins.
fn add_turns(alloc: Global, text: &mut String, program: &Program) -> Result<(), AllocError> {
    for post in program.posts.items() {
        if let Some(turn) = turn_of(program, post) {
            add_turn(alloc, text, turn)?;
        }
    }
    Ok(())
}

/// The turn that a post begins.
fn turn_of<'p>(program: &'p Program, post: &'p Post) -> Option<Turn<'p>> {
    let start = program.starts.item(post.to as usize)?;
    let behaviour = program.behaviours.item(start.behaviour as usize)?;
    Some(Turn {
        program,
        who: post.to,
        start,
        behaviour,
        message: &post.value,
    })
}

/// Adds the name of a turn's transactor, and its effects.
fn add_turn(alloc: Global, text: &mut String, turn: Turn<'_>) -> Result<(), AllocError> {
    text.push_str(str::from_utf8(turn.start.name.bytes()).unwrap_or(""))?;
    text.push_str("\n  job  ")?;
    add_by_job(alloc, text, turn)?;
    text.push_str("\n  plain")?;
    add_by_plain(alloc, text, turn)?;
    text.push('\n')
}

/// Adds the effects of a turn by its job.
fn add_by_job(alloc: Global, text: &mut String, turn: Turn<'_>) -> Result<(), AllocError> {
    let mut job = job_of(alloc, turn)?;
    for number in 0..LIMIT {
        job = add_next(text, turn.start, number, job)?;
    }
    drop(job);
    Ok(())
}

/// The job of a turn; `None` where the program hasn't its behaviour.
fn job_of<'p>(alloc: Global, turn: Turn<'p>) -> Result<Option<Job<'p>>, AllocError> {
    let (program, number) = (turn.program, turn.start.behaviour);
    if number as usize >= program.behaviours.len() {
        return Ok(None);
    }
    let message = turn.message.copy()?;
    Ok(Some(begin(alloc, program, turn.who, number, 0, message)?))
}

/// Adds the effect of this number, where a job is left that comes to one. The job that goes on with the reply.
fn add_next<'p>(
    text: &mut String,
    start: &Start,
    number: u32,
    job: Option<Job<'p>>,
) -> Result<Option<Job<'p>>, AllocError> {
    let Some(job) = job else {
        return Ok(None);
    };
    let pending = pending_of(job)?;
    let reply = add_copy(text, start, number, pending.effect());
    resumed(pending, reply)
}

/// The effect to which a job comes.
fn pending_of(job: Job<'_>) -> Result<Pending<'_>, AllocError> {
    match job.advance() {
        Ok(pending) => Ok(pending),
        Err((job, failed)) => {
            drop(job);
            Err(failed)
        }
    }
}

/// The job that goes on with a reply, where there is one.
fn resumed<'p>(
    pending: Pending<'p>,
    reply: Result<Option<Value>, AllocError>,
) -> Result<Option<Job<'p>>, AllocError> {
    match reply {
        Ok(Some(reply)) => Ok(Some(pending.resume(reply))),
        Ok(None) => {
            drop(pending);
            Ok(None)
        }
        Err(failed) => {
            drop(pending);
            Err(failed)
        }
    }
}

/// Adds the effects of a turn by the plain evaluator.
fn add_by_plain(alloc: Global, text: &mut String, turn: Turn<'_>) -> Result<(), AllocError> {
    let mut replies = Vec::new(alloc);
    for number in 0..LIMIT {
        match add_plain(alloc, text, turn, number, &replies)? {
            Some(reply) => replies.push(reply)?,
            None => return Ok(()),
        }
    }
    Ok(())
}

/// Adds the effect of this number, by the plain evaluator; the reply to it, where the turn goes on.
fn add_plain(
    alloc: Global,
    text: &mut String,
    turn: Turn<'_>,
    number: u32,
    replies: &[Value],
) -> Result<Option<Value>, AllocError> {
    let (program, behaviour) = (turn.program, turn.behaviour);
    let body = &behaviour.body;
    let effect = next(alloc, program.nodes, turn.who, body, turn.message, replies)?;
    let reply = add_replied(text, turn.start, number, &effect);
    drop(effect);
    reply
}

/// Adds a copy of the effect of this number; the reply to it, where the turn goes on.
fn add_copy(
    text: &mut String,
    start: &Start,
    number: u32,
    effect: &Effect,
) -> Result<Option<Value>, AllocError> {
    let copied = effect.copy()?;
    let reply = add_replied(text, start, number, &copied);
    drop(copied);
    reply
}

/// Adds the effect of this number; the reply to it, where the turn goes on.
fn add_replied(
    text: &mut String,
    start: &Start,
    number: u32,
    effect: &Effect,
) -> Result<Option<Value>, AllocError> {
    add_effect(text, effect)?;
    reply_to(effect, start, number)
}

/// The reply to the effect of this number: the opening state for get, true for dependent, a name for new, and unit for the others; `None`
/// where the turn ends.
fn reply_to(effect: &Effect, start: &Start, number: u32) -> Result<Option<Value>, AllocError> {
    match effect {
        Effect::Get => Ok(Some(start.state.copy()?)),
        Effect::Set(_) | Effect::Send(_, _) | Effect::Stabilize => Ok(Some(Value::Unit)),
        Effect::New { .. } => Ok(Some(Value::Name(number.saturating_add(1000)))),
        Effect::Ask => Ok(Some(Value::Truth(true))),
        Effect::Checkpoint | Effect::Rollback | Effect::Done | Effect::Trap(_) => Ok(None),
    }
}
