//! The notes of steps.
ghost use Rattle.std.specs.Prelude.{◌≡◌, ◌++◌, ◌<◌, IfOk, OnOk, option_copied};
ghost use Rattle.tau_scene.specs.Notes.Notes as notes_specs;
ghost use Rattle.tau_scene.specs.Notes.Inner.Noting as noting;
ghost use Rattle.tau_scene.specs.Notes.Inner.Noting.{note_text, IsCauseOf};

use crate::causes::cause_at;
use crate::words::{put_back, put_ends, put_fell, put_needs, put_saves};
use std::alloc::{AllocError, Global};
use tau_cut::Cut;
use tau_explain::chains::{Chain, Chained};
use tau_points::Point;
use tau_trace::{Step, Trace};
use tau_value::{Names, Value};

/// The most steps of a run in whose picture causes are noted.
const CAUSE_LIMIT: u32 = 4000;

/// The cause of the step at a place, in a run of few steps.
pub(crate) fn cause_of(
    alloc: Global,
    trace: &Trace,
    cut: &Cut,
    place: u32,
) -> Result<Option<Chain>, AllocError>
    ensures { IfOk result (IsCauseOf trace.now.run cut.now place) }
{
    if trace.len() > CAUSE_LIMIT {
        return Ok(None);
    }
    cause_at(alloc, trace, cut, place)
}

/// Adds what a Checkpoint saves; nothing for another step.
fn put_saved(
    alloc: Global,
    out: &mut Vec<u8>,
    names: &Names,
    step: &Step,
    saved: Option<&Value>,
) -> Result<(), AllocError>
    ensures { OnOk result (out.new.items ≡ out.old.items ++ noting.saved_part names.now step.now (option_copied saved.entry)) }
{
    let Some(value) = saved else {
        return Ok(());
    };
    match step {
        Step::Checkpoint { .. } => put_saves(alloc, out, names, value),
        _ => Ok(()),
    }
}

/// Adds a point for which a step was made.
fn put_cause_point(
    out: &mut Vec<u8>,
    names: &Names,
    step: &Step,
    point: Point,
) -> Result<(), AllocError>
    ensures { OnOk result (out.new.items ≡ out.old.items ++ notes_specs.cause_text names.now step.now point) }
{
    match step {
        Step::Drop { .. } | Step::Fall { .. } => put_fell(out, names, point),
        _ => put_needs(out, names, point),
    }
}

/// Adds the last point of the cause of a step, if it has one.
fn put_cause(
    out: &mut Vec<u8>,
    names: &Names,
    step: &Step,
    cause: &Option<Chain>,
) -> Result<(), AllocError>
    ensures { OnOk result (out.new.items ≡ out.old.items ++ noting.cause_part names.now step.now cause.now) }
{
    let Some(chain) = cause else {
        return Ok(());
    };
    match last_of(chain) {
        Some(last) => put_cause_point(out, names, step, last.point),
        None => Ok(()),
    }
}

/// The last point of a chain.
fn last_of(chain: &Chain) -> Option<Chained>
    ensures { result ≡ noting.last_of chain.now }
{
    chain.items().last().copied()
}

/// Adds to what a falling step leads back; nothing for another step.
fn put_fall(
    alloc: Global,
    out: &mut Vec<u8>,
    names: &Names,
    falls: bool,
    saved: Option<&Value>,
) -> Result<(), AllocError>
    ensures { OnOk result (out.new.items ≡ out.old.items ++ noting.fall_part names.now falls (option_copied saved.entry)) }
{
    if !falls {
        return Ok(());
    }
    match saved {
        Some(value) => put_back(alloc, out, names, value),
        None => put_ends(out),
    }
}

/// The note of a step, by whether it falls, what its transactor saved before the interval in which it is behind the step, and its
/// cause.
pub(crate) fn note_of(
    alloc: Global,
    names: &Names,
    step: &Step,
    falls: bool,
    saved: Option<&Value>,
    cause: &Option<Chain>,
) -> Result<Vec<u8>, AllocError>
    ensures { IfOk result (λ v. v.items ≡ note_text names.now step.now falls (option_copied saved.entry) cause.now) }
{
    let mut note = Vec::new(alloc);
    put_saved(alloc, &mut note, names, step, saved)?;
    put_cause(&mut note, names, step, cause)?;
    put_fall(alloc, &mut note, names, falls, saved)?;
    Ok(note)
}
