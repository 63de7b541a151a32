//! Why a transactor holds, drops or falls.
ghost use Rattle.std.specs.Prelude.{◌≡◌, ◌≢◌, ◌↔◌, ◌<◌, ℕ, Some, Contains, IfOk, length};
ghost use Rattle.tau_points.specs.declared.point.Point.{Point};
ghost use Rattle.tau_trace.specs.declared.step.Step.TheVariants.{Hold, Drop, Fall};
ghost use Rattle.tau_trace.specs.Run.{len, step_at};
ghost use Rattle.tau_explain.specs.Decisions.{IsGrounded, IsWhy};
ghost use Rattle.tau_explain.specs.Inner.Asking.{answer_of};

use crate::answers::Why;
use crate::causes::{fallen_points, own_point, sent_points, stable_points, unfirm_points};
use crate::chains::Chain;
use crate::hearing::needed_at;
use crate::links::first_chain;
use std::alloc::{AllocError, Global};
use tau_past::Index;
use tau_points::{Point, PointSet};
use tau_trace::{Step, Trace};

/// The answer by a chain, if there is one.
fn answer(chain: Option<Chain>) -> Why
    ensures { result ≡ answer_of chain }
{
    match chain {
        Some(chain) => Why::Chain(chain),
        None => Why::NoChain,
    }
}

/// Why the Hold at a place was made.
fn why_held(alloc: Global, trace: &Trace, place: u32) -> Result<Why, AllocError>
    requires { (t : ℕ) × (step_at trace.now.run place ≡ Some (Hold t)) }
    ensures { IfOk result (IsWhy trace.now.run place) }
{
    let index = Index::of(alloc, trace)?;
    let marks = needed_at(alloc, trace, place)?;
    let own = own_point(&index, place);
    let fallen = fallen_points(alloc, &index, &marks)?;
    let stable = stable_points(alloc, &index, trace, &marks)?;
    let causes = unfirm_points(alloc, &index, &marks, &fallen, &stable, own)?;
    let from = PointSet::from_slice(alloc, &[own])?;
    Ok(answer(first_chain(alloc, &index, &marks, &from, &causes)?))
}

/// Why the Fall at a place was made.
fn why_fallen(alloc: Global, trace: &Trace, place: u32) -> Result<Why, AllocError>
    requires { (t : ℕ) × (m : ℕ) × (step_at trace.now.run place ≡ Some (Fall t m)) }
    ensures { IfOk result (IsWhy trace.now.run place) }
{
    let index = Index::of(alloc, trace)?;
    let marks = needed_at(alloc, trace, place)?;
    let causes = fallen_points(alloc, &index, &marks)?;
    let from = PointSet::from_slice(alloc, &[own_point(&index, place)])?;
    Ok(answer(first_chain(alloc, &index, &marks, &from, causes.points())?))
}

/// Why the Drop of a message at a place was made.
fn why_dropped(alloc: Global, trace: &Trace, place: u32, message: u32) -> Result<Why, AllocError>
    requires { (t : ℕ) × (step_at trace.now.run place ≡ Some (Drop t message)) }
    ensures { IfOk result (IsWhy trace.now.run place) }
{
    let index = Index::of(alloc, trace)?;
    let marks = needed_at(alloc, trace, place)?;
    let causes = fallen_points(alloc, &index, &marks)?;
    let from = sent_points(alloc, trace, message)?;
    Ok(answer(first_chain(alloc, &index, &marks, &from, causes.points())?))
}

/// Why the Hold, Drop or Fall at a place of a trace was made (docs/definitions.md, "Cause"): the first of the shortest chains to a
/// point that caused it, with the least place of a step that makes each link; `NoChain` exactly where there is no chain, and
/// then the decision has no ground, as never in a legal trace; `NotAsked` exactly where the place has no such step. The time
/// and the memory are linear in the trace, but for the sorting of points. The error is want of memory.
pub fn why(alloc: Global, trace: &Trace, place: u64) -> Result<Why, AllocError>
    ensures answer { IfOk result (IsWhy trace.now.run place) }
    ensures grounded { IsGrounded trace.now.run → IfOk result (λ w. w ≢ Why.NoChain) }
{
    if place >= trace.len() as u64 {
        return Ok(Why::NotAsked);
    }
    let place = place as u32;
    match trace.step(place) {
        Some(Step::Hold { .. }) => why_held(alloc, trace, place),
        Some(Step::Drop { message, .. }) => why_dropped(alloc, trace, place, *message),
        Some(Step::Fall { .. }) => why_fallen(alloc, trace, place),
        _ => Ok(Why::NotAsked),
    }
}
