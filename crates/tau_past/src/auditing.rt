//! The audit of a trace.
ghost use Rattle.std.specs.Prelude.{◌≡◌, ◌↔◌, ◌<◌, Some, length, IfOk, OnOk, IsTrue};
ghost use Rattle.tau_points.specs.Order.{IsAscending};
ghost use Rattle.tau_trace.specs.Run.{len};
ghost use Rattle.tau_trace.specs.Places.{IsFirst};
ghost use Rattle.tau_past.specs.Safety.{Safe};
ghost use Rattle.tau_past.specs.Inner.Searching.{IsComplete};
ghost use Rattle.tau_past.specs.Audits.{IsAudit, IsUnsafe, IsFirstBreach, RollsBackAt, IsLeastFallen, Checked};

use crate::findings::{Audit, Breach};
use crate::found::Found;
use crate::index::Index;
use crate::search::{add_past, none_passed, past_in};
use std::alloc::{AllocError, Global};
use tau_points::Point;
use tau_trace::Trace;

/// Adds the past of the Checkpoint at a place, if one stands there, to the points found, which are closed; the point of
/// the Checkpoint where a rolled-back point is new among them.
fn check_place(
    alloc: Global,
    index: &Index,
    place: u32,
    found: &mut Found,
    passed: &mut [bool],
) -> Result<Option<Point>, AllocError>
    requires place { place < len index.now }
    requires passed { length passed.old ≡ len index.now }
    requires complete { IsComplete index.now found.old passed.old }
    ensures complete { OnOk result (IsComplete index.now found.new passed.new) }
    ensures checked { IfOk result (Checked index.now place found.old found.new) }
{
    match index.checkpoint_at(place) {
        Some(point) => {
            let fallen = add_past(alloc, index, point, found, passed)?;
            Ok(fallen.then_some(point))
        }
        None => Ok(None),
    }
}

/// The first Checkpoint whose past holds a rolled-back point. One search serves all Checkpoints: each adds to the points
/// found, which are closed and hold no rolled-back point.
fn first_breach(alloc: Global, index: &Index) -> Result<Option<Breach>, AllocError>
    ensures { IfOk result (IsFirstBreach index.now) }
{
    let mut found = Found::new(alloc);
    let mut passed = none_passed(alloc, index)?;
    for place in 0..index.len() {
        if let Some(point) = check_place(alloc, index, place, &mut found, &mut passed)? {
            return Ok(Some(Breach { place, point }));
        }
    }
    Ok(None)
}

/// The least rolled-back point of an ascending list.
fn least_fallen(index: &Index, points: &[Point]) -> Option<Point>
    requires { IsAscending points.now }
    ensures { IsLeastFallen index.now points.now result }
{
    for point in points {
        if index.is_rolled_back(point) {
            return Some(*point);
        }
    }
    None
}

/// Whether the step at a place rolls the point back.
fn rolls_back(index: &Index, point: &Point, place: u32) -> bool
    requires { place < len index.now }
    ensures { IsTrue result ↔ RollsBackAt index.now point.now place }
{
    match index.made_at(place) {
        Some(made) => made.falls && made.point == *point,
        None => false,
    }
}

/// The first place at which the point was rolled back.
fn first_fall(index: &Index, point: &Point) -> Option<u32>
    ensures { IsFirst (RollsBackAt index.now point.now) (len index.now) result }
{
    for place in 0..index.len() {
        if rolls_back(index, point, place) {
            return Some(place);
        }
    }
    None
}

/// The least point by which a Checkpoint breaks the safety of the trace, and the first place at which it was rolled back.
fn broken(alloc: Global, index: &Index, breach: Breach) -> Result<Audit, AllocError>
    requires { IsFirstBreach index.now (Some breach) }
    ensures { IfOk result (IsUnsafe index.now) }
{
    let past = past_in(alloc, index, breach.point)?;
    let Some(point) = least_fallen(index, past.points()) else {
        unreachable!()
    };
    let Some(fall) = first_fall(index, &point) else {
        unreachable!()
    };
    Ok(Audit::Broken {
        checkpoint: breach.place,
        point,
        fall,
    })
}

/// Audits any trace: whether it is safe, and if not, by which Checkpoint, point and falling step. The time is near linear
/// in the trace. The error is want of memory.
pub fn audit(alloc: Global, trace: &Trace) -> Result<Audit, AllocError>
    ensures found { IfOk result (IsAudit trace.now.run) }
    ensures safe { IfOk result (λ a. (a ≡ Audit.Safe) ↔ Safe trace.now.run) }
{
    let index = Index::of(alloc, trace)?;
    match first_breach(alloc, &index)? {
        Some(breach) => broken(alloc, &index, breach),
        None => Ok(Audit::Safe),
    }
}
