//! Where the chains to a cause begin and end.
ghost use Rattle.std.specs.Prelude.{◌≡◌, ◌⊎◌, ◌↔◌, ◌<◌, ℕ, length, Some, Contains, IfOk, OnOk, IsTrue};
ghost use Rattle.tau_points.specs.declared.point.Point.{Point};
ghost use Rattle.tau_points.specs.Members.{AddsAll};
ghost use Rattle.tau_points.specs.Order.{IsAscending};
ghost use Rattle.tau_trace.specs.Run.{len, ActsAt, step_at};
ghost use Rattle.tau_trace.specs.Points.{point_at, Stabilizes};
ghost use Rattle.tau_past.specs.Carried.{SentWith};
ghost use Rattle.tau_past.specs.Pasts.{FellIn, StabilizedIn};
ghost use Rattle.tau_explain.specs.Inner.Hearing.{IsMarked};
ghost use Rattle.tau_explain.specs.Inner.Causes.{FellAt, StabilizedAt, IsMadePoint, IsCandidate, IsUnfirm, IsSettled, AddsUnfirm};

use std::alloc::{AllocError, Global};
use tau_past::{Index, carried, send_of};
use tau_points::{Point, PointSet};
use tau_trace::{Step, Trace};

/// The point at which the step at a place was made.
pub(crate) fn own_point(index: &Index, place: u32) -> Point
    requires { (t : ℕ) × ActsAt index.now t place }
    ensures { IsMadePoint index.now place result }
{
    match index.made_at(place) {
        Some(made) => made.point,
        None => unreachable!(),
    }
}

/// The points that a message carries: what the Send does that is its origin.
pub(crate) fn sent_points(
    alloc: Global,
    trace: &Trace,
    message: u32,
) -> Result<PointSet, AllocError>
    ensures ascending { IfOk result IsAscending }
    ensures members { IfOk result (λ set. (q : Point) → Contains set q ↔ SentWith trace.now.run message q) }
{
    match send_of(trace, message) {
        Some(place) => carried(alloc, trace, place),
        None => Ok(PointSet::new(alloc)),
    }
}

/// Adds the point of the step at a place, if that is marked and falls.
fn push_fallen(
    index: &Index,
    marks: &[bool],
    place: u32,
    points: &mut Vec<Point>,
) -> Result<(), AllocError>
    requires place { place < len index.now }
    requires marks { length marks.now ≡ len index.now }
    ensures { OnOk result (AddsAll (FellAt index.now marks.now place) points.old.items points.new.items) }
{
    if marks[place as usize] {
        if let Some(made) = index.made_at(place) {
            if made.falls {
                points.push(made.point)?;
            }
        }
    }
    Ok(())
}

/// The points from which marked steps fell.
pub(crate) fn fallen_points(
    alloc: Global,
    index: &Index,
    marks: &[bool],
) -> Result<PointSet, AllocError>
    requires { length marks.now ≡ len index.now }
    ensures { IfOk result (λ set. (q : Point) → Contains set q ↔ FellIn index.now (IsMarked marks.now) q) }
{
    let mut points = Vec::new(alloc);
    for place in 0..index.len() {
        push_fallen(index, marks, place, &mut points)?;
    }
    PointSet::from_slice(alloc, &points)
}

/// Whether the step at a place is a Stabilize.
fn is_stabilize(trace: &Trace, place: u32) -> bool
    ensures { IsTrue result ↔ ((t : ℕ) × Stabilizes trace.now.run t place) }
{
    match trace.step(place) {
        Some(Step::Stabilize { .. }) => true,
        _ => false,
    }
}

/// Adds the point of the step at a place, if that is marked and a Stabilize.
fn push_stable(
    index: &Index,
    trace: &Trace,
    marks: &[bool],
    place: u32,
    points: &mut Vec<Point>,
) -> Result<(), AllocError>
    requires trace { index.now ≡ trace.now.run }
    requires place { place < len index.now }
    requires marks { length marks.now ≡ len index.now }
    ensures { OnOk result (AddsAll (StabilizedAt index.now marks.now place) points.old.items points.new.items) }
{
    if marks[place as usize] && is_stabilize(trace, place) {
        if let Some(made) = index.made_at(place) {
            points.push(made.point)?;
        }
    }
    Ok(())
}

/// The points at which marked Stabilizes were made.
pub(crate) fn stable_points(
    alloc: Global,
    index: &Index,
    trace: &Trace,
    marks: &[bool],
) -> Result<PointSet, AllocError>
    requires trace { index.now ≡ trace.now.run }
    requires marks { length marks.now ≡ len index.now }
    ensures { IfOk result (λ set. (q : Point) → Contains set q ↔ StabilizedIn index.now (IsMarked marks.now) q) }
{
    let mut points = Vec::new(alloc);
    for place in 0..index.len() {
        push_stable(index, trace, marks, place, &mut points)?;
    }
    PointSet::from_slice(alloc, &points)
}

/// Adds the point, unless it is settled: in the set of stable points and not in that of fallen ones.
fn push_unfirm(
    fallen: &PointSet,
    stable: &PointSet,
    point: Point,
    points: &mut Vec<Point>,
) -> Result<(), AllocError>
    ensures { OnOk result (AddsUnfirm fallen.now stable.now (λ q. q ≡ point) points.old.items points.new.items) }
{
    if fallen.has(&point) || !stable.has(&point) {
        points.push(point)?;
    }
    Ok(())
}

/// Adds the point of the step at a place, if that is marked, unless it is settled.
fn push_made(
    index: &Index,
    marks: &[bool],
    fallen: &PointSet,
    stable: &PointSet,
    place: u32,
    points: &mut Vec<Point>,
) -> Result<(), AllocError>
    requires place { place < len index.now }
    requires marks { length marks.now ≡ len index.now }
    ensures { OnOk result (AddsUnfirm fallen.now stable.now (λ q. IsMarked marks.now place × IsMadePoint index.now place q) points.old.items points.new.items) }
{
    if marks[place as usize] {
        if let Some(made) = index.made_at(place) {
            push_unfirm(fallen, stable, made.point, points)?;
        }
    }
    Ok(())
}

/// Of the points at which marked steps were made and one more point those that are not settled.
pub(crate) fn unfirm_points(
    alloc: Global,
    index: &Index,
    marks: &[bool],
    fallen: &PointSet,
    stable: &PointSet,
    own: Point,
) -> Result<Vec<Point>, AllocError>
    requires { length marks.now ≡ len index.now }
    ensures unfirm { IfOk result (λ v. (q : Point) → Contains v.items q → IsCandidate index.now marks.now own q × IsUnfirm fallen.now stable.now q) }
    ensures others { IfOk result (λ v. (q : Point) → IsCandidate index.now marks.now own q → Contains v.items q ⊎ IsSettled fallen.now stable.now q) }
{
    let mut points = Vec::new(alloc);
    push_unfirm(fallen, stable, own, &mut points)?;
    for place in 0..index.len() {
        push_made(index, marks, fallen, stable, place, &mut points)?;
    }
    Ok(points)
}
