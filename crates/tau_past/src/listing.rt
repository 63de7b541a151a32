//! Lists of the points that steps carry and to which points lead.
ghost use Rattle.std.specs.Prelude.{◌≡◌, ◌<◌, ◌↔◌, length, Some, Contains, IfOk, OnOk};
ghost use Rattle.tau_points.specs.declared.point.Point.{Point};
ghost use Rattle.tau_points.specs.Members.{AddsAll};
ghost use Rattle.tau_trace.specs.Run.{len};
ghost use Rattle.tau_past.specs.Carried.{Carried};
ghost use Rattle.tau_past.specs.Inner.Searching.{AddsCarried, AddsTaken, AddsFollowing};

use crate::index::Index;
use std::alloc::{AllocError, Global};
use tau_points::Point;

/// Adds the point, if there is one.
fn push_some(points: &mut Vec<Point>, point: Option<Point>) -> Result<(), AllocError>
    ensures { OnOk result (AddsAll (λ q. point ≡ Some q) points.old.items points.new.items) }
{
    if let Some(point) = point {
        points.push(point)?;
    }
    Ok(())
}

/// The points that the step at a place carries, in some order; none from the length on.
pub(crate) fn carried_points(
    alloc: Global,
    index: &Index,
    place: u32,
) -> Result<Vec<Point>, AllocError>
    ensures { IfOk result (λ v. (q : Point) → Contains v.items q ↔ Carried index.now place q) }
{
    let mut points = Vec::new(alloc);
    if place >= index.len() {
        return Ok(points);
    }
    let mut next = Some(place);
    while let Some(at) = next {
        let carried = index.carried_at(at);
        push_some(&mut points, carried.touched)?;
        next = carried.rest;
    }
    Ok(points)
}

/// Adds the points that the step at a place carries, up to the first place that was passed before.
fn push_carried(
    index: &Index,
    place: u32,
    passed: &mut [bool],
    points: &mut Vec<Point>,
) -> Result<(), AllocError>
    requires place { place < len index.now }
    requires passed { length passed.old ≡ len index.now }
    ensures { OnOk result (AddsCarried index.now place passed.old passed.new points.old.items points.new.items) }
{
    let mut next = Some(place);
    while let Some(at) = next {
        if passed[at as usize] {
            return Ok(());
        }
        passed[at as usize] = true;
        let carried = index.carried_at(at);
        push_some(points, carried.touched)?;
        next = carried.rest;
    }
    Ok(())
}

/// Adds the points that a point takes.
fn push_taken(
    index: &Index,
    point: &Point,
    passed: &mut [bool],
    points: &mut Vec<Point>,
) -> Result<(), AllocError>
    requires { length passed.old ≡ len index.now }
    ensures { OnOk result (AddsTaken index.now point.now passed.old passed.new points.old.items points.new.items) }
{
    let mut next = index.latest_of(point);
    while let Some(place) = next {
        push_carried(index, place, passed, points)?;
        next = index.earlier_at(place);
    }
    Ok(())
}

/// Adds the points to which a point leads.
pub(crate) fn push_following(
    index: &Index,
    point: &Point,
    passed: &mut [bool],
    points: &mut Vec<Point>,
) -> Result<(), AllocError>
    requires { length passed.old ≡ len index.now }
    ensures { OnOk result (AddsFollowing index.now point.now passed.old passed.new points.old.items points.new.items) }
{
    push_taken(index, point, passed, points)?;
    push_some(points, index.closing_before(point))
}
