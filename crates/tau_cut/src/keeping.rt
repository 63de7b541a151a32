//! The Checkpoints of a trace, and the points that can't be kept.
ghost use Rattle.std.specs.Prelude.{◌≡◌, ◌<◌, IfOk, OnOk};
ghost use Rattle.tau_trace.specs.Run.{len};
ghost use Rattle.tau_trace.specs.Known.{WellFormed};
ghost use Rattle.tau_cut.specs.Inner.Checkpoints.{AddsCheckpoint, AreCheckpoints, AddsUnkept, AreUnkept};

use std::alloc::{AllocError, Global};
use tau_past::Index;
use tau_points::{Point, PointSet};
use tau_trace::Trace;

/// The places of the Checkpoints of a trace, ascending, and the points at which they were made.
#[derive(Drop)]
pub(crate) struct Checkpoints {
    pub(crate) places: Vec<u32>,
    pub(crate) points: Vec<Point>,
}

/// Adds the Checkpoint at a place, if one stands there.
fn push_checkpoint(
    index: &Index,
    place: u32,
    places: &mut Vec<u32>,
    points: &mut Vec<Point>,
) -> Result<(), AllocError>
    requires { place < len index.now }
    ensures { OnOk result (AddsCheckpoint index.now place places.old.items places.new.items points.old.items points.new.items) }
{
    if let Some(point) = index.checkpoint_at(place) {
        places.push(place)?;
        points.push(point)?;
    }
    Ok(())
}

/// The Checkpoints of a trace.
pub(crate) fn checkpoints_in(
    alloc: Global,
    trace: &Trace,
    index: &Index,
) -> Result<Checkpoints, AllocError>
    requires { index.now ≡ trace.now.run }
    ensures well_formed { OnOk result (WellFormed trace.now.run) }
    ensures told { IfOk result (λ c. AreCheckpoints trace.now.run (len trace.now.run) c.places.items c.points.items) }
{
    let mut places = Vec::new(alloc);
    let mut points = Vec::new(alloc);
    for place in 0..trace.len() {
        push_checkpoint(index, place, &mut places, &mut points)?;
    }
    Ok(Checkpoints { places, points })
}

/// Adds the point of the step at a place, unless it is in the set.
fn push_unkept(
    index: &Index,
    kept: &PointSet,
    place: u32,
    points: &mut Vec<Point>,
) -> Result<(), AllocError>
    requires { place < len index.now }
    ensures { OnOk result (AddsUnkept index.now kept.now place points.old.items points.new.items) }
{
    if let Some(made) = index.made_at(place) {
        if !kept.has(&made.point) {
            points.push(made.point)?;
        }
    }
    Ok(())
}

/// The points at which steps were made and that are not in the set.
pub(crate) fn unkept_points(
    alloc: Global,
    index: &Index,
    kept: &PointSet,
) -> Result<Vec<Point>, AllocError>
    ensures { IfOk result (λ v. AreUnkept index.now kept.now (len index.now) v.items) }
{
    let mut points = Vec::new(alloc);
    for place in 0..index.len() {
        push_unkept(index, kept, place, &mut points)?;
    }
    Ok(points)
}
