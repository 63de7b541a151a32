//! The points of which it is asked whether a point of their past is rolled back.
ghost use Rattle.std.specs.Prelude.{◌≡◌, ◌↔◌, ◌≤◌, ◌<◌, ℕ, Contains, IfOk, OnOk, All, length};
ghost use Rattle.tau_points.specs.declared.point.Point.{Point};
ghost use Rattle.tau_points.specs.Members.{AddsAll};
ghost use Rattle.tau_trace.specs.Run.{len};
ghost use Rattle.tau_past.specs.Audits.{ChecksAt};
ghost use Rattle.tau_scene.specs.declared.causes.sources.Source.TheVariants as sources;
ghost use Rattle.tau_scene.specs.Causes.Inner.Resting.{AsksIn, AsksInLanes, ChecksBetween};

use crate::causes::sources::{Source, Sourced};
use std::alloc::{AllocError, Global};
use tau_past::Index;
use tau_points::Point;
use tau_svg::shapes::Window;

/// Adds the point of a source, if it has one.
fn push_source(source: Source, points: &mut Vec<Point>) -> Result<(), AllocError>
    ensures { OnOk result (AddsAll (λ q. source ≡ sources.Point q) points.old.items points.new.items) }
{
    match source {
        Source::Point(point) => {
            points.push(point)?;
            Ok(())
        }
        _ => Ok(()),
    }
}

/// Adds the points of the sources of a lane.
fn push_sources(lane: &[Sourced], points: &mut Vec<Point>) -> Result<(), AllocError>
    ensures { OnOk result (AddsAll (AsksIn lane.now (length lane.now)) points.old.items points.new.items) }
{
    for sourced in lane {
        push_source(sourced.source, points)?;
    }
    Ok(())
}

/// Adds the points of the sources of all lanes.
pub(crate) fn push_lanes(lanes: &[Vec<Sourced>], points: &mut Vec<Point>) -> Result<(), AllocError>
    ensures { OnOk result (AddsAll (AsksInLanes lanes.now (length lanes.now)) points.old.items points.new.items) }
{
    for lane in lanes {
        push_sources(lane, points)?;
    }
    Ok(())
}

/// Adds the point of the Checkpoint at a place, if one stands there.
fn push_checkpoint(index: &Index, place: u32, points: &mut Vec<Point>) -> Result<(), AllocError>
    requires { place < len index.now }
    ensures { OnOk result (AddsAll (ChecksAt index.now place) points.old.items points.new.items) }
{
    if let Some(point) = index.checkpoint_at(place) {
        points.push(point)?;
    }
    Ok(())
}

/// Adds the points of the drawn Checkpoints.
pub(crate) fn push_checkpoints(
    index: &Index,
    window: Window,
    points: &mut Vec<Point>,
) -> Result<(), AllocError>
    requires ordered { window.from ≤ window.to }
    requires within { window.to ≤ len index.now }
    ensures { OnOk result (AddsAll (ChecksBetween index.now window.from window.to) points.old.items points.new.items) }
{
    for place in window.from..window.to {
        push_checkpoint(index, place, points)?;
    }
    Ok(())
}
