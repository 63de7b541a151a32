//! The points that are rolled back.
ghost use Rattle.std.specs.Prelude.{◌≡◌, ◌↔◌, ◌<◌, Contains, IfOk, OnOk};
ghost use Rattle.tau_points.specs.declared.point.Point.{Point};
ghost use Rattle.tau_points.specs.Members.{AddsAll};
ghost use Rattle.tau_trace.specs.Run.{len};
ghost use Rattle.tau_past.specs.Audits.{RollsBackAt};
ghost use Rattle.tau_past.specs.Safety.{RolledBack};

use std::alloc::{AllocError, Global};
use tau_past::Index;
use tau_points::{Point, PointSet};

/// Adds the point of the step at a place, if that falls.
fn push_fallen(index: &Index, place: u32, points: &mut Vec<Point>) -> Result<(), AllocError>
    requires { place < len index.now }
    ensures { OnOk result (AddsAll (λ q. RollsBackAt index.now q place) points.old.items points.new.items) }
{
    if let Some(made) = index.made_at(place) {
        if made.falls {
            points.push(made.point)?;
        }
    }
    Ok(())
}

/// The points that are rolled back.
pub(crate) fn fallen_points(alloc: Global, index: &Index) -> Result<PointSet, AllocError>
    ensures { IfOk result (λ set. (q : Point) → Contains set q ↔ RolledBack index.now q) }
{
    let mut points = Vec::new(alloc);
    for place in 0..index.len() {
        push_fallen(index, place, &mut points)?;
    }
    PointSet::from_slice(alloc, &points)
}
