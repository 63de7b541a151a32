//! What the step at a place carries, and the past of a point, by the whole trace.
ghost use Rattle.std.specs.Prelude.{◌↔◌, Contains, IfOk};
ghost use Rattle.tau_points.specs.declared.point.Point.{Point};
ghost use Rattle.tau_points.specs.Order.{IsAscending};
ghost use Rattle.tau_past.specs.Carried.{Carried};
ghost use Rattle.tau_past.specs.Pasts.{Past};

use crate::index::Index;
use crate::listing::carried_points;
use crate::search::past_in;
use std::alloc::{AllocError, Global};
use tau_points::{Point, PointSet};
use tau_trace::Trace;

/// The points that the step at a place carries, of any trace (docs/definitions.md, "Carried"); none for a place from
/// the length on. The time is near linear in the trace. The error is want of memory.
pub fn carried(alloc: Global, trace: &Trace, place: u32) -> Result<PointSet, AllocError>
    ensures ascending { IfOk result IsAscending }
    ensures members { IfOk result (λ set. (q : Point) → Contains set q ↔ Carried trace.now.run place q) }
{
    let index = Index::of(alloc, trace)?;
    let points = carried_points(alloc, &index, place)?;
    PointSet::from_slice(alloc, &points)
}

/// The causal past of a point, by the whole of any trace (docs/definitions.md, "Past"). The time is near linear in the
/// trace. The error is want of memory.
pub fn past(alloc: Global, trace: &Trace, point: Point) -> Result<PointSet, AllocError>
    ensures ascending { IfOk result IsAscending }
    ensures members { IfOk result (λ set. (q : Point) → Contains set q ↔ Past trace.now.run point q) }
{
    let index = Index::of(alloc, trace)?;
    past_in(alloc, &index, point)
}
