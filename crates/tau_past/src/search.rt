//! The search for pasts.
ghost use Rattle.std.specs.Prelude.{◌≡◌, ◌↔◌, ◌<◌, ◌^◌, ℕ, length, Contains, IfOk, OnOk};
ghost use Rattle.std.specs.Bool.{OnTrue, OnFalse};
ghost use Rattle.tau_points.specs.declared.point.Point.{Point};
ghost use Rattle.tau_points.specs.Order.{IsAscending};
ghost use Rattle.tau_trace.specs.Run.{len};
ghost use Rattle.tau_past.specs.Pasts.{Past};
ghost use Rattle.tau_past.specs.Safety.{RolledBack};
ghost use Rattle.tau_past.specs.Inner.Searching.{IsComplete, AddsPast, PastHasFallen, FoundNoFallen, Visits, IsPassed};

use crate::found::Found;
use crate::index::Index;
use crate::listing::push_following;
use std::alloc::{AllocError, Global};
use tau_points::{Point, PointSet};

/// Visits a point; true where it is new and rolled back.
fn visit(
    index: &Index,
    point: Point,
    found: &mut Found,
    passed: &mut [bool],
    left: &mut Vec<Point>,
) -> Result<bool, AllocError>
    requires { length passed.old ≡ len index.now }
    ensures visits { OnOk result (Visits index.now point found.old found.new passed.old passed.new left.old.items left.new.items) }
    ensures small { OnOk result (length found.new < 2 ^ 63) }
    ensures fallen { IfOk result (λ fallen. OnTrue fallen (RolledBack index.now point × ¬ Contains found.old point)) }
    ensures safe { IfOk result (λ fallen. OnFalse fallen (RolledBack index.now point → Contains found.old point)) }
{
    if found.insert(point)? {
        push_following(index, &point, passed, left)?;
        Ok(index.is_rolled_back(&point))
    } else {
        Ok(false)
    }
}

/// Adds the past of a point to the points found, which are closed; true where a rolled-back point is new among them.
pub(crate) fn add_past(
    alloc: Global,
    index: &Index,
    point: Point,
    found: &mut Found,
    passed: &mut [bool],
) -> Result<bool, AllocError>
    requires passed { length passed.old ≡ len index.now }
    requires complete { IsComplete index.now found.old passed.old }
    ensures complete { OnOk result (IsComplete index.now found.new passed.new) }
    ensures past { OnOk result (AddsPast index.now point found.old found.new) }
    ensures fallen { IfOk result (λ fallen. OnTrue fallen (PastHasFallen index.now point)) }
    ensures safe { IfOk result (λ fallen. OnFalse fallen (FoundNoFallen index.now found.old found.new)) }
{
    let mut fallen = false;
    let mut left = Vec::new(alloc);
    left.push(point)?;
    'search: while let Some(next) = left.pop() {
        fallen |= visit(index, next, found, passed, &mut left)?;
    }
    Ok(fallen)
}

/// No place is passed.
pub(crate) fn none_passed(alloc: Global, index: &Index) -> Result<Vec<bool>, AllocError>
    ensures length { IfOk result (λ v. length v.items ≡ len index.now) }
    ensures none { IfOk result (λ v. (k : ℕ) → ¬ IsPassed v.items k) }
{
    vec![in alloc; false; index.len() as usize]
}

/// The past of a point.
pub(crate) fn past_in(alloc: Global, index: &Index, point: Point) -> Result<PointSet, AllocError>
    ensures ascending { IfOk result IsAscending }
    ensures members { IfOk result (λ set. (q : Point) → Contains set q ↔ Past index.now point q) }
{
    let mut found = Found::new(alloc);
    let mut passed = none_passed(alloc, index)?;
    add_past(alloc, index, point, &mut found, &mut passed)?;
    let points = found.points(alloc)?;
    PointSet::from_slice(alloc, &points)
}
