//! The first of the shortest chains over a relation.
ghost use Rattle.std.specs.Prelude.{◌≡◌, ℕ, suc, Some, Contains, IfOk, IfSome, IfNone};
ghost use Rattle.std.specs.HashMap.{get};
ghost use Rattle.tau_points.specs.Reach.{Leads};
ghost use Rattle.tau_explain.specs.Chains.Chains.{IsFirstShortest, HasNoChain};
ghost use Rattle.tau_explain.specs.Chains.Inner.Distances.{same_point, HasNearer, IsNext, LeadsNearer, GoesDown};

use crate::chains::distance::distances;
use crate::chains::nearest::{least_at, nearest_of};
use crate::chains::places::Points;
use crate::chains::turned::Turned;
use std::alloc::{AllocError, Global};
use std::collections::HashMap;
use tau_points::{Links, Point, PointSet, Relation};

/// The first of the shortest chains over the links that begin with a point of `from` and end with one of `to`
/// (docs/definitions.md, "Chain"); `None` exactly where there is no chain. The time is by the number of pairs, and for each
/// by the logarithm of that number. The error is want of memory.
pub fn shortest(
    alloc: Global,
    links: &Relation,
    from: &PointSet,
    to: &PointSet,
) -> Result<Option<Points>, AllocError>
    ensures first { IfOk result (λ a. IfSome a (IsFirstShortest (Leads links.now) (Contains from.now) (Contains to.now))) }
    ensures none { IfOk result (λ a. IfNone a (HasNoChain (Leads links.now) (Contains from.now) (Contains to.now))) }
{
    let mut turned = Turned::of(alloc, links)?;
    let far = distances(alloc, &mut turned, to.points())?;
    match nearest_of(&far, from.points()) {
        Some((first, distance)) => {
            let items = going_down(alloc, links, &far, first, distance)?;
            Ok(Some(Points::from_vec(items)))
        }
        None => Ok(None),
    }
}

/// The points from the first on, each the least of those that are one link nearer, to one at distance 0.
fn going_down(
    alloc: Global,
    links: &Relation,
    far: &HashMap<Point, usize>,
    first: Point,
    distance: usize,
) -> Result<Vec<Point>, AllocError>
    requires nearer { LeadsNearer (Leads links.now) (get same_point far.now) }
    requires at { get same_point far.now first ≡ Some distance }
    ensures { IfOk result (λ v. GoesDown (Leads links.now) (get same_point far.now) first v.items) }
{
    let mut points = Vec::new(alloc);
    points.push(first)?;
    let mut next = Vec::new(alloc);
    let mut last = first;
    for left in (0..distance).rev() {
        last = next_at(links, far, &last, left, &mut next)?;
        points.push(last)?;
    }
    Ok(points)
}

/// The least point at the distance to which the point leads.
fn next_at(
    links: &Relation,
    far: &HashMap<Point, usize>,
    point: &Point,
    distance: usize,
    next: &mut Vec<Point>,
) -> Result<Point, AllocError>
    requires from { get same_point far.now point.now ≡ Some (suc distance) }
    requires nearer { HasNearer (Leads links.now) (get same_point far.now) point.now distance }
    ensures { IfOk result (λ q. IsNext (Leads links.now) (get same_point far.now) point.now q distance) }
{
    next.clear();
    links.push_next(point, next)?;
    match least_at(far, next, distance) {
        Some(least) => Ok(least),
        None => unreachable!(),
    }
}
