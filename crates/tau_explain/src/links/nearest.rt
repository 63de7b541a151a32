//! The nearest of the points that each step carries.
ghost use Rattle.std.specs.Prelude.{◌≡◌, ◌⊎◌, ◌<◌, ℕ, Some, IfOk};
ghost use Rattle.std.specs.HashMap.{get};
ghost use Rattle.tau_points.specs.declared.point.Point.{Point};
ghost use Rattle.tau_explain.specs.Chains.Inner.Distances.{IsNearestOf};
ghost use Rattle.tau_trace.specs.Run.{len};
ghost use Rattle.tau_past.specs.Tables.{Lists, CarriedFrom, same_point};
ghost use Rattle.tau_explain.specs.Links.Inner.Rows.{IsBelow};
ghost use Rattle.tau_explain.specs.Links.Inner.Linking.{TellsNearest, IsNotBehindAny};

use std::alloc::{AllocError, Global};
use std::collections::HashMap;
use tau_past::Index;
use tau_points::Point;

/// The nearer of two points with their distances; of equally near ones the lesser.
fn nearer(first: Option<(Point, usize)>, second: Option<(Point, usize)>) -> Option<(Point, usize)>
    ensures either { (result ≡ first) ⊎ (result ≡ second) }
    ensures first { IsNotBehindAny result first }
    ensures second { IsNotBehindAny result second }
{
    match (first, second) {
        (Some((point, distance)), Some((other, other_distance))) => {
            if other_distance < distance || (other_distance == distance && other < point) {
                second
            } else {
                first
            }
        }
        (None, _) => second,
        _ => first,
    }
}

/// The point, if there is one and it has a distance.
fn with_distance(far: &HashMap<Point, usize>, point: Option<Point>) -> Option<(Point, usize)>
    ensures { IsNearestOf (λ q. point ≡ Some q) (get same_point far.now) result }
{
    let point = point?;
    let distance = far.get(&point).copied()?;
    Some((point, distance))
}

/// The nearest of what the place, if there is one, carries.
fn nearest_from(
    nearest: &[Option<(Point, usize)>],
    far: &HashMap<Point, usize>,
    index: &Index,
    rest: Option<u32>,
    place: u32,
) -> Option<(Point, usize)>
    requires below { IsBelow rest place }
    requires told { Lists place (TellsNearest index.now (get same_point far.now)) nearest.now }
    ensures { IsNearestOf (CarriedFrom index.now rest) (get same_point far.now) result }
{
    nearest[rest? as usize]
}

/// The nearest of the points that the step at a place carries, by those of earlier places.
fn nearest_at(
    nearest: &[Option<(Point, usize)>],
    far: &HashMap<Point, usize>,
    index: &Index,
    place: u32,
) -> Option<(Point, usize)>
    requires place { place < len index.now }
    requires told { Lists place (TellsNearest index.now (get same_point far.now)) nearest.now }
    ensures { TellsNearest index.now (get same_point far.now) place result }
{
    let carrying = index.carried_at(place);
    nearer(
        with_distance(far, carrying.touched),
        nearest_from(nearest, far, index, carrying.rest, place),
    )
}

/// For each step the nearest of the points that it carries, the least of equally near ones, with its distance.
pub(crate) fn nearest_carried(
    alloc: Global,
    index: &Index,
    far: &HashMap<Point, usize>,
) -> Result<Vec<Option<(Point, usize)>>, AllocError>
    ensures { IfOk result (λ v. Lists (len index.now) (TellsNearest index.now (get same_point far.now)) v.items) }
{
    let mut nearest = Vec::new(alloc);
    for place in 0..index.len() {
        let found = nearest_at(&nearest, far, index, place);
        nearest.push(found)?;
    }
    Ok(nearest)
}
