//! The nearest point of a list, and the least point at a distance.
ghost use Rattle.std.specs.Prelude.{◌≡◌, ◌⊎◌, ◌↔◌, Some, Contains, IfSome, IsTrue};
ghost use Rattle.std.specs.HashMap.{get};
ghost use Rattle.tau_points.specs.Order.{IsAscending};
ghost use Rattle.tau_explain.specs.Chains.Chains.{IsNotAfter};
ghost use Rattle.tau_explain.specs.Chains.Inner.Distances.{same_point, IsNearestOf, IsLeastAt, nearer_of};

use std::collections::HashMap;
use tau_points::Point;

/// The nearest of ascending points with its distance, the least of equally near ones; `None` where none has a distance.
pub fn nearest_of(far: &HashMap<Point, usize>, points: &[Point]) -> Option<(Point, usize)>
    requires { IsAscending points.now }
    ensures { IsNearestOf (Contains points.now) (get same_point far.now) result }
{
    let mut nearest = None;
    for point in points {
        nearest = nearer(nearest, *point, far.get(point).copied());
    }
    nearest
}

/// The nearer of two points, the first of equally near ones; a point without a distance is no answer.
fn nearer(
    nearest: Option<(Point, usize)>,
    point: Point,
    distance: Option<usize>,
) -> Option<(Point, usize)>
    ensures { result ≡ nearer_of nearest point distance }
{
    match (nearest, distance) {
        (Some((_, least)), Some(distance)) if distance < least => Some((point, distance)),
        (None, Some(distance)) => Some((point, distance)),
        _ => nearest,
    }
}

/// The least of the points at the distance; `None` where none is.
pub(crate) fn least_at(
    far: &HashMap<Point, usize>,
    points: &[Point],
    distance: usize,
) -> Option<Point>
    ensures { IsLeastAt (Contains points.now) (get same_point far.now) distance result }
{
    let mut least = None;
    for point in points {
        if is_at(far, point, distance) {
            least = Some(lesser(least, *point));
        }
    }
    least
}

/// Whether the point is at the distance.
fn is_at(far: &HashMap<Point, usize>, point: &Point, distance: usize) -> bool
    ensures { IsTrue result ↔ (get same_point far.now point.now ≡ Some distance) }
{
    match far.get(point) {
        Some(found) => *found == distance,
        None => false,
    }
}

/// The lesser of two points.
fn lesser(least: Option<Point>, point: Point) -> Point
    ensures either { (result ≡ point) ⊎ (least ≡ Some result) }
    ensures least { IfSome least (IsNotAfter result) }
    ensures point { IsNotAfter result point }
{
    match least {
        Some(other) if other < point => other,
        _ => point,
    }
}
