// The least point of a known past with a fate.
ghost use Rattle.std.specs.Prelude.{◌≡◌, IfOk, IsTrue, IsFalse, Contains};
ghost use Rattle.std.specs.Bool.{OnTrue};
ghost use Rattle.tau_points.specs.declared.point.Point.{Point};
ghost use Rattle.tau_history.specs.declared.fate.Fate.TheVariants.{Fallen};
ghost use Rattle.tau_points.specs.Order.{IsAscending};
ghost use Rattle.tau_view.specs.Held.{fate_in, is_firm, only};
ghost use Rattle.tau_view.specs.Past.{FallenIn, NotFirmIn, SomeFallen, Settled};
ghost use Rattle.tau_view.specs.Stored.{point_in};
ghost use Rattle.tau_view.specs.Fate.Least.{IsLeastIfAny};
ghost use Rattle.tau_view.specs.Fate.Inner.Found.{IsFound, FallenAmong, NotFirmAmong};

use crate::View;
use std::alloc::{AllocError, Global};
use tau_history::Fate;
use tau_points::{Point, PointSet};

/// The set of one point.
pub(crate) fn single(alloc: Global, point: Point) -> Result<PointSet, AllocError>
    ensures { IfOk result (λ set. point_in set ≡ only point) }
{
    let mut set = PointSet::new(alloc);
    set.insert(point)?;
    Ok(set)
}

/// The fate of a point by the view's history of its transactor; Ahead where it has none.
fn fate_of<V: View>(view: &V, point: &Point) -> Fate
    ensures { result ≡ fate_in (V.held view.now).history point.now }
{
    match view.history_of(point.who) {
        Some(history) => history.fate(point.interval, point.incarnation),
        None => Fate::Ahead,
    }
}

/// The first Fallen point of a set.
fn first_fallen<V: View>(view: &V, points: &PointSet) -> Option<Point>
    ensures { IsLeastIfAny (FallenAmong (V.held view.now).history points.now) result }
{
    for point in points.points() {
        if fate_of(view, point) == Fate::Fallen {
            return Some(*point);
        }
    }
    None
}

/// Whether a set has each point of another.
fn has_all(points: &PointSet, others: &PointSet) -> bool
    ensures { OnTrue result ((q : Point) → IsTrue (point_in others.now q) → Contains points.now q) }
{
    for point in others.points() {
        if !points.has(point) {
            return false;
        }
    }
    true
}

/// The first point of a set that isn't firm.
fn first_not_firm<V: View>(view: &V, points: &PointSet) -> Option<Point>
    ensures { IsLeastIfAny (NotFirmAmong (V.held view.now).history points.now) result }
{
    for point in points.points() {
        match fate_of(view, point) {
            Fate::Stable | Fate::Closed => {}
            _ => return Some(*point),
        }
    }
    None
}

/// The least Fallen point of the known past of these points.
pub(crate) fn least_fallen<V: View>(view: &V, from: &PointSet) -> Result<Option<Point>, AllocError>
    ensures { IfOk result (IsLeastIfAny (FallenIn (V.held view.now) (point_in from.now))) }
{
    let past = view.past_of(from)?;
    Ok(first_fallen(view, &past))
}

/// The least point of the known past of these points that isn't firm.
pub(crate) fn least_not_firm<V: View>(
    view: &V,
    from: &PointSet,
) -> Result<Option<Point>, AllocError>
    ensures { IfOk result (IsLeastIfAny (NotFirmIn (V.held view.now) (point_in from.now))) }
{
    let known = view.past_of(from)?;
    Ok(first_not_firm(view, &known))
}

/// What is found from the own point by a search that stops at Closed points.
pub(crate) fn past_of_own<V: View>(
    alloc: Global,
    view: &V,
    me: Point,
) -> Result<PointSet, AllocError>
    ensures { IfOk result (IsFound (V.held view.now) (only me)) }
{
    let own = single(alloc, me)?;
    view.past_up_to_closed(&own)
}

/// The least Fallen point of the known past of the own point, from which these points were found.
pub(crate) fn least_fallen_found<V: View>(view: &V, _me: Point, past: &PointSet) -> Option<Point>
    requires settled { Settled (V.held view.now) }
    requires found { IsFound (V.held view.now) (only _me) past.now }
    ensures { IsLeastIfAny (FallenIn (V.held view.now) (only _me)) result }
{
    first_fallen(view, past)
}

/// The least Fallen point of the known past of the roots, where that of the own point, from which these points were
/// found, has none. Where the roots are among those points, so is their past.
pub(crate) fn least_fallen_beyond<V: View>(
    view: &V,
    _me: Point,
    past: &PointSet,
    roots: &PointSet,
) -> Result<Option<Point>, AllocError>
    requires settled { Settled (V.held view.now) }
    requires found { IsFound (V.held view.now) (only _me) past.now }
    requires none { ¬ SomeFallen (V.held view.now) (only _me) }
    ensures { IfOk result (IsLeastIfAny (FallenIn (V.held view.now) (point_in roots.now))) }
{
    if has_all(past, roots) {
        return Ok(None);
    }
    let found = view.past_up_to_closed(roots)?;
    Ok(first_fallen(view, &found))
}

/// The least point of the known past of these points that isn't firm, by a search that stops at Closed points.
pub(crate) fn least_not_firm_settled<V: View>(
    view: &V,
    from: &PointSet,
) -> Result<Option<Point>, AllocError>
    requires { Settled (V.held view.now) }
    ensures { IfOk result (IsLeastIfAny (NotFirmIn (V.held view.now) (point_in from.now))) }
{
    let found = view.past_up_to_closed(from)?;
    Ok(first_not_firm(view, &found))
}
