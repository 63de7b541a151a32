//! What a Set adds to a log.
ghost use Rattle.std.specs.Bool.{OnTrue, OnFalse};
ghost use Rattle.std.specs.Prelude.{◌≡◌, ◌≢◌, ◌⊎◌, Contains, [], ◌-◌, ◌≤◌, ◌<◌, ◌+◌, ◌*◌, length, take, slice_get, Some, IfOk, OnOk};
ghost use Rattle.std.specs.List.{count_by};
ghost use Rattle.tau_history.specs.Timeline.{Timeline};
ghost use Rattle.tau_versions.specs.Logs.Versions.{IsVersionOf};
ghost use Rattle.tau_versions.specs.Logs.Takes.{taken};
ghost use Rattle.tau_versions.specs.Logs.Reading.{takes_told};
ghost use Rattle.tau_versions.specs.Roots.Closing.{is_unclosed};
ghost use Rattle.tau_versions.specs.Roots.Marks.{AreMarks, IsMarked};
ghost use Rattle.tau_versions.specs.Roots.Adding.{AreFresh, IsAdding};

use crate::logs::{Log, Version};
use crate::roots::closing::{count_unclosed, unclosed};
use crate::roots::roots::Roots;
use crate::search::HeardVersions;
use std::alloc::{AllocError, Global};
use tau_points::Point;

/// Takes that are added to a log, and the version that has them.
#[derive(Drop)]
pub struct Added {
    pub points: Vec<Point>,
    pub version: Version,
}

/// The roots but for the own point and what that has taken before; of the latter some may stand among them where there are
/// several roots. `count` is the number of the transactors. The error is want of memory.
pub fn fresh(
    alloc: Global,
    roots: &Roots,
    me: Point,
    taken: &[Point],
    count: usize,
) -> Result<Vec<Point>, AllocError>
    ensures { IfOk result (λ v. AreFresh roots.now me taken.now v.items) }
{
    let marks = marks_for(alloc, roots.len(), taken, count)?;
    let mut fresh = Vec::new(alloc);
    for number in 0..roots.len() {
        add_fresh(&mut fresh, roots, number, me, taken, &marks)?;
    }
    Ok(fresh)
}

/// Adds a root unless it is the own point or known to be taken before. The error is want of memory.
fn add_fresh(
    fresh: &mut Vec<Point>,
    roots: &Roots,
    number: usize,
    me: Point,
    taken: &[Point],
    marks: &[Option<Point>],
) -> Result<(), AllocError>
    requires there { number < length roots.now }
    requires marks { AreMarks taken.now marks.now }
    ensures { OnOk result (AreFresh (take number roots.now) me taken.now fresh.old.items → AreFresh (take (number + 1) roots.now) me taken.now fresh.new.items) }
{
    match roots.get(number) {
        Some(root) if is_fresh(root, me, taken, marks) => {
            fresh.push(root)?;
            Ok(())
        }
        _ => Ok(()),
    }
}

/// Whether a list has no point.
pub fn is_none(points: &[Point]) -> bool
    ensures { OnTrue result (points.now ≡ []) }
{
    points.len() == 0
}

/// Whether a root is neither the own point nor known to be taken before: by the marks, or without any by looking through
/// what was taken.
fn is_fresh(root: Point, me: Point, taken: &[Point], marks: &[Option<Point>]) -> bool
    requires { AreMarks taken.now marks.now }
    ensures fresh { OnTrue result (root ≢ me) }
    ensures passed { OnFalse result ((root ≡ me) ⊎ Contains taken.now root) }
{
    if root == me {
        return false;
    }
    if marks.len() == 0 {
        return !taken.contains(&root);
    }
    !is_marked(root, marks)
}

/// Whether a point is the mark of its transactor.
pub fn is_marked(point: Point, marks: &[Option<Point>]) -> bool
    ensures { OnTrue result (slice_get marks.now point.who ≡ Some (Some point)) }
{
    match marks.get(point.who as usize) {
        Some(Some(mark)) => *mark == point,
        _ => false,
    }
}

/// Marks for so many roots: one root needs none. The error is want of memory.
fn marks_for(
    alloc: Global,
    roots: usize,
    taken: &[Point],
    count: usize,
) -> Result<Vec<Option<Point>>, AllocError>
    ensures { IfOk result (λ v. AreMarks taken.now v.items) }
{
    if roots <= 1 {
        return Ok(Vec::new(alloc));
    }
    let marks = marks_of(alloc, taken, count)?;
    Ok(marks)
}

/// Of each of so many transactors a point that was taken, where there is one. The error is want of memory.
fn marks_of(alloc: Global, taken: &[Point], count: usize) -> Result<Vec<Option<Point>>, AllocError>
    ensures { IfOk result (λ v. AreMarks taken.now v.items) }
{
    let mut marks = vec![in alloc; None; count]?;
    for point in taken {
        mark(&mut marks, *point);
    }
    Ok(marks)
}

/// Makes a point the mark of its transactor, where there is room for it.
pub fn mark(marks: &mut Vec<Option<Point>>, point: Point)
    ensures { IsMarked marks.old.items point marks.new.items }
{
    if (point.who as usize) < marks.len() {
        marks[point.who as usize] = Some(point);
    }
}

/// What is added so that the point of a version has taken the fresh points too. The fresh ones alone are added where what
/// the point has taken stands at the log's end and few of it are closed; else the closed ones are left out of it, and the rest
/// is added again. So a point that takes more and more keeps, of closed points, at most as many as of others, and eight. The
/// error is want of memory.
pub fn adding<V: HeardVersions>(
    alloc: Global,
    logs: &[Log],
    heard: &V,
    log: &Log,
    version: Version,
    fresh: Vec<Point>,
    from: u32,
) -> Result<Added, AllocError>
    requires ordered { version.first ≤ version.last }
    requires within { version.last ≤ length log.now.takes }
    requires last { takes_told log.now (length log.now.versions - 1) ≡ taken log.now.takes version }
    ensures adding { IfOk result (λ a. IsAdding (is_unclosed logs.now (V.numbers heard.now)) log.now version fresh.items a.points.items a.version) }
    ensures from { IfOk result (λ a. a.version.from ≡ from) }
{
    let end = log.takes_len();
    let before = log.taken(log.len().saturating_sub(1));
    if version.last as usize == end && has_few_closed(logs, heard, before) {
        return at_end(version, version.first, end, fresh, from);
    }
    let mut points = unclosed(alloc, logs, heard, before)?;
    points.extend_from_slice(&fresh)?;
    let Ok(first) = u32::try_from(end) else {
        return Err(AllocError);
    };
    let added = at_end(version, first, end, points, from)?;
    Ok(added)
}

/// Whether of the points at most as many as the others, and eight, are closed.
fn has_few_closed<V: HeardVersions>(logs: &[Log], heard: &V, points: &[Point]) -> bool
    ensures { OnTrue result (length points.now ≤ 2 * count_by (is_unclosed logs.now (V.numbers heard.now)) points.now + 8) }
{
    let left = count_unclosed(logs, heard, points);
    points.len() - left <= left.saturating_add(8)
}

/// Points added at the end of a log's takes, and the version whose range begins at `first` and ends with them.
fn at_end(
    version: Version,
    first: u32,
    end: usize,
    points: Vec<Point>,
    from: u32,
) -> Result<Added, AllocError>
    ensures points { IfOk result (λ a. a.points.items ≡ points.items) }
    ensures range { IfOk result (λ a. (a.version.first ≡ first) × (a.version.last ≡ end + length points.items) × (a.version.from ≡ from)) }
    ensures tells { IfOk result (λ a. (g : Timeline) → IsVersionOf version g → IsVersionOf a.version g) }
{
    let Some(total) = end.checked_add(points.len()) else {
        return Err(AllocError);
    };
    let Ok(last) = u32::try_from(total) else {
        return Err(AllocError);
    };
    Ok(Added {
        points,
        version: version.taking(first, last, from),
    })
}
