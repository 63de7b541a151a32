//! To which point a point goes on, and by which step.
ghost use Rattle.std.specs.Prelude.{◌≡◌, ◌⊎◌, ◌↔◌, ◌<◌, ℕ, suc, Option, Some, IfOk, OnOk, IsTrue};
ghost use Rattle.std.specs.HashMap.{get};
ghost use Rattle.tau_points.specs.declared.point.Point.{Point};
ghost use Rattle.tau_trace.specs.Run.{len};
ghost use Rattle.tau_past.specs.Tables.{same_point};
ghost use Rattle.tau_explain.specs.Links.Inner.Linking.{IsUpToAny, IsLeastLink, IsLinkAt, TakesNearest, ClosesAtDistance, AreLevels, GoesOnTo, AreNexts, GoesDown};

use crate::chains::Chained;
use std::alloc::{AllocError, Global};
use std::collections::HashMap;
use tau_past::Index;
use tau_points::Point;

/// What a search has found, by which links are told: how far each point is, the nearest that each step carries, and where each
/// interval was closed.
#[derive(Drop)]
pub(crate) struct Levels<'a> {
    pub(crate) index: &'a Index<'a>,
    pub(crate) marks: &'a [bool],
    pub(crate) far: HashMap<Point, usize>,
    pub(crate) nearest: Vec<Option<(Point, usize)>>,
    pub(crate) checkpoints: &'a HashMap<Point, u32>,
}

/// The lesser of two links, by point and then by place.
fn lesser(first: Option<(Point, u32)>, second: Option<(Point, u32)>) -> Option<(Point, u32)>
    ensures either { (result ≡ first) ⊎ (result ≡ second) }
    ensures first { IsUpToAny result first }
    ensures second { IsUpToAny result second }
{
    match (first, second) {
        (Some((point, place)), Some((other, other_place))) => {
            if other < point || (other == point && other_place < place) {
                second
            } else {
                first
            }
        }
        (None, _) => second,
        _ => first,
    }
}

/// The link by the step at a place, if that is marked and the nearest point that it carries is at the distance.
fn link_at(levels: &Levels, place: u32, distance: usize) -> Option<(Point, u32)>
    requires place { place < len levels.now.index.now }
    requires levels { AreLevels levels.now.index.now levels.now.marks.now (get same_point levels.now.far) levels.now.nearest.items (get same_point levels.now.checkpoints.now) }
    ensures { (q : Point) (j : ℕ) → (result ≡ Some (q, j)) ↔ IsLinkAt levels.now.marks.now levels.now.nearest.items place distance q j }
{
    if !levels.marks[place as usize] {
        return None;
    }
    match levels.nearest[place as usize] {
        Some((point, at)) if at == distance => Some((point, place)),
        _ => None,
    }
}

/// The least link by which the point takes a point at the distance.
fn taking_link(levels: &Levels, point: &Point, distance: usize) -> Option<(Point, u32)>
    requires { AreLevels levels.now.index.now levels.now.marks.now (get same_point levels.now.far) levels.now.nearest.items (get same_point levels.now.checkpoints.now) }
    ensures { IsLeastLink (TakesNearest levels.now.index.now levels.now.marks.now levels.now.nearest.items point.now distance) result }
{
    let mut least = None;
    let mut next = levels.index.latest_of(point);
    while let Some(place) = next {
        least = lesser(least, link_at(levels, place, distance));
        next = levels.index.earlier_at(place);
    }
    least
}

/// The link to the closing point before the point, if that is at the distance.
fn closing_link(levels: &Levels, point: &Point, distance: usize) -> Option<(Point, u32)>
    requires { AreLevels levels.now.index.now levels.now.marks.now (get same_point levels.now.far) levels.now.nearest.items (get same_point levels.now.checkpoints.now) }
    ensures { IsLeastLink (ClosesAtDistance levels.now.index.now levels.now.marks.now (get same_point levels.now.far) point.now distance) result }
{
    let closing = levels.index.closing_before(point)?;
    let place = levels.checkpoints.get(&closing).copied()?;
    if is_at(&levels.far, &closing, distance) {
        Some((closing, place))
    } else {
        None
    }
}

/// Whether the point is at the distance.
fn is_at(far: &HashMap<Point, usize>, point: &Point, distance: usize) -> bool
    ensures { IsTrue result ↔ (get same_point far.now point.now ≡ Some distance) }
{
    match far.get(point) {
        Some(found) => *found == distance,
        None => false,
    }
}

/// The least point at the distance to which a point one link farther leads, with the least marked place of a step that makes the
/// link.
fn next_link(levels: &Levels, point: &Point, distance: usize) -> Chained
    requires levels { AreLevels levels.now.index.now levels.now.marks.now (get same_point levels.now.far) levels.now.nearest.items (get same_point levels.now.checkpoints.now) }
    requires from { get same_point levels.now.far point.now ≡ Some (suc distance) }
    ensures { GoesOnTo levels.now.index.now levels.now.marks.now (get same_point levels.now.far) point.now result distance }
{
    match lesser(
        taking_link(levels, point, distance),
        closing_link(levels, point, distance),
    ) {
        Some((point, place)) => Chained {
            point,
            by: Some(place),
        },
        None => unreachable!(),
    }
}

/// Notes in the table to what a point one link farther goes on.
fn note_next(
    levels: &Levels,
    nexts: &mut HashMap<Point, Chained>,
    point: &Point,
    distance: usize,
) -> Result<Chained, AllocError>
    requires levels { AreLevels levels.now.index.now levels.now.marks.now (get same_point levels.now.far) levels.now.nearest.items (get same_point levels.now.checkpoints.now) }
    requires from { get same_point levels.now.far point.now ≡ Some (suc distance) }
    requires nexts { AreNexts levels.now.index.now levels.now.marks.now (get same_point levels.now.far) (get same_point nexts.old) }
    ensures nexts { OnOk result (AreNexts levels.now.index.now levels.now.marks.now (get same_point levels.now.far) (get same_point nexts.new)) }
    ensures next { IfOk result (λ c. GoesOnTo levels.now.index.now levels.now.marks.now (get same_point levels.now.far) point.now c distance) }
{
    let next = next_link(levels, point, distance);
    nexts.insert(*point, next)?;
    Ok(next)
}

/// To what a point one link farther goes on, as the table has it; where it has nothing, it is noted.
fn next_noted(
    levels: &Levels,
    nexts: &mut HashMap<Point, Chained>,
    point: &Point,
    distance: usize,
) -> Result<Chained, AllocError>
    requires levels { AreLevels levels.now.index.now levels.now.marks.now (get same_point levels.now.far) levels.now.nearest.items (get same_point levels.now.checkpoints.now) }
    requires from { get same_point levels.now.far point.now ≡ Some (suc distance) }
    requires nexts { AreNexts levels.now.index.now levels.now.marks.now (get same_point levels.now.far) (get same_point nexts.old) }
    ensures nexts { OnOk result (AreNexts levels.now.index.now levels.now.marks.now (get same_point levels.now.far) (get same_point nexts.new)) }
    ensures next { IfOk result (λ c. GoesOnTo levels.now.index.now levels.now.marks.now (get same_point levels.now.far) point.now c distance) }
{
    match nexts.get(point).copied() {
        Some(next) => Ok(next),
        None => note_next(levels, nexts, point, distance),
    }
}

/// The chain from a point at the distance, each time on to the least point that is one link nearer. The table has to what points
/// go on, so that the links of each point are looked at once, however many chains come by it.
pub(crate) fn chain_from(
    alloc: Global,
    levels: &Levels,
    nexts: &mut HashMap<Point, Chained>,
    first: Point,
    distance: usize,
) -> Result<Vec<Chained>, AllocError>
    requires levels { AreLevels levels.now.index.now levels.now.marks.now (get same_point levels.now.far) levels.now.nearest.items (get same_point levels.now.checkpoints.now) }
    requires at { get same_point levels.now.far first ≡ Some distance }
    requires nexts { AreNexts levels.now.index.now levels.now.marks.now (get same_point levels.now.far) (get same_point nexts.old) }
    ensures nexts { OnOk result (AreNexts levels.now.index.now levels.now.marks.now (get same_point levels.now.far) (get same_point nexts.new)) }
    ensures chain { IfOk result (λ v. GoesDown levels.now.index.now levels.now.marks.now (get same_point levels.now.far) first v.items) }
{
    let mut chain = Vec::new(alloc);
    chain.push(Chained {
        point: first,
        by: None,
    })?;
    let mut last = first;
    for left in (0..distance).rev() {
        let next = next_noted(levels, nexts, &last, left)?;
        chain.push(next)?;
        last = next.point;
    }
    Ok(chain)
}
