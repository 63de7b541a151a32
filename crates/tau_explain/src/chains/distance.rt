//! How many links it takes from points to a set: a search by levels, backwards from the set.
ghost use Rattle.std.specs.Prelude.{◌≡◌, [], OnOk, IfOk, Contains, Some};
ghost use Rattle.std.specs.HashMap.{get};
ghost use Rattle.tau_points.specs.declared.point.Point.{Point};
ghost use Rattle.tau_explain.specs.Chains.Inner.Distances.{IsFar, same_point};
ghost use Rattle.tau_explain.specs.Chains.Inner.Searching.{HasDistance, NotesOne, Notes};

use crate::chains::incoming::Incoming;
use std::alloc::{AllocError, Global};
use std::collections::HashMap;
use tau_points::Point;

/// Notes a point at a distance, unless it has one.
fn note(
    far: &mut HashMap<Point, usize>,
    queue: &mut Vec<Point>,
    point: Point,
    distance: usize,
) -> Result<(), AllocError>
    ensures { OnOk result (NotesOne distance point (get same_point far.old) (get same_point far.new) queue.old.items queue.new.items) }
{
    if !far.contains_key(&point) {
        far.insert(point, distance)?;
        queue.push(point)?;
    }
    Ok(())
}

/// Notes points at a distance, those that have none yet.
fn note_all(
    far: &mut HashMap<Point, usize>,
    queue: &mut Vec<Point>,
    points: &mut Vec<Point>,
    distance: usize,
) -> Result<(), AllocError>
    ensures noted { OnOk result (Notes distance points.old.items [] (get same_point far.old) (get same_point far.new) queue.old.items queue.new.items) }
    ensures taken { OnOk result (points.new.items ≡ []) }
{
    while let Some(point) = points.pop() {
        note(far, queue, point, distance)?;
    }
    Ok(())
}

/// How many links it takes at least from each point to one of the points given; no entry where none is reached. The points
/// that the search comes to stand in a queue, in the order of their distance.
pub fn distances<G: Incoming>(
    alloc: Global,
    graph: &mut G,
    points: &[Point],
) -> Result<HashMap<Point, usize>, AllocError>
    requires ready { G.is_ready graph.old }
    requires fresh { (p : Point) → ¬ G.passed graph.old p }
    ensures { IfOk result (λ far. IsFar (G.leads graph.old) (Contains points.now) (get same_point far)) }
{
    let mut far = HashMap::new(alloc);
    let mut queue = Vec::new(alloc);
    let mut into = Vec::from_slice(alloc, points)?;
    note_all(&mut far, &mut queue, &mut into, 0)?;
    let mut at = 0;
    while at < queue.len() {
        let point = queue[at];
        let distance = distance_of(&far, &point);
        graph.push_incoming(&point, &mut into)?;
        note_all(&mut far, &mut queue, &mut into, distance + 1)?;
        at += 1;
    }
    Ok(far)
}

/// The distance of a point that has one.
fn distance_of(far: &HashMap<Point, usize>, point: &Point) -> usize
    requires { HasDistance (get same_point far.now) point.now }
    ensures { get same_point far.now point.now ≡ Some result }
{
    match far.get(point) {
        Some(distance) => *distance,
        None => unreachable!(),
    }
}
