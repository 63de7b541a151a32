//! The first of the shortest chains over the links of a trace.
ghost use Rattle.std.specs.Prelude.{◌≡◌, ◌<◌, ℕ, length, All, Contains, IfOk, OnOk};
ghost use Rattle.std.specs.HashMap.{get};
ghost use Rattle.tau_points.specs.declared.point.Point.{Point};
ghost use Rattle.tau_explain.specs.Chains.Inner.Distances.{IsFar};
ghost use Rattle.tau_trace.specs.Run.{len};
ghost use Rattle.tau_trace.specs.Known.{WellFormed};
ghost use Rattle.tau_trace.specs.Points.{IsOpeningPoint};
ghost use Rattle.tau_past.specs.Tables.{same_point};
ghost use Rattle.tau_explain.specs.Links.Inner.Dependents.{IsLinked, TellsCheckpoint};
ghost use Rattle.tau_explain.specs.Links.Links.{IsMade, AreChainsFrom};
ghost use Rattle.tau_explain.specs.Links.Marks.{IsMarked};
ghost use Rattle.tau_explain.specs.Links.Inner.Linking.{AreLevels, AreNexts, IsDownFrom, AreDown, IsFirstChain, AreFirstChains};

use crate::chains::{Chain, Chained, distances, nearest_of};
use crate::links::dependents::{Dependents, checkpoints_of};
use crate::links::linking::{Levels, chain_from};
use crate::links::nearest::nearest_carried;
use std::alloc::{AllocError, Global};
use std::collections::HashMap;
use tau_past::Index;
use tau_points::{Point, PointSet};

/// How far each point is from a set, over links that marked steps make, and what the links are told by.
fn levels_to<'a>(
    alloc: Global,
    index: &'a Index<'a>,
    marks: &'a [bool],
    checkpoints: &'a HashMap<Point, u32>,
    to: &[Point],
) -> Result<Levels<'a>, AllocError>
    requires well_formed { WellFormed index.now }
    requires marks { length marks.now ≡ len index.now }
    requires checkpoints { (q : Point) → TellsCheckpoint index.now marks.now q (get same_point checkpoints.now q) }
    ensures index { IfOk result (λ l. l.index.now ≡ index.now) }
    ensures marks { IfOk result (λ l. l.marks.now ≡ marks.now) }
    ensures levels { IfOk result (λ l. AreLevels index.now marks.now (get same_point l.far) l.nearest.items (get same_point l.checkpoints.now)) }
    ensures far { IfOk result (λ l. IsFar (IsLinked index.now marks.now) (Contains to.now) (get same_point l.far)) }
{
    let mut dependents = Dependents::of(alloc, index, marks, checkpoints)?;
    let far = distances(alloc, &mut dependents, to)?;
    let nearest = nearest_carried(alloc, index, &far)?;
    Ok(Levels {
        index,
        marks,
        far,
        nearest,
        checkpoints,
    })
}

/// The first of the shortest chains over links that marked steps make, from the points of `from` to those of `to`, with the least
/// marked place of a step that makes each link; `None` exactly where there is no chain. There is a mark for each step. The time
/// and the memory are linear in the trace. The error is want of memory.
pub fn first_chain<'a>(
    alloc: Global,
    index: &'a Index<'a>,
    marks: &'a [bool],
    from: &PointSet,
    to: &[Point],
) -> Result<Option<Chain>, AllocError>
    requires well_formed { WellFormed index.now }
    requires marks { length marks.now ≡ len index.now }
    ensures { IfOk result (IsFirstChain index.now marks.now (Contains from.now) (Contains to.now)) }
{
    let checkpoints = checkpoints_of(alloc, index, marks)?;
    let levels = levels_to(alloc, index, marks, &checkpoints, to)?;
    match nearest_of(&levels.far, from.points()) {
        Some((first, distance)) => {
            let mut nexts = HashMap::new(alloc);
            let items = chain_from(alloc, &levels, &mut nexts, first, distance)?;
            Ok(Some(Chain::from_vec(items)))
        }
        None => Ok(None),
    }
}

/// The chain from a point, by how far points are; `None` where it has no distance.
fn chain_down(
    alloc: Global,
    levels: &Levels,
    nexts: &mut HashMap<Point, Chained>,
    point: Point,
) -> Result<Option<Chain>, AllocError>
    requires levels { AreLevels levels.now.index.now levels.now.marks.now (get same_point levels.now.far) levels.now.nearest.items (get same_point levels.now.checkpoints.now) }
    requires nexts { AreNexts levels.now.index.now levels.now.marks.now (get same_point levels.now.far) (get same_point nexts.old) }
    ensures nexts { OnOk result (AreNexts levels.now.index.now levels.now.marks.now (get same_point levels.now.far) (get same_point nexts.new)) }
    ensures chain { IfOk result (IsDownFrom levels.now.index.now levels.now.marks.now (get same_point levels.now.far) point) }
{
    match levels.far.get(&point).copied() {
        Some(distance) => {
            let items = chain_from(alloc, levels, nexts, point, distance)?;
            Ok(Some(Chain::from_vec(items)))
        }
        None => Ok(None),
    }
}

/// The chain from each point, by how far points are.
fn chains_down(
    alloc: Global,
    levels: &Levels,
    from: &[Point],
) -> Result<Vec<Option<Chain>>, AllocError>
    requires { AreLevels levels.now.index.now levels.now.marks.now (get same_point levels.now.far) levels.now.nearest.items (get same_point levels.now.checkpoints.now) }
    ensures { IfOk result (λ v. AreDown levels.now.index.now levels.now.marks.now (get same_point levels.now.far) from.now (length from.now) v.items) }
{
    let mut nexts = HashMap::new(alloc);
    let mut chains = Vec::new(alloc);
    for point in from {
        let chain = chain_down(alloc, levels, &mut nexts, *point)?;
        chains.push(chain)?;
    }
    Ok(chains)
}

/// From each point the first of the shortest chains over links that marked steps make, to those of `to`.
fn chains_among<'a>(
    alloc: Global,
    index: &'a Index<'a>,
    marks: &'a [bool],
    from: &[Point],
    to: &[Point],
) -> Result<Vec<Option<Chain>>, AllocError>
    requires well_formed { WellFormed index.now }
    requires marks { length marks.now ≡ len index.now }
    ensures { IfOk result (λ v. AreFirstChains index.now marks.now from.now (Contains to.now) v.items) }
{
    let checkpoints = checkpoints_of(alloc, index, marks)?;
    let levels = levels_to(alloc, index, marks, &checkpoints, to)?;
    chains_down(alloc, &levels, from)
}

/// A mark for each step.
fn all_marks(alloc: Global, index: &Index) -> Result<Vec<bool>, AllocError>
    ensures length { IfOk result (λ v. length v.items ≡ len index.now) }
    ensures marked { IfOk result (λ v. (j : ℕ) → j < len index.now → IsMarked v.items j) }
{
    let marks = vec![in alloc; true; index.len() as usize]?;
    Ok(marks)
}

/// From each point of `from`, at which steps were made, the first of the shortest chains over the links of the whole trace to a
/// point of `to`, none of which is the opening point of a start, with the least place of a step that makes each link; `None`
/// exactly where there is no chain from the point. One search serves all points: the time is linear in the trace and in the
/// length of the chains. The error is want of memory.
pub fn shortest_chains<'a>(
    alloc: Global,
    index: &'a Index<'a>,
    from: &[Point],
    to: &[Point],
) -> Result<Vec<Option<Chain>>, AllocError>
    requires well_formed { WellFormed index.now }
    requires from { All (IsMade index.now) from.now }
    requires to { All (λ q. ¬ IsOpeningPoint index.now q) to.now }
    ensures { IfOk result (λ v. AreChainsFrom index.now from.now (Contains to.now) v.items) }
{
    let marks = all_marks(alloc, index)?;
    chains_among(alloc, index, &marks, from, to)
}
