//! Points in whose past a point is rolled back.
ghost use Rattle.std.specs.Prelude.{◌≡◌, ◌↔◌, ◌<◌, ℕ, All, Contains, IfOk, OnOk, length, slice_get, Some};
ghost use Rattle.tau_points.specs.declared.point.Point.{Point};
ghost use Rattle.tau_trace.specs.Known.{WellFormed};
ghost use Rattle.tau_past.specs.Safety.{RolledBack};
ghost use Rattle.tau_explain.specs.Links.Links.{IsMade};
ghost use Rattle.tau_scene.specs.Causes.Looks.{RestsOnFallen};
ghost use Rattle.tau_scene.specs.Causes.Inner.Resting.{HasChainAt, PushesIf};

use std::alloc::{AllocError, Global};
use tau_explain::chains::Chain;
use tau_explain::links::shortest_chains;
use tau_past::Index;
use tau_points::{Point, PointSet};

/// Adds a point that has a chain.
fn push_if(point: Point, chain: &Option<Chain>, points: &mut Vec<Point>) -> Result<(), AllocError>
    ensures { OnOk result (PushesIf chain.now point points.old.items points.new.items) }
{
    match chain {
        Some(_) => {
            points.push(point)?;
            Ok(())
        }
        None => Ok(()),
    }
}

/// Of some points those that have a chain.
fn with_chain(
    alloc: Global,
    points: &[Point],
    chains: &[Option<Chain>],
) -> Result<Vec<Point>, AllocError>
    requires { length chains.now ≡ length points.now }
    ensures { IfOk result (λ v. (q : Point) → Contains v.items q ↔ HasChainAt points.now chains.now (length points.now) q) }
{
    let mut picked = Vec::new(alloc);
    for at in 0..points.len() {
        push_if(points[at], &chains[at], &mut picked)?;
    }
    Ok(picked)
}

/// Of some points, at which steps were made, those in whose past a point is rolled back. One search serves all: the time is linear
/// in the trace and in the length of the chains, but for the sorting of points.
pub(crate) fn resting_among<'a>(
    alloc: Global,
    index: &'a Index<'a>,
    points: &[Point],
    fallen: &PointSet,
) -> Result<PointSet, AllocError>
    requires well_formed { WellFormed index.now }
    requires made { All (IsMade index.now) points.now }
    requires fallen { (q : Point) → Contains fallen.now q ↔ RolledBack index.now q }
    ensures { IfOk result (λ set. (q : Point) → Contains set q ↔ (Contains points.now q × RestsOnFallen index.now q)) }
{
    let chains = shortest_chains(alloc, index, points, fallen.points())?;
    let resting = with_chain(alloc, points, &chains)?;
    PointSet::from_slice(alloc, &resting)
}
