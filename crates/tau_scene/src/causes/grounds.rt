//! What the looks of states and steps are told by.
ghost use Rattle.std.specs.Prelude.{◌≡◌, ◌↔◌, IfOk, IsTrue, All, Contains};
ghost use Rattle.tau_points.specs.declared.point.Point.{Point};
ghost use Rattle.tau_trace.specs.Known.{WellFormed};
ghost use Rattle.tau_past.specs.Safety.{RolledBack};
ghost use Rattle.tau_explain.specs.Links.Links.{IsMade};
ghost use Rattle.tau_cut.specs.Cuts.{IsCut};
ghost use Rattle.tau_scene.specs.Causes.Inner.Resting.{AreGrounds, CarriesFallen, IsTold};

use crate::causes::fallen::fallen_points;
use crate::causes::resting::resting_among;
use crate::causes::sources::Source;
use std::alloc::{AllocError, Global};
use tau_cut::{Cut, kept_places};
use tau_past::{Index, carried};
use tau_points::{Point, PointSet};
use tau_trace::Trace;

/// What the looks of states and steps are told by: the points that are rolled back, for each step whether the cut holds it, and of the
/// points that were asked for those in whose past a point is rolled back.
#[derive(Drop)]
pub(crate) struct Grounds {
    pub(crate) fallen: PointSet,
    pub(crate) kept: Vec<bool>,
    pub(crate) resting: PointSet,
}

/// What the looks are told by, where these points are asked for.
pub(crate) fn grounds_of(
    alloc: Global,
    trace: &Trace,
    index: &Index,
    cut: &Cut,
    points: &[Point],
) -> Result<Grounds, AllocError>
    requires index { index.now ≡ trace.now.run }
    requires cut { IsCut trace.now.run cut.now }
    requires well_formed { WellFormed trace.now.run }
    requires made { All (IsMade trace.now.run) points.now }
    ensures { IfOk result (λ g. AreGrounds trace.now.run cut.now points.now g.fallen g.kept.items g.resting) }
{
    let fallen = fallen_points(alloc, index)?;
    let kept = kept_places(alloc, trace, cut)?;
    let resting = resting_among(alloc, index, points, &fallen)?;
    Ok(Grounds {
        fallen,
        kept,
        resting,
    })
}

/// Whether a point that the step at a place carries has a rolled-back point in its past.
fn carries_fallen(
    alloc: Global,
    trace: &Trace,
    index: &Index,
    fallen: &PointSet,
    place: u32,
) -> Result<bool, AllocError>
    requires index { index.now ≡ trace.now.run }
    requires well_formed { WellFormed trace.now.run }
    requires fallen { (q : Point) → Contains fallen.now q ↔ RolledBack trace.now.run q }
    ensures { IfOk result (λ b. IsTrue b ↔ CarriesFallen trace.now.run place) }
{
    let carries = carried(alloc, trace, place)?;
    let resting = resting_among(alloc, index, carries.points(), fallen)?;
    Ok(!resting.is_empty())
}

impl Grounds {
    /// Whether a point of a past is rolled back, by what tells of the past.
    pub(crate) fn rests(
        &self,
        alloc: Global,
        trace: &Trace,
        index: &Index,
        source: Source,
    ) -> Result<bool, AllocError>
        requires index { index.now ≡ trace.now.run }
        requires well_formed { WellFormed trace.now.run }
        requires fallen { (q : Point) → Contains self.now.fallen q ↔ RolledBack trace.now.run q }
        ensures { IfOk result (IsTold trace.now.run self.now.resting source) }
    {
        match source {
            Source::Point(point) => Ok(self.resting.has(&point)),
            Source::Birth(place) => carries_fallen(alloc, trace, index, &self.fallen, place),
            Source::Nothing => Ok(false),
        }
    }
}
