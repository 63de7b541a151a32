//! The looks of the marks and rows of steps.
ghost use Rattle.std.specs.Prelude.{◌≡◌, ◌↔◌, ◌<◌, ◌≤◌, ◌-◌, Some, IfOk, IsTrue};
ghost use Rattle.tau_trace.specs.Run.{len, step_at};
ghost use Rattle.tau_scene.specs.Causes.Inner.Showing as showing;
ghost use Rattle.tau_scene.specs.Causes.Inner.Showing.{made_falls, IsLeftIn, IsMadeIn, IsMarkedStep, AreMarkedSteps};

use crate::causes::grounds::Grounds;
use crate::looks::{MarkLook, RowLook};
use std::alloc::{AllocError, Global};
use tau_past::{Index, Made};
use tau_points::PointSet;
use tau_svg::shapes::Window;
use tau_trace::{Step, Trace};

/// What is shown of a step but its note: whether it is a falling step, whether it is undone, and the looks of its mark and of its row.
#[derive(Clone, Copy)]
pub struct StepMark {
    pub falls: bool,
    pub undone: bool,
    pub mark: MarkLook,
    pub row: RowLook,
}

/// The look of the mark of a Checkpoint.
fn saved_mark(kept: bool, rests: bool) -> MarkLook
    ensures { result ≡ showing.saved_mark kept rests }
{
    if kept {
        return MarkLook::Kept;
    }
    if rests {
        MarkLook::Broken
    } else {
        MarkLook::Unkept
    }
}

/// Whether a step falls.
fn falls(made: Option<Made>) -> bool
    ensures { result ≡ made_falls made }
{
    match made {
        Some(made) => made.falls,
        None => false,
    }
}

/// Whether a step that doesn't fall was made at one of the points.
fn is_left_in(points: &PointSet, made: Option<Made>) -> bool
    ensures { IsTrue result ↔ IsLeftIn points.now made }
{
    match made {
        Some(made) => !made.falls && points.has(&made.point),
        None => false,
    }
}

/// Whether a step was made at one of the points.
fn is_made_in(points: &PointSet, made: Option<Made>) -> bool
    ensures { IsTrue result ↔ IsMadeIn points.now made }
{
    match made {
        Some(made) => points.has(&made.point),
        None => false,
    }
}

impl Grounds {
    /// What is shown of the step at a place.
    fn mark_of(&self, index: &Index, step: &Step, place: u32) -> StepMark
        requires place { place < len index.now }
        requires stands { step_at index.now place ≡ Some step.now }
        ensures { IsMarkedStep index.now self.now.fallen self.now.kept.items self.now.resting place step.now result }
    {
        let made = index.made_at(place);
        let falls = falls(made);
        let undone = is_left_in(&self.fallen, made);
        let saved = saved_mark(self.keeps(place), is_made_in(&self.resting, made));
        let mark = MarkLook::of(step, falls, saved);
        StepMark {
            falls,
            undone,
            mark,
            row: RowLook::of(step, mark, falls, undone),
        }
    }

    /// What is shown of the drawn steps.
    pub(crate) fn marks_in(
        &self,
        alloc: Global,
        trace: &Trace,
        index: &Index,
        window: Window,
    ) -> Result<Vec<StepMark>, AllocError>
        requires index { index.now ≡ trace.now.run }
        requires ordered { window.from ≤ window.to }
        requires within { window.to ≤ len trace.now.run }
        ensures { IfOk result (λ v. AreMarkedSteps trace.now.run self.now.fallen self.now.kept.items self.now.resting window.from (window.to - window.from) v.items) }
    {
        let mut marks = Vec::new(alloc);
        for place in window.from..window.to {
            match trace.step(place) {
                Some(step) => marks.push(self.mark_of(index, step, place))?,
                None => unreachable!(),
            }
        }
        Ok(marks)
    }
}
