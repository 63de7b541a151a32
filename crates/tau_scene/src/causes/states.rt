//! The looks of states.
ghost use Rattle.std.specs.Prelude.{◌≡◌, ◌↔◌, ◌<◌, ℕ, List, IfOk, IsTrue, Contains, length};
ghost use Rattle.tau_points.specs.declared.point.Point.{Point};
ghost use Rattle.tau_trace.specs.Run.{Run};
ghost use Rattle.tau_trace.specs.Known.{WellFormed};
ghost use Rattle.tau_past.specs.Safety.{RolledBack};
ghost use Rattle.tau_explain.specs.Links.Marks.{IsMarked};
ghost use Rattle.tau_cut.specs.declared.cut.Marked.{Marked};
ghost use Rattle.tau_scene.specs.Timelines.States.{IsState};
ghost use Rattle.tau_scene.specs.Causes.Looks.{IsStateLook, RestsOnFallen};
ghost use Rattle.tau_scene.specs.Causes.Inner.Resting.{AreGrounds};
ghost use Rattle.tau_scene.specs.Causes.Inner.Showing as showing;
ghost use Rattle.tau_scene.specs.Causes.Inner.Showing.{IsShown, AreShown, AreLanesShown};

use crate::causes::grounds::Grounds;
use crate::causes::sources::Sourced;
use crate::looks::{Seen, StateLook};
use crate::timelines::State;
use std::alloc::{AllocError, Global};
use tau_past::Index;
use tau_trace::Trace;

/// The look of a state that ends by a Checkpoint.
fn saved_look(kept: bool, rests: bool) -> StateLook
    ensures { result ≡ showing.saved_look kept rests }
{
    if kept {
        return StateLook::Kept;
    }
    if rests {
        StateLook::Broken
    } else {
        StateLook::Unkept
    }
}

/// The look of a state that doesn't end.
fn unsaved_look(rests: bool) -> StateLook
    ensures { result ≡ showing.unsaved_look rests }
{
    if rests {
        StateLook::Doomed
    } else {
        StateLook::Open
    }
}

impl Grounds {
    /// Whether the cut holds the step at a place.
    pub(crate) fn keeps(&self, place: u32) -> bool
        ensures { IsTrue result ↔ IsMarked self.now.kept.items place }
    {
        match self.kept.get(place as usize) {
            Some(kept) => *kept,
            None => false,
        }
    }

    /// The look of a state, by whether a point of its past is rolled back.
    fn look_of(&self, state: State, rests: bool) -> StateLook
        ensures { (T : Run) (cut : List Marked) (asked : List Point) → AreGrounds T cut asked self.now.fallen self.now.kept.items self.now.resting
            → IsState T state → (IsTrue rests ↔ RestsOnFallen T state.point) → IsStateLook T cut state result }
    {
        if self.fallen.has(&state.point) {
            return StateLook::Fallen;
        }
        match state.end {
            Some(place) => saved_look(self.keeps(place), rests),
            None => unsaved_look(rests),
        }
    }

    /// A state with its look.
    fn seen(
        &self,
        alloc: Global,
        trace: &Trace,
        index: &Index,
        sourced: Sourced,
    ) -> Result<Seen, AllocError>
        requires index { index.now ≡ trace.now.run }
        requires well_formed { WellFormed trace.now.run }
        requires fallen { (q : Point) → Contains self.now.fallen q ↔ RolledBack trace.now.run q }
        ensures { IfOk result (IsShown trace.now.run self.now.fallen self.now.kept.items self.now.resting sourced) }
    {
        let rests = self.rests(alloc, trace, index, sourced.source)?;
        Ok(Seen {
            state: sourced.state,
            look: self.look_of(sourced.state, rests),
        })
    }

    /// The states of a lane, with their looks.
    fn seen_lane(
        &self,
        alloc: Global,
        trace: &Trace,
        index: &Index,
        lane: &[Sourced],
    ) -> Result<Vec<Seen>, AllocError>
        requires index { index.now ≡ trace.now.run }
        requires well_formed { WellFormed trace.now.run }
        requires fallen { (q : Point) → Contains self.now.fallen q ↔ RolledBack trace.now.run q }
        ensures { IfOk result (λ v. AreShown trace.now.run self.now.fallen self.now.kept.items self.now.resting lane.now (length lane.now) v.items) }
    {
        let mut seen = Vec::with_capacity(alloc, lane.len())?;
        for sourced in lane {
            seen.push(self.seen(alloc, trace, index, *sourced)?)?;
        }
        Ok(seen)
    }

    /// The states of each lane, with their looks.
    pub(crate) fn seen_lanes(
        &self,
        alloc: Global,
        trace: &Trace,
        index: &Index,
        lanes: &[Vec<Sourced>],
    ) -> Result<Vec<Vec<Seen>>, AllocError>
        requires index { index.now ≡ trace.now.run }
        requires well_formed { WellFormed trace.now.run }
        requires fallen { (q : Point) → Contains self.now.fallen q ↔ RolledBack trace.now.run q }
        ensures { IfOk result (λ v. AreLanesShown trace.now.run self.now.fallen self.now.kept.items self.now.resting lanes.now (length lanes.now) v.items) }
    {
        let mut seen = Vec::with_capacity(alloc, lanes.len())?;
        for lane in lanes {
            seen.push(self.seen_lane(alloc, trace, index, lane)?)?;
        }
        Ok(seen)
    }
}
