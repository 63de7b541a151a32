//! The states of transactors, in one pass over a trace.
ghost use Rattle.std.specs.Prelude.{◌≡◌, ◌↔◌, ◌≤◌, ◌<◌, ◌+◌, ◌^◌, ℕ, IsTrue, IfOk, OnOk, Some, None, slice_get, length};
ghost use Rattle.tau_trace.specs.Run.{len, starts, step_at};
ghost use Rattle.tau_trace.specs.Known.{WellFormed};
ghost use Rattle.tau_layout.specs.Plans.{IsPlan};
ghost use Rattle.tau_scene.specs.Timelines.States.{AreLaneStates};
ghost use Rattle.tau_scene.specs.Timelines.Inner.Courses as courses_specs;
ghost use Rattle.tau_scene.specs.Timelines.Inner.Courses.{Notes, Rewrites, IsNewCourse, AreCourses, AreMidway, AreSeen, IsLowPoint};

use std::alloc::{AllocError, Global};
use tau_layout::{Column, Layout};
use tau_past::{Index, Made};
use tau_points::Point;
use tau_svg::shapes::Window;
use tau_trace::{Step, Trace};

/// A state of a transactor (docs/formats.md, "Pictures"): its point, the place where it begins, the place of the step that ends it,
/// that of its first Stabilize, and whether a step was made at the point.
#[derive(Clone, Copy)]
pub struct State {
    pub point: Point,
    pub begin: u32,
    pub end: Option<u32>,
    pub stable: Option<u32>,
    pub made: bool,
}

/// The states of a transactor that have ended, and the one that hasn't.
#[derive(Drop)]
struct Course {
    done: Vec<State>,
    last: Option<State>,
}

/// A state that begins.
fn begun(who: u32, interval: u32, incarnation: u32, begin: u32) -> State
    ensures { result ≡ courses_specs.begun (record { who = who; interval = interval; incarnation = incarnation }) begin }
{
    State {
        point: Point {
            who,
            interval,
            incarnation,
        },
        begin,
        end: None,
        stable: None,
        made: false,
    }
}

/// The place of the first Stabilize, with one more step.
fn stable_with(stable: Option<u32>, step: &Step, place: u32) -> Option<u32>
    ensures { result ≡ courses_specs.stable_with stable step.now place }
{
    match stable {
        Some(first) => Some(first),
        None => match step {
            Step::Stabilize { .. } => Some(place),
            _ => None,
        },
    }
}

/// A state with one more step at a place, made at its point.
fn after(state: State, step: &Step, place: u32) -> State
    ensures { result ≡ courses_specs.after state step.now place }
{
    State {
        point: state.point,
        begin: state.begin,
        end: state.end,
        stable: stable_with(state.stable, step, place),
        made: true,
    }
}

/// A state that a step at a place ends.
fn ended(state: State, place: u32) -> State
    ensures { result ≡ courses_specs.ended state place }
{
    State {
        point: state.point,
        begin: state.begin,
        end: Some(place),
        stable: state.stable,
        made: state.made,
    }
}

/// The state behind one that a step at a place ends; `None` where the step ends the transactor.
fn next(point: Point, falls: bool, place: u32) -> Option<State>
    requires low { IsLowPoint point }
    requires place { place < 2 ^ 31 }
    ensures { result ≡ courses_specs.next point falls place }
{
    if !falls {
        return Some(begun(point.who, point.interval + 1, 0, place + 1));
    }
    if point.interval == 0 {
        return None;
    }
    Some(begun(point.who, point.interval, point.incarnation + 1, place + 1))
}

/// Whether a place that may be none isn't before the window.
fn ends_in(window: Window, end: Option<u32>) -> bool
    ensures { result ≡ courses_specs.ends_in window end }
{
    match end {
        Some(end) => window.from <= end,
        None => true,
    }
}

/// Whether a state is seen in a window.
fn is_seen(window: Window, state: State) -> bool
    ensures { result ≡ courses_specs.is_seen window state }
{
    state.begin <= window.to && ends_in(window, state.end)
}

/// Adds a state, if it is seen.
fn add_seen(window: Window, state: State, states: &mut Vec<State>) -> Result<(), AllocError>
    ensures { OnOk result (states.new.items ≡ courses_specs.with_seen window state states.old.items) }
{
    if is_seen(window, state) {
        states.push(state)?;
    }
    Ok(())
}

/// Whether a step of a transactor's own leads it from its point.
fn leaves(step: &Step, made: Made) -> bool
    ensures { result ≡ courses_specs.leaves step.now made }
{
    match step {
        Step::Checkpoint { .. } => true,
        _ => made.falls,
    }
}

impl Course {
    /// Notes a step of the transactor's own.
    fn note(
        &mut self,
        window: Window,
        step: &Step,
        made: Made,
        place: u32,
    ) -> Result<(), AllocError>
        requires low { IsLowPoint made.point }
        requires place { place < 2 ^ 31 }
        ensures { OnOk result (Notes window step.now made place self.old self.new) }
    {
        let Some(state) = self.last else {
            return Ok(());
        };
        let state = after(state, step, place);
        if !leaves(step, made) {
            self.last = Some(state);
            return Ok(());
        }
        add_seen(window, ended(state, place), &mut self.done)?;
        self.last = next(made.point, made.falls, place);
        Ok(())
    }
}

/// The course of a transactor before the first step: a start has its first state.
fn course_of(alloc: Global, column: Column, starts: u32) -> Course
    ensures { IsNewCourse starts column.who result }
{
    let last = if column.who < starts {
        Some(begun(column.who, 1, 0, 0))
    } else {
        None
    };
    Course {
        done: Vec::new(alloc),
        last,
    }
}

/// The courses of the transactors that have lanes, before the first step.
fn courses(alloc: Global, layout: &Layout, trace: &Trace) -> Result<Vec<Course>, AllocError>
    requires plan { IsPlan trace.now.run layout.now.window layout.now }
    requires well_formed { WellFormed trace.now.run }
    ensures { IfOk result (λ v. AreCourses trace.now.run layout.now 0 v.items) }
{
    let starts = trace.opening().names.len() as u32;
    let mut all = Vec::new(alloc);
    for column in layout.columns() {
        all.push(course_of(alloc, *column, starts))?;
    }
    Ok(all)
}

/// Notes a step of the transactor whose lane has a rank.
fn note_at(
    courses: &mut Vec<Course>,
    rank: Option<usize>,
    window: Window,
    step: &Step,
    made: Made,
    place: u32,
) -> Result<(), AllocError>
    requires low { IsLowPoint made.point }
    requires place { place < 2 ^ 31 }
    ensures { OnOk result (Rewrites rank (Notes window step.now made place) courses.old.items courses.new.items) }
{
    let Some(rank) = rank else {
        return Ok(());
    };
    if rank >= courses.len() {
        return Ok(());
    }
    courses[rank].note(window, step, made, place)
}

/// Notes that a transactor is created behind a place.
fn note_new(courses: &mut Vec<Course>, rank: Option<usize>, who: u32, place: u32)
    requires { place < 2 ^ 31 }
    ensures { Rewrites rank (λ c d. (d.done.items ≡ c.done.items) × (d.last ≡ Some (courses_specs.begun (record { who = who; interval = 0; incarnation = 0 }) (place + 1)))) courses.old.items courses.new.items }
{
    let Some(rank) = rank else {
        return;
    };
    if rank >= courses.len() {
        return;
    }
    courses[rank].last = Some(begun(who, 0, 0, place + 1));
}

/// Notes the step at a place in the course of the transactor that makes it.
fn note_actor(
    courses: &mut Vec<Course>,
    layout: &Layout,
    index: &Index,
    step: &Step,
    place: u32,
) -> Result<(), AllocError>
    requires plan { IsPlan index.now layout.now.window layout.now }
    requires well_formed { WellFormed index.now }
    requires place { place < len index.now }
    requires stands { step_at index.now place ≡ Some step.now }
    requires courses { AreCourses index.now layout.now place courses.now.items }
    ensures { OnOk result (AreMidway index.now layout.now place courses.new.items) }
{
    let Some(made) = index.made_at(place) else {
        return Ok(());
    };
    let rank = layout.rank(made.point.who);
    note_at(courses, rank, layout.window(), step, made, place)?;
    Ok(())
}

/// Notes the step at a place in the course of the transactor that it creates, if it creates one.
fn note_birth(courses: &mut Vec<Course>, layout: &Layout, trace: &Trace, step: &Step, place: u32)
    requires plan { IsPlan trace.now.run layout.now.window layout.now }
    requires well_formed { WellFormed trace.now.run }
    requires place { place < len trace.now.run }
    requires stands { step_at trace.now.run place ≡ Some step.now }
    requires courses { AreMidway trace.now.run layout.now place courses.now.items }
    ensures { AreCourses trace.now.run layout.now (place + 1) courses.new.items }
{
    match step {
        Step::New { .. } => {
            let Some(born) = trace.made_at(place) else {
                return;
            };
            let rank = layout.rank(born);
            note_new(courses, rank, born, place);
        }
        _ => {}
    }
}

/// Notes the step at a place.
fn note(
    courses: &mut Vec<Course>,
    layout: &Layout,
    trace: &Trace,
    index: &Index,
    place: u32,
) -> Result<(), AllocError>
    requires plan { IsPlan trace.now.run layout.now.window layout.now }
    requires index { index.now ≡ trace.now.run }
    requires well_formed { WellFormed trace.now.run }
    requires place { place < len trace.now.run }
    requires courses { AreCourses trace.now.run layout.now place courses.now.items }
    ensures { OnOk result (AreCourses trace.now.run layout.now (place + 1) courses.new.items) }
{
    let Some(step) = trace.step(place) else {
        return Ok(());
    };
    note_actor(courses, layout, index, step, place)?;
    note_birth(courses, layout, trace, step, place);
    Ok(())
}

/// The states of a course that are seen.
fn seen_of(course: &Course, window: Window) -> Result<Vec<State>, AllocError>
    ensures { IfOk result (λ v. v.items ≡ courses_specs.with_last window course.now.last course.now.done.items) }
{
    let mut states = course.done.clone()?;
    if let Some(state) = course.last {
        add_seen(window, state, &mut states)?;
    }
    Ok(states)
}

/// The states of each course that are seen.
fn seen(alloc: Global, courses: &[Course], window: Window) -> Result<Vec<Vec<State>>, AllocError>
    ensures { IfOk result (λ v. AreSeen window courses.now (length courses.now) v.items) }
{
    let mut all = Vec::new(alloc);
    for course in courses {
        all.push(seen_of(course, window)?)?;
    }
    Ok(all)
}

/// For each lane the states that are seen, by time (docs/formats.md, "Pictures"). It passes over the trace once. The error is want of
/// memory.
pub fn states_in(
    alloc: Global,
    layout: &Layout,
    trace: &Trace,
    index: &Index,
) -> Result<Vec<Vec<State>>, AllocError>
    requires plan { IsPlan trace.now.run layout.now.window layout.now }
    requires index { index.now ≡ trace.now.run }
    ensures { IfOk result (λ v. AreLaneStates trace.now.run layout.now v.items) }
{
    let steps = trace.len();
    let mut courses = courses(alloc, layout, trace)?;
    for place in 0..steps {
        note(&mut courses, layout, trace, index, place)?;
    }
    let states = seen(alloc, &courses, layout.window())?;
    Ok(states)
}
