//! The links of a trace that marked steps make, turned round.
ghost use Rattle.std.specs.Prelude.{◌≡◌, ◌<◌, ℕ, List, [], length, slice_get, IfOk, OnOk};
ghost use Rattle.std.specs.HashMap.{get};
ghost use Rattle.tau_points.specs.declared.point.Point.{Point};
ghost use Rattle.tau_points.specs.Members.{AddsAll};
ghost use Rattle.tau_trace.specs.Run.{len};
ghost use Rattle.tau_trace.specs.Known.{WellFormed};
ghost use Rattle.tau_past.specs.declared.carrying.Carrying.{Carrying};
ghost use Rattle.tau_past.specs.Tables.{same_point};
ghost use Rattle.tau_explain.specs.Links.Marks.{IsMarked};
ghost use Rattle.tau_explain.specs.Links.Inner.Rows.{AreRows, HasRows};
ghost use Rattle.tau_explain.specs.Links.Inner.Dependents.{IsLinked, Takes, HasPassed, TellsCheckpoint, PassesPlace, AddsTakers, IsUpToNumber, IsAbove, IsReady, CanSearch};

use crate::chains::Incoming;
use crate::links::rows::{Rows, push_row};
use std::alloc::{AllocError, Global};
use std::collections::HashMap;
use tau_past::Index;
use tau_points::Point;

/// The links that marked steps of a trace make, turned round. A search goes through each place once: from a point to the places
/// that touched it, from a place to those that rest on it.
#[derive(Drop)]
pub(crate) struct Dependents<'a> {
    index: &'a Index<'a>,
    marks: &'a [bool],
    rows: Rows,
    checkpoints: &'a HashMap<Point, u32>,
    passed: Vec<bool>,
    left: Vec<u32>,
}

/// Adds the point that takes by the step at a place, if that is marked.
fn push_taker(
    index: &Index,
    marks: &[bool],
    place: u32,
    into: &mut Vec<Point>,
) -> Result<(), AllocError>
    requires place { place < len index.now }
    requires marks { length marks.now ≡ len index.now }
    ensures { OnOk result (AddsAll (λ p. Takes index.now marks.now p place) into.old.items into.new.items) }
{
    if marks[place as usize] {
        if let Some(point) = index.taker_at(place) {
            into.push(point)?;
        }
    }
    Ok(())
}

/// Goes through a place, unless that was done before: its taker is pushed, and the places that rest on it are left.
fn pass_place(
    index: &Index,
    marks: &[bool],
    rows: &Rows,
    place: u32,
    passed: &mut [bool],
    left: &mut Vec<u32>,
    into: &mut Vec<Point>,
) -> Result<(), AllocError>
    requires place { place < len index.now }
    requires marks { length marks.now ≡ len index.now }
    requires passed { length passed.old ≡ len index.now }
    requires rows { HasRows index.now (len index.now) (get same_point rows.now.last_touching) rows.now.earlier_touching.items rows.now.last_resting.items rows.now.earlier_resting.items }
    ensures { OnOk result ((carrying : List Carrying) → AreRows index.now (len index.now) carrying (get same_point rows.now.last_touching) rows.now.earlier_touching.items rows.now.last_resting.items rows.now.earlier_resting.items → PassesPlace index.now marks.now carrying place passed.old passed.new left.old.items left.new.items into.old.items into.new.items) }
{
    if passed[place as usize] {
        return Ok(());
    }
    passed[place as usize] = true;
    push_taker(index, marks, place, into)?;
    push_row(
        &rows.earlier_resting,
        rows.last_resting[place as usize],
        left,
    )
}

/// Adds the points that take by marked steps that carry the point. Nothing is left before and after.
fn push_takers(
    index: &Index,
    marks: &[bool],
    rows: &Rows,
    point: &Point,
    passed: &mut [bool],
    left: &mut Vec<u32>,
    into: &mut Vec<Point>,
) -> Result<(), AllocError>
    requires marks { length marks.now ≡ len index.now }
    requires left { left.old.items ≡ [] }
    requires ready { IsReady index.now (get same_point rows.now.last_touching) rows.now.earlier_touching.items rows.now.last_resting.items rows.now.earlier_resting.items passed.old }
    ensures left { OnOk result (left.new.items ≡ []) }
    ensures ready { OnOk result (IsReady index.now (get same_point rows.now.last_touching) rows.now.earlier_touching.items rows.now.last_resting.items rows.now.earlier_resting.items passed.new) }
    ensures adds { OnOk result (AddsTakers index.now marks.now point.now passed.old passed.new into.old.items into.new.items) }
{
    push_row(
        &rows.earlier_touching,
        rows.last_touching.get(point).copied(),
        left,
    )?;
    while let Some(place) = left.pop() {
        pass_place(index, marks, rows, place, passed, left, into)?;
    }
    Ok(())
}

/// Adds the points of a transactor at an interval up to an incarnation.
fn push_incarnations(
    who: u32,
    interval: u32,
    number: u32,
    into: &mut Vec<Point>,
) -> Result<(), AllocError>
    ensures { OnOk result (AddsAll (IsUpToNumber who interval number) into.old.items into.new.items) }
{
    for incarnation in 0..number {
        into.push(Point {
            who,
            interval,
            incarnation,
        })?;
    }
    into.push(Point {
        who,
        interval,
        incarnation: number,
    })?;
    Ok(())
}

/// Adds the points of the interval after the point's to which its transactor came, if a marked Checkpoint was made at the point.
fn push_above(
    index: &Index,
    checkpoints: &HashMap<Point, u32>,
    marks: &[bool],
    point: &Point,
    into: &mut Vec<Point>,
) -> Result<(), AllocError>
    requires well_formed { WellFormed index.now }
    requires told { (q : Point) → TellsCheckpoint index.now marks.now q (get same_point checkpoints.now q) }
    ensures { OnOk result (AddsAll (IsAbove index.now marks.now point.now) into.old.items into.new.items) }
{
    if !checkpoints.contains_key(point) {
        return Ok(());
    }
    let interval = point.interval + 1;
    match index.number_of(point.who, interval) {
        Some(number) => push_incarnations(point.who, interval, number, into),
        None => Ok(()),
    }
}

/// The place of the marked Checkpoint that was made at each point.
pub(crate) fn checkpoints_of(
    alloc: Global,
    index: &Index,
    marks: &[bool],
) -> Result<HashMap<Point, u32>, AllocError>
    requires { length marks.now ≡ len index.now }
    ensures { IfOk result (λ m. (q : Point) → TellsCheckpoint index.now marks.now q (get same_point m q)) }
{
    let mut checkpoints = HashMap::new(alloc);
    for place in 0..index.len() {
        if marks[place as usize] {
            if let Some(point) = index.checkpoint_at(place) {
                checkpoints.insert(point, place)?;
            }
        }
    }
    Ok(checkpoints)
}

impl<'a> Dependents<'a> {
    /// The links that the marked steps make, before any search.
    pub(crate) fn of(
        alloc: Global,
        index: &'a Index<'a>,
        marks: &'a [bool],
        checkpoints: &'a HashMap<Point, u32>,
    ) -> Result<Dependents<'a>, AllocError>
        requires well_formed { WellFormed index.now }
        requires marks { length marks.now ≡ len index.now }
        requires checkpoints { (q : Point) → TellsCheckpoint index.now marks.now q (get same_point checkpoints.now q) }
        ensures index { IfOk result (λ d. d.index.now ≡ index.now) }
        ensures marks { IfOk result (λ d. d.marks.now ≡ marks.now) }
        ensures ready { IfOk result (λ d. CanSearch d.index.now d.marks.now (get same_point d.checkpoints.now) (get same_point d.rows.last_touching) d.rows.earlier_touching.items d.rows.last_resting.items d.rows.earlier_resting.items d.passed.items d.left.items) }
        ensures none { IfOk result (λ d. (k : ℕ) → ¬ IsMarked d.passed.items k) }
    {
        Ok(Dependents {
            index,
            marks,
            rows: Rows::of(alloc, index)?,
            checkpoints,
            passed: vec![in alloc; false; index.len() as usize]?,
            left: Vec::new(alloc),
        })
    }
}

impl<'a> Incoming for Dependents<'a> {
    ghost leads = { λ d p q. IsLinked d.index.now d.marks.now p q };

    ghost passed = { λ d p. HasPassed d.index.now d.marks.now d.passed.items p };

    ghost is_ready = { λ d. CanSearch d.index.now d.marks.now (get same_point d.checkpoints.now) (get same_point d.rows.last_touching) d.rows.earlier_touching.items d.rows.last_resting.items d.rows.earlier_resting.items d.passed.items d.left.items };

    fn push_incoming(&mut self, point: &Point, into: &mut Vec<Point>) -> Result<(), AllocError> {
        push_takers(
            self.index,
            self.marks,
            &self.rows,
            point,
            &mut self.passed,
            &mut self.left,
            into,
        )?;
        push_above(self.index, self.checkpoints, self.marks, point, into)
    }
}
