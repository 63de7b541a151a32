//! The index of a trace, by which pasts are searched.
ghost use Rattle.std.specs.Prelude.{◌≡◌, ◌<◌, ◌↔◌, IsTrue, IfOk, Option, Some, slice_get, option_copied, false};
ghost use Rattle.std.specs.HashMap.{get};
ghost use Rattle.tau_points.specs.declared.point.Point.{Point};
ghost use Rattle.std.specs.Option.{option_map_or};
ghost use Rattle.tau_trace.specs.Steps.{is_checkpoint};
ghost use Rattle.tau_trace.specs.Run.{Run, len, step_at};
ghost use Rattle.tau_trace.specs.Known.{WellFormed};
ghost use Rattle.tau_past.specs.Safety.{RolledBack};
ghost use Rattle.tau_past.specs.Audits.{ChecksAt};
ghost use Rattle.tau_past.specs.TableSteps.{closing_in, opening_history, checked_point};
ghost use Rattle.tau_past.specs.Tables.{Lists, TellsHistory, TellsTurn, TellsCarried, TellsMade, TellsEarlier, TellsTaker, IsBirth, TakesAt, IsLast, ClosesBefore, all_born, same_point};
ghost use Rattle.tau_history.specs.Timeline.{numbers};
ghost use Rattle.tau_trace.specs.Numbering.{born};
ghost use Rattle.tau_trace.specs.Histories.{history};

use crate::carrying::Carrying;
use crate::made::Made;
use crate::noting::{
    born_after, note_birth, note_carried, note_history, note_made, note_taker, note_takes,
    note_turn, taker_at,
};
use std::alloc::{AllocError, Global};
use std::collections::HashMap;
use std::marker::Model;
use tau_history::{Fate, History};
use tau_points::Point;
use tau_trace::{Step, Trace};

/// What the steps of a trace carry and which points take it, each step by an earlier one, so that the index is linear
/// in the trace; and the histories of all transactors after the trace. Contracts see the run.
#[derive(Drop)]
pub struct Index<'a> {
    trace: &'a Trace,
    histories: Vec<History>,
    carried: Vec<Carrying>,
    made: Vec<Option<Made>>,
    latest: HashMap<Point, u32>,
    earlier: Vec<Option<u32>>,
    takers: Vec<Option<Point>>,
    births: Vec<Option<u32>>,
}

impl<'a> Model for Index<'a> {
    ghost use Rattle.std.specs.HashMap.{get};
    ghost use Rattle.tau_trace.specs.Run.{Run};
    ghost use Rattle.tau_past.specs.Audits.{ChecksAt};
    ghost use Rattle.tau_past.specs.TableSteps.{closing_in, opening_history, checked_point};
    ghost use Rattle.tau_past.specs.Tables.{IsIndex, same_point};
    ghost use Rattle.std.specs.Coded.{codes};
    ghost use Rattle.tau_value.specs.Val.{val_code};

    ghost Value = { Run };

    ghost coded = { Prim.hlevel (codes, val_code) };

    ghost view = { λ x. x.trace.now.run };

    ghost invariant = { λ x. IsIndex x.trace.now.run x.histories.items x.carried.items x.made.items (get same_point x.latest) x.earlier.items x.takers.items x.births.items };
}

impl<'a> Index<'a> {
    /// The index of a trace, in one pass over it.
    pub fn of(alloc: Global, trace: &'a Trace) -> Result<Index<'a>, AllocError>
        ensures { IfOk result (λ x. x ≡ trace.now.run) }
    {
        let mut histories = opening_histories(alloc, trace)?;
        let mut turns = idle_turns(alloc, trace)?;
        let mut born = trace.opening().names.len() as u32;
        let mut carried = Vec::new(alloc);
        let mut made = Vec::new(alloc);
        let mut latest = HashMap::new(alloc);
        let mut earlier = Vec::new(alloc);
        let mut takers = Vec::new(alloc);
        let mut births = starts_births(alloc, trace)?;
        for place in 0..trace.len() {
            note_carried(&mut carried, &turns, trace, place)?;
            note_made(&mut made, &histories, trace, place)?;
            let taker = taker_at(&histories, born, trace, place);
            note_takes(&mut latest, &mut earlier, taker, trace, place)?;
            note_taker(&mut takers, taker, trace, place)?;
            note_turn(&mut turns, &histories, trace, place);
            note_birth(&mut births, trace, place)?;
            born = born_after(born, trace, place);
            note_history(&mut histories, trace, place)?;
        }
        Ok(Index {
            trace,
            histories,
            carried,
            made,
            latest,
            earlier,
            takers,
            births,
        })
    }

    /// How many steps the trace has.
    pub fn len(&self) -> u32
        ensures { result ≡ len self.now }
    {
        self.trace.len()
    }

    /// What the step at a place carries.
    pub fn carried_at(&self, place: u32) -> Carrying
        requires { place < len self.now }
        ensures { TellsCarried self.now place result }
    {
        self.carried[place as usize]
    }

    /// The point at which the step at a place was made; `None` where nobody made it.
    pub fn made_at(&self, place: u32) -> Option<Made>
        requires { place < len self.now }
        ensures { TellsMade self.now place result }
    {
        self.made[place as usize]
    }

    /// The point at which a Checkpoint was made at a place; `None` where no Checkpoint stands there.
    pub fn checkpoint_at(&self, place: u32) -> Option<Point>
        requires { place < len self.now }
        ensures { (p : Point) → ChecksAt self.now place p ↔ (result ≡ Some p) }
    {
        checked_point(self.is_checkpoint_at(place), self.made_at(place))
    }

    /// Whether a Checkpoint stands at a place.
    fn is_checkpoint_at(&self, place: u32) -> bool
        ensures { result ≡ option_map_or is_checkpoint (step_at self.now place) false }
    {
        match self.trace.step(place) {
            Some(Step::Checkpoint { .. }) => true,
            _ => false,
        }
    }

    /// The last place at which a point takes.
    pub fn latest_of(&self, point: &Point) -> Option<u32>
        ensures { IsLast (TakesAt self.now point.now) (len self.now) result }
    {
        self.latest.get(point).copied()
    }

    /// The last place before this one at which the point that takes here takes.
    pub fn earlier_at(&self, place: u32) -> Option<u32>
        requires { place < len self.now }
        ensures { TellsEarlier self.now place result }
    {
        self.earlier[place as usize]
    }

    /// The point that takes by the step at a place; `None` where none does (docs/definitions.md, "Takes").
    pub fn taker_at(&self, place: u32) -> Option<Point>
        requires { place < len self.now }
        ensures { (p : Point) → TakesAt self.now p place ↔ (result ≡ Some p) }
    {
        self.takers[place as usize]
    }

    /// The place of the New of a transactor; `None` for a start.
    pub fn birth_of(&self, who: u32) -> Option<u32>
        requires { who < born self.now (len self.now) }
        ensures { IsBirth self.now who result }
    {
        self.births[who as usize]
    }

    /// The incarnation number that a transactor has, after the whole trace, at an interval; `None` for an interval that
    /// it hasn't reached.
    pub fn number_of(&self, who: u32, interval: u32) -> Option<u32>
        requires { who < born self.now (len self.now) }
        ensures { result ≡ slice_get (numbers (history self.now who (len self.now))) interval }
    {
        self.histories[who as usize].number_at(interval)
    }

    /// The closing point of the interval before the point's.
    pub fn closing_before(&self, point: &Point) -> Option<Point>
        ensures { (q : Point) → ClosesBefore self.now point.now q ↔ (result ≡ Some q) }
    {
        match history_of(&self.histories, point.who) {
            Some(history) => closing_in(history, point),
            None => None,
        }
    }

    /// Whether the point is rolled back.
    pub(crate) fn is_rolled_back(&self, point: &Point) -> bool
        ensures { IsTrue result ↔ RolledBack self.now point.now }
    {
        match history_of(&self.histories, point.who) {
            Some(history) => is_fallen(history.fate(point.interval, point.incarnation)),
            None => false,
        }
    }
}

/// The point at which a step was made, where it is a Checkpoint.
fn checked_point(is_checkpoint: bool, made: Option<Made>) -> Option<Point>
    ensures { result ≡ checked_point is_checkpoint made }
{
    match made {
        Some(made) if is_checkpoint => Some(made.point),
        _ => None,
    }
}

/// The history of a transactor.
fn history_of(histories: &[History], who: u32) -> Option<&History>
    ensures { option_copied result ≡ slice_get histories.now who }
{
    histories.get(who as usize)
}

/// The point at which the interval before the point's was closed, by the history of its transactor.
fn closing_in(history: &History, point: &Point) -> Option<Point>
    ensures { result ≡ closing_in history.now.history point.now }
{
    if point.interval == 0 || history.interval() < point.interval {
        return None;
    }
    let interval = point.interval - 1;
    let incarnation = history.number_at(interval)?;
    Some(Point {
        who: point.who,
        interval,
        incarnation,
    })
}

fn is_fallen(fate: Fate) -> bool
    ensures { IsTrue result ↔ (fate ≡ Fate.Fallen) }
{
    match fate {
        Fate::Fallen => true,
        _ => false,
    }
}

/// The opening history of a transactor.
fn opening_history(alloc: Global, who: u32, starts: u32) -> Result<History, AllocError>
    ensures { IfOk result (λ h. h.history ≡ opening_history starts who) }
{
    if who < starts {
        History::opening(alloc)
    } else {
        History::newborn(alloc)
    }
}

/// The opening history of each transactor that ever exists.
fn opening_histories(alloc: Global, trace: &Trace) -> Result<Vec<History>, AllocError>
    ensures { IfOk result (λ v. Lists (all_born trace.now.run) (TellsHistory trace.now.run 0) v.items) }
{
    let starts = trace.opening().names.len() as u32;
    let mut histories = Vec::new(alloc);
    for who in 0..trace.born() {
        histories.push(opening_history(alloc, who, starts)?)?;
    }
    Ok(histories)
}

/// No New of any start.
fn starts_births(alloc: Global, trace: &Trace) -> Result<Vec<Option<u32>>, AllocError>
    ensures { IfOk result (λ v. Lists (born trace.now.run 0) (IsBirth trace.now.run) v.items) }
{
    let starts = trace.opening().names.len() as u32;
    let mut births = Vec::new(alloc);
    for _who in 0..starts {
        births.push(None)?;
    }
    Ok(births)
}

/// No turn of any transactor that ever exists.
fn idle_turns(alloc: Global, trace: &Trace) -> Result<Vec<Option<Carrying>>, AllocError>
    ensures { IfOk result (λ v. Lists (all_born trace.now.run) (TellsTurn trace.now.run 0) v.items) }
{
    let mut turns = Vec::new(alloc);
    for _who in 0..trace.born() {
        turns.push(None)?;
    }
    Ok(turns)
}
