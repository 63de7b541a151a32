//! How the tables go on with one step of a trace.
ghost use Rattle.std.specs.Prelude.{◌≡◌, ◌<◌, ◌+◌, ◌^◌, ◌-◌, length, OnOk, Option, Some, option_and_then, false, IfOk, ◌↔◌, if◌then◌else◌};
ghost use Rattle.std.specs.HashMap.{get};
ghost use Rattle.tau_history.specs.Timeline.{moved};
ghost use Rattle.tau_history.specs.Timeline as timeline;
ghost use Rattle.tau_trace.specs.Steps.{actor, is_new};
ghost use Rattle.std.specs.Option.{option_map_or};
ghost use Rattle.tau_trace.specs.Run.{len, step_at};
ghost use Rattle.tau_trace.specs.Numbering as numbering;
ghost use Rattle.tau_trace.specs.Histories.{move_of};
ghost use Rattle.tau_trace.specs.Known.{WellFormed};
ghost use Rattle.tau_past.specs.Tables.{Lists, TellsTurn, TellsHistory, TellsCarried, TellsMade, TellsEarlier, TellsLatest, TellsTaker, IsBirth, same_point, all_born};
ghost use Rattle.tau_past.specs.TableSteps.{latest_for, latest_after};
ghost use Rattle.tau_points.specs.declared.point.Point.{Point};

use crate::carrying::{Carrying, carried_by, carrier_of, turn_after};
use crate::made::{Made, falls, point_of, taker};
use std::alloc::AllocError;
use std::collections::HashMap;
use tau_history::History;
use tau_points::Point;
use tau_trace::{Step, Trace};

/// The transactor that makes the step at a place; `None` for a Lose, a Repeat and from the length on.
fn actor_at(trace: &Trace, place: u32) -> Option<u32>
    ensures { result ≡ option_and_then actor (step_at trace.now.run place) }
{
    trace.step(place)?.actor()
}

/// Makes the move that a step makes its own transactor's history make.
fn make_move(history: &mut History, step: &Step) -> Result<(), AllocError>
    requires incarnation { history.old.history.last < 2 ^ 32 - 1 }
    requires interval { timeline.interval history.old.history < 2 ^ 32 - 1 }
    ensures { OnOk result (history.new.history ≡ moved (move_of history.old.history.stable step.now) history.old.history) }
{
    match step {
        Step::Stabilize { .. } => history.stabilize(),
        Step::Checkpoint { .. } => {
            history.stabilize();
            history.close()?;
        }
        Step::Fall { .. } | Step::Rollback { .. } => history.fall(),
        Step::Trap { .. } | Step::Fail { .. } => {
            if !history.is_stable() {
                history.fall();
            }
        }
        _ => {}
    }
    Ok(())
}

/// Notes the step in the history of its transactor.
pub(crate) fn note_history(
    histories: &mut Vec<History>,
    trace: &Trace,
    place: u32,
) -> Result<(), AllocError>
    requires well_formed { WellFormed trace.now.run }
    requires place { place < len trace.now.run }
    requires told { Lists (all_born trace.now.run) (TellsHistory trace.now.run place) histories.old.items }
    ensures { OnOk result (Lists (all_born trace.now.run) (TellsHistory trace.now.run (place + 1)) histories.new.items) }
{
    let Some(step) = trace.step(place) else {
        return Ok(());
    };
    let Some(who) = step.actor() else {
        return Ok(());
    };
    make_move(&mut histories[who as usize], step)
}

/// Notes what the step does to what the turn of its transactor carries.
pub(crate) fn note_turn(
    turns: &mut Vec<Option<Carrying>>,
    histories: &[History],
    trace: &Trace,
    place: u32,
)
    requires well_formed { WellFormed trace.now.run }
    requires place { place < len trace.now.run }
    requires turns { Lists (all_born trace.now.run) (TellsTurn trace.now.run place) turns.old.items }
    requires histories { Lists (all_born trace.now.run) (TellsHistory trace.now.run place) histories.now }
    ensures { Lists (all_born trace.now.run) (TellsTurn trace.now.run (place + 1)) turns.new.items }
{
    let Some(step) = trace.step(place) else {
        return;
    };
    let Some(who) = step.actor() else {
        return;
    };
    let origin = carrier_of(trace, step);
    let own = point_of(who, &histories[who as usize]);
    let turn = turns[who as usize];
    turns[who as usize] = turn_after(step, place, own, origin, turn);
}

/// Notes what the step carries.
pub(crate) fn note_carried(
    carried: &mut Vec<Carrying>,
    turns: &[Option<Carrying>],
    trace: &Trace,
    place: u32,
) -> Result<(), AllocError>
    requires well_formed { WellFormed trace.now.run }
    requires place { place < len trace.now.run }
    requires told { Lists place (TellsCarried trace.now.run) carried.old.items }
    requires turns { Lists (all_born trace.now.run) (TellsTurn trace.now.run place) turns.now }
    ensures { OnOk result (Lists (place + 1) (TellsCarried trace.now.run) carried.new.items) }
{
    carried.push(carried_by(turns, actor_at(trace, place)))?;
    Ok(())
}

/// The point at which the step at a place is made, and whether it falls; `None` where nobody makes it.
fn made_now(histories: &[History], trace: &Trace, place: u32) -> Option<Made>
    requires well_formed { WellFormed trace.now.run }
    requires place { place < len trace.now.run }
    requires histories { Lists (all_born trace.now.run) (TellsHistory trace.now.run place) histories.now }
    ensures { TellsMade trace.now.run place result }
{
    let step = trace.step(place)?;
    let who = step.actor()?;
    let history = &histories[who as usize];
    Some(Made {
        point: point_of(who, history),
        falls: falls(step, history.is_stable()),
    })
}

/// Notes at which point the step is made.
pub(crate) fn note_made(
    made: &mut Vec<Option<Made>>,
    histories: &[History],
    trace: &Trace,
    place: u32,
) -> Result<(), AllocError>
    requires well_formed { WellFormed trace.now.run }
    requires place { place < len trace.now.run }
    requires told { Lists place (TellsMade trace.now.run) made.old.items }
    requires histories { Lists (all_born trace.now.run) (TellsHistory trace.now.run place) histories.now }
    ensures { OnOk result (Lists (place + 1) (TellsMade trace.now.run) made.new.items) }
{
    made.push(made_now(histories, trace, place))?;
    Ok(())
}

/// The point that takes by the step at a place; `None` where none does.
pub(crate) fn taker_at(histories: &[History], born: u32, trace: &Trace, place: u32) -> Option<Point>
    requires well_formed { WellFormed trace.now.run }
    requires place { place < len trace.now.run }
    requires histories { Lists (all_born trace.now.run) (TellsHistory trace.now.run place) histories.now }
    requires born { born ≡ numbering.born trace.now.run place }
    ensures { TellsTaker trace.now.run place result }
{
    let Some(step) = trace.step(place) else {
        return None;
    };
    let Some(who) = step.actor() else {
        return None;
    };
    let own = point_of(who, &histories[who as usize]);
    taker(step, own, born)
}

/// Puts the last place at which the point, if there is one, takes; the place before comes back.
fn put_latest(
    latest: &mut HashMap<Point, u32>,
    taker: Option<Point>,
    place: u32,
) -> Result<Option<u32>, AllocError>
    ensures before { IfOk result (λ o. o ≡ latest_for (get same_point latest.old) taker) }
    ensures puts { OnOk result ((p : Point) → get same_point latest.new p ≡ latest_after (get same_point latest.old) taker place p) }
{
    match taker {
        Some(point) => Ok(latest.insert(point, place)?),
        None => Ok(None),
    }
}

/// Notes which point takes by the step.
pub(crate) fn note_takes(
    latest: &mut HashMap<Point, u32>,
    earlier: &mut Vec<Option<u32>>,
    taker: Option<Point>,
    trace: &Trace,
    place: u32,
) -> Result<(), AllocError>
    requires taker { TellsTaker trace.now.run place taker }
    requires latest { TellsLatest trace.now.run place (get same_point latest.old) }
    requires earlier { Lists place (TellsEarlier trace.now.run) earlier.old.items }
    ensures latest { OnOk result (TellsLatest trace.now.run (place + 1) (get same_point latest.new)) }
    ensures earlier { OnOk result (Lists (place + 1) (TellsEarlier trace.now.run) earlier.new.items) }
{
    let before = put_latest(latest, taker, place)?;
    earlier.push(before)?;
    Ok(())
}

/// Notes the point, if there is one, that takes by the step.
pub(crate) fn note_taker(
    takers: &mut Vec<Option<Point>>,
    taker: Option<Point>,
    trace: &Trace,
    place: u32,
) -> Result<(), AllocError>
    requires taker { TellsTaker trace.now.run place taker }
    requires told { Lists place (TellsTaker trace.now.run) takers.old.items }
    ensures { OnOk result (Lists (place + 1) (TellsTaker trace.now.run) takers.new.items) }
{
    takers.push(taker)?;
    Ok(())
}

/// Notes where the transactor that the step makes, if it makes one, was made.
pub(crate) fn note_birth(
    births: &mut Vec<Option<u32>>,
    trace: &Trace,
    place: u32,
) -> Result<(), AllocError>
    requires { Lists (numbering.born trace.now.run place) (IsBirth trace.now.run) births.old.items }
    ensures { OnOk result (Lists (numbering.born trace.now.run (place + 1)) (IsBirth trace.now.run) births.new.items) }
{
    if is_new_at(trace, place) {
        births.push(Some(place))?;
    }
    Ok(())
}

/// Whether the step at a place is a New.
fn is_new_at(trace: &Trace, place: u32) -> bool
    ensures { result ≡ option_map_or is_new (step_at trace.now.run place) false }
{
    match trace.step(place) {
        Some(Step::New { .. }) => true,
        _ => false,
    }
}

/// How many transactors exist after the step, by how many there were before it.
pub(crate) fn born_after(born: u32, trace: &Trace, place: u32) -> u32
    requires well_formed { WellFormed trace.now.run }
    requires place { place < len trace.now.run }
    requires born { born ≡ numbering.born trace.now.run place }
    ensures { result ≡ numbering.born trace.now.run (place + 1) }
{
    if is_new_at(trace, place) {
        born + 1
    } else {
        born
    }
}
