//! Rows of places: by the point that was touched last, and by the earlier place on which what is carried rests.
ghost use Rattle.std.specs.Prelude.{◌≡◌, ◌<◌, ◌+◌, ◌++◌, ℕ, List, length, IfOk, OnOk, Option, slice_get, Some};
ghost use Rattle.std.specs.HashMap.{get};
ghost use Rattle.tau_points.specs.declared.point.Point.{Point};
ghost use Rattle.tau_trace.specs.Run.{len};
ghost use Rattle.tau_past.specs.TableSteps.{latest_for, latest_after};
ghost use Rattle.tau_past.specs.Tables.{same_point};
ghost use Rattle.tau_explain.specs.Links.Inner.Rows.{IsRow, PutsResting, HasRows};

use std::alloc::{AllocError, Global};
use std::collections::HashMap;
use tau_past::Index;
use tau_points::Point;

/// For each point the places at which it is the last one touched, and for each place those that rest on it: the last of each
/// row, and for each place the one before it. Memory is linear in the trace.
#[derive(Drop)]
pub(crate) struct Rows {
    pub(crate) last_touching: HashMap<Point, u32>,
    pub(crate) earlier_touching: Vec<Option<u32>>,
    pub(crate) last_resting: Vec<Option<u32>>,
    pub(crate) earlier_resting: Vec<Option<u32>>,
}

/// Puts a place last into the row of the point, if there is one; the one that was last comes back.
fn put_touching(
    last: &mut HashMap<Point, u32>,
    touched: Option<Point>,
    place: u32,
) -> Result<Option<u32>, AllocError>
    ensures before { IfOk result (λ o. o ≡ latest_for (get same_point last.old) touched) }
    ensures puts { OnOk result ((p : Point) → get same_point last.new p ≡ latest_after (get same_point last.old) touched place p) }
{
    match touched {
        Some(point) => Ok(last.insert(point, place)?),
        None => Ok(None),
    }
}

/// Puts a place last into the row of the place on which it rests, if there is one; the one that was last comes back.
fn put_resting(last: &mut [Option<u32>], rest: Option<u32>, place: u32) -> Option<u32>
    requires { (i : ℕ) → rest ≡ Some i → i < length last.old }
    ensures { PutsResting rest place last.old last.new result }
{
    match rest {
        Some(rest) => {
            let before = last[rest as usize];
            last[rest as usize] = Some(place);
            before
        }
        None => None,
    }
}

/// Adds a place to the rows.
fn add(rows: &mut Rows, index: &Index, place: u32) -> Result<(), AllocError>
    requires place { place < len index.now }
    requires rows { HasRows index.now place (get same_point rows.old.last_touching) rows.old.earlier_touching.items rows.old.last_resting.items rows.old.earlier_resting.items }
    ensures { OnOk result (HasRows index.now (place + 1) (get same_point rows.new.last_touching) rows.new.earlier_touching.items rows.new.last_resting.items rows.new.earlier_resting.items) }
{
    let carrying = index.carried_at(place);
    let touching = put_touching(&mut rows.last_touching, carrying.touched, place)?;
    rows.earlier_touching.push(touching)?;
    let resting = put_resting(&mut rows.last_resting, carrying.rest, place);
    rows.earlier_resting.push(resting)?;
    rows.last_resting.push(None)?;
    Ok(())
}

impl Rows {
    /// The rows of all places of a trace.
    pub(crate) fn of(alloc: Global, index: &Index) -> Result<Rows, AllocError>
        ensures { IfOk result (λ r. HasRows index.now (len index.now) (get same_point r.last_touching) r.earlier_touching.items r.last_resting.items r.earlier_resting.items) }
    {
        let mut rows = Rows {
            last_touching: HashMap::new(alloc),
            earlier_touching: Vec::new(alloc),
            last_resting: Vec::new(alloc),
            earlier_resting: Vec::new(alloc),
        };
        for place in 0..index.len() {
            add(&mut rows, index, place)?;
        }
        Ok(rows)
    }
}

/// Adds the places of a row, from the one at hand on.
pub(crate) fn push_row(
    earlier: &[Option<u32>],
    last: Option<u32>,
    into: &mut Vec<u32>,
) -> Result<(), AllocError>
    requires { (places : List ℕ) × IsRow earlier.now last places }
    ensures { OnOk result ((places : List ℕ) → IsRow earlier.now last places → into.new.items ≡ into.old.items ++ places) }
{
    let mut next = last;
    while let Some(place) = next {
        into.push(place)?;
        next = earlier[place as usize];
    }
    Ok(())
}
