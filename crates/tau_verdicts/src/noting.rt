//! What is noted where a point takes others.
ghost use Rattle.std.specs.Bool.{OnTrue};
ghost use Rattle.tau_points.specs.declared.point.Point.{Point};
ghost use Rattle.std.specs.Prelude.{◌≡◌, ◌≢◌, ◌⊎◌, ◌<◌, ◌≤◌, ◌++◌, ◌∷◌, [], ℕ, length, slice_get, Contains, IfOk, OnOk};
ghost use Rattle.tau_history.specs.declared.fate.Fate.TheVariants.{Closed};
ghost use Rattle.tau_verdicts.specs.Doomed.{flag_of, takers_of};
ghost use Rattle.tau_verdicts.specs.Noting.{IsWell, AreWell, IsListed, AreListed, AreAdded};

use crate::latest::fate_now;
use std::alloc::{AllocError, Global};
use tau_history::Fate;
use tau_points::Point;
use tau_versions::logs::Log;
use tau_versions::roots::Roots;
use tau_versions::search::goes_on;

/// The flag of a transactor.
pub(crate) fn flag(flags: &[bool], who: u32) -> bool
    ensures { result ≡ flag_of flags.now who }
{
    match flags.get(who as usize) {
        Some(flag) => *flag,
        None => false,
    }
}

/// Whether a point is closed, or the present point of a transactor and not doomed.
pub(crate) fn is_well(logs: &[Log], doomed: &[bool], point: Point) -> bool
    ensures { OnTrue result (IsWell logs.now (flag_of doomed.now) point) }
{
    match fate_now(logs, point) {
        Fate::Closed => true,
        Fate::Open => !flag(doomed, point.who),
        Fate::Stable => !flag(doomed, point.who),
        Fate::Ahead | Fate::Fallen => false,
    }
}

/// Whether each of these points is.
fn all_well(logs: &[Log], doomed: &[bool], points: &[Point]) -> bool
    ensures { OnTrue result (AreWell logs.now (flag_of doomed.now) points.now) }
{
    for point in points {
        if !is_well(logs, doomed, *point) {
            return false;
        }
    }
    true
}

/// Whether each of the points that a message carries is.
pub(crate) fn are_well(logs: &[Log], doomed: &[bool], roots: &Roots) -> bool
    ensures { OnTrue result (AreWell logs.now (flag_of doomed.now) roots.now) }
{
    let (many, one) = roots.parts();
    if !all_well(logs, doomed, many) {
        return false;
    }
    match one {
        Some(point) => is_well(logs, doomed, point),
        None => true,
    }
}

/// Notes that a point takes another one: true where the other one is closed, or is the present point of a transactor and not doomed,
/// to whose takers the first one comes. The error is want of memory.
fn note(
    takers: &mut Vec<Vec<Point>>,
    alloc: Global,
    logs: &[Log],
    doomed: &[bool],
    taker: Point,
    point: Point,
) -> Result<bool, AllocError>
    ensures added { AreAdded (flag_of doomed.now) taker (takers_of takers.old.items) (takers_of takers.new.items) }
    ensures listed { IfOk result (λ b. OnTrue b (IsListed logs.now (takers_of takers.new.items) taker point)) }
{
    let fate = fate_now(logs, point);
    if !goes_on(fate) {
        return Ok(is_closed(fate));
    }
    let listed = note_present(takers, alloc, doomed, taker, point.who)?;
    Ok(listed)
}

/// Whether it is the fate of a closed point.
fn is_closed(fate: Fate) -> bool
    ensures { OnTrue result (fate ≡ Closed) }
{
    matches!(fate, Fate::Closed)
}

/// Adds a point to the takers of the present point of a transactor, unless that is doomed: true where it isn't. The error is want of
/// memory.
fn note_present(
    takers: &mut Vec<Vec<Point>>,
    alloc: Global,
    doomed: &[bool],
    taker: Point,
    who: u32,
) -> Result<bool, AllocError>
    ensures added { AreAdded (flag_of doomed.now) taker (takers_of takers.old.items) (takers_of takers.new.items) }
    ensures listed { IfOk result (λ b. OnTrue b (Contains (takers_of takers.new.items who) taker)) }
{
    if flag(doomed, who) {
        return Ok(false);
    }
    add_taker(takers, alloc, who, taker)?;
    Ok(true)
}

/// The same of several points: true where it is of each of them.
pub(crate) fn note_all(
    takers: &mut Vec<Vec<Point>>,
    alloc: Global,
    logs: &[Log],
    doomed: &[bool],
    taker: Point,
    points: &[Point],
) -> Result<bool, AllocError>
    ensures added { AreAdded (flag_of doomed.now) taker (takers_of takers.old.items) (takers_of takers.new.items) }
    ensures listed { IfOk result (λ b. OnTrue b (AreListed logs.now (takers_of takers.new.items) taker points.now)) }
{
    for point in points {
        if !note(takers, alloc, logs, doomed, taker, *point)? {
            return Ok(false);
        }
    }
    Ok(true)
}

/// Adds a point to the takers of the present point of a transactor. The error is want of memory.
fn add_taker(
    takers: &mut Vec<Vec<Point>>,
    alloc: Global,
    who: u32,
    taker: Point,
) -> Result<(), AllocError>
    ensures others { (u : ℕ) → u ≢ who → takers_of takers.new.items u ≡ takers_of takers.old.items u }
    ensures kept { (q : Point) → Contains (takers_of takers.old.items who) q → Contains (takers_of takers.new.items who) q }
    ensures only { (q : Point) → Contains (takers_of takers.new.items who) q → Contains (takers_of takers.old.items who) q ⊎ (q ≡ taker) }
    ensures ok { OnOk result (Contains (takers_of takers.new.items who) taker) }
{
    grow(takers, alloc, who)?;
    push_at(takers, who, taker)?;
    Ok(())
}

/// Makes a list of takers for each transactor up to this one. The error is want of memory.
fn grow(takers: &mut Vec<Vec<Point>>, alloc: Global, who: u32) -> Result<(), AllocError>
    ensures same { (u : ℕ) → takers_of takers.new.items u ≡ takers_of takers.old.items u }
    ensures ok { OnOk result (who < length takers.new.items) }
{
    'more: while takers.len() <= who as usize {
        takers.push(Vec::new(alloc))?;
    }
    Ok(())
}

/// Adds a point to the list of a transactor. The error is want of memory.
fn push_at(takers: &mut Vec<Vec<Point>>, who: u32, taker: Point) -> Result<(), AllocError>
    requires { who < length takers.old.items }
    ensures others { (u : ℕ) → u ≢ who → slice_get takers.new.items u ≡ slice_get takers.old.items u }
    ensures kept { (takers_of takers.new.items who ≡ takers_of takers.old.items who) ⊎ (takers_of takers.new.items who ≡ takers_of takers.old.items who ++ taker ∷ []) }
    ensures ok { OnOk result (takers_of takers.new.items who ≡ takers_of takers.old.items who ++ taker ∷ []) }
{
    push(&mut takers[who as usize], taker)
}

/// Adds a point to a list. The error is want of memory, and the list stays then.
fn push(points: &mut Vec<Point>, point: Point) -> Result<(), AllocError>
    ensures kept { (points.new.items ≡ points.old.items) ⊎ (points.new.items ≡ points.old.items ++ point ∷ []) }
    ensures ok { OnOk result (points.new.items ≡ points.old.items ++ point ∷ []) }
{
    points.push(point)?;
    Ok(())
}
