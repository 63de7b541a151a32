//! How a doomed point dooms those that have taken it.
ghost use Rattle.std.specs.Bool.{OnTrue};
ghost use Rattle.std.specs.Prelude.{◌≡◌, ◌<◌, ◌≤◌, ◌+◌, ℕ, [], true, length, slice_get, Some, Contains, IfOk, OnOk};
ghost use Rattle.tau_past.specs.Pasts.{Is};
ghost use Rattle.tau_versions.specs.Search.Walks.{Meets};
ghost use Rattle.tau_verdicts.specs.Doomed.{flag_of, takers_of};
ghost use Rattle.tau_verdicts.specs.Spreading.{IsLeft, IsSpread, Comes, Spreads};

use crate::latest::fate_now;
use std::alloc::{AllocError, Global};
use tau_points::Point;
use tau_versions::logs::Log;
use tau_versions::search::goes_on;

/// Which transactors have a doomed point, and those of them whose takers have yet to be doomed.
#[derive(Drop)]
pub(crate) struct Spread {
    pub(crate) doomed: Vec<bool>,
    pub(crate) left: Vec<u32>,
}

/// Who has a doomed point where the present one of a transactor is doomed too, and so each present point that has taken a doomed
/// one. The error is want of memory.
pub(crate) fn doomed_from(
    alloc: Global,
    logs: &[Log],
    takers: &[Vec<Point>],
    doomed: &[bool],
    who: u32,
) -> Result<Vec<bool>, AllocError>
    requires { who ≤ length logs.now }
    ensures { IfOk result (λ v. IsSpread logs.now (takers_of takers.now) who (flag_of doomed.now) (flag_of v.items)) }
{
    let mut spread = Spread {
        doomed: copied(alloc, logs, doomed)?,
        left: Vec::new(alloc),
    };
    spread.spread_from(logs, takers, who)?;
    Ok(spread.into_doomed())
}

/// A copy with a place for each transactor and for the one that comes next. The error is want of memory.
fn copied(alloc: Global, logs: &[Log], doomed: &[bool]) -> Result<Vec<bool>, AllocError>
    ensures same { IfOk result (λ v. (u : ℕ) → flag_of v.items u ≡ flag_of doomed.now u) }
    ensures count { IfOk result (λ v. length logs.now + 1 ≤ length v.items) }
{
    let Some(count) = logs.len().checked_add(1) else {
        return Err(AllocError);
    };
    let mut copy = Vec::from_slice(alloc, doomed)?;
    if copy.len() < count {
        copy.resize(count, false)?;
    }
    Ok(copy)
}

impl Spread {
    /// Those who have a doomed point.
    fn into_doomed(self) -> Vec<bool>
        ensures { result.items ≡ self.doomed.items }
    {
        let Spread {
            doomed,
            left: _left,
        } = self;
        doomed
    }

    /// Dooms the point of a transactor, if it isn't doomed.
    fn meet(&mut self, who: u32) -> Result<(), AllocError>
        requires { who < length self.old.doomed.items }
        ensures { OnOk result (Meets who self.old.doomed.items self.new.doomed.items self.old.left.items self.new.left.items) }
    {
        let place = who as usize;
        if !self.doomed[place] {
            self.doomed[place] = true;
            self.left.push(who)?;
        }
        Ok(())
    }

    /// Dooms a point, if it is the present one of its transactor.
    fn come_to(&mut self, logs: &[Log], point: Point) -> Result<(), AllocError>
        ensures { OnOk result (Comes logs.now (Is point) self.old.doomed.items self.new.doomed.items self.old.left.items self.new.left.items) }
    {
        if (point.who as usize) >= self.doomed.len() {
            return Ok(());
        }
        if is_left(logs, point) {
            return Ok(());
        }
        self.meet(point.who)?;
        Ok(())
    }

    /// Dooms those of these points that are the present ones of their transactors.
    fn come_to_all(&mut self, logs: &[Log], points: &[Point]) -> Result<(), AllocError>
        ensures { OnOk result (Comes logs.now (Contains points.now) self.old.doomed.items self.new.doomed.items self.old.left.items self.new.left.items) }
    {
        for point in points {
            self.come_to(logs, *point)?;
        }
        Ok(())
    }

    /// Dooms the point of a transactor, those that have taken it, and so on.
    fn spread_from(
        &mut self,
        logs: &[Log],
        takers: &[Vec<Point>],
        who: u32,
    ) -> Result<(), AllocError>
        requires { who < length self.old.doomed.items }
        ensures { OnOk result (Spreads logs.now (takers_of takers.now) who self.old.doomed.items self.new.doomed.items []) }
    {
        self.left.clear();
        self.meet(who)?;
        'walk: while let Some(next) = self.left.pop() {
            self.come_to_all(logs, takers_at(takers, next))?;
        }
        Ok(())
    }
}

/// The takers of the present point of a transactor.
fn takers_at(takers: &[Vec<Point>], who: u32) -> &[Point]
    ensures { result.now ≡ takers_of takers.now who }
{
    match takers.get(who as usize) {
        Some(points) => points,
        None => &[],
    }
}

/// Whether a point isn't the last one of its transactor, which exists.
fn is_left(logs: &[Log], point: Point) -> bool
    ensures { OnTrue result (IsLeft logs.now point) }
{
    if goes_on(fate_now(logs, point)) {
        return false;
    }
    if (point.who as usize) >= logs.len() {
        return false;
    }
    true
}
