//! What a message or a created transactor takes along.
ghost use Rattle.std.specs.Prelude.{◌≡◌, ◌<◌, ◌≤◌, ◌-◌, ℕ, [], length, slice_get, Some, IfOk, false};
ghost use Rattle.tau_trace.specs.Run.{len, appended};
ghost use Rattle.tau_trace.specs.Points.{point_at};
ghost use Rattle.tau_trace.specs.Steps.{actor};
ghost use Rattle.tau_heard.specs.declared.own.Own.{Own};
ghost use Rattle.tau_heard.specs.Bounds.{last_number, AreRaised};
ghost use Rattle.tau_heard.specs.Facts.{TakesAlong};
ghost use Rattle.tau_heard.specs.Next.{IsNext};
ghost use Rattle.tau_heard.specs.Turns.{IsAlong};

use crate::hearing::Hearing;
use crate::own::Own;
use std::alloc::{AllocError, Global};
use tau_points::Point;
use tau_trace::{Step, Trace};
use tau_versions::numbers::Numbers;
use tau_versions::roots::Roots;

impl Hearing {
    /// The point of the transactor that makes a step.
    pub(crate) fn own_point(&self, trace: &Trace, step: &Step, who: u32) -> Point
        requires next { IsNext self.now trace.now.run step.now }
        requires by { actor step.now ≡ Some who }
        ensures { result ≡ point_at (appended trace.now.run step.now) who (len trace.now.run) }
    {
        let version = self.last_version(trace, step, who);
        Point {
            who,
            interval: version.interval,
            incarnation: version.incarnation,
        }
    }

    /// What is kept of the transactor that makes a step.
    pub(crate) fn own_of(&self, _trace: &Trace, _step: &Step, who: u32) -> &Own
        requires next { IsNext self.now _trace.now.run _step.now }
        requires by { actor _step.now ≡ Some who }
        ensures { slice_get self.now.own.items who ≡ Some result.now }
    {
        match self.own.get(who as usize) {
            Some(own) => own,
            None => unreachable!(),
        }
    }

    /// What the turn of the transactor that makes a step takes along. The error is want of memory.
    pub(crate) fn along(&self, trace: &Trace, step: &Step, who: u32) -> Result<Roots, AllocError>
        requires next { IsNext self.now trace.now.run step.now }
        requires by { actor step.now ≡ Some who }
        ensures { IfOk result (λ r. (x : Own) → slice_get self.now.own.items who ≡ Some x → TakesAlong (appended trace.now.run step.now) who (len trace.now.run) x r) }
    {
        let me = self.own_point(trace, step, who);
        let roots = along_of(self.alloc, self.own_of(trace, step, who), me)?;
        Ok(roots)
    }
}

/// What a turn takes along, by its own point. The error is want of memory.
fn along_of(alloc: Global, own: &Own, me: Point) -> Result<Roots, AllocError>
    ensures { IfOk result (λ r. IsAlong own.now.touched own.now.depended me own.now.roots r) }
{
    if own.depended {
        return Ok(Roots::from_point(me));
    }
    let along = with_own(alloc, &own.roots, own.touched, me)?;
    Ok(along)
}

/// The roots, and the own point where it is touched. The error is want of memory.
#[tactic(auto, using(crate::proofs::Turns::along_roots, crate::proofs::Turns::along_both))]
fn with_own(alloc: Global, roots: &Roots, touched: bool, me: Point) -> Result<Roots, AllocError>
    ensures { IfOk result (λ r. IsAlong touched false me roots.now r) }
{
    if !touched {
        let along = roots.share()?;
        return Ok(along);
    }
    if roots.contains(me) {
        let along = roots.share()?;
        return Ok(along);
    }
    let along = roots.with(alloc, me)?;
    Ok(along)
}

/// The numbers of a created transactor: those of its creator, with the creator's version. The error is want of memory.
pub(crate) fn inherited(
    alloc: Global,
    numbers: &[u32],
    who: u32,
    version: u32,
) -> Result<Numbers, AllocError>
    ensures { IfOk result (λ r. AreRaised numbers.now who version [] r.numbers) }
{
    let mut raised = Numbers::new(alloc);
    let count = numbers.len().max(who as usize + 1);
    raised.own(count)?;
    raised.raise(numbers);
    raised.raise_one(who, version);
    Ok(raised)
}
