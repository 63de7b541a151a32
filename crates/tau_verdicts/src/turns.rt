//! What is noted where a point takes what a turn carries.
ghost use Rattle.std.specs.Prelude.{◌≡◌, ◌<◌, true, IsTrue, IfOk, OnOk, Some, None, slice_get};
ghost use Rattle.tau_trace.specs.Run.{len, appended};
ghost use Rattle.tau_trace.specs.Numbering.{born};
ghost use Rattle.tau_trace.specs.Points.{point_at};
ghost use Rattle.tau_trace.specs.Steps.{actor, is_new};
ghost use Rattle.tau_trace.specs.Known.{MayFollow};
ghost use Rattle.tau_past.specs.Carried.{is_set};
ghost use Rattle.tau_versions.specs.Search.Searching.{takes_of};
ghost use Rattle.tau_heard.specs.declared.own.Own.{Own};
ghost use Rattle.tau_heard.specs.Hears.{Knows};
ghost use Rattle.tau_heard.specs.Turns.{taken_along};
ghost use Rattle.tau_verdicts.specs.Doomed.{flag_of, takers_of};
ghost use Rattle.tau_verdicts.specs.Kept.{KnowsMarked, LeadsNoted};
ghost use Rattle.tau_verdicts.specs.Latest.{latest};
ghost use Rattle.tau_verdicts.specs.Noting.{AreListed, MayTake, AreNew};

use crate::latest::taken_now;
use crate::marked::MarkedHearing;
use crate::noting::note_all;
use std::alloc::{AllocError, Global};
use tau_heard::Own;
use tau_points::Point;
use tau_trace::{Step, Trace};
use tau_versions::logs::Log;
use tau_versions::roots::fresh;

impl MarkedHearing {
    /// Notes what the own point of a turn takes by a Set. The error is want of memory.
    pub(crate) fn note_set(
        &mut self,
        alloc: Global,
        trace: &Trace,
        step: &Step,
        who: u32,
    ) -> Result<(), AllocError>
        requires knows { KnowsMarked self.old trace.now.run }
        requires follows { MayFollow trace.now.run step.now }
        requires kind { IsTrue (is_set step.now) }
        requires by { actor step.now ≡ Some who }
        requires exists { who < born trace.now.run (len trace.now.run) }
        ensures knows { KnowsMarked self.new trace.now.run }
        ensures ok { OnOk result (LeadsNoted self.new None (appended trace.now.run step.now)) }
    {
        // Its contract says that the trace is well-formed.
        let _steps = trace.len();
        let me = self.hearing.point_of(trace, who);
        let points = self.new_takes(alloc, trace, who, me)?;
        if self.note_points(alloc, trace, me, &points)? {
            return Ok(());
        }
        self.doom(alloc, trace, who)?;
        Ok(())
    }

    /// Notes what the first point of a created transactor takes by a New. The error is want of memory.
    pub(crate) fn note_new(
        &mut self,
        alloc: Global,
        trace: &Trace,
        step: &Step,
        who: u32,
    ) -> Result<(), AllocError>
        requires knows { KnowsMarked self.old trace.now.run }
        requires follows { MayFollow trace.now.run step.now }
        requires kind { IsTrue (is_new step.now) }
        requires by { actor step.now ≡ Some who }
        requires exists { who < born trace.now.run (len trace.now.run) }
        ensures knows { KnowsMarked self.new trace.now.run }
        ensures ok { OnOk result (LeadsNoted self.new None (appended trace.now.run step.now)) }
    {
        // Its contract says that the trace is well-formed.
        let _steps = trace.len();
        let me = self.hearing.point_of(trace, who);
        let points = along(alloc, self.hearing.kept_of(trace, who), me)?;
        let Ok(born) = u32::try_from(self.hearing.logs.len()) else {
            return Err(AllocError);
        };
        let first = Point {
            who: born,
            interval: 0,
            incarnation: 0,
        };
        if self.note_points(alloc, trace, first, &points)? {
            return Ok(());
        }
        self.doom(alloc, trace, born)?;
        Ok(())
    }

    /// Notes that a point takes these: true where each of them is closed, or is the present point of a transactor and not
    /// doomed. The error is want of memory.
    fn note_points(
        &mut self,
        alloc: Global,
        trace: &Trace,
        taker: Point,
        points: &[Point],
    ) -> Result<bool, AllocError>
        requires knows { KnowsMarked self.old trace.now.run }
        requires may { MayTake trace.now.run taker }
        ensures knows { KnowsMarked self.new trace.now.run }
        ensures hearing { self.new.hearing ≡ self.old.hearing }
        ensures listed { IfOk result (λ b. (b ≡ true) → AreListed self.new.hearing.logs.items (takers_of self.new.takers.items) taker points.now) }
    {
        // Its contract says that the trace is well-formed.
        let _steps = trace.len();
        let noted = note_all(
            &mut self.takers,
            alloc,
            &self.hearing.logs,
            &self.doomed,
            taker,
            points,
        )?;
        Ok(noted)
    }

    /// What the own point of a turn takes by a Set and hasn't taken before; some that it has may stand among it. The error is want of
    /// memory.
    fn new_takes(
        &self,
        alloc: Global,
        trace: &Trace,
        who: u32,
        me: Point,
    ) -> Result<Vec<Point>, AllocError>
        requires knows { Knows self.now.hearing trace.now.run }
        requires exists { who < born trace.now.run (len trace.now.run) }
        ensures { IfOk result (λ v. (x : Own) → slice_get self.now.hearing.own.items who ≡ Some x → AreNew x me (takes_of self.now.hearing.logs.items (latest self.now.hearing.logs.items) who) v.items) }
    {
        let own = self.hearing.kept_of(trace, who);
        new_takes_of(alloc, &self.hearing.logs, who, own, me)
    }
}

/// The same by what is kept of the transactor.
fn new_takes_of(
    alloc: Global,
    logs: &[Log],
    who: u32,
    own: &Own,
    me: Point,
) -> Result<Vec<Point>, AllocError>
    ensures { IfOk result (λ v. AreNew own.now me (takes_of logs.now (latest logs.now) who) v.items) }
{
    if own.depended {
        return Ok(Vec::new(alloc));
    }
    let points = fresh(alloc, &own.roots, me, taken_now(logs, who), logs.len())?;
    Ok(points)
}

/// What a turn takes along, by its own point. The error is want of memory.
fn along(alloc: Global, own: &Own, me: Point) -> Result<Vec<Point>, AllocError>
    ensures { IfOk result (λ v. v.items ≡ taken_along own.now.touched own.now.depended me own.now.roots) }
{
    if own.depended {
        let points = Vec::from_slice(alloc, &[me])?;
        return Ok(points);
    }
    let mut points = own.roots.to_vec(alloc)?;
    if own.touched {
        points.push(me)?;
    }
    Ok(points)
}
