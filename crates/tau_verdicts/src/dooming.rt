//! Present points that become doomed.
ghost use Rattle.std.specs.Prelude.{◌≡◌, ◌<◌, ◌≤◌, ◌-◌, IsTrue, IfOk, OnOk, Some, length, slice_get};
ghost use Rattle.tau_versions.specs.declared.logs.version.Version.{Version};
ghost use Rattle.tau_trace.specs.Run.{len, appended};
ghost use Rattle.tau_trace.specs.Numbering.{born};
ghost use Rattle.tau_trace.specs.Histories.{history};
ghost use Rattle.tau_trace.specs.Known.{MayFollow};
ghost use Rattle.tau_heard.specs.Hears.{Knows};
ghost use Rattle.tau_verdicts.specs.Doomed.{flag_of};
ghost use Rattle.tau_verdicts.specs.Freedom.{LeavesAtMost};
ghost use Rattle.tau_verdicts.specs.Kept.{KnowsMarked, LeadsNoted};
ghost use Rattle.tau_verdicts.specs.Kinds.{faller};

use crate::kinds::falls_if_volatile;
use crate::marked::MarkedHearing;
use crate::noting::flag;
use crate::spreading::doomed_from;
use std::alloc::{AllocError, Global};
use tau_trace::{Step, Trace};
use tau_versions::logs::Log;

impl MarkedHearing {
    /// Dooms the present point of a transactor, or the first point of the one that comes next, and all that have taken it, and so on.
    /// The error is want of memory.
    pub(crate) fn doom(&mut self, alloc: Global, trace: &Trace, who: u32) -> Result<(), AllocError>
        requires knows { KnowsMarked self.old trace.now.run }
        requires few { who ≤ born trace.now.run (len trace.now.run) }
        ensures knows { KnowsMarked self.new trace.now.run }
        ensures hearing { self.new.hearing ≡ self.old.hearing }
        ensures ok { OnOk result (IsTrue (flag_of self.new.doomed.items who)) }
    {
        // Its contract says that the trace is well-formed.
        let _steps = trace.len();
        if flag(&self.doomed, who) {
            return Ok(());
        }
        let doomed = doomed_from(alloc, &self.hearing.logs, &self.takers, &self.doomed, who)?;
        self.doomed = doomed;
        Ok(())
    }

    /// Dooms what a falling step does. The transactor that leaves its point by it; the error is want of memory.
    pub(crate) fn note_fall(
        &mut self,
        alloc: Global,
        trace: &Trace,
        step: &Step,
        who: u32,
    ) -> Result<Option<u32>, AllocError>
        requires knows { KnowsMarked self.old trace.now.run }
        requires follows { MayFollow trace.now.run step.now }
        requires by { Some who ≡ faller step.now }
        ensures knows { KnowsMarked self.new trace.now.run }
        ensures ok { IfOk result (λ l. LeadsNoted self.new l (appended trace.now.run step.now)) }
        ensures leaves { IfOk result (λ l. LeavesAtMost trace.now.run step.now l) }
    {
        if falls_if_volatile(step) && self.is_stable(trace, who) {
            return Ok(None);
        }
        self.doom(alloc, trace, who)?;
        Ok(Some(who))
    }

    /// Whether a transactor that exists is stable.
    fn is_stable(&self, trace: &Trace, who: u32) -> bool
        requires knows { Knows self.now.hearing trace.now.run }
        ensures { who < born trace.now.run (len trace.now.run) → result ≡ (history trace.now.run who (len trace.now.run)).stable }
    {
        match self.hearing.log(who) {
            Some(log) => is_last_stable(log),
            None => false,
        }
    }
}

/// Whether the last version of a log is stable.
fn is_last_stable(log: &Log) -> bool
    ensures { (v : Version) → slice_get log.now.versions (length log.now.versions - 1) ≡ Some v → result ≡ v.stable }
{
    match log.version(log.len().saturating_sub(1)) {
        Some(version) => version.stable,
        None => false,
    }
}
