//! Verdicts and freedom.
ghost use Rattle.std.specs.Prelude.{◌<◌, ◌↔◌, IsTrue, IfOk, Contains};
ghost use Rattle.tau_trace.specs.Run.{len};
ghost use Rattle.tau_trace.specs.Numbering.{born, InFlight};
ghost use Rattle.tau_past.specs.Safety.{KeepsRules};
ghost use Rattle.tau_past.specs.Decisions.{Verdict, Free};
ghost use Rattle.tau_knowledge.specs.Knowing.{judged};
ghost use Rattle.tau_versions.specs.Search.Searching.{Finds, FoundNone, is_fallen};
ghost use Rattle.tau_heard.specs.Hears.{Knows};

use crate::heard::heard_by;
use crate::hearing::Hearing;
use std::alloc::{AllocError, Global};
use tau_knowledge::Receipt;
use tau_trace::Trace;
use tau_versions::logs::Log;
use tau_versions::roots::Roots;
use tau_versions::search::{HeardVersions, Search, Together, finds_not_firm};

impl Hearing {
    /// What becomes of a message in flight at its receipt by a transactor (docs/rules.md, "Verdict"). Without a falling step it
    /// is taken, and nothing is searched. The error is want of memory.
    pub fn judge(
        &self,
        alloc: Global,
        trace: &Trace,
        who: u32,
        message: u32,
    ) -> Result<Receipt, AllocError>
        requires knows { Knows self.now trace.now.run }
        requires rules { KeepsRules trace.now.run }
        requires exists { who < born trace.now.run (len trace.now.run) }
        requires in_flight { InFlight trace.now.run message (len trace.now.run) }
        ensures { IfOk result (λ r. Verdict trace.now.run who (len trace.now.run) message (judged r)) }
    {
        if self.falls == 0 {
            return Ok(Receipt::Take);
        }
        self.search_verdict(alloc, trace, who, message)
    }

    /// The same by a search from the own point, and then from what the message carries.
    fn search_verdict(
        &self,
        alloc: Global,
        trace: &Trace,
        who: u32,
        message: u32,
    ) -> Result<Receipt, AllocError>
        requires knows { Knows self.now trace.now.run }
        requires rules { KeepsRules trace.now.run }
        requires exists { who < born trace.now.run (len trace.now.run) }
        requires in_flight { InFlight trace.now.run message (len trace.now.run) }
        ensures { IfOk result (λ r. Verdict trace.now.run who (len trace.now.run) message (judged r)) }
    {
        // Its contract says that the trace is well-formed.
        let _steps = trace.len();
        let letter = self.letter_of(trace, message);
        let own = self.heard_of(trace, who);
        let heard = Together {
            own,
            message: heard_by(letter),
        };
        let me = self.point_of(trace, who);
        let mut search = Search::new(alloc, &self.logs)?;
        if search.finds_fallen(&self.logs, &heard, &[me])? {
            return Ok(Receipt::Fall);
        }
        if finds_fallen_root(&mut search, &self.logs, &heard, &letter.roots)? {
            return Ok(Receipt::Drop);
        }
        Ok(Receipt::Take)
    }

    /// Whether a transactor is free (docs/rules.md, "Free"). The error is want of memory.
    pub fn free(&self, alloc: Global, trace: &Trace, who: u32) -> Result<bool, AllocError>
        requires knows { Knows self.now trace.now.run }
        requires rules { KeepsRules trace.now.run }
        requires exists { who < born trace.now.run (len trace.now.run) }
        ensures { IfOk result (λ free. IsTrue free ↔ Free trace.now.run who (len trace.now.run)) }
    {
        // Its contract says that the trace is well-formed.
        let _steps = trace.len();
        let heard = self.heard_of(trace, who);
        let me = self.point_of(trace, who);
        let found = finds_not_firm(alloc, &self.logs, &heard, &[me])?;
        Ok(!found)
    }
}

/// Whether a search that has found nothing fallen so far finds it from these points. The error is want of memory.
fn finds_fallen_root<V: HeardVersions>(
    search: &mut Search,
    logs: &[Log],
    heard: &V,
    roots: &Roots,
) -> Result<bool, AllocError>
    requires { FoundNone is_fallen logs.now (V.numbers heard.now) search.old }
    ensures { IfOk result (λ b. IsTrue b ↔ Finds is_fallen logs.now (V.numbers heard.now) (Contains roots.now)) }
{
    let (many, one) = roots.parts();
    if search.finds_fallen(logs, heard, many)? {
        return Ok(true);
    }
    match one {
        Some(one) => search.finds_fallen(logs, heard, &[one]),
        None => Ok(false),
    }
}
