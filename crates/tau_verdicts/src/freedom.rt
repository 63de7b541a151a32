//! Freedom that lasts.
ghost use Rattle.std.specs.Bool.{OnTrue};
ghost use Rattle.std.specs.Prelude.{◌≡◌, ◌⊎◌, ◌<◌, ◌↔◌, ◌∷◌, [], ℕ, IsTrue, IfOk, OnOk, Some, Contains, length, slice_get};
ghost use Rattle.tau_trace.specs.Run.{len};
ghost use Rattle.tau_trace.specs.Numbering.{born};
ghost use Rattle.tau_trace.specs.Known.{MayFollow};
ghost use Rattle.tau_past.specs.Decisions.{Free};
ghost use Rattle.tau_past.specs.Safety.{KeepsRules};
ghost use Rattle.tau_versions.specs.Search.Numbered.{with_version};
ghost use Rattle.tau_versions.specs.Search.Searching.{Finds, is_not_firm};
ghost use Rattle.tau_heard.specs.Hears.{Knows};
ghost use Rattle.tau_verdicts.specs.Doomed.{flag_of};
ghost use Rattle.tau_verdicts.specs.Freedom.{IsFree};
ghost use Rattle.tau_verdicts.specs.Kept.{KnowsMarked};
ghost use Rattle.tau_verdicts.specs.Kinds.{free_asker};
ghost use Rattle.tau_verdicts.specs.Latest.{latest};

use crate::kinds::free_asker;
use crate::latest::Latest;
use crate::marked::MarkedHearing;
use crate::noting::flag;
use std::alloc::{AllocError, Global};
use tau_heard::Own;
use tau_points::Point;
use tau_trace::{Step, Trace};
use tau_versions::logs::Log;
use tau_versions::search::{HeardVersions, Numbered, finds_not_firm};

impl MarkedHearing {
    /// Whether a transactor is free (docs/rules.md, "Free"): without a search where it was found so at its present point. The error is
    /// want of memory.
    pub fn free(&self, alloc: Global, trace: &Trace, who: u32) -> Result<bool, AllocError>
        requires knows { KnowsMarked self.now trace.now.run }
        requires rules { KeepsRules trace.now.run }
        requires exists { who < born trace.now.run (len trace.now.run) }
        ensures { IfOk result (λ free. IsTrue free ↔ Free trace.now.run who (len trace.now.run)) }
    {
        // Its contract says that the trace is well-formed.
        let _steps = trace.len();
        if flag(&self.free, who) {
            return Ok(true);
        }
        self.hearing.free(alloc, trace, who)
    }

    /// Keeps that a transactor is free, where it asks whether it depends on anything that isn't firm, and is told that it doesn't. The
    /// error is want of memory.
    pub(crate) fn note_freedom(
        &mut self,
        alloc: Global,
        trace: &Trace,
        step: &Step,
    ) -> Result<(), AllocError>
        requires knows { KnowsMarked self.old trace.now.run }
        requires follows { MayFollow trace.now.run step.now }
        ensures knows { KnowsMarked self.new trace.now.run }
    {
        let Some(who) = free_asker(step) else {
            return Ok(());
        };
        if flag(&self.free, who) {
            return Ok(());
        }
        self.note_asker(alloc, trace, step, who)
    }

    /// The same of the transactor that asks.
    fn note_asker(
        &mut self,
        alloc: Global,
        trace: &Trace,
        _step: &Step,
        who: u32,
    ) -> Result<(), AllocError>
        requires knows { KnowsMarked self.old trace.now.run }
        requires follows { MayFollow trace.now.run _step.now }
        requires by { Some who ≡ free_asker _step.now }
        ensures knows { KnowsMarked self.new trace.now.run }
    {
        if !self.is_found_free(alloc, trace, who)? {
            return Ok(());
        }
        raise(&mut self.free, who)
    }

    /// Whether a search finds that a transactor is free. The error is want of memory.
    fn is_found_free(&self, alloc: Global, trace: &Trace, who: u32) -> Result<bool, AllocError>
        requires knows { Knows self.now.hearing trace.now.run }
        requires exists { who < born trace.now.run (len trace.now.run) }
        ensures { IfOk result (λ b. OnTrue b (IsFree trace.now.run who)) }
    {
        // Its contract says that the trace is well-formed.
        let _steps = trace.len();
        let me = self.hearing.point_of(trace, who);
        let own = self.hearing.kept_of(trace, who);
        let found = finds(alloc, &self.hearing.logs, own, me)?;
        Ok(!found)
    }
}

/// Whether the search from the own point of a transactor, by what it has heard, comes to a point that isn't firm. The error is want of
/// memory.
fn finds(alloc: Global, logs: &[Log], own: &Own, me: Point) -> Result<bool, AllocError>
    ensures { IfOk result (λ b. IsTrue b ↔ Finds is_not_firm logs.now (with_version me.who (latest logs.now me.who) own.now.numbers.numbers) (Contains (me ∷ []))) }
{
    let latest = Latest { logs };
    let heard = Numbered {
        who: me.who,
        version: latest.number(me.who),
        numbers: own.numbers.items(),
    };
    finds_not_firm(alloc, logs, &heard, &[me])
}

/// Raises the flag of a transactor. The error is want of memory.
fn raise(flags: &mut Vec<bool>, who: u32) -> Result<(), AllocError>
    ensures { (u : ℕ) → IsTrue (flag_of flags.new.items u) → (u ≡ who) ⊎ IsTrue (flag_of flags.old.items u) }
{
    make_place(flags, who)?;
    raise_at(flags, who);
    Ok(())
}

/// Makes a place for the flag of a transactor. The error is want of memory.
fn make_place(flags: &mut Vec<bool>, who: u32) -> Result<(), AllocError>
    ensures same { (u : ℕ) → flag_of flags.new.items u ≡ flag_of flags.old.items u }
{
    'more: while flags.len() <= who as usize {
        flags.push(false)?;
    }
    Ok(())
}

/// Raises the flag of a transactor, where there is a place for it.
fn raise_at(flags: &mut Vec<bool>, who: u32)
    ensures { (u : ℕ) → IsTrue (flag_of flags.new.items u) → (u ≡ who) ⊎ IsTrue (flag_of flags.old.items u) }
{
    if (who as usize) < flags.len() {
        flags[who as usize] = true;
    }
}
