//! Jobs that were the record of a turn.
ghost use Rattle.std.specs.Prelude.{◌↔◌, Some, IsTrue};
ghost use Rattle.tau_trace.specs.Run.{len};
ghost use Rattle.tau_trace.specs.Turns.{IsOpenTurn};
ghost use Rattle.tau_rules.specs.Answers.{IsOpenJob};
ghost use Rattle.tau_rules.specs.KnownJobs.{WasOpenJob, IsAt};

use crate::System;
use tau_eval::Pending;
use tau_knowledge::Knowledge;
use tau_trace::Trace;

impl<'p, K: Knowledge + Drop> System<'p, K> {
    /// Whether a job that was the record of an open turn at some moment of the run is it still. Nothing is compared but the numbers of
    /// replies, so it takes the same time however large they are.
    pub fn is_open_still(&self, pending: &Pending<'p>) -> bool
        requires known { WasOpenJob self.now.program self.now.run pending.now }
        ensures { IsTrue result ↔ IsOpenJob self.now.program self.now.run pending.now }
    {
        // Its contract says that the run is well formed.
        let _trace = self.trace();
        self.is_at(pending)
    }

    /// Whether the turn from the job's place is open, and has so many replies as the job.
    fn is_at(&self, pending: &Pending<'p>) -> bool
        ensures { IsTrue result ↔ IsAt self.now.program self.now.run pending.now }
    {
        let who = pending.who();
        let turn = pending.turn();
        if !has_open_turn(&self.trace, who, turn) {
            return false;
        }
        let own = &self.records[who as usize];
        own.replies.len() == pending.replies_len()
    }
}

/// Whether the turn of a transactor from a place is open.
fn has_open_turn(trace: &Trace, who: u32, place: u32) -> bool
    ensures { IsTrue result ↔ IsOpenTurn trace.now.run who (len trace.now.run) (Some place) }
{
    match trace.open_turn(who) {
        Some(turn) => turn == place,
        None => false,
    }
}
