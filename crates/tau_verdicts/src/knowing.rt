//! What was heard, with marks, as what a system knows of its run.

use crate::change::MarkedChange;
use crate::marked::MarkedHearing;
use std::alloc::{AllocError, Global};
use tau_knowledge::{Knowledge, Receipt};
use tau_trace::{Step, Trace};

impl Knowledge for MarkedHearing {
    ghost use Rattle.tau_verdicts.specs.Kept.{KnowsMarked, LeadsMarked};

    type Change = MarkedChange;

    ghost knows = { KnowsMarked };

    ghost leads = { LeadsMarked };

    fn open(alloc: Global, starts: usize, posts: usize) -> Result<MarkedHearing, AllocError> {
        MarkedHearing::begin(alloc, starts, posts)
    }

    fn prepare(
        &mut self,
        alloc: Global,
        trace: &Trace,
        step: &Step,
    ) -> Result<MarkedChange, AllocError> {
        self.prepare_change(alloc, trace, step)
    }

    fn apply(&mut self, change: MarkedChange) {
        self.change(change);
    }

    fn verdict(
        &self,
        alloc: Global,
        trace: &Trace,
        who: u32,
        message: u32,
    ) -> Result<Receipt, AllocError> {
        self.judge(alloc, trace, who, message)
    }

    fn is_free(&self, alloc: Global, trace: &Trace, who: u32) -> Result<bool, AllocError> {
        self.free(alloc, trace, who)
    }
}
