//! What was heard as what a system knows of its run.

use crate::change::HearingChange;
use crate::hearing::Hearing;
use std::alloc::{AllocError, Global};
use tau_knowledge::{Knowledge, Receipt};
use tau_trace::{Step, Trace};

impl Knowledge for Hearing {
    ghost use Rattle.tau_heard.specs.Hears.{Knows};
    ghost use Rattle.tau_heard.specs.After.{Leads};

    type Change = HearingChange;

    ghost knows = { Knows };

    ghost leads = { Leads };

    fn open(alloc: Global, starts: usize, posts: usize) -> Result<Hearing, AllocError> {
        Hearing::begin(alloc, starts, posts)
    }

    fn prepare(
        &mut self,
        _alloc: Global,
        trace: &Trace,
        step: &Step,
    ) -> Result<HearingChange, AllocError> {
        self.prepare_change(trace, step)
    }

    fn apply(&mut self, change: HearingChange) {
        self.change(change);
    }

    fn verdict(
        &self,
        alloc: Global,
        trace: &Trace,
        who: u32,
        message: u32,
    ) -> Result<Receipt, AllocError> {
        self.judge(alloc, trace, who, message)
    }

    fn is_free(&self, alloc: Global, trace: &Trace, who: u32) -> Result<bool, AllocError> {
        self.free(alloc, trace, who)
    }
}
