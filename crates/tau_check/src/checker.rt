//! The checker.
ghost use Rattle.std.specs.Prelude.{◌≡◌, ◌<◌, ◌↔◌, [], Some, None, IfOk, IsTrue};
ghost use Rattle.tau_tree.specs.Sound.{Sound};
ghost use Rattle.tau_trace.specs.Run.{len};
ghost use Rattle.tau_trace.specs.Known.{MayFollow};
ghost use Rattle.tau_trace.specs.Numbering.{sent};
ghost use Rattle.tau_script.specs.Cursors.{CursorAt};
ghost use Rattle.tau_script.specs.Openings.{program_opening};
ghost use Rattle.tau_legal.specs.Traces.{Complete};
ghost use Rattle.tau_rules.specs.Answers.{IsOpenJob};
ghost use Rattle.tau_failures.specs.Dues.{step_of};
ghost use Rattle.tau_trace.specs.Steps.{received_by as received_message};
ghost use Rattle.tau_check.specs.Families.{turn_of as acting};
ghost use Rattle.tau_check.specs.Inner.Jobs.{HasJobs, HasOtherJobs};
ghost use Rattle.tau_check.specs.Inner.Checkers.{IsChecker, HasAsked, IsChecked};

use crate::ends::nothing_left;
use crate::families::{received_by, turn_of};
use crate::jobs::{keep_after, keep_begun, take_job};
use crate::reading::{has_made, length, open_turn};
use crate::same::same_step;
use std::alloc::{AllocError, Global};
use tau_eval::{Job, Pending};
use tau_failures::{Due, LegalSystem};
use tau_rules::DeliverError;
use tau_trace::Step;
use tau_tree::Program;
use tau_verdicts::MarkedHearing;

/// The system of the steps before a place, and the jobs of the open turns, each at the place of its transactor.
#[derive(Drop)]
pub(crate) struct Checker<'p> {
    legal: LegalSystem<'p, MarkedHearing>,
    jobs: Vec<Option<Job<'p>>>,
}

impl<'p> Checker<'p> {
    /// The checker before the first step.
    pub(crate) fn open(alloc: Global, program: &'p Program) -> Result<Checker<'p>, AllocError>
        requires { Sound program.now }
        ensures program { IfOk result (λ c. c.legal.system.program ≡ program.entry.now) }
        ensures run { IfOk result (λ c. c.legal.system.run ≡ record { opening = program_opening program.entry.now; steps = [] }) }
    {
        Ok(Checker {
            legal: LegalSystem::open(alloc, program)?,
            jobs: Vec::new(alloc),
        })
    }

    /// Whether a step is legal after the steps before it. If it is, it is appended.
    pub(crate) fn step(&mut self, step: &Step) -> Result<bool, AllocError>
        requires checker { IsChecker self.old.legal.system.program self.old.legal.system.run self.old.jobs.items }
        requires follows { MayFollow self.old.legal.system.run step.now }
        ensures { IfOk result (IsChecked self.old.legal.system self.new.legal.system self.new.jobs.items step.now) }
    {
        match self.legal.due() {
            Some(due) => self.check_due(due, step),
            None => self.check_other(step),
        }
    }

    /// Whether the run is complete (docs/definitions.md, "Complete").
    pub(crate) fn is_complete(&self) -> bool
        ensures { IsTrue result ↔ Complete self.now.legal.system.program self.now.legal.system.run }
    {
        let nothing_left = nothing_left(self.legal.trace());
        self.legal.is_complete(nothing_left)
    }

    /// The system.
    pub(crate) fn into_system(self) -> LegalSystem<'p, MarkedHearing>
        ensures system { result ≡ self.entry.legal }
        ensures cursor { CursorAt self.entry.legal.system.program.script self.entry.legal.system.run (len self.entry.legal.system.run) result.cursor }
    {
        // Its contract says that the cursor is the script's.
        let _system = self.legal.system();
        self.legal
    }

    /// Whether a step is legal where another one, or it, is due.
    fn check_due(&mut self, due: Due, step: &Step) -> Result<bool, AllocError>
        requires asked { HasAsked self.old.legal.system.program self.old.legal.system.run (Some (step_of due)) }
        requires has_jobs { HasJobs self.old.legal.system.program self.old.legal.system.run self.old.jobs.items }
        requires follows { MayFollow self.old.legal.system.run step.now }
        ensures { IfOk result (IsChecked self.old.legal.system self.new.legal.system self.new.jobs.items step.now) }
    {
        if !same_step(&due.step(), step) {
            return Ok(false);
        }
        self.legal.make_due(due)?;
        Ok(true)
    }

    /// Whether a step is legal where none is due.
    fn check_other(&mut self, step: &Step) -> Result<bool, AllocError>
        requires asked { HasAsked self.old.legal.system.program self.old.legal.system.run None }
        requires has_jobs { HasJobs self.old.legal.system.program self.old.legal.system.run self.old.jobs.items }
        requires follows { MayFollow self.old.legal.system.run step.now }
        ensures { IfOk result (IsChecked self.old.legal.system self.new.legal.system self.new.jobs.items step.now) }
    {
        if let Some(message) = received_by(step) {
            return self.check_receipt(message, step);
        }
        match turn_of(step) {
            Some(who) => self.check_turn(who, step),
            None => Ok(false),
        }
    }

    /// Whether a receipt is legal: it is the one by which its message is delivered.
    fn check_receipt(&mut self, message: u32, step: &Step) -> Result<bool, AllocError>
        requires asked { HasAsked self.old.legal.system.program self.old.legal.system.run None }
        requires has_jobs { HasJobs self.old.legal.system.program self.old.legal.system.run self.old.jobs.items }
        requires follows { MayFollow self.old.legal.system.run step.now }
        requires receipt { received_message step.now ≡ Some message }
        requires exists { message < sent self.old.legal.system.run (len self.old.legal.system.run) }
        ensures { IfOk result (IsChecked self.old.legal.system self.new.legal.system self.new.jobs.items step.now) }
    {
        let place = length(&self.legal);
        match self.legal.deliver(message) {
            Ok(delivered) => {
                if !has_made(&self.legal, place, step) {
                    return Ok(false);
                }
                keep_begun(&mut self.jobs, delivered)?;
                Ok(true)
            }
            Err(DeliverError::NotInFlight { .. }) => Ok(false),
            Err(DeliverError::Busy { .. }) => Ok(false),
            Err(DeliverError::NoMemory) => Err(AllocError),
        }
    }

    /// Whether a step of a turn is legal: the turn is open, and the step is that of its next effect.
    fn check_turn(&mut self, who: u32, step: &Step) -> Result<bool, AllocError>
        requires asked { HasAsked self.old.legal.system.program self.old.legal.system.run None }
        requires has_jobs { HasJobs self.old.legal.system.program self.old.legal.system.run self.old.jobs.items }
        requires follows { MayFollow self.old.legal.system.run step.now }
        requires turn { acting step.now ≡ Some who }
        ensures { IfOk result (IsChecked self.old.legal.system self.new.legal.system self.new.jobs.items step.now) }
    {
        if open_turn(&self.legal, who).is_none() {
            return Ok(false);
        }
        match take_job(&mut self.jobs, who).advance() {
            Ok(pending) => self.check_effect(pending, step),
            Err((_job, failed)) => Err(failed),
        }
    }

    /// Whether a step is that of the effect to which its turn has come.
    fn check_effect(&mut self, pending: Pending<'p>, step: &Step) -> Result<bool, AllocError>
        requires asked { HasAsked self.old.legal.system.program self.old.legal.system.run None }
        requires follows { MayFollow self.old.legal.system.run step.now }
        requires turn { acting step.now ≡ Some pending.who }
        requires is_open { IsOpenJob self.old.legal.system.program self.old.legal.system.run pending }
        requires others { HasOtherJobs self.old.legal.system.program self.old.legal.system.run pending.who self.old.jobs.items }
        ensures { IfOk result (IsChecked self.old.legal.system self.new.legal.system self.new.jobs.items step.now) }
    {
        let place = length(&self.legal);
        let reply = self.legal.act_open(&pending)?;
        if !has_made(&self.legal, place, step) {
            return Ok(false);
        }
        keep_after(&mut self.jobs, pending, reply)?;
        Ok(true)
    }
}
