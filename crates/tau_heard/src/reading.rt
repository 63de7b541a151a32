//! What the change of a step reads of what is kept.
ghost use Rattle.std.specs.Prelude.{◌≡◌, ◌-◌, ◌≤◌, ◌+◌, ℕ, length, slice_get, Some, option_and_then};
ghost use Rattle.std.specs.Option.{option_map};
ghost use Rattle.tau_trace.specs.Run.{len, appended};
ghost use Rattle.tau_trace.specs.Points.{point_at};
ghost use Rattle.tau_trace.specs.declared.step.Step.TheVariants.{Repeat};
ghost use Rattle.tau_trace.specs.Steps.{actor};
ghost use Rattle.tau_past.specs.Heard.{heard_by};
ghost use Rattle.tau_versions.specs.Logs.Told.{Told};
ghost use Rattle.tau_heard.specs.Bounds.{last_number};
ghost use Rattle.tau_heard.specs.Facts.{HearsRightly};
ghost use Rattle.tau_heard.specs.Hears.{Knows};
ghost use Rattle.tau_history.specs.Timeline.{close, fall};
ghost use Rattle.tau_versions.specs.declared.logs.version.Version.{Version};
ghost use Rattle.tau_heard.specs.Next.{IsNext, IsLast, IsMoved, IsOnlyOne};

use crate::hearing::Hearing;
use crate::letter::Letter;
use tau_trace::{Step, Trace};
use tau_versions::logs::{Log, Version};

impl Hearing {
    /// The log of a transactor; `None` where it doesn't exist.
    pub fn log(&self, who: u32) -> Option<&Log>
        ensures { option_map (λ l. l.now) result ≡ slice_get self.now.logs.items who }
    {
        self.logs.get(who as usize)
    }

    /// What is kept of a message; `None` where it doesn't exist or isn't in flight.
    pub fn message(&self, message: u32) -> Option<&Letter>
        ensures { option_map (λ l. l.now) result ≡ option_and_then (λ o. o) (slice_get self.now.letters.items message) }
    {
        match self.letters.get(message as usize) {
            Some(Some(letter)) => Some(letter),
            _ => None,
        }
    }

    /// The last version of the transactor that makes a step.
    pub(crate) fn last_version(&self, _trace: &Trace, _step: &Step, who: u32) -> Version
        requires next { IsNext self.now _trace.now.run _step.now }
        requires by { actor _step.now ≡ Some who }
        ensures { IsLast self.now who result }
    {
        match self.log(who) {
            Some(log) => last_of(log),
            None => unreachable!(),
        }
    }

    /// The log of the transactor that makes a step.
    pub(crate) fn log_of(&self, _trace: &Trace, _step: &Step, who: u32) -> &Log
        requires next { IsNext self.now _trace.now.run _step.now }
        requires by { actor _step.now ≡ Some who }
        ensures { slice_get self.now.logs.items who ≡ Some result.now }
    {
        match self.log(who) {
            Some(log) => log,
            None => unreachable!(),
        }
    }

    /// The number of the last version of a transactor, 0 where it doesn't exist. It is at most that of the steps.
    pub(crate) fn last_number(&self, trace: &Trace, who: u32) -> u32
        requires knows { Knows self.now trace.now.run }
        ensures { result ≡ last_number self.now.logs.items who }
    {
        // Its contract says that there are few steps.
        let _steps = trace.len();
        self.count_of_last(who) as u32
    }

    /// The same number as a place in a list.
    fn count_of_last(&self, who: u32) -> usize
        ensures { result ≡ last_number self.now.logs.items who }
    {
        match self.log(who) {
            Some(log) => log.len().saturating_sub(1),
            None => 0,
        }
    }

    /// The version after a falling step.
    pub(crate) fn fallen(&self, trace: &Trace, step: &Step, who: u32) -> Version
        requires next { IsNext self.now trace.now.run step.now }
        requires by { actor step.now ≡ Some who }
        ensures { (v : Version) → IsLast self.now who v → IsMoved (len trace.now.run) v result fall }
    {
        self.last_version(trace, step, who).fallen(trace.len() + 1)
    }

    /// The version after a Checkpoint.
    pub(crate) fn closed(&self, trace: &Trace, step: &Step, who: u32) -> Version
        requires next { IsNext self.now trace.now.run step.now }
        requires by { actor step.now ≡ Some who }
        ensures { (v : Version) → IsLast self.now who v → IsMoved (len trace.now.run) v result close }
    {
        self.last_version(trace, step, who).closed(trace.len() + 1)
    }

    /// What is kept of a message that a step hears of.
    pub(crate) fn letter(&self, _trace: &Trace, _step: &Step, message: u32) -> &Letter
        requires next { IsNext self.now _trace.now.run _step.now }
        requires hears { heard_by _step.now ≡ Some message }
        ensures { slice_get self.now.letters.items message ≡ Some (Some result.now) }
    {
        match self.message(message) {
            Some(letter) => letter,
            None => unreachable!(),
        }
    }

    /// What is kept of a message that a step repeats.
    pub(crate) fn repeated(&self, _trace: &Trace, _step: &Step, message: u32) -> &Letter
        requires next { IsNext self.now _trace.now.run _step.now }
        requires kind { _step.now ≡ Repeat message }
        ensures { slice_get self.now.letters.items message ≡ Some (Some result.now) }
    {
        match self.message(message) {
            Some(letter) => letter,
            None => unreachable!(),
        }
    }

    /// The message that a step hears of, unless its transactor has sent it itself and so had heard all that it has.
    pub(crate) fn news(&self, trace: &Trace, step: &Step, who: u32, message: u32) -> Option<u32>
        requires next { IsNext self.now trace.now.run step.now }
        requires by { actor step.now ≡ Some who }
        requires hears { heard_by step.now ≡ Some message }
        ensures right { HearsRightly (appended trace.now.run step.now) who (len trace.now.run) self.now.letters.items result }
        ensures only { IsOnlyOne result message }
    {
        match &self.letter(trace, step, message).sender {
            Some(sender) if sender.who == who => None,
            _ => Some(message),
        }
    }
}

/// The last version of a log.
fn last_of(log: &Log) -> Version
    requires { 1 ≤ length log.now.versions }
    ensures { slice_get log.now.versions (length log.now.versions - 1) ≡ Some result }
{
    match log.version(log.len() - 1) {
        Some(version) => version,
        None => unreachable!(),
    }
}
