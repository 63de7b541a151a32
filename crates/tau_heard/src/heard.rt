//! What a transactor and a message have heard, as a search asks for it.
ghost use Rattle.std.specs.Prelude.{◌≡◌, ◌<◌, ◌-◌, ℕ, List, length, slice_get, Some};
ghost use Rattle.tau_trace.specs.Run.{Run, len, appended};
ghost use Rattle.tau_trace.specs.Steps.{actor};
ghost use Rattle.tau_trace.specs.Numbering.{born, InFlight};
ghost use Rattle.tau_trace.specs.Points.{point_at};
ghost use Rattle.tau_past.specs.Heard.{heard_by, Heard, HeardBy, HeardTogether};
ghost use Rattle.tau_versions.specs.Logs.Told.{Told};
ghost use Rattle.tau_versions.specs.declared.logs.version.Version.{Version};
ghost use Rattle.tau_versions.specs.Search.Logs.{TellBounds};
ghost use Rattle.tau_versions.specs.Search.Numbered.{with_version, later};
ghost use Rattle.tau_heard.specs.Bounds.{TellsHeardBy, last_number};
ghost use Rattle.tau_heard.specs.Hears.{Knows};
ghost use Rattle.tau_heard.specs.Next.{IsNext};

use crate::hearing::Hearing;
use crate::letter::{Letter, Sender};
use crate::own::Own;
use tau_points::Point;
use tau_trace::{Step, Trace};
use tau_versions::logs::Log;
use tau_versions::search::{Numbered, Together};

impl Hearing {
    /// What a transactor that exists has heard.
    pub(crate) fn heard_of(&self, trace: &Trace, who: u32) -> Numbered<'_>
        requires knows { Knows self.now trace.now.run }
        requires exists { who < born trace.now.run (len trace.now.run) }
        ensures { TellBounds trace.now.run (Heard trace.now.run who (len trace.now.run)) (len trace.now.run) self.now.logs.items (with_version result.who result.version result.numbers.now) }
    {
        let version = self.last_number(trace, who);
        let own = self.kept_of(trace, who);
        Numbered {
            who,
            version,
            numbers: own.numbers.items(),
        }
    }

    /// What the transactor that makes a step has heard before it.
    pub(crate) fn heard_before(&self, trace: &Trace, step: &Step, who: u32) -> Numbered<'_>
        requires next { IsNext self.now trace.now.run step.now }
        requires by { actor step.now ≡ Some who }
        ensures { TellBounds (appended trace.now.run step.now) (Heard (appended trace.now.run step.now) who (len trace.now.run)) (len trace.now.run) self.now.logs.items
            (with_version result.who result.version result.numbers.now) }
    {
        let version = self.last_number(trace, who);
        let own = self.own_of(trace, step, who);
        Numbered {
            who,
            version,
            numbers: own.numbers.items(),
        }
    }

    /// What the transactor and the message that it hears of have heard, together, before the step.
    pub(crate) fn heard_together(
        &self,
        trace: &Trace,
        step: &Step,
        who: u32,
        message: u32,
    ) -> Together<'_>
        requires next { IsNext self.now trace.now.run step.now }
        requires by { actor step.now ≡ Some who }
        requires hears { heard_by step.now ≡ Some message }
        ensures { TellBounds (appended trace.now.run step.now) (HeardTogether (appended trace.now.run step.now) who (len trace.now.run) message) (len trace.now.run) self.now.logs.items
            (later (with_version result.own.who result.own.version result.own.numbers.now) (with_version result.message.who result.message.version result.message.numbers.now)) }
    {
        let own = self.heard_before(trace, step, who);
        let letter = self.letter(trace, step, message);
        Together {
            own,
            message: heard_by(letter),
        }
    }

    /// What is kept of a transactor that exists.
    pub fn kept_of(&self, _trace: &Trace, who: u32) -> &Own
        requires knows { Knows self.now _trace.now.run }
        requires exists { who < born _trace.now.run (len _trace.now.run) }
        ensures { slice_get self.now.own.items who ≡ Some result.now }
    {
        match self.own.get(who as usize) {
            Some(own) => own,
            None => unreachable!(),
        }
    }

    /// What is kept of a message in flight.
    pub fn letter_of(&self, _trace: &Trace, message: u32) -> &Letter
        requires knows { Knows self.now _trace.now.run }
        requires in_flight { InFlight _trace.now.run message (len _trace.now.run) }
        ensures { slice_get self.now.letters.items message ≡ Some (Some result.now) }
    {
        match self.message(message) {
            Some(letter) => letter,
            None => unreachable!(),
        }
    }

    /// The point of a transactor that exists.
    pub fn point_of(&self, _trace: &Trace, who: u32) -> Point
        requires knows { Knows self.now _trace.now.run }
        requires exists { who < born _trace.now.run (len _trace.now.run) }
        ensures { result ≡ point_at _trace.now.run who (len _trace.now.run) }
    {
        match self.log(who) {
            Some(log) => point_by(who, log),
            None => unreachable!(),
        }
    }
}

/// The point of the last version of a log.
fn point_by(who: u32, log: &Log) -> Point
    ensures { (v : Version) → slice_get log.now.versions (length log.now.versions - 1) ≡ Some v → result ≡ record { who = who; interval = v.interval; incarnation = v.incarnation } }
{
    match log.version(log.len().saturating_sub(1)) {
        Some(version) => Point {
            who,
            interval: version.interval,
            incarnation: version.incarnation,
        },
        None => Point {
            who,
            interval: 0,
            incarnation: 0,
        },
    }
}

/// What a message has heard.
pub(crate) fn heard_by(letter: &Letter) -> Numbered<'_>
    ensures { (T : Run) (m n : ℕ) (logs : List Told) → TellsHeardBy T m n logs letter.now.sender → TellBounds T (HeardBy T m) n logs (with_version result.who result.version result.numbers.now) }
{
    match &letter.sender {
        Some(sender) => sent_with(sender),
        None => Numbered {
            who: 0,
            version: 0,
            numbers: &[],
        },
    }
}

/// What the sender of a message had heard.
fn sent_with(sender: &Sender) -> Numbered<'_>
    ensures who { result.who ≡ sender.now.who }
    ensures version { result.version ≡ sender.now.version }
    ensures numbers { result.numbers.now ≡ sender.now.numbers.value.items }
{
    Numbered {
        who: sender.who,
        version: sender.version,
        numbers: &sender.numbers,
    }
}
