//! Traces.
ghost use Rattle.std.specs.Prelude.{◌≡◌, ◌<◌, ◌≤◌, ◌↔◌, ◌⊎◌, [], IsTrue, IfOk, IfErr, OnOk, OnErr, IsSome, IfSome, option_copied, option_and_then};
ghost use Rattle.tau_trace.specs.Steps.{actor};
ghost use Rattle.tau_trace.specs.Run.{Run, len, step_at, appended, versioned, second};
ghost use Rattle.tau_trace.specs.Known.{IsSound, MayFollow, WellFormed};
ghost use Rattle.tau_trace.specs.Places.{IsFirst};
ghost use Rattle.tau_trace.specs.Numbering as numbering;
ghost use Rattle.tau_trace.specs.Numbering.{Removes, IsPlaceOf, IsSender, IsEchoAt, IsNotice, IsReceiver, IsHome};
ghost use Rattle.tau_trace.specs.Histories.{EndsAt};
ghost use Rattle.tau_trace.specs.Turns.{IsOpenTurn};
ghost use Rattle.tau_trace.specs.Nodes.{IsNextLiving};
ghost use Rattle.tau_trace.specs.Stored.{Stored, IsMadeAt};

use crate::known::{is_in_version, is_known};
use crate::message::{Message, message_of};
use crate::noting::{add_new, add_sent, note_actor, note_removed, number_made};
use crate::opening::Opening;
use crate::step::Step;
use crate::trace_parts::posts;
use crate::transactors::Transactors;
use std::alloc::{AllocError, Global};
use std::marker::Model;
use tau_value::STEP_LIMIT;

/// A trace: an opening and the list of the steps of a run (docs/rules.md, "Steps"). Each step names what exists
/// before it and is of a kind of the version, and there are at most 1,000,000 steps. Contracts see the run, and
/// whether one more step can be appended without memory. The readers take constant or logarithmic time.
#[derive(Drop)]
pub struct Trace {
    opening: Opening,
    steps: Vec<Step>,
    made: Vec<u32>,
    transactors: Transactors,
    messages: Vec<Message>,
    alloc: Global,
}

impl Model for Trace {
    ghost use Rattle.std.specs.Prelude.{◌&&◌};
    ghost use Rattle.tau_trace.specs.Stored.{Stored, has_room, IsIndexed};
    ghost use Rattle.std.specs.Coded.{codes};
    ghost use Rattle.tau_value.specs.Val.{val_code};

    ghost Value = { Stored };

    ghost coded = { Prim.hlevel (codes, val_code) };

    ghost view = { λ t. record {
      run = record { opening = t.opening; steps = t.steps.items };
      ready = (has_room t.steps && has_room t.made) && (has_room t.messages && t.transactors.ready);
    } };

    ghost invariant = { λ t. IsIndexed (record { opening = t.opening; steps = t.steps.items }) t.made.items t.transactors t.messages.items };
}

impl Trace {
    /// A trace with no steps.
    pub fn begin(alloc: Global, opening: Opening) -> Result<Trace, AllocError>
        requires { IsSound opening }
        ensures { IfOk result (λ t. t.run ≡ record { opening = opening; steps = [] }) }
    {
        let transactors = Transactors::open(alloc, opening.homes.items(), opening.nodes)?;
        let messages = posts(alloc, opening.targets.items())?;
        Ok(Trace {
            opening,
            steps: Vec::new(alloc),
            made: Vec::new(alloc),
            transactors,
            messages,
            alloc,
        })
    }

    /// Appends a step. Without memory the step comes back, and the trace stays as it was.
    pub fn push(&mut self, step: Step) -> Result<(), (Step, AllocError)>
        requires { MayFollow self.old.run step }
        ensures ok { OnOk result (self.new.run ≡ appended self.old.run step) }
        ensures err { IfErr result (λ e. (e.0 ≡ step) × (self.new.run ≡ self.old.run)) }
        ensures ready { OnErr result (IsTrue self.old.ready → IsTrue self.new.ready) }
    {
        match self.reserve() {
            Ok(()) => {
                self.push_spare(step);
                Ok(())
            }
            Err(failed) => Err((step, failed)),
        }
    }

    /// Whether a step may be appended: what it names exists, also in its value; its value is in bounds; a code is 1 to
    /// 8; an Echo, a Heed or a Repeat is in version 2; and there are fewer than 1,000,000 steps.
    pub fn admits(&self, step: &Step) -> bool
        ensures { IsTrue result ↔ MayFollow self.now.run step.now }
    {
        self.len() < STEP_LIMIT
            && is_in_version(self.opening.version, step)
            && is_known(&self.opening, self.born(), self.sent(), step)
    }

    /// Makes room, so that one step can be appended without memory.
    pub fn reserve(&mut self) -> Result<(), AllocError>
        ensures run { self.new.run ≡ self.old.run }
        ensures ok { OnOk result (IsTrue self.new.ready) }
        ensures ready { IsTrue self.old.ready → IsTrue self.new.ready }
    {
        self.steps.reserve(1)?;
        self.made.reserve(1)?;
        self.messages.reserve(1)?;
        self.transactors.reserve()
    }

    /// Appends a step as `push` does, in the room that there is, without memory.
    pub fn push_spare(&mut self, step: Step)
        requires step { MayFollow self.old.run step }
        requires ready { IsTrue self.old.ready }
        ensures { self.new.run ≡ appended self.old.run step }
    {
        let place = self.steps.len() as u32;
        let number = number_made(&step, self.transactors.len(), self.messages.len()) as u32;
        note_actor(&mut self.transactors, &step, place);
        add_new(&mut self.transactors, &step);
        note_removed(&mut self.messages, &step, place);
        add_sent(&mut self.messages, &self.steps, &step, place);
        self.made.push_reserved(number);
        self.steps.push_reserved(step);
    }

    /// How many steps there are.
    pub fn len(&self) -> u32
        ensures len { result ≡ len self.now.run }
        ensures well_formed { WellFormed self.now.run }
    {
        self.steps.len() as u32
    }

    /// Whether there are no steps.
    pub fn is_empty(&self) -> bool
        ensures { IsTrue result ↔ (self.now.run.steps ≡ []) }
    {
        self.steps.is_empty()
    }

    /// The step at a place, counted from 0; `None` from the length on.
    pub fn step(&self, place: u32) -> Option<&Step>
        ensures { option_copied result ≡ step_at self.now.run place }
    {
        self.steps.get(place as usize)
    }

    /// The number that the step at a place made (docs/rules.md, "Numbers"): a message's for a Send, an Echo and a Repeat,
    /// a transactor's for a New, 0 for other steps; `None` from the length on.
    pub fn made_at(&self, place: u32) -> Option<u32>
        ensures exists { IsSome result ↔ (place < len self.now.run) }
        ensures made { IfSome result (IsMadeAt self.now.run place) }
    {
        self.made.get(place as usize).copied()
    }

    /// The opening.
    pub fn opening(&self) -> &Opening
        ensures value { result.now ≡ self.now.run.opening }
        ensures sound { IsSound result.now }
    {
        &self.opening
    }

    /// How many transactors exist (docs/rules.md, "Numbers").
    pub fn born(&self) -> u32
        ensures { result ≡ numbering.born self.now.run (len self.now.run) }
    {
        self.transactors.len() as u32
    }

    /// How many messages exist (docs/rules.md, "Numbers").
    pub fn sent(&self) -> u32
        ensures { result ≡ numbering.sent self.now.run (len self.now.run) }
    {
        self.messages.len() as u32
    }

    /// The place of the first Take, Drop, Void, Echo, Heed or Lose of a message; `None` where there is none.
    pub fn ended_by(&self, message: u32) -> Option<u32>
        ensures { IsFirst (Removes self.now.run message) (len self.now.run) result }
    {
        message_of(&self.messages, message)?.ended_by
    }

    /// The place of the Take whose turn is open for a transactor; `None` where no turn is (docs/rules.md, "Steps").
    pub fn open_turn(&self, who: u32) -> Option<u32>
        ensures { IsOpenTurn self.now.run who (len self.now.run) result }
    {
        self.transactors.get(who)?.turn
    }

    /// The place of the falling step that ended a transactor; `None` where it has not ended.
    pub fn end_of(&self, who: u32) -> Option<u32>
        ensures { IsFirst (EndsAt self.now.run who) (len self.now.run) result }
    {
        self.transactors.get(who)?.end
    }

    /// The node of a transactor; `None` where it doesn't exist.
    pub fn home(&self, who: u32) -> Option<u32>
        ensures exists { IsSome result ↔ (who < numbering.born self.now.run (len self.now.run)) }
        ensures home { IfSome result (IsHome self.now.run who) }
    {
        Some(self.transactors.get(who)?.home)
    }

    /// The receiver of a message; `None` where it has none or doesn't exist.
    pub fn target(&self, message: u32) -> Option<u32>
        ensures { IsReceiver self.now.run message result }
    {
        message_of(&self.messages, message)?.target
    }

    /// The place of the Send or the Echo that made a message, or that made what it is a copy of; `None` for a post and its
    /// copies, and where the message doesn't exist.
    pub fn origin(&self, message: u32) -> Option<u32>
        ensures { IsPlaceOf self.now.run message result }
    {
        message_of(&self.messages, message)?.origin
    }

    /// The sender of a message: the transactor of its origin; `None` where it has no origin.
    pub fn sender(&self, message: u32) -> Option<u32>
        ensures { IsSender self.now.run message result }
    {
        match self.origin(message) {
            Some(place) => self.actor_at(place),
            None => None,
        }
    }

    /// The transactor that makes the step at a place; `None` for a step of nobody and from the length on.
    fn actor_at(&self, place: u32) -> Option<u32>
        ensures { result ≡ option_and_then actor (step_at self.now.run place) }
    {
        match self.step(place) {
            Some(step) => step.actor(),
            None => None,
        }
    }

    /// Whether a message is a notice: whether its origin is an Echo.
    pub fn is_notice(&self, message: u32) -> bool
        ensures { IsTrue result ↔ IsNotice self.now.run message }
    {
        match self.origin(message) {
            Some(place) => self.is_echo_at(place),
            None => false,
        }
    }

    /// Whether the step at a place is an Echo.
    fn is_echo_at(&self, place: u32) -> bool
        ensures { IsTrue result ↔ IsEchoAt self.now.run place }
    {
        match self.step(place) {
            Some(step) => step.is_echo(),
            None => false,
        }
    }

    /// The least transactor of a node that has not ended and has at least the number `from`; `None` where there is
    /// none.
    pub fn next_living(&self, node: u32, from: u32) -> Option<u32>
        ensures { IsNextLiving self.now.run node (len self.now.run) from result }
    {
        self.transactors.first_living(node, from)
    }

    /// An equal trace. The error is want of memory.
    pub fn copy(&self) -> Result<Trace, AllocError>
        ensures { IfOk result (λ t. t.run ≡ self.now.run) }
    {
        self.with_version(self.opening.version)
    }

    /// The trace with the same steps in version 2. The error is want of memory.
    pub fn in_second(&self) -> Result<Trace, AllocError>
        ensures { IfOk result (λ t. t.run ≡ second self.now.run) }
    {
        self.with_version(2)
    }

    /// The trace with the same steps in its own version or in version 2.
    fn with_version(&self, version: u32) -> Result<Trace, AllocError>
        requires { (version ≡ self.now.run.opening.version) ⊎ (version ≡ 2) }
        ensures { IfOk result (λ t. t.run ≡ versioned version self.now.run) }
    {
        let mut trace = Trace::begin(self.alloc, self.opening.in_version(version)?)?;
        for step in &self.steps {
            trace.reserve()?;
            trace.push_spare(step.copy()?);
        }
        Ok(trace)
    }
}
