//! The system with its script.
ghost use Rattle.std.specs.Prelude.{◌≡◌, ◌≤◌, ◌↔◌, [], IfOk, IsTrue, length};
ghost use Rattle.tau_value.specs.declared.limits.TheConstants.{STEP_LIMIT};
ghost use Rattle.tau_tree.specs.Sound.{Sound};
ghost use Rattle.tau_trace.specs.Run.{len};
ghost use Rattle.tau_trace.specs.Known.{WellFormed};
ghost use Rattle.tau_script.specs.Cursors.{CursorAt};
ghost use Rattle.tau_script.specs.Openings.{program_opening};
ghost use Rattle.tau_legal.specs.Traces.{Legal, Complete, Fitting};
ghost use Rattle.tau_failures.specs.LegalRun.{NothingLeft};
ghost use Rattle.tau_queue.specs.OpenTurns.{AreOpenTurns};
ghost use Rattle.tau_queue.specs.Flight.{AreInFlight, AreDeliverable};

use crate::index::Index;
use crate::indexing::index_of;
use std::alloc::{AllocError, Global};
use std::marker::Model;
use tau_failures::LegalSystem;
use tau_knowledge::Knowledge;
use tau_rules::System;
use tau_trace::Trace;
use tau_tree::Program;

/// A system whose run is legal (docs/definitions.md, "Fitting and legal steps"), with the cursor of the script, the messages in
/// flight, and the open turns. Contracts see its program and run, the cursor, the letters, the numbers of the deliverable
/// messages, and the places of the open turns.
#[derive(Drop)]
pub struct Scripted<'p, K: Knowledge + Drop> {
    pub(crate) legal: LegalSystem<'p, K>,
    pub(crate) index: Index,
}

impl<'p, K: Knowledge + Drop> Model for Scripted<'p, K> {
    ghost use Rattle.std.specs.Coded.{codes};
    ghost use Rattle.tau_value.specs.Val.{val_code};
    ghost use Rattle.tau_tree.specs.Code.{code_code};
    ghost use Rattle.tau_queue.specs.ScriptedRun.{ScriptedRun, IsIndexed, messages_of};

    ghost Value = { ScriptedRun };

    ghost coded = { Prim.hlevel (codes, val_code, code_code) };

    ghost view = { λ s. record { system = s.legal.system; cursor = s.legal.cursor; letters = s.index.mailboxes.letters; messages = messages_of s.index.mailboxes.busy s.index.mailboxes.letters; turns = s.index.turns.items } };

    ghost invariant = { λ s. IsIndexed s.legal.system.run s.index.mailboxes.nodes s.index.mailboxes.letters s.index.mailboxes.busy s.index.turns.items };
}

impl<'p, K: Knowledge + Drop> Scripted<'p, K> {
    /// The system of a program before its first step. The error is want of memory.
    pub fn open(alloc: Global, program: &'p Program) -> Result<Scripted<'p, K>, AllocError>
        requires { Sound program.now }
        ensures program { IfOk result (λ s. s.system.program ≡ program.entry.now) }
        ensures run { IfOk result (λ s. s.system.run ≡ record { opening = program_opening program.entry.now; steps = [] }) }
        ensures turns { IfOk result (λ s. s.turns ≡ []) }
    {
        let legal = LegalSystem::open(alloc, program)?;
        Scripted::over(alloc, legal)
    }

    /// A system whose run is legal, with what a worker chooses from. The error is want of memory.
    pub(crate) fn over(
        alloc: Global,
        legal: LegalSystem<'p, K>,
    ) -> Result<Scripted<'p, K>, AllocError>
        ensures system { IfOk result (λ s. s.system ≡ legal.entry.system) }
        ensures turns { IfOk result (λ s. AreOpenTurns legal.entry.system.run s.turns) }
    {
        let index = index_of(alloc, legal.trace())?;
        Ok(Scripted { legal, index })
    }

    /// The system.
    pub fn system(&self) -> &System<'p, K>
        ensures system { result.now ≡ self.now.system }
        ensures well_formed { WellFormed self.now.system.run }
        ensures legal { Legal self.now.system.program self.now.system.run }
        ensures cursor { CursorAt self.now.system.program.script self.now.system.run (len self.now.system.run) self.now.cursor }
        ensures letters { AreInFlight self.now.system.run self.now.letters }
        ensures turns { AreOpenTurns self.now.system.run self.now.turns }
        ensures messages { AreDeliverable self.now.system.run self.now.messages }
    {
        self.legal.system()
    }

    /// How many steps the run has.
    pub fn len(&self) -> u32
        ensures length { result ≡ len self.now.system.run }
        ensures few { len self.now.system.run ≤ STEP_LIMIT }
    {
        self.legal.trace().len()
    }

    /// The places of the Takes of the open turns, in ascending order.
    pub fn turns(&self) -> &[u32]
        ensures value { result.now ≡ self.now.turns }
        ensures turns { AreOpenTurns self.now.system.run result.now }
        ensures fitting { Fitting self.now.system.program self.now.system.run }
    {
        // Its contract says that the run is legal.
        let _trace = self.legal.trace();
        &self.index.turns
    }

    /// How many turns are open.
    pub fn open_turns(&self) -> u32
        ensures { result ≡ length self.now.turns }
    {
        // Its contract says that the run is well formed.
        let _trace = self.legal.trace();
        self.index.turns.len() as u32
    }

    /// How many messages can be delivered.
    pub fn deliverable(&self) -> usize
        ensures { result ≡ length self.now.messages }
    {
        self.index.mailboxes.deliverable_len()
    }

    /// Whether the run is complete (docs/definitions.md, "Complete").
    pub fn is_complete(&self) -> bool
        ensures { IsTrue result ↔ Complete self.now.system.program self.now.system.run }
    {
        let nothing_left = self.has_nothing_left();
        self.legal.is_complete(nothing_left)
    }

    /// Whether no turn is open and no message is in flight.
    fn has_nothing_left(&self) -> bool
        ensures { IsTrue result ↔ NothingLeft self.now.system.run }
    {
        // Its contract says that the run is legal.
        let _trace = self.legal.trace();
        if !self.index.has_no_turn() {
            return false;
        }
        self.index.mailboxes.is_empty()
    }

    /// The trace of the run.
    pub fn into_trace(self) -> Trace
        ensures run { result.run ≡ self.entry.system.run }
        ensures well_formed { WellFormed result.run }
        ensures legal { Legal self.entry.system.program result.run }
    {
        self.legal.into_trace()
    }
}
