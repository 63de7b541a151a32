//! The system with its script.
ghost use Rattle.std.specs.Prelude.{◌≡◌, ◌<◌, ◌↔◌, [], IfOk, OnOk, OnErr, IsTrue};
ghost use Rattle.tau_value.specs.declared.limits.TheConstants.{STEP_LIMIT};
ghost use Rattle.tau_tree.specs.Sound.{Sound};
ghost use Rattle.tau_trace.specs.Run.{len};
ghost use Rattle.tau_trace.specs.Known.{WellFormed};
ghost use Rattle.tau_script.specs.Cursors.{CursorAt};
ghost use Rattle.tau_script.specs.Openings.{program_opening};
ghost use Rattle.tau_script.specs.Scripts.{IsDue, DueStep};
ghost use Rattle.tau_legal.specs.Traces.{Legal, Complete};
ghost use Rattle.tau_rules.specs.System.{with_step};
ghost use Rattle.tau_failures.specs.Dues.{step_of, due_step};
ghost use Rattle.tau_failures.specs.LegalRun.{NothingLeft};

use crate::Due;
use crate::cursors::due_by;
use crate::making::make;
use std::alloc::{AllocError, Global};
use std::marker::Model;
use tau_knowledge::Knowledge;
use tau_rules::System;
use tau_script::{Cursor, passed};
use tau_trace::Trace;
use tau_tree::Program;

/// A system whose run is legal (docs/definitions.md, "Fitting and legal steps"), with the cursor of its script. Contracts see its
/// program and run, and the cursor.
#[derive(Drop)]
pub struct LegalSystem<'p, K: Knowledge + Drop> {
    pub(crate) system: System<'p, K>,
    pub(crate) cursor: Cursor,
}

impl<'p, K: Knowledge + Drop> Model for LegalSystem<'p, K> {
    ghost use Rattle.std.specs.Coded.{codes};
    ghost use Rattle.tau_value.specs.Val.{val_code};
    ghost use Rattle.tau_tree.specs.Code.{code_code};
    ghost use Rattle.tau_failures.specs.LegalRun.{LegalRun, IsLegalRun};

    ghost Value = { LegalRun };

    ghost coded = { Prim.hlevel (codes, val_code, code_code) };

    ghost view = { λ s. record { system = s.system; cursor = s.cursor } };

    ghost invariant = { λ s. IsLegalRun s.system.program s.system.run s.cursor };
}

impl<'p, K: Knowledge + Drop> LegalSystem<'p, K> {
    /// The system of a program before its first step. The error is want of memory.
    pub fn open(alloc: Global, program: &'p Program) -> Result<LegalSystem<'p, K>, AllocError>
        requires { Sound program.now }
        ensures program { IfOk result (λ s. s.system.program ≡ program.entry.now) }
        ensures run { IfOk result (λ s. s.system.run ≡ record { opening = program_opening program.entry.now; steps = [] }) }
    {
        let system = System::open(alloc, program)?;
        let mut cursor = Cursor::first();
        let _due = due_by(&system, &mut cursor);
        Ok(LegalSystem { system, cursor })
    }

    /// The system.
    pub fn system(&self) -> &System<'p, K>
        ensures system { result.now ≡ self.now.system }
        ensures well_formed { WellFormed self.now.system.run }
        ensures legal { Legal self.now.system.program self.now.system.run }
        ensures cursor { CursorAt self.now.system.program.script self.now.system.run (len self.now.system.run) self.now.cursor }
    {
        &self.system
    }

    /// The run so far.
    pub fn trace(&self) -> &Trace
        ensures run { result.now.run ≡ self.now.system.run }
        ensures well_formed { WellFormed result.now.run }
        ensures legal { Legal self.now.system.program result.now.run }
    {
        self.system.trace()
    }

    /// The run, given up by the system.
    pub fn into_trace(self) -> Trace
        ensures run { result.run ≡ self.entry.system.run }
        ensures well_formed { WellFormed result.run }
        ensures legal { Legal self.entry.system.program result.run }
    {
        self.system.into_trace()
    }

    /// What the script makes due (docs/rules.md, "Scripts"); `None` exactly where nothing is due.
    pub fn due(&self) -> Option<Due>
        ensures { IsDue self.now.system.program.script self.now.system.run (len self.now.system.run) (due_step result) }
    {
        let mut cursor = self.cursor;
        due_by(&self.system, &mut cursor)
    }

    /// Whether the run is complete (docs/definitions.md, "Complete"), where the caller knows whether no turn is open and no message
    /// is in flight.
    pub fn is_complete(&self, nothing_left: bool) -> bool
        requires { IsTrue nothing_left ↔ NothingLeft self.now.system.run }
        ensures { IsTrue result ↔ Complete self.now.system.program self.now.system.run }
    {
        if self.due().is_some() {
            return false;
        }
        nothing_left
    }

    /// Appends the step of the script that is due (docs/rules.md, "Scripts"). The error is want of memory, and nothing is different
    /// then.
    pub fn make_due(&mut self, due: Due) -> Result<(), AllocError>
        requires few { len self.old.system.run < STEP_LIMIT }
        requires due { DueStep self.old.system.program.script self.old.system.run (len self.old.system.run) (step_of due) }
        ensures ok { OnOk result (self.new.system ≡ with_step self.old.system (step_of due)) }
        ensures well_formed { WellFormed self.new.system.run }
        ensures legal { Legal self.new.system.program self.new.system.run }
        ensures err { OnErr result (self.new ≡ self.old) }
    {
        let mut cursor = self.cursor;
        passed(&self.system.program().script, &mut cursor, &due.step());
        make(&mut self.system, due)?;
        let _due = due_by(&self.system, &mut cursor);
        self.cursor = cursor;
        Ok(())
    }
}
