//! The due steps of the script.
ghost use Rattle.std.specs.Prelude.{◌≡◌, ◌<◌, ◌≤◌, IfOk, OnOk, OnErr, length};
ghost use Rattle.tau_value.specs.declared.limits.TheConstants.{STEP_LIMIT};
ghost use Rattle.tau_trace.specs.declared.step.Step.TheVariants as steps;
ghost use Rattle.tau_trace.specs.Run.{len};
ghost use Rattle.tau_script.specs.Scripts.{DueStep};
ghost use Rattle.tau_rules.specs.System.{with_step};
ghost use Rattle.tau_queue.specs.ScriptedRun.{IsDueMade};

use crate::Scripted;
use crate::letters::copy_of;
use std::alloc::AllocError;
use tau_failures::Due;
use tau_knowledge::Knowledge;

impl<'p, K: Knowledge + Drop> Scripted<'p, K> {
    /// Appends the step of the script that is due; `false` exactly where none is (docs/rules.md, "Scripts"). The error is want of
    /// memory, and nothing is different then.
    pub fn make_due(&mut self) -> Result<bool, AllocError>
        requires { len self.old.system.run < STEP_LIMIT }
        ensures ok { IfOk result (IsDueMade self.old self.new) }
        ensures turns { length self.new.turns ≤ length self.old.turns }
        ensures err { OnErr result (self.new ≡ self.old) }
    {
        let Some(due) = self.legal.due() else {
            return Ok(false);
        };
        match due {
            Due::Fail { who } => self.fail(who)?,
            Due::Lose { message } => self.lose(message)?,
            Due::Repeat { message } => self.repeat(message)?,
        }
        Ok(true)
    }

    /// Lets a transactor fail.
    fn fail(&mut self, who: u32) -> Result<(), AllocError>
        requires few { len self.old.system.run < STEP_LIMIT }
        requires due { DueStep self.old.system.program.script self.old.system.run (len self.old.system.run) (steps.Fail who) }
        ensures ok { OnOk result (self.new.system ≡ with_step self.old.system (steps.Fail who)) }
        ensures turns { length self.new.turns ≤ length self.old.turns }
        ensures err { OnErr result (self.new ≡ self.old) }
    {
        let turn = self.legal.trace().open_turn(who);
        self.legal.make_due(Due::Fail { who })?;
        self.index.end(who, turn);
        Ok(())
    }

    /// Loses a message in flight.
    fn lose(&mut self, message: u32) -> Result<(), AllocError>
        requires few { len self.old.system.run < STEP_LIMIT }
        requires due { DueStep self.old.system.program.script self.old.system.run (len self.old.system.run) (steps.Lose message) }
        ensures ok { OnOk result (self.new.system ≡ with_step self.old.system (steps.Lose message)) }
        ensures turns { self.new.turns ≡ self.old.turns }
        ensures err { OnErr result (self.new ≡ self.old) }
    {
        // Its contract says that the run is well formed.
        let _trace = self.legal.trace();
        self.legal.make_due(Due::Lose { message })?;
        self.index.remove(message);
        Ok(())
    }

    /// Repeats a message in flight.
    fn repeat(&mut self, message: u32) -> Result<(), AllocError>
        requires few { len self.old.system.run < STEP_LIMIT }
        requires due { DueStep self.old.system.program.script self.old.system.run (len self.old.system.run) (steps.Repeat message) }
        ensures ok { OnOk result (self.new.system ≡ with_step self.old.system (steps.Repeat message)) }
        ensures turns { self.new.turns ≡ self.old.turns }
        ensures err { OnErr result (self.new ≡ self.old) }
    {
        let copy = copy_of(self.legal.trace(), message);
        self.index.reserve_for(Some(copy))?;
        self.legal.make_due(Due::Repeat { message })?;
        self.index.put(Some(copy));
        Ok(())
    }
}
