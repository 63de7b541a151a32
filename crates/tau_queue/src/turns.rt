//! Steps of turns.
ghost use Rattle.std.specs.Prelude.{◌≡◌, ◌<◌, ◌≤◌, length, IfOk, IfErr, OnErr};
ghost use Rattle.tau_value.specs.declared.limits.TheConstants.{STEP_LIMIT};
ghost use Rattle.tau_trace.specs.Run.{len};
ghost use Rattle.tau_script.specs.Scripts.{NoneDue};
ghost use Rattle.tau_rules.specs.Answers.{IsOpenJob, IsActed, IsUnacted, acted_by};
ghost use Rattle.tau_queue.specs.ScriptedRun.{IsUnchangedAtRedo};
ghost use Rattle.tau_queue.specs.Inner.Index.{IsNodeOf};

use crate::Scripted;
use std::alloc::AllocError;
use tau_eval::{Effect, Pending};
use tau_knowledge::Knowledge;
use tau_rules::{ActError, Acted};
use tau_trace::Trace;
use tau_value::Value;

impl<'p, K: Knowledge + Drop> Scripted<'p, K> {
    /// Makes the step of an effect that a turn has come to, as `System::act` does (docs/rules.md, "Steps"). No step of the script
    /// is due. After `Redo` and after an error nothing is different.
    pub fn act(&mut self, pending: &Pending<'p>) -> Result<Acted<'p>, ActError>
        requires few { len self.old.system.run < STEP_LIMIT }
        requires none_due { NoneDue self.old.system.program.script self.old.system.run (len self.old.system.run) }
        ensures ok { IfOk result (IsActed self.old.system self.new.system pending.now) }
        ensures turns { length self.new.turns ≤ length self.old.turns }
        ensures redone { IfOk result (IsUnchangedAtRedo self.old self.new) }
        ensures unchanged { IfErr result (λ e. self.new ≡ self.old) }
        ensures err { IfErr result (IsUnacted self.old.system.run pending.now.place) }
    {
        let effect = pending.effect();
        self.index.reserve_letter(effect)?;
        let message = self.legal.trace().sent();
        let node = node_of(self.legal.trace(), effect);
        let acted = self.legal.act(pending)?;
        self.index.act(message, node, pending, effect, &acted);
        Ok(acted)
    }

    /// `act` where it is known that the job is the record of a turn that is open, as `System::act_open` (docs/rules.md, "Steps"): the
    /// reply after a step with which the turn goes on, `None` after one that ends it. No step of the script is due. The error is want
    /// of memory, and nothing is different then.
    pub fn act_open(&mut self, pending: &Pending<'p>) -> Result<Option<Value>, AllocError>
        requires few { len self.old.system.run < STEP_LIMIT }
        requires none_due { NoneDue self.old.system.program.script self.old.system.run (len self.old.system.run) }
        requires is_open { IsOpenJob self.old.system.program self.old.system.run pending.now }
        ensures ok { IfOk result (λ r. IsActed self.old.system self.new.system pending.now (acted_by r)) }
        ensures turns { length self.new.turns ≤ length self.old.turns }
        ensures unchanged { OnErr result (self.new ≡ self.old) }
    {
        let effect = pending.effect();
        self.index.reserve_letter(effect)?;
        let message = self.legal.trace().sent();
        let node = node_of(self.legal.trace(), effect);
        let reply = self.legal.act_open(pending)?;
        self.index.act_open(message, node, pending, effect, &reply);
        Ok(reply)
    }
}

/// The node of the receiver of the message that an effect sends; some node where there is no such receiver.
fn node_of(trace: &Trace, effect: &Effect) -> u32
    ensures node { IsNodeOf trace.now.run effect.now result }
    ensures below { result < trace.now.run.opening.nodes }
{
    // The trace is well formed, so it has a node.
    let _len = trace.len();
    match effect {
        Effect::Send(to, _) => trace.home(*to).unwrap_or(0),
        _ => 0,
    }
}
