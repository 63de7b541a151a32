//! Effects made steps.
ghost use Rattle.std.specs.Prelude.{◌≡◌, ◌<◌, ◌↔◌, ℕ, Some, IsTrue, IfOk, IfErr, OnErr, length, slice_get};
ghost use Rattle.tau_value.specs.declared.limits.TheConstants.{STEP_LIMIT};
ghost use Rattle.tau_value.specs.Value.{val_of};
ghost use Rattle.tau_tree.specs.Sound.{bodies};
ghost use Rattle.tau_tree.specs.Expr.{code_of};
ghost use Rattle.tau_trace.specs.Run.{len};
ghost use Rattle.tau_trace.specs.Known.{IsKnownAt};
ghost use Rattle.tau_past.specs.Decisions.{Free};
ghost use Rattle.tau_eval.specs.Effect.{eff_of};
ghost use Rattle.tau_eval.specs.Turn.{IsTurnOf};
ghost use Rattle.tau_legal.specs.Turns.{TurnHas};
ghost use Rattle.tau_legal.specs.Choices.{asks_freedom as asks_freedom_by, IsChoice};
ghost use Rattle.tau_rules.specs.Answers.{IsOpenJob, IsJobOf, IsActed, IsUnacted, acted_by};
ghost use Rattle.tau_rules.specs.Inner.Acting.{IsMade, step_of};

use crate::records::{Record, RecordChange};
use crate::turns::{is_open, taker, turn_end};
use crate::{ActError, Acted, System};
use std::alloc::{AllocError, Global};
use tau_eval::{Effect, Job, Pending, again};
use tau_knowledge::Knowledge;
use tau_legal::{Choice, asks_freedom, chosen};
use tau_tree::{Expr, Program};
use tau_value::Value;

impl<'p, K: Knowledge + Drop> System<'p, K> {
    /// Makes the step of an effect that a turn has come to (docs/rules.md, "Steps"): `Reply` with the reply after a step with
    /// which the turn goes on, `TurnOver` after one that ends it. `Redo` appends nothing: it comes exactly where the record of
    /// the turn that is open at the job's place, its body, number of nodes, transactor, message or replies, isn't the job's, and holds
    /// the job of the record.
    /// `Stale` comes exactly where no turn that began at the job's place is open. After an error the system is as it was.
    pub fn act(&mut self, pending: &Pending<'p>) -> Result<Acted<'p>, ActError>
        requires few { len self.old.run < STEP_LIMIT }
        ensures ok { IfOk result (IsActed self.old self.new pending.now) }
        ensures unchanged { IfErr result (λ e. self.new ≡ self.old) }
        ensures err { IfErr result (IsUnacted self.old.run pending.now.place) }
    {
        let turn = pending.turn();
        let Some(who) = taker(&self.trace, turn) else {
            return Err(ActError::Stale {
                ended_by: self.trace.len(),
            });
        };
        if !is_open(&self.trace, who, turn) {
            return Err(ActError::Stale {
                ended_by: turn_end(&self.trace, who, turn),
            });
        }
        let own = &self.records[who as usize];
        if !is_record(self.program, own, who, pending) {
            return Ok(Acted::Redo(job_of(self.alloc, self.program, own, who, turn)?));
        }
        match self.act_open(pending)? {
            Some(reply) => Ok(Acted::Reply(reply)),
            None => Ok(Acted::TurnOver),
        }
    }

    /// `act` where it is known that the job is the record of a turn that is open, so nothing is compared (docs/rules.md, "Steps"):
    /// the reply after a step with which the turn goes on, `None` after one that ends it. The error is want of memory, and the
    /// system is then as it was.
    pub fn act_open(&mut self, pending: &Pending<'p>) -> Result<Option<Value>, AllocError>
        requires few { len self.old.run < STEP_LIMIT }
        requires is_open { IsOpenJob self.old.program self.old.run pending.now }
        ensures ok { IfOk result (λ r. IsActed self.old self.new pending.now (acted_by r)) }
        ensures unchanged { OnErr result (self.new ≡ self.old) }
    {
        // Their contracts say that the run is well formed and fits, and that the program is sound.
        let _trace = self.trace();
        let _program = self.program();
        self.make_step(pending.who(), pending.effect())
    }

    /// The job of the record of a transactor's open turn, made anew (docs/rules.md, "Steps"); `None` exactly where no turn of it is
    /// open. The error is want of memory.
    pub fn job_of(&self, who: u32) -> Result<Option<Job<'p>>, AllocError>
        ensures { IfOk result (IsJobOf self.now who) }
    {
        let Some(turn) = self.trace.open_turn(who) else {
            return Ok(None);
        };
        let own = &self.records[who as usize];
        let job = job_of(self.alloc, self.program, own, who, turn)?;
        Ok(Some(job))
    }

    /// Makes the step of the next effect of the open turn of a transactor, and gives the reply where the turn goes on.
    fn make_step(&mut self, who: u32, effect: &Effect) -> Result<Option<Value>, AllocError>
        requires few { len self.old.run < STEP_LIMIT }
        requires effect { TurnHas self.old.program self.old.run who (len self.old.run) (eff_of effect.now) }
        ensures ok { IfOk result (IsMade self.old self.new who) }
        ensures unchanged { OnErr result (self.new ≡ self.old) }
    {
        match self.choice(who, effect)? {
            Choice::GoesOn { step, reply } => {
                let kept = reply.copy()?;
                self.append(step, RecordChange::Replied { reply: kept })?;
                Ok(Some(reply))
            }
            Choice::Ends { step } => {
                self.append(step, RecordChange::Kept)?;
                Ok(None)
            }
        }
    }

    /// The step of the next effect of the open turn of a transactor, and its reply.
    fn choice(&self, who: u32, effect: &Effect) -> Result<Choice, AllocError>
        requires { TurnHas self.now.program self.now.run who (len self.now.run) (eff_of effect.now) }
        ensures choice { IfOk result (IsChoice self.now.program self.now.run who) }
        ensures known { IfOk result (λ c. IsKnownAt self.now.run (len self.now.run) (step_of c)) }
    {
        let is_free = self.freedom(who, effect)?;
        chosen(effect, who, &self.trace, &self.states, is_free)
    }

    /// Whether the transactor of an open turn is free, where the step of its effect depends on it.
    fn freedom(&self, who: u32, effect: &Effect) -> Result<bool, AllocError>
        requires { TurnHas self.now.program self.now.run who (len self.now.run) (eff_of effect.now) }
        ensures { IfOk result (λ b. IsTrue (asks_freedom_by (eff_of effect.now)) → (IsTrue b ↔ Free self.now.run who (len self.now.run))) }
    {
        if !asks_freedom(effect) {
            return Ok(false);
        }
        self.known.is_free(self.alloc, &self.trace, who)
    }
}

/// Whether the job is that of the record of its transactor, which is `who`.
fn is_record<'p>(program: &'p Program, own: &Record, who: u32, pending: &Pending<'p>) -> bool
    requires { own.now.behaviour < length program.now.behaviours }
    ensures { IsTrue result ↔ IsTurnOf program.entry.now who own.now.behaviour pending.now.place (val_of own.now.message) own.now.replies pending.now }
{
    let body = body_of(program, own.behaviour);
    who == pending.who() && pending.agrees(body, program.nodes, &own.message, &own.replies)
}

/// The job of the record of a transactor, whose turn began at this place.
fn job_of<'p>(
    alloc: Global,
    program: &'p Program,
    own: &Record,
    who: u32,
    turn: u32,
) -> Result<Job<'p>, AllocError>
    requires { own.now.behaviour < length program.now.behaviours }
    ensures { IfOk result (IsTurnOf program.entry.now who own.now.behaviour turn (val_of own.now.message) own.now.replies) }
{
    let message = own.message.copy()?;
    let replies = own.replies.copy()?;
    again(alloc, program, who, own.behaviour, turn, message, replies)
}

/// The body of a behaviour.
fn body_of<'p>(program: &'p Program, behaviour: u32) -> &'p Expr
    requires { behaviour < length program.now.behaviours }
    ensures { slice_get (bodies program.entry.now) behaviour ≡ Some (code_of result.now) }
{
    let behaviour = &program.behaviours.items()[behaviour as usize];
    &behaviour.body
}
