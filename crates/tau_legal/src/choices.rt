//! The step of an effect.
ghost use Rattle.std.specs.Prelude.{◌≡◌, ◌↔◌, ◌<◌, ℕ, Bool, List, IsTrue, IfOk, length};
ghost use Rattle.tau_value.specs.Value.{val_of};
ghost use Rattle.tau_trace.specs.Run.{Run, len};
ghost use Rattle.tau_past.specs.Decisions.{Free};
ghost use Rattle.tau_states.specs.declared.state_record.StateRecord.{StateRecord};
ghost use Rattle.tau_eval.specs.Eff as eff;
ghost use Rattle.tau_eval.specs.Effect.{eff_of};
ghost use Rattle.tau_legal.specs.Choices.{asks_freedom as asks_freedom_by, IsChoiceOf};

use std::alloc::AllocError;
use tau_eval::Effect;
use tau_states::States;
use tau_trace::{Step, Trace};
use tau_value::Value;

/// The step that an effect leads to.
#[derive(Drop)]
pub enum Choice {
    /// The turn goes on after it, with this reply.
    GoesOn { step: Step, reply: Value },
    /// It ends the turn.
    Ends { step: Step },
}

/// Whether the step of the effect depends on whether its transactor is free.
pub fn asks_freedom(effect: &Effect) -> bool
    ensures { result ≡ asks_freedom_by (eff_of effect.now) }
{
    matches!(effect, Effect::Ask | Effect::Checkpoint)
}

/// The step of the next effect of the open turn of `who`, and its reply where the turn goes on after it (docs/rules.md,
/// "Steps"). `is_free` tells whether the transactor is free; it is read where `asks_freedom` says so. The error is want of
/// memory.
pub fn chosen(
    effect: &Effect,
    who: u32,
    trace: &Trace,
    states: &States,
    is_free: bool,
) -> Result<Choice, AllocError>
    requires exists { who < length states.now.records }
    requires freedom { IsTrue (asks_freedom_by (eff_of effect.now)) → (IsTrue is_free ↔ Free trace.now.run who (len trace.now.run)) }
    ensures { IfOk result (IsChoiceOf trace.now.run states.now.records who (eff_of effect.now)) }
{
    match effect {
        Effect::Get => choice_of_get(who, states),
        Effect::Set(value) => choice_of_set(value, who, states),
        Effect::Send(to, value) => choice_of_send(*to, value, who),
        Effect::New {
            behaviour,
            node,
            state,
        } => choice_of_new(*behaviour, *node, state, who, trace),
        Effect::Stabilize => Ok(Choice::GoesOn {
            step: Step::Stabilize { who },
            reply: Value::Unit,
        }),
        Effect::Ask => Ok(choice_of_ask(who, is_free)),
        Effect::Checkpoint => Ok(choice_of_checkpoint(who, is_free)),
        Effect::Rollback => Ok(choice_of_rollback(who, states)),
        Effect::Done => Ok(Choice::Ends {
            step: Step::Done { who },
        }),
        Effect::Trap(code) => Ok(Choice::Ends {
            step: Step::Trap { who, code: *code },
        }),
    }
}

/// A Get, whose reply is the state.
fn choice_of_get(who: u32, states: &States) -> Result<Choice, AllocError>
    requires { who < length states.now.records }
    ensures { IfOk result (λ c. (T : Run) → IsChoiceOf T states.now.records who eff.get c) }
{
    match states.record_of(who) {
        Some(record) => Ok(Choice::GoesOn {
            step: Step::Get { who },
            reply: record.state.copy()?,
        }),
        None => unreachable!(),
    }
}

/// A Set where the transactor is volatile, and otherwise a Skip.
fn choice_of_set(value: &Value, who: u32, states: &States) -> Result<Choice, AllocError>
    requires { who < length states.now.records }
    ensures { IfOk result (λ c. (T : Run) → IsChoiceOf T states.now.records who (eff.set (val_of value.now)) c) }
{
    if states.is_stable(who) {
        return Ok(Choice::GoesOn {
            step: Step::Skip { who },
            reply: Value::Unit,
        });
    }
    let value = value.copy()?;
    Ok(Choice::GoesOn {
        step: Step::Set { who, value },
        reply: Value::Unit,
    })
}

/// A Send.
fn choice_of_send(to: u32, value: &Value, who: u32) -> Result<Choice, AllocError>
    ensures { IfOk result (λ c. (T : Run) (records : List StateRecord) → IsChoiceOf T records who (eff.send to (val_of value.now)) c) }
{
    Ok(Choice::GoesOn {
        step: Step::Send {
            who,
            to,
            value: value.copy()?,
        },
        reply: Value::Unit,
    })
}

/// A New, whose reply is the name of the new transactor; where there are 2,048 transactors already, a Trap with code 7
/// (docs/limits.md).
fn choice_of_new(
    behaviour: u32,
    node: u32,
    state: &Value,
    who: u32,
    trace: &Trace,
) -> Result<Choice, AllocError>
    ensures { IfOk result (λ c. (records : List StateRecord) → IsChoiceOf trace.now.run records who (eff.new behaviour node (val_of state.now)) c) }
{
    let born = trace.born();
    if born < 2048 {
        return Ok(Choice::GoesOn {
            step: Step::New {
                who,
                behaviour,
                node,
                state: state.copy()?,
            },
            reply: Value::Name(born),
        });
    }
    Ok(Choice::Ends {
        step: Step::Trap { who, code: 7 },
    })
}

/// An Ask, whose answer is whether the transactor is not free.
fn choice_of_ask(who: u32, is_free: bool) -> Choice
    ensures { (T : Run) (records : List StateRecord) → (IsTrue is_free ↔ Free T who (len T)) → IsChoiceOf T records who eff.ask result }
{
    Choice::GoesOn {
        step: Step::Ask {
            who,
            answer: !is_free,
        },
        reply: Value::Truth(!is_free),
    }
}

/// A Checkpoint where the transactor is free, and otherwise a Hold.
pub(crate) fn choice_of_checkpoint(who: u32, is_free: bool) -> Choice
    ensures { (T : Run) (records : List StateRecord) → (IsTrue is_free ↔ Free T who (len T)) → IsChoiceOf T records who eff.checkpoint result }
{
    if is_free {
        return Choice::Ends {
            step: Step::Checkpoint { who },
        };
    }
    Choice::Ends {
        step: Step::Hold { who },
    }
}

/// A Rollback where the transactor is volatile, and otherwise a Stay.
fn choice_of_rollback(who: u32, states: &States) -> Choice
    requires { who < length states.now.records }
    ensures { (T : Run) → IsChoiceOf T states.now.records who eff.rollback result }
{
    if states.is_stable(who) {
        return Choice::Ends {
            step: Step::Stay { who },
        };
    }
    Choice::Ends {
        step: Step::Rollback { who },
    }
}
