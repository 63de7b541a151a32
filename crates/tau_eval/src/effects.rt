//! Effects: what the evaluation of a behaviour stops at.
ghost use Rattle.std.specs.Prelude.{◌≡◌, IfOk};
ghost use Rattle.tau_eval.specs.Eff.{has_reply as has_reply_by};
ghost use Rattle.tau_eval.specs.Effect.{eff_of};

use std::alloc::AllocError;
use tau_value::Value;

/// What comes next in a turn (docs/language.md, "Expressions"). Get, Set, Send, New, Stabilize and Ask have a reply;
/// the others end the turn. Contracts see it as plain data, `eff_of`.
#[derive(Drop)]
pub enum Effect {
    Get,
    /// The new state.
    Set(Value),
    /// The receiver, by its number, and the value.
    Send(u32, Value),
    /// A transactor of this behaviour on this node, both by their numbers.
    New {
        behaviour: u32,
        node: u32,
        state: Value,
    },
    Stabilize,
    Checkpoint,
    Rollback,
    Ask,
    Done,
    /// The code (docs/language.md, "Traps").
    Trap(u8),
}

impl Effect {
    /// An equal effect. The error is want of memory.
    pub fn copy(&self) -> Result<Effect, AllocError>
        ensures { IfOk result (λ e. e ≡ self.now) }
    {
        Ok(match self {
            Effect::Get => Effect::Get,
            Effect::Set(value) => Effect::Set(value.copy()?),
            Effect::Send(to, value) => Effect::Send(*to, value.copy()?),
            Effect::New {
                behaviour,
                node,
                state,
            } => Effect::New {
                behaviour: *behaviour,
                node: *node,
                state: state.copy()?,
            },
            Effect::Stabilize => Effect::Stabilize,
            Effect::Checkpoint => Effect::Checkpoint,
            Effect::Rollback => Effect::Rollback,
            Effect::Ask => Effect::Ask,
            Effect::Done => Effect::Done,
            Effect::Trap(code) => Effect::Trap(*code),
        })
    }

    /// Whether the effect has a reply. After one that has none the turn ends.
    pub fn has_reply(&self) -> bool
        ensures { result ≡ has_reply_by (eff_of self.now) }
    {
        match self {
            Effect::Get
            | Effect::Set(_)
            | Effect::Send(_, _)
            | Effect::New { .. }
            | Effect::Stabilize
            | Effect::Ask => true,
            Effect::Checkpoint | Effect::Rollback | Effect::Done | Effect::Trap(_) => false,
        }
    }
}
