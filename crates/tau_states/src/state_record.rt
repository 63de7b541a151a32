//! What the steps so far say of one transactor.
ghost use Rattle.std.specs.Prelude.{◌≡◌, IfOk};
ghost use Rattle.tau_states.specs.Effects.{effected, record_after, started, created};

use crate::change::Effect;
use std::alloc::AllocError;
use tau_trace::Step;
use tau_value::Value;

/// What the steps so far say of one transactor (docs/definitions.md, "State and saved state"): its interval, whether it
/// is stable, whether it has ended, its state at its point, and its base, the value to which it falls back. That is
/// what it saved with the interval before, or at interval 0 the state that its New gave.
#[derive(Drop)]
pub struct StateRecord {
    pub interval: u32,
    pub stable: bool,
    pub ended: bool,
    pub state: Value,
    pub base: Value,
}

impl StateRecord {
    /// A start transactor with its opening state, which is also what it saved with interval 0.
    pub(crate) fn start(state: &Value) -> Result<StateRecord, AllocError>
        ensures { IfOk result (λ r. r ≡ started state.now) }
    {
        Ok(StateRecord {
            interval: 1,
            stable: false,
            ended: false,
            state: state.copy()?,
            base: state.copy()?,
        })
    }

    /// A transactor right after its New; both values are the state that New gave.
    pub(crate) fn created(state: Value, base: Value) -> StateRecord
        ensures { result ≡ created state base }
    {
        StateRecord {
            interval: 0,
            stable: false,
            ended: false,
            state,
            base,
        }
    }

    /// What a step of the transactor's own changes in its record (docs/rules.md, "Steps").
    pub(crate) fn effect_of(&self, step: &Step) -> Result<Effect, AllocError>
        ensures { IfOk result (λ e. effected e self.now ≡ record_after step.now self.now) }
    {
        match step {
            Step::Set { value, .. } => Ok(Effect::Set {
                state: value.copy()?,
            }),
            Step::Stabilize { .. } => Ok(Effect::Stabilize),
            Step::Checkpoint { .. } => Ok(Effect::Checkpoint {
                base: self.state.copy()?,
            }),
            Step::Fall { .. } | Step::Rollback { .. } => Ok(Effect::Fall {
                state: self.base.copy()?,
            }),
            Step::Trap { .. } | Step::Fail { .. } => {
                if self.stable {
                    return Ok(Effect::Nothing);
                }
                Ok(Effect::Fall {
                    state: self.base.copy()?,
                })
            }
            _ => Ok(Effect::Nothing),
        }
    }

    /// Takes the effect of a step.
    pub(crate) fn take(&mut self, effect: Effect)
        ensures { self.new ≡ effected effect self.old }
    {
        match effect {
            Effect::Nothing => {}
            Effect::Set { state } => self.state = state,
            Effect::Stabilize => self.stable = true,
            Effect::Checkpoint { base } => {
                self.interval = self.interval.saturating_add(1);
                self.stable = false;
                self.base = base;
            }
            Effect::Fall { state } => {
                self.ended = self.ended || self.interval == 0;
                self.stable = false;
                self.state = state;
            }
        }
    }
}
