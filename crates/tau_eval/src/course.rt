//! A turn that is evaluated from effect to effect.
ghost use Rattle.std.specs.Prelude.{ℕ, List, true, ◌≡◌, ◌+◌, ◌<◌, ◌≤◌, Some, IsTrue, IfOk, IfErr, OnOk, map, length, slice_get, vec_len};
ghost use Rattle.tau_value.specs.Value.{val_of};
ghost use Rattle.tau_eval.specs.Eff.{has_reply as has_reply_by};
ghost use Rattle.tau_eval.specs.Effect.{eff_of};
ghost use Rattle.tau_eval.specs.Machine.{running, reached};
ghost use Rattle.tau_eval.specs.Course.{turn_of, setting_by, GoesOn, stated, IsPending};

use crate::Effect;
use crate::machine::{Focus, Machine};
use crate::settings::Setting;
use std::alloc::{AllocError, Global};
use tau_tree::Expr;
use tau_value::Value;

/// A turn: what it is of, its replies, how many of them the machine has used, and the machine.
#[derive(Drop)]
pub struct Course<'p> {
    pub body: &'p Expr,
    pub nodes: u32,
    pub who: u32,
    pub turn: u32,
    pub message: Value,
    pub replies: Vec<Value>,
    pub used: usize,
    pub machine: Machine<'p>,
    pub alloc: Global,
}

/// Where a turn stands.
#[derive(Drop)]
pub enum State<'p> {
    /// The machine is at work.
    Running(Focus<'p>),
    /// The machine has reached an effect.
    Reached(Effect),
}

impl<'p> Course<'p> {
    /// Goes on to the next effect. Without memory it answers where the turn stands.
    fn evaluate(&mut self, focus: Focus<'p>) -> Result<Effect, State<'p>>
        requires { GoesOn self.old (running self.old.machine (setting_by self.old) focus) }
        ensures ok { IfOk result (λ e. GoesOn self.new (reached self.new.machine (setting_by self.new) (eff_of e))) }
        ensures err { IfErr result (λ s. GoesOn self.new (stated self.new s)) }
        ensures turn { turn_of self.new ≡ turn_of self.old }
        ensures replies { self.new.replies ≡ self.old.replies }
        ensures used { self.new.used ≡ self.old.used }
    {
        let setting = Setting {
            nodes: self.nodes,
            own: self.who,
            message: &self.message,
            alloc: self.alloc,
        };
        match self.machine.run(setting, focus) {
            Ok(effect) => Ok(effect),
            Err(focus) => Err(State::Running(focus)),
        }
    }

    /// Uses the next reply to an effect.
    fn answer(&mut self, effect: Effect) -> Result<Effect, State<'p>>
        requires course { GoesOn self.old (reached self.old.machine (setting_by self.old) (eff_of effect)) }
        requires reply { has_reply_by (eff_of effect) ≡ true }
        requires left { self.old.used < length self.old.replies.items }
        ensures ok { IfOk result (λ e. GoesOn self.new (reached self.new.machine (setting_by self.new) (eff_of e))) }
        ensures err { IfErr result (λ s. GoesOn self.new (stated self.new s)) }
        ensures turn { turn_of self.new ≡ turn_of self.old }
        ensures replies { self.new.replies ≡ self.old.replies }
        ensures used { OnOk result (self.new.used ≡ self.old.used + 1) }
    {
        match self.replies[self.used].copy() {
            Ok(reply) => {
                self.used += 1;
                self.evaluate(Focus::Give(reply))
            }
            Err(_failed) => Err(State::Reached(effect)),
        }
    }

    /// Uses the replies that are left, as long as the effects have a reply.
    fn use_replies(&mut self, first: Effect) -> Result<Effect, State<'p>>
        requires { GoesOn self.old (reached self.old.machine (setting_by self.old) (eff_of first)) }
        ensures ok { IfOk result (λ e. GoesOn self.new (reached self.new.machine (setting_by self.new) (eff_of e))) }
        ensures settled { IfOk result (λ e. has_reply_by (eff_of e) ≡ true → length self.new.replies.items ≤ self.new.used) }
        ensures err { IfErr result (λ s. GoesOn self.new (stated self.new s)) }
        ensures turn { turn_of self.new ≡ turn_of self.old }
    {
        let mut effect = first;
        while effect.has_reply() && self.used < self.replies.len() {
            match self.answer(effect) {
                Ok(next) => effect = next,
                Err(state) => return Err(state),
            }
        }
        Ok(effect)
    }

    /// The effect that is reached first.
    fn arrive(&mut self, state: State<'p>) -> Result<Effect, State<'p>>
        requires { GoesOn self.old (stated self.old state) }
        ensures ok { IfOk result (λ e. GoesOn self.new (reached self.new.machine (setting_by self.new) (eff_of e))) }
        ensures err { IfErr result (λ s. GoesOn self.new (stated self.new s)) }
        ensures turn { turn_of self.new ≡ turn_of self.old }
    {
        match state {
            State::Running(focus) => self.evaluate(focus),
            State::Reached(effect) => Ok(effect),
        }
    }

    /// Goes on to the effect that comes after all replies, and takes the room for one more. Without memory it answers
    /// where the turn stands, which is the same turn.
    pub fn go(&mut self, state: State<'p>) -> Result<Effect, State<'p>>
        requires { GoesOn self.old (stated self.old state) }
        ensures ok { IfOk result (λ e. IsPending self.new e) }
        ensures err { IfErr result (λ s. GoesOn self.new (stated self.new s)) }
        ensures turn { turn_of self.new ≡ turn_of self.old }
    {
        match self.arrive(state) {
            Ok(first) => match self.use_replies(first) {
                Ok(effect) => self.settle(effect),
                Err(state) => Err(state),
            },
            Err(state) => Err(state),
        }
    }

    /// Takes the room for one more reply.
    fn settle(&mut self, effect: Effect) -> Result<Effect, State<'p>>
        requires course { GoesOn self.old (reached self.old.machine (setting_by self.old) (eff_of effect)) }
        requires settled { has_reply_by (eff_of effect) ≡ true → length self.old.replies.items ≤ self.old.used }
        ensures ok { IfOk result (λ e. IsPending self.new e) }
        ensures err { IfErr result (λ s. GoesOn self.new (stated self.new s)) }
        ensures turn { turn_of self.new ≡ turn_of self.old }
    {
        match self.replies.reserve(1) {
            Ok(()) => Ok(effect),
            Err(_failed) => Err(State::Reached(effect)),
        }
    }
}
