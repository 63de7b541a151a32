//! The plain evaluator: the rules of docs/language.md as a recursion that begins with the body each time. Its answers
//! stand beside those of jobs.
use crate::operations::{bounded, of_one, of_two, push_value, trap};
use std::alloc::{AllocError, Global};
use std::mem;
use tau_eval::Effect;
use tau_sexpr::Word;
use tau_tree::{Expr, Exprs, Prim};
use tau_value::{Value, Values};

/// Why an evaluation ends without a value.
#[derive(Clone, Copy)]
pub enum Stop {
    /// The effect is kept beside the evaluation.
    AtEffect,
    Trap(u8),
    NoMemory,
}

impl From<AllocError> for Stop {
    fn from(_error: AllocError) -> Stop {
        Stop::NoMemory
    }
}

#[derive(Drop)]
struct Binding<'p> {
    name: &'p Word,
    value: Value,
}

/// What a body is evaluated with, and how far the evaluation has come.
#[derive(Drop)]
pub struct Plain<'p> {
    nodes: u32,
    own: u32,
    message: &'p Value,
    replies: &'p [Value],
    used: usize,
    count: u32,
    bindings: Vec<Binding<'p>>,
    stopped: Option<Effect>,
    alloc: Global,
}

/// The names and the body of a fold.
#[derive(Clone, Copy)]
struct Round<'p> {
    sum: &'p Word,
    item: &'p Word,
    body: &'p Expr,
}

/// The effect that comes after these replies. The error is want of memory.
pub fn next<'p>(
    alloc: Global,
    nodes: u32,
    own: u32,
    body: &'p Expr,
    message: &'p Value,
    replies: &'p [Value],
) -> Result<Effect, AllocError> {
    let mut plain = Plain {
        nodes,
        own,
        message,
        replies,
        used: 0,
        count: 0,
        bindings: Vec::new(alloc),
        stopped: None,
        alloc,
    };
    let answer = plain.value(body, 400);
    let stopped = plain.stopped.take();
    drop(plain);
    match answer {
        Ok(value) => {
            drop(value);
            drop(stopped);
            Ok(Effect::Done)
        }
        Err(stop) => effect_of(stop, stopped),
    }
}

/// The effect at which an evaluation stopped: the one that it keeps, or a trap.
fn effect_of(stop: Stop, stopped: Option<Effect>) -> Result<Effect, AllocError> {
    match stopped {
        Some(effect) => Ok(effect),
        None => match stop {
            Stop::Trap(code) => Ok(Effect::Trap(code)),
            _ => Err(AllocError),
        },
    }
}

impl<'p> Plain<'p> {
    /// The value of an expression at most `depth` deep.
    #[cycle(value)]
    fn value(&mut self, expr: &'p Expr, depth: u32) -> Result<Value, Stop> {
        if self.count >= 100_000 || depth == 0 {
            return trap(6);
        }
        self.count += 1;
        let below = depth - 1;
        match expr {
            Expr::List(items) => self.list(items, below),
            Expr::Let { name, value, body } => self.bound(name, value, body, below),
            Expr::If { test, yes, no } => self.choice(test, yes, no, below),
            Expr::Seq(items) => self.seq(items, below),
            Expr::Fold {
                list,
                first,
                sum,
                item,
                body,
            } => self.fold(list, first, Round { sum, item, body }, below),
            Expr::Apply { prim, args } => self.apply(*prim, args, below),
            Expr::Set(value) => self.set(value, below),
            Expr::Send { to, value } => self.send(to, value, below),
            Expr::New {
                behaviour,
                node,
                state,
            } => self.create(*behaviour, node, state, below),
            _ => self.plain_value(expr),
        }
    }

    /// The value of an expression without parts.
    fn plain_value(&mut self, expr: &'p Expr) -> Result<Value, Stop> {
        match expr {
            Expr::Get => self.reply(Effect::Get),
            Expr::Stabilize => self.reply(Effect::Stabilize),
            Expr::Dependent => self.reply(Effect::Ask),
            Expr::Checkpoint => self.stop(Effect::Checkpoint),
            Expr::Rollback => self.stop(Effect::Rollback),
            Expr::Var(name) => self.variable(name),
            _ => self.constant(expr),
        }
    }

    /// The value of an expression that is the same throughout the turn; unit for others.
    fn constant(&self, expr: &Expr) -> Result<Value, Stop> {
        match expr {
            Expr::Truth(truth) => Ok(Value::Truth(*truth)),
            Expr::Int(number) => Ok(Value::Int(*number)),
            Expr::Text(text) => Ok(Value::Text(text.copy()?)),
            Expr::Msg => Ok(self.message.copy()?),
            Expr::Own => Ok(Value::Name(self.own)),
            Expr::Start(number) => Ok(Value::Name(*number)),
            _ => Ok(Value::Unit),
        }
    }

    /// The nearest variable of a name.
    fn variable(&self, name: &Word) -> Result<Value, Stop> {
        for binding in self.bindings.iter().rev() {
            if binding.name.same(name) {
                return Ok(binding.value.copy()?);
            }
        }
        Ok(Value::Unit)
    }

    /// The next reply; without one the evaluation ends at the effect.
    fn reply(&mut self, effect: Effect) -> Result<Value, Stop> {
        match self.next_reply() {
            Ok(Some(reply)) => {
                drop(effect);
                Ok(reply)
            }
            Ok(None) => self.stop(effect),
            Err(_failed) => {
                drop(effect);
                Err(Stop::NoMemory)
            }
        }
    }

    /// Keeps the effect at which the evaluation ends.
    fn stop(&mut self, effect: Effect) -> Result<Value, Stop> {
        drop(mem::replace(&mut self.stopped, Some(effect)));
        Err(Stop::AtEffect)
    }

    fn next_reply(&mut self) -> Result<Option<Value>, AllocError> {
        let Some(reply) = self.replies.get(self.used) else {
            return Ok(None);
        };
        self.used = self.used.saturating_add(1);
        Ok(Some(reply.copy()?))
    }

    fn bind(&mut self, name: &'p Word, value: Value) -> Result<(), Stop> {
        match self.bindings.push(Binding { name, value }) {
            Ok(()) => Ok(()),
            Err(_failed) => Err(Stop::NoMemory),
        }
    }

    #[cycle(value)]
    fn list(&mut self, items: &'p Exprs, depth: u32) -> Result<Value, Stop> {
        let mut values = Values::new(self.alloc);
        self.push_values(&mut values, items, depth)?;
        bounded(Value::List(values))
    }

    /// Adds the values of expressions to a list.
    #[cycle(value)]
    fn push_values(
        &mut self,
        values: &mut Values,
        items: &'p Exprs,
        depth: u32,
    ) -> Result<(), Stop> {
        for item in items.items() {
            push_value(values, self.value(item, depth)?)?;
        }
        Ok(())
    }

    #[cycle(value)]
    fn bound(
        &mut self,
        name: &'p Word,
        value: &'p Expr,
        body: &'p Expr,
        depth: u32,
    ) -> Result<Value, Stop> {
        let value = self.value(value, depth)?;
        let height = self.bindings.len();
        self.bind(name, value)?;
        let value = self.value(body, depth)?;
        self.bindings.truncate(height);
        Ok(value)
    }

    #[cycle(value)]
    fn seq(&mut self, items: &'p Exprs, depth: u32) -> Result<Value, Stop> {
        let mut last = Value::Unit;
        for item in items.items() {
            drop(last);
            last = self.value(item, depth)?;
        }
        Ok(last)
    }

    #[cycle(value)]
    fn fold(
        &mut self,
        list: &'p Expr,
        first: &'p Expr,
        round: Round<'p>,
        depth: u32,
    ) -> Result<Value, Stop> {
        let list = self.value(list, depth)?;
        let folded = self.fold_list(&list, first, round, depth);
        drop(list);
        folded
    }

    /// The fold of a value that is to be a list.
    #[cycle(value)]
    fn fold_list(
        &mut self,
        list: &Value,
        first: &'p Expr,
        round: Round<'p>,
        depth: u32,
    ) -> Result<Value, Stop> {
        let sum = self.value(first, depth)?;
        match list {
            Value::List(items) => self.fold_items(items, sum, round, depth),
            _ => trap(1),
        }
    }

    /// The fold of items, from a first sum on.
    #[cycle(value)]
    fn fold_items(
        &mut self,
        items: &Values,
        first: Value,
        round: Round<'p>,
        depth: u32,
    ) -> Result<Value, Stop> {
        let height = self.bindings.len();
        let mut sum = first;
        for item in items.items() {
            self.bind(round.sum, sum)?;
            self.bind(round.item, item.copy()?)?;
            sum = self.value(round.body, depth)?;
            self.bindings.truncate(height);
        }
        Ok(sum)
    }

    #[cycle(value)]
    fn apply(&mut self, prim: Prim, args: &'p Exprs, depth: u32) -> Result<Value, Stop> {
        let Some(first) = args.item(0) else {
            return trap(1);
        };
        let one = self.value(first, depth)?;
        match args.item(1) {
            Some(second) => {
                let two = self.value(second, depth)?;
                of_two(self.alloc, prim, one, two)
            }
            None => of_one(prim, one),
        }
    }

    #[cycle(value)]
    fn choice(
        &mut self,
        test: &'p Expr,
        yes: &'p Expr,
        no: &'p Expr,
        depth: u32,
    ) -> Result<Value, Stop> {
        match self.value(test, depth)? {
            Value::Truth(true) => self.value(yes, depth),
            Value::Truth(false) => self.value(no, depth),
            _ => trap(1),
        }
    }

    #[cycle(value)]
    fn set(&mut self, value: &'p Expr, depth: u32) -> Result<Value, Stop> {
        let value = self.value(value, depth)?;
        self.reply(Effect::Set(value))
    }

    #[cycle(value)]
    fn send(&mut self, to: &'p Expr, value: &'p Expr, depth: u32) -> Result<Value, Stop> {
        let to = receiver_of(self.value(to, depth)?);
        let value = self.value(value, depth)?;
        match to {
            Some(number) => self.reply(Effect::Send(number, value)),
            None => {
                drop(value);
                trap(1)
            }
        }
    }

    #[cycle(value)]
    fn create(
        &mut self,
        behaviour: u32,
        node: &'p Expr,
        state: &'p Expr,
        depth: u32,
    ) -> Result<Value, Stop> {
        let node = node_of(self.value(node, depth)?, self.nodes);
        let state = self.value(state, depth)?;
        match node {
            Ok(node) => self.reply(Effect::New {
                behaviour,
                node,
                state,
            }),
            Err(code) => {
                drop(state);
                trap(code)
            }
        }
    }
}

/// The transactor that a value names; `None` where it is no name.
fn receiver_of(value: Value) -> Option<u32> {
    let receiver = match &value {
        Value::Name(number) => Some(*number),
        _ => None,
    };
    drop(value);
    receiver
}

/// The node that a value names, below the number of nodes; or the code of a trap.
fn node_of(value: Value, nodes: u32) -> Result<u32, u8> {
    let node = match &value {
        Value::Int(integer) => match u32::try_from(*integer) {
            Ok(node) if node < nodes => Ok(node),
            _ => Err(8),
        },
        _ => Err(1),
    };
    drop(value);
    node
}
