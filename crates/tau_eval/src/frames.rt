//! What is left to do once the value of a part of an expression has come.
use crate::Effect;
use tau_sexpr::Word;
use tau_tree::{Expr, Prim};
use tau_value::{Value, Values};

/// What a fold does for each item: the names that it binds, and its body.
#[derive(Clone, Copy)]
pub struct Round<'p> {
    pub sum: &'p Word,
    pub item: &'p Word,
    pub body: &'p Expr,
}

/// What is left of an expression that waits for the value of one of its parts.
#[derive(Drop)]
pub enum Frame<'p> {
    /// Of a let: the value is bound in the body.
    Bind {
        name: &'p Word,
        body: &'p Expr,
    },
    /// Of a let: the scope is cut back to this many variables.
    Leave {
        height: usize,
    },
    /// Of an if, whose test comes.
    Choose {
        yes: &'p Expr,
        no: &'p Expr,
    },
    /// Of a seq: the rest follows.
    Last {
        rest: &'p [Expr],
    },
    /// Of a list: the values so far, and the rest of its expressions.
    Gather {
        values: Values,
        rest: &'p [Expr],
    },
    /// Of a fold, whose list comes.
    First {
        first: &'p Expr,
        round: Round<'p>,
    },
    /// Of a fold, whose first value comes.
    Start {
        list: Value,
        round: Round<'p>,
    },
    /// Of a fold, whose sum comes: the scope is cut back, and the next item follows.
    Next {
        height: usize,
        list: Values,
        next: usize,
        round: Round<'p>,
    },
    /// Of an operation on one value.
    One {
        prim: Prim,
    },
    /// Of an operation on two values, whose left one comes.
    Left {
        prim: Prim,
        right: &'p Expr,
    },
    /// Of an operation on two values, whose right one comes.
    Right {
        prim: Prim,
        left: Value,
    },
    /// Of a set.
    State,
    /// Of a send, whose receiver comes.
    To {
        value: &'p Expr,
    },
    /// Of a send, whose value comes.
    Sent {
        to: Value,
    },
    /// Of a new, whose node comes.
    Node {
        behaviour: u32,
        state: &'p Expr,
    },
    /// Of a new, whose state comes.
    Created {
        behaviour: u32,
        node: Value,
    },
}

/// How an evaluation goes on.
#[derive(Drop)]
pub enum Progress<'p> {
    /// The value has come.
    Value(Value),
    /// A part is evaluated first, and the frame goes on with its value.
    Part { frame: Frame<'p>, part: &'p Expr },
    /// The value is that of another expression.
    Whole(&'p Expr),
    /// The evaluation stops.
    Stop(Effect),
}
