//! The rules that the body of a behaviour keeps.
ghost use Rattle.std.specs.Prelude.{◌≡◌, ◌↔◌, ◌≤◌, IsTrue, IfOk, OnOk};
ghost use Rattle.tau_tree.specs.Expr.{code_of, codes_of};
ghost use Rattle.tau_tree.specs.Code.{inside};
ghost use Rattle.tau_tree.specs.Parts.{depth_of, depth_of_all, arity as arity_of, IsBoundIn, AllBoundIn, Throughout, AllThroughout};
ghost use Rattle.tau_tree.specs.Checks.{KeepsRules};

use crate::expressions::Operation;
use crate::scopes::Scope;
use crate::{Expr, Exprs};
use std::alloc::AllocError;
use tau_value::is_name;

/// Whether an expression is printed with lists at most `room` deep. It looks no deeper.
#[cycle(shallow)]
#[tactic(auto, using(crate::proofs::ExprLemmas::codes))]
pub fn is_shallow(expr: &Expr, room: u32) -> bool
    ensures { IsTrue result ↔ (depth_of (code_of expr.now) ≤ room) }
{
    match expr {
        Expr::Unit
        | Expr::Truth(_)
        | Expr::Int(_)
        | Expr::Text(_)
        | Expr::Msg
        | Expr::Own
        | Expr::Var(_) => true,
        Expr::Start(_)
        | Expr::Get
        | Expr::Stabilize
        | Expr::Checkpoint
        | Expr::Rollback
        | Expr::Dependent => room >= 1,
        Expr::List(items) | Expr::Seq(items) | Expr::Apply { args: items, .. } => {
            room >= 1 && are_shallow(items, room - 1)
        }
        Expr::Let {
            value: one,
            body: two,
            ..
        }
        | Expr::Send {
            to: one,
            value: two,
        }
        | Expr::New {
            node: one,
            state: two,
            ..
        } => room >= 1 && is_shallow(one, room - 1) && is_shallow(two, room - 1),
        Expr::If { test, yes, no } => {
            room >= 1
                && is_shallow(test, room - 1)
                && is_shallow(yes, room - 1)
                && is_shallow(no, room - 1)
        }
        Expr::Fold {
            list,
            first,
            body,
            ..
        } => {
            room >= 2
                && is_shallow(list, room - 1)
                && is_shallow(first, room - 1)
                && is_shallow(body, room - 1)
        }
        Expr::Set(value) => room >= 1 && is_shallow(value, room - 1),
    }
}

#[cycle(shallow)]
fn are_shallow(exprs: &Exprs, room: u32) -> bool
    ensures { IsTrue result ↔ (depth_of_all (inside (codes_of exprs.now)) ≤ room) }
{
    for item in &exprs.items {
        if !is_shallow(item, room) {
            return false;
        }
    }
    true
}

/// Whether each variable in an expression is one of the scope's or is bound around it (docs/language.md, "Expressions").
/// On `Ok` the scope is as it was. The error is want of memory.
#[cycle(bound)]
#[tactic(auto, using(crate::proofs::ExprLemmas::codes))]
pub fn is_bound<'p>(expr: &'p Expr, scope: &mut Scope<'p>) -> Result<bool, AllocError>
    ensures value { IfOk result (λ b. IsTrue b ↔ IsBoundIn scope.old (code_of expr.entry.now)) }
    ensures scope { OnOk result (scope.new ≡ scope.old) }
{
    match expr {
        Expr::Unit
        | Expr::Truth(_)
        | Expr::Int(_)
        | Expr::Text(_)
        | Expr::Msg
        | Expr::Own
        | Expr::Start(_)
        | Expr::Get
        | Expr::Stabilize
        | Expr::Checkpoint
        | Expr::Rollback
        | Expr::Dependent => Ok(true),
        Expr::Var(name) => Ok(scope.has(name)),
        Expr::List(items) | Expr::Seq(items) | Expr::Apply { args: items, .. } => {
            are_bound(items, scope)
        }
        Expr::Let { name, value, body } => {
            if !is_bound(value, scope)? {
                return Ok(false);
            }
            scope.bind(name)?;
            let bound = is_bound(body, scope)?;
            scope.unbind();
            Ok(bound)
        }
        Expr::If { test, yes, no } => {
            if !is_bound(test, scope)? || !is_bound(yes, scope)? {
                return Ok(false);
            }
            is_bound(no, scope)
        }
        Expr::Fold {
            list,
            first,
            sum,
            item,
            body,
        } => {
            if !is_bound(list, scope)? || !is_bound(first, scope)? {
                return Ok(false);
            }
            scope.bind(sum)?;
            scope.bind(item)?;
            let bound = is_bound(body, scope)?;
            scope.unbind();
            scope.unbind();
            Ok(bound)
        }
        Expr::Set(value) => is_bound(value, scope),
        Expr::Send {
            to: one,
            value: two,
        }
        | Expr::New {
            node: one,
            state: two,
            ..
        } => {
            if !is_bound(one, scope)? {
                return Ok(false);
            }
            is_bound(two, scope)
        }
    }
}

#[cycle(bound)]
fn are_bound<'p>(exprs: &'p Exprs, scope: &mut Scope<'p>) -> Result<bool, AllocError>
    ensures value { IfOk result (λ b. IsTrue b ↔ AllBoundIn scope.old (inside (codes_of exprs.entry.now))) }
    ensures scope { OnOk result (scope.new ≡ scope.old) }
{
    for item in &exprs.items {
        if !is_bound(item, scope)? {
            return Ok(false);
        }
    }
    Ok(true)
}

/// Whether an expression and all its parts keep the rules that `keeps_rules` tests.
#[cycle(regular)]
#[tactic(auto, using(crate::proofs::ExprLemmas::codes))]
pub fn is_regular(expr: &Expr, starts: u32, behaviours: u32) -> bool
    ensures { IsTrue result ↔ Throughout (KeepsRules starts behaviours) (code_of expr.now) }
{
    if !keeps_rules(expr, starts, behaviours) {
        return false;
    }
    match expr {
        Expr::Unit
        | Expr::Truth(_)
        | Expr::Int(_)
        | Expr::Text(_)
        | Expr::Msg
        | Expr::Own
        | Expr::Var(_)
        | Expr::Start(_)
        | Expr::Get
        | Expr::Stabilize
        | Expr::Checkpoint
        | Expr::Rollback
        | Expr::Dependent => true,
        Expr::List(items) | Expr::Seq(items) | Expr::Apply { args: items, .. } => {
            are_regular(items, starts, behaviours)
        }
        Expr::Let {
            value: one,
            body: two,
            ..
        }
        | Expr::Send {
            to: one,
            value: two,
        }
        | Expr::New {
            node: one,
            state: two,
            ..
        } => is_regular(one, starts, behaviours) && is_regular(two, starts, behaviours),
        Expr::If {
            test: one,
            yes: two,
            no: three,
        }
        | Expr::Fold {
            list: one,
            first: two,
            body: three,
            ..
        } => {
            is_regular(one, starts, behaviours)
                && is_regular(two, starts, behaviours)
                && is_regular(three, starts, behaviours)
        }
        Expr::Set(value) => is_regular(value, starts, behaviours),
    }
}

#[cycle(regular)]
fn are_regular(exprs: &Exprs, starts: u32, behaviours: u32) -> bool
    ensures { IsTrue result ↔ AllThroughout (KeepsRules starts behaviours) (inside (codes_of exprs.now)) }
{
    for item in &exprs.items {
        if !is_regular(item, starts, behaviours) {
            return false;
        }
    }
    true
}

/// Whether an expression, its parts aside, names starts and behaviours that exist, gives variables names, gives an operation
/// its number of arguments and a seq an item, has two names in a fold, and has a text in bounds.
#[tactic(auto, using(crate::proofs::ExprLemmas::codes))]
fn keeps_rules(expr: &Expr, starts: u32, behaviours: u32) -> bool
    ensures { IsTrue result ↔ KeepsRules starts behaviours (code_of expr.now) }
{
    match expr {
        Expr::Text(text) => text.len() <= 65_535,
        Expr::Var(name) | Expr::Let { name, .. } => is_name(name),
        Expr::Start(number) => *number < starts,
        Expr::Seq(items) => !items.is_empty(),
        Expr::Fold { sum, item, .. } => is_name(sum) && is_name(item) && !sum.same(item),
        Expr::Apply { prim, args } => args.len() == arity(*prim),
        Expr::New { behaviour, .. } => *behaviour < behaviours,
        Expr::Unit
        | Expr::Truth(_)
        | Expr::Int(_)
        | Expr::Msg
        | Expr::Own
        | Expr::List(_)
        | Expr::If { .. }
        | Expr::Get
        | Expr::Set(_)
        | Expr::Send { .. }
        | Expr::Stabilize
        | Expr::Checkpoint
        | Expr::Rollback
        | Expr::Dependent => true,
    }
}

/// How many arguments an operation has.
fn arity(prim: Operation) -> usize
    ensures { result ≡ arity_of prim }
{
    match prim {
        Operation::Not | Operation::Len => 1,
        _ => 2,
    }
}
