//! Expressions, made of their parts.
ghost use Rattle.std.specs.Prelude.{◌≡◌, [], ◌∷◌, IfOk};
ghost use Rattle.tau_tree.specs.Code.{if_else, set as set_code, send as send_code};
ghost use Rattle.tau_tree.specs.Expr.{code_of, codes_of};
ghost use Rattle.tau_gen.specs.Hop.{of_two};

use std::alloc::{AllocError, Global};
use tau_tree::{Expr, Exprs, Prim};

fn boxed(alloc: Global, expr: Expr) -> Result<Box<Expr>, AllocError>
    ensures { IfOk result (λ b. code_of b.value ≡ code_of expr) }
{
    Ok(Box::new(alloc, expr)?)
}

/// A list of two expressions.
pub(crate) fn pair(alloc: Global, one: Expr, two: Expr) -> Result<Exprs, AllocError>
    ensures { IfOk result (λ es. codes_of es ≡ code_of one ∷ code_of two ∷ []) }
{
    let mut exprs = Exprs::with_capacity(alloc, 2)?;
    exprs.add(one)?;
    exprs.add(two)?;
    Ok(exprs)
}

/// An operation on two expressions.
#[tactic(auto, using(tau_tree::proofs::ExprLemmas::codes))]
pub(crate) fn apply(alloc: Global, prim: Prim, one: Expr, two: Expr) -> Result<Expr, AllocError>
    ensures { IfOk result (λ e. code_of e ≡ of_two prim (code_of one) (code_of two)) }
{
    let args = pair(alloc, one, two)?;
    Ok(Expr::Apply { prim, args })
}

/// `(if e e e)`.
#[tactic(auto, using(tau_tree::proofs::ExprLemmas::codes))]
pub(crate) fn choice(alloc: Global, test: Expr, yes: Expr, no: Expr) -> Result<Expr, AllocError>
    ensures { IfOk result (λ e. code_of e ≡ if_else (code_of test) (code_of yes) (code_of no)) }
{
    Ok(Expr::If {
        test: boxed(alloc, test)?,
        yes: boxed(alloc, yes)?,
        no: boxed(alloc, no)?,
    })
}

/// `(set e)`.
#[tactic(auto, using(tau_tree::proofs::ExprLemmas::codes))]
pub(crate) fn set(alloc: Global, value: Expr) -> Result<Expr, AllocError>
    ensures { IfOk result (λ e. code_of e ≡ set_code (code_of value)) }
{
    Ok(Expr::Set(boxed(alloc, value)?))
}

/// `(send e e)`.
#[tactic(auto, using(tau_tree::proofs::ExprLemmas::codes))]
pub(crate) fn send(alloc: Global, to: Expr, value: Expr) -> Result<Expr, AllocError>
    ensures { IfOk result (λ e. code_of e ≡ send_code (code_of to) (code_of value)) }
{
    Ok(Expr::Send {
        to: boxed(alloc, to)?,
        value: boxed(alloc, value)?,
    })
}
