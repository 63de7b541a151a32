//! The body of `hop`, the one behaviour of a generated program (docs/formats.md, "Generated programs").
ghost use Rattle.std.specs.Prelude.{◌≡◌, IfOk};
ghost use Rattle.tau_tree.specs.Expr.{code_of};
ghost use Rattle.tau_gen.specs.Hop.{all_starts as starts_code, at_multiples as multiples_code, hop_body as body_code, last_hop as last_code, other_hop as other_code, pass_on as passing_code};

use crate::expressions::{apply, choice, pair, send, set};
use std::alloc::{AllocError, Global};
use tau_tree::{Expr, Exprs, Prim};

/// The whole body. The error is want of memory.
#[tactic(auto, using(tau_tree::proofs::ExprLemmas::codes), unfolding(crate::specs::Hop::hop_body))]
pub(crate) fn hop_body(alloc: Global) -> Result<Expr, AllocError>
    ensures { IfOk result (λ e. code_of e ≡ body_code) }
{
    let none_left = apply(alloc, Prim::Less, Expr::Msg, Expr::Int(1))?;
    choice(alloc, none_left, last_hop(alloc)?, other_hop(alloc)?)
}

/// `(seq (stabilize) (checkpoint))`.
#[tactic(auto, using(tau_tree::proofs::ExprLemmas::codes))]
fn last_hop(alloc: Global) -> Result<Expr, AllocError>
    ensures { IfOk result (λ e. code_of e ≡ last_code) }
{
    Ok(Expr::Seq(pair(alloc, Expr::Stabilize, Expr::Checkpoint)?))
}

/// `(seq e e e e)`, where the message isn't below 1.
#[tactic(auto, using(tau_tree::proofs::ExprLemmas::codes), unfolding(crate::specs::Hop::other_hop))]
fn other_hop(alloc: Global) -> Result<Expr, AllocError>
    ensures { IfOk result (λ e. code_of e ≡ other_code) }
{
    let sum = apply(alloc, Prim::Add, Expr::Get, Expr::Msg)?;
    let mut exprs = Exprs::new(alloc);
    exprs.add(at_multiples(alloc, 3, set(alloc, sum)?)?)?;
    exprs.add(at_multiples(alloc, 5, Expr::Stabilize)?)?;
    exprs.add(at_multiples(alloc, 11, Expr::Rollback)?)?;
    exprs.add(pass_on(alloc)?)?;
    Ok(Expr::Seq(exprs))
}

/// `(if (= (% msg NUMBER) 0) e unit)`.
#[tactic(auto, using(tau_tree::proofs::ExprLemmas::codes))]
fn at_multiples(alloc: Global, number: i64, yes: Expr) -> Result<Expr, AllocError>
    ensures { IfOk result (λ e. code_of e ≡ multiples_code number (code_of yes)) }
{
    let rest = apply(alloc, Prim::Rem, Expr::Msg, Expr::Int(number))?;
    let divides = apply(alloc, Prim::Same, rest, Expr::Int(0))?;
    choice(alloc, divides, yes, Expr::Unit)
}

/// `(send (at L (% (* msg 5) 16)) (- msg 1))`, where L is the list of all starts.
#[tactic(auto, using(tau_tree::proofs::ExprLemmas::codes))]
fn pass_on(alloc: Global) -> Result<Expr, AllocError>
    ensures { IfOk result (λ e. code_of e ≡ passing_code) }
{
    let product = apply(alloc, Prim::Mul, Expr::Msg, Expr::Int(5))?;
    let place = apply(alloc, Prim::Rem, product, Expr::Int(16))?;
    let to = apply(alloc, Prim::Item, all_starts(alloc)?, place)?;
    let less = apply(alloc, Prim::Sub, Expr::Msg, Expr::Int(1))?;
    send(alloc, to, less)
}

/// `(list (name t0) .. (name t15))`, in order.
#[tactic(auto, using(tau_tree::proofs::ExprLemmas::codes), unfolding(crate::specs::Hop::all_starts))]
fn all_starts(alloc: Global) -> Result<Expr, AllocError>
    ensures { IfOk result (λ e. code_of e ≡ starts_code) }
{
    let mut exprs = Exprs::new(alloc);
    for number in 0..16 {
        exprs.add(Expr::Start(number))?;
    }
    Ok(Expr::List(exprs))
}
