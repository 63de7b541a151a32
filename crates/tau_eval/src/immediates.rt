//! Operations on integers that are at hand: literals, the message and variables. They take no frame.
ghost use Rattle.std.specs.Prelude.{ℕ, List, [], ◌∷◌, ◌≡◌, ◌+◌, ◌≤◌, IfSome, map, Bool};
ghost use Rattle.tau_value.specs.Val.{Val, int, truth};
ghost use Rattle.tau_value.specs.Value.{val_of};
ghost use Rattle.tau_tree.specs.Expr.{code_of};
ghost use Rattle.tau_eval.specs.Answered.{answer_of};
ghost use Rattle.tau_eval.specs.Operations.{of_two as two_by};
ghost use Rattle.tau_eval.specs.Outcome.{finished};
ghost use Rattle.tau_eval.specs.Meaning.{meaning};
ghost use Rattle.tau_eval.specs.Settings.{setting_of};
ghost use Rattle.tau_eval.specs.Immediates.{Reads, GoesTo, Finishes, FinishesWith};

use crate::arguments::{Arguments, arguments_of};
use crate::operations::{Answer, of_integers};
use crate::scopes::Scope;
use crate::settings::Setting;
use tau_tree::{Expr, Prim};
use tau_value::Value;

/// The integer that a value is; `None` for another kind.
#[inline(always)]
pub fn integer_in(value: &Value) -> Option<i64>
    ensures { IfSome result (λ z. val_of value.now ≡ int z) }
{
    match value {
        Value::Int(number) => Some(*number),
        _ => None,
    }
}

/// The integer that a literal, the message or a variable is; `None` for another value and for another expression.
#[tactic(auto, using(tau_tree::proofs::ExprLemmas::codes))]
#[inline(always)]
fn integer_at(expr: &Expr, setting: Setting<'_>, scope: &Scope<'_>) -> Option<i64>
    ensures { IfSome result (λ z. Reads (code_of expr.now) (setting_of setting.entry) scope.now (int z)) }
{
    match expr {
        Expr::Int(number) => Some(*number),
        Expr::Msg => integer_in(setting.message),
        Expr::Var(name) => match scope.find(name) {
            Some(value) => integer_in(value),
            None => None,
        },
        _ => None,
    }
}

/// What an operation that takes two integers gives for them; `None` for another operation.
#[tactic(auto, using(crate::proofs::SameLemmas::same_values_is))]
#[inline(always)]
pub fn of_two_integers(prim: Prim, one: i64, two: i64) -> Option<Answer>
    ensures { IfSome result (λ a. answer_of a ≡ two_by prim (int one) (int two)) }
{
    match prim {
        Prim::Add | Prim::Sub | Prim::Mul | Prim::Div | Prim::Rem | Prim::Less => {
            Some(of_integers(prim, one, two))
        }
        Prim::Same => Some(Answer::Value(Value::Truth(one == two))),
        Prim::Not | Prim::Len | Prim::Item | Prim::Push | Prim::Cat => None,
    }
}

/// What an operation gives whose two parts are integers at hand; `None` for another expression. It counts three
/// evaluations.
#[tactic(auto, using(tau_tree::proofs::ExprLemmas::codes))]
pub fn operation_at(expr: &Expr, setting: Setting<'_>, scope: &Scope<'_>) -> Option<Answer>
    ensures { IfSome result (λ a. Finishes (code_of expr.now) (setting_of setting.entry) scope.now 3 (answer_of a)) }
{
    let Expr::Apply { prim, args } = expr else {
        return None;
    };
    let Arguments::Two(left, right) = arguments_of(args) else {
        return None;
    };
    let one = integer_at(left, setting, scope)?;
    let two = integer_at(right, setting, scope)?;
    of_two_integers(*prim, one, two)
}

/// The branch that an if takes whose test is an operation on two integers at hand; `None` for another expression. It
/// counts four evaluations.
#[tactic(auto, using(tau_tree::proofs::ExprLemmas::codes))]
pub fn branch_at<'p>(expr: &'p Expr, setting: Setting<'_>, scope: &Scope<'_>) -> Option<&'p Expr>
    ensures { IfSome result (λ e. GoesTo (code_of expr.entry.now) (setting_of setting.entry) scope.now 4 (code_of e.now)) }
{
    let Expr::If { test, yes, no } = expr else {
        return None;
    };
    match operation_at(test, setting, scope) {
        Some(Answer::Value(Value::Truth(true))) => Some(yes),
        Some(Answer::Value(Value::Truth(false))) => Some(no),
        _ => None,
    }
}

/// What an operation gives for this left value, where its right part is an integer at hand; `None` elsewhere. It counts
/// one evaluation.
pub fn operation_with(
    prim: Prim,
    left: &Value,
    right: &Expr,
    setting: Setting<'_>,
    scope: &Scope<'_>,
) -> Option<Answer>
    ensures { IfSome result (λ a. FinishesWith prim (val_of left.now) (code_of right.now) (setting_of setting.entry) scope.now (answer_of a)) }
{
    let one = integer_in(left)?;
    let two = integer_at(right, setting, scope)?;
    of_two_integers(prim, one, two)
}
