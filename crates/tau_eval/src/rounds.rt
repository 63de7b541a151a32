//! Rounds of a fold whose value is an integer at hand. They take no frame and bind no variables.
ghost use Rattle.std.specs.Prelude.{ℕ, List, [], ◌∷◌, ◌++◌, drop, ◌≡◌, ◌+◌, ◌≤◌, IfSome, option_map, length};
ghost use Rattle.tau_value.specs.Val.{Val, int, inside};
ghost use Rattle.tau_value.specs.Value.{val_of};
ghost use Rattle.tau_tree.specs.Expr.{code_of, codes_of};
ghost use Rattle.tau_tree.specs.Code.{apply, inside as inside_codes};
ghost use Rattle.tau_eval.specs.Meaning.{for_each, nearest};
ghost use Rattle.tau_eval.specs.Frames.{round_of, scope_in};
ghost use Rattle.tau_eval.specs.Settings.{setting_of};
ghost use Rattle.tau_eval.specs.Immediates.{Reads, Gives};

use crate::arguments::{Arguments, arguments_of};
use crate::frames::Round;
use crate::immediates::{integer_in, of_two_integers};
use crate::operations::Answer;
use crate::scopes::Scope;
use crate::settings::Setting;
use tau_sexpr::Word;
use tau_tree::{Expr, Exprs, Prim};
use tau_value::{Value, Values};

/// How far the rounds of a fold have come: the next item, the sum and the count of evaluations.
#[derive(Drop)]
pub struct Rounds {
    pub next: usize,
    pub sum: Value,
    pub count: u32,
}

/// How deep a body may be whose value is at hand.
const DEPTH: u32 = 50;

/// An integer, and how many evaluations have given it.
#[derive(Clone, Copy)]
struct Given {
    number: i64,
    spent: u32,
}

/// The value of the nearest variable with a name in a round.
#[inline(always)]
fn find_in_round<'a>(
    name: &Word,
    scope: &'a Scope<'_>,
    round: Round<'_>,
    sum: &'a Value,
    item: &'a Value,
) -> Option<&'a Value>
    ensures { option_map (λ v. val_of v.now) result ≡ nearest name.now (scope_in round.entry scope.entry.now (val_of sum.entry.now) (val_of item.entry.now)) }
{
    if round.item.same(name) {
        return Some(item);
    }
    if round.sum.same(name) {
        return Some(sum);
    }
    scope.find(name)
}

/// The integer that a literal, the message or a variable is in a round; `None` for another value and another expression.
#[tactic(auto, using(tau_tree::proofs::ExprLemmas::codes))]
#[inline(always)]
fn integer_in_round(
    expr: &Expr,
    setting: Setting<'_>,
    scope: &Scope<'_>,
    round: Round<'_>,
    sum: &Value,
    item: &Value,
) -> Option<i64>
    ensures { IfSome result (λ z. Reads (code_of expr.now) (setting_of setting.entry) (scope_in round.entry scope.now (val_of sum.now) (val_of item.now)) (int z)) }
{
    match expr {
        Expr::Int(number) => Some(*number),
        Expr::Msg => integer_in(setting.message),
        Expr::Var(name) => match find_in_round(name, scope, round, sum, item) {
            Some(value) => integer_in(value),
            None => None,
        },
        _ => None,
    }
}

/// Whether an expression is made of integers at hand and operations that give integers alone. It evaluates nothing.
fn is_number(expr: &Expr, depth: u32) -> bool {
    match expr {
        Expr::Int(_) | Expr::Msg | Expr::Var(_) => true,
        Expr::Apply { prim, args } => {
            if depth == 0 || !gives_integer(*prim) {
                return false;
            }
            match arguments_of(args) {
                Arguments::Two(left, right) => {
                    is_number(left, depth - 1) && is_number(right, depth - 1)
                }
                _ => false,
            }
        }
        _ => false,
    }
}

fn gives_integer(prim: Prim) -> bool {
    matches!(
        prim,
        Prim::Add | Prim::Sub | Prim::Mul | Prim::Div | Prim::Rem
    )
}

/// The integer that an expression at most `depth` deep gives in a round; `None` where it isn't at hand.
#[cycle(number)]
#[tactic(auto, using(tau_tree::proofs::ExprLemmas::codes))]
fn number_in_round(
    expr: &Expr,
    setting: Setting<'_>,
    scope: &Scope<'_>,
    round: Round<'_>,
    sum: &Value,
    item: &Value,
    depth: u32,
) -> Option<Given>
    ensures { IfSome result (λ g. Gives (code_of expr.now) (setting_of setting.entry) (scope_in round.entry scope.now (val_of sum.now) (val_of item.now)) g.spent (int g.number)) }
{
    match expr {
        Expr::Apply { prim, args } => {
            if depth == 0 {
                return None;
            }
            operation_in_round(*prim, args, setting, scope, round, sum, item, depth - 1)
        }
        _ => {
            let number = integer_in_round(expr, setting, scope, round, sum, item)?;
            Some(Given { number, spent: 1 })
        }
    }
}

/// The integer that an operation gives whose parts are at most `depth` deep.
#[cycle(number)]
fn operation_in_round(
    prim: Prim,
    args: &Exprs,
    setting: Setting<'_>,
    scope: &Scope<'_>,
    round: Round<'_>,
    sum: &Value,
    item: &Value,
    depth: u32,
) -> Option<Given>
    ensures { IfSome result (λ g. Gives (apply prim (inside_codes (codes_of args.now))) (setting_of setting.entry) (scope_in round.entry scope.now (val_of sum.now) (val_of item.now)) g.spent (int g.number)) }
{
    let Arguments::Two(left, right) = arguments_of(args) else {
        return None;
    };
    let one = number_in_round(left, setting, scope, round, sum, item, depth)?;
    let two = number_in_round(right, setting, scope, round, sum, item, depth)?;
    let parts = one.spent.checked_add(two.spent)?;
    let spent = parts.checked_add(1)?;
    match of_two_integers(prim, one.number, two.number) {
        Some(Answer::Value(Value::Int(number))) => Some(Given { number, spent }),
        _ => None,
    }
}

/// Goes through the rounds of a fold from an item on, as long as the value of the body is an integer at hand. Where it
/// stops before the last item, the body has other parts, or the round comes to a trap or to no integer; it has counted
/// nothing of that round.
pub fn rounds_at(
    list: &Values,
    setting: Setting<'_>,
    scope: &Scope<'_>,
    round: Round<'_>,
    from: Rounds,
) -> Rounds
    ensures goes { (rs : List Val) → for_each (inside (drop from.next list.now)) (val_of from.sum) (round_of round.entry (setting_of setting.entry) scope.now) from.count rs ≡ for_each (inside (drop result.next list.now)) (val_of result.sum) (round_of round.entry (setting_of setting.entry) scope.now) result.count rs }
    ensures count { from.count ≤ result.count }
{
    let mut next = from.next;
    let mut sum = from.sum;
    let mut count = from.count;
    if !is_number(round.body, DEPTH) {
        return Rounds { next, sum, count };
    }
    'items: while next < list.len() && count < 100_000 {
        let Some(item) = list.item(next) else {
            return Rounds { next, sum, count };
        };
        let Some(given) = number_in_round(round.body, setting, scope, round, &sum, item, DEPTH)
        else {
            return Rounds { next, sum, count };
        };
        if given.spent > 100_000 - count {
            return Rounds { next, sum, count };
        }
        sum = Value::Int(given.number);
        count += given.spent;
        next += 1;
    }
    Rounds { next, sum, count }
}
