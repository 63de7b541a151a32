//! Operations on values (docs/language.md, "Expressions" and "Traps").
ghost use Rattle.std.specs.Prelude.{◌≡◌, ◌+◌, ◌<◌, ◌≤◌, ◌++◌, ◌∷◌, [], Ok, Err, IfOk, IfErr, OnOk, Option, Some, None, ℤ, pos};
ghost use Rattle.tau_value.specs.Val.{list, int, text, inside};
ghost use Rattle.tau_value.specs.Value.{val_of};
ghost use Rattle.tau_eval.specs.Operations.{integer, bounded, quotient, remainder, found as found_in, item_at, of_one as one_by, of_integers as integers_by, item as item_of, pushed, joined, integers as on_integers_by, of_two as two_by};
ghost use Rattle.tau_eval.specs.Answered.{answer_of, found_or_two};

use std::alloc::{AllocError, Global};
use tau_sexpr::Text;
use tau_tree::Prim;
use tau_value::{Value, Values, in_bounds, levels, parts};

/// What an operation gives: a value, or a trap with its code (docs/language.md, "Traps").
#[derive(Drop)]
pub enum Answer {
    Value(Value),
    Trap(u8),
}

#[inline(always)]
fn integer_or_trap(number: Option<i64>) -> Answer
    ensures { answer_of result ≡ found_or_two number }
{
    match number {
        Some(number) => Answer::Value(Value::Int(number)),
        None => Answer::Trap(2),
    }
}

fn quotient_of(dividend: i64, divisor: i64) -> Answer
    ensures { answer_of result ≡ quotient dividend divisor }
{
    if divisor == 0 {
        return Answer::Trap(3);
    }
    integer_or_trap(dividend.checked_div(divisor))
}

fn remainder_of(dividend: i64, divisor: i64) -> Answer
    ensures { answer_of result ≡ remainder dividend divisor }
{
    if divisor == 0 {
        return Answer::Trap(3);
    }
    integer_or_trap(dividend.checked_rem(divisor))
}

/// An operation on two integers.
#[inline(always)]
pub fn of_integers(prim: Prim, one: i64, two: i64) -> Answer
    ensures { answer_of result ≡ integers_by prim one two }
{
    match prim {
        Prim::Add => integer_or_trap(one.checked_add(two)),
        Prim::Sub => integer_or_trap(one.checked_sub(two)),
        Prim::Mul => integer_or_trap(one.checked_mul(two)),
        Prim::Div => quotient_of(one, two),
        Prim::Rem => remainder_of(one, two),
        Prim::Less => Answer::Value(Value::Truth(one < two)),
        Prim::Same | Prim::Not | Prim::Len | Prim::Item | Prim::Push | Prim::Cat => {
            Answer::Trap(1)
        }
    }
}

fn on_integers(prim: Prim, one: &Value, two: &Value) -> Answer
    ensures { answer_of result ≡ on_integers_by prim (val_of one.now) (val_of two.now) }
{
    match (one, two) {
        (Value::Int(one), Value::Int(two)) => of_integers(prim, *one, *two),
        _ => Answer::Trap(1),
    }
}

/// How many items or bytes there are, as a value.
fn length_of(length: usize) -> Answer
    ensures { answer_of result ≡ integer (pos length) }
{
    match i64::try_from(length) {
        Ok(length) => Answer::Value(Value::Int(length)),
        Err(_) => Answer::Trap(2),
    }
}

/// An operation on one value (docs/language.md, "Expressions"): trap 1 where its kind is wrong, and for an operation
/// that takes two values.
#[tactic(auto, using(crate::proofs::ValueRules::listed))]
pub fn of_one(prim: Prim, value: &Value) -> Answer
    ensures { answer_of result ≡ one_by prim (val_of value.now) }
{
    match prim {
        Prim::Not => match value {
            Value::Truth(truth) => Answer::Value(Value::Truth(!*truth)),
            _ => Answer::Trap(1),
        },
        Prim::Len => match value {
            Value::List(items) => length_of(items.len()),
            Value::Text(text) => length_of(text.len()),
            _ => Answer::Trap(1),
        },
        _ => Answer::Trap(1),
    }
}

/// The item of a list at an integer.
fn item_of_list(items: &Values, place: i64) -> Result<Answer, AllocError>
    ensures { IfOk result (λ a. answer_of a ≡ item_at items.now place) }
{
    let Ok(place) = usize::try_from(place) else {
        return Ok(Answer::Trap(4));
    };
    match items.item(place) {
        Some(item) => Ok(Answer::Value(item.copy()?)),
        None => Ok(Answer::Trap(4)),
    }
}

#[tactic(auto, using(crate::proofs::ValueRules::listed))]
fn item(one: &Value, two: &Value) -> Result<Answer, AllocError>
    ensures { IfOk result (λ a. answer_of a ≡ item_of (val_of one.now) (val_of two.now)) }
{
    match (one, two) {
        (Value::List(items), Value::Int(place)) => item_of_list(items, *place),
        _ => Ok(Answer::Trap(1)),
    }
}

/// The value, or trap 5 where it is out of bounds (docs/language.md, "Order and kinds").
pub fn bounded_or_trap(value: Value) -> Answer
    ensures { answer_of result ≡ bounded (val_of value) }
{
    if in_bounds(&value) {
        Answer::Value(value)
    } else {
        Answer::Trap(5)
    }
}

/// A list with one value more.
#[tactic(auto, using(crate::proofs::ValueRules::listed))]
fn push_to(mut items: Values, item: Value) -> Result<Answer, (Value, Value, AllocError)>
    ensures ok { IfOk result (λ a. answer_of a ≡ bounded (list (inside (items ++ val_of item ∷ [])))) }
    ensures err { IfErr result (λ e. (val_of e.0 ≡ list (inside items)) × (val_of e.1 ≡ val_of item)) }
{
    match items.push(item) {
        Ok(()) => Ok(bounded_or_trap(Value::List(items))),
        Err((item, failed)) => Err((Value::List(items), item, failed)),
    }
}

#[tactic(auto, using(crate::proofs::ValueRules::listed))]
fn push(one: Value, two: Value) -> Result<Answer, (Value, Value, AllocError)>
    ensures ok { IfOk result (λ a. answer_of a ≡ pushed (val_of one) (val_of two)) }
    ensures err { IfErr result (λ e. (val_of e.0 ≡ val_of one) × (val_of e.1 ≡ val_of two)) }
{
    match one {
        Value::List(items) => push_to(items, two),
        _ => Ok(Answer::Trap(1)),
    }
}

/// The values of two lists, one after the other.
fn join_lists(one: &Values, two: &Values) -> Result<Answer, AllocError>
    ensures { IfOk result (λ a. answer_of a ≡ bounded (list (inside (one.now ++ two.now)))) }
{
    let mut joined = one.copy()?;
    for item in two.items() {
        push_copy(&mut joined, item)?;
    }
    Ok(bounded_or_trap(Value::List(joined)))
}

fn push_copy(items: &mut Values, item: &Value) -> Result<(), AllocError>
    ensures { OnOk result (items.new ≡ items.old ++ val_of item.now ∷ []) }
{
    match items.push(item.copy()?) {
        Ok(()) => Ok(()),
        Err((_item, failed)) => Err(failed),
    }
}

/// The bytes of two texts, one after the other.
fn join_texts(alloc: Global, one: &Text, two: &Text) -> Result<Answer, AllocError>
    ensures { IfOk result (λ a. answer_of a ≡ bounded (text (one.now ++ two.now))) }
{
    let mut bytes = Vec::with_capacity(alloc, one.len())?;
    bytes.extend_from_slice(one.bytes())?;
    bytes.extend_from_slice(two.bytes())?;
    Ok(bounded_or_trap(Value::Text(Text::from_vec(alloc, bytes)?)))
}

#[tactic(auto, using(crate::proofs::ValueRules::listed))]
fn cat(alloc: Global, one: &Value, two: &Value) -> Result<Answer, AllocError>
    ensures { IfOk result (λ a. answer_of a ≡ joined (val_of one.now) (val_of two.now)) }
{
    match (one, two) {
        (Value::Text(one), Value::Text(two)) => join_texts(alloc, one, two),
        (Value::List(one), Value::List(two)) => join_lists(one, two),
        _ => Ok(Answer::Trap(1)),
    }
}

/// An operation on two values (docs/language.md, "Expressions"): trap 1 where a kind is wrong, and for an operation that
/// takes one value. The error is want of memory; the values come back with it.
#[tactic(auto, using(crate::proofs::SameLemmas::same_values_is))]
pub fn of_two(
    alloc: Global,
    prim: Prim,
    one: Value,
    two: Value,
) -> Result<Answer, (Value, Value, AllocError)>
    ensures ok { IfOk result (λ a. answer_of a ≡ two_by prim (val_of one) (val_of two)) }
    ensures err { IfErr result (λ e. (val_of e.0 ≡ val_of one) × (val_of e.1 ≡ val_of two)) }
{
    match prim {
        Prim::Same => Ok(Answer::Value(Value::Truth(one.same(&two)))),
        Prim::Push => push(one, two),
        Prim::Item => match item(&one, &two) {
            Ok(answer) => Ok(answer),
            Err(failed) => Err((one, two, failed)),
        },
        Prim::Cat => match cat(alloc, &one, &two) {
            Ok(answer) => Ok(answer),
            Err(failed) => Err((one, two, failed)),
        },
        Prim::Add
        | Prim::Sub
        | Prim::Mul
        | Prim::Div
        | Prim::Rem
        | Prim::Less
        | Prim::Not
        | Prim::Len => { Ok(on_integers(prim, &one, &two)) }
    }
}
