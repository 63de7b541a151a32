//! Operations of the plain evaluator (docs/language.md, "Expressions").
use crate::plain::Stop;
use std::alloc::Global;
use tau_sexpr::{Text, are_text_bytes};
use tau_tree::Prim;
use tau_value::{Value, Values, in_bounds};

/// An evaluation that ends with a trap.
pub fn trap(code: u8) -> Result<Value, Stop> {
    Err(Stop::Trap(code))
}

/// The value, or trap 5 where it is too large.
pub fn bounded(value: Value) -> Result<Value, Stop> {
    if in_bounds(&value) {
        Ok(value)
    } else {
        trap(5)
    }
}

/// An operation on one value.
pub fn of_one(prim: Prim, value: Value) -> Result<Value, Stop> {
    let answer = match (prim, &value) {
        (Prim::Not, Value::Truth(truth)) => Ok(Value::Truth(!*truth)),
        (Prim::Len, Value::List(items)) => length(items.len()),
        (Prim::Len, Value::Text(text)) => length(text.len()),
        _ => trap(1),
    };
    drop(value);
    answer
}

fn length(length: usize) -> Result<Value, Stop> {
    match i64::try_from(length) {
        Ok(length) => Ok(Value::Int(length)),
        Err(_) => trap(2),
    }
}

/// An operation on two values.
pub fn of_two(alloc: Global, prim: Prim, one: Value, two: Value) -> Result<Value, Stop> {
    match prim {
        Prim::Push => push(one, two),
        Prim::Cat => {
            let answer = cat(alloc, one, &two);
            drop(two);
            answer
        }
        _ => {
            let answer = of_read(prim, &one, &two);
            drop(one);
            drop(two);
            answer
        }
    }
}

/// An operation on two values that it only reads.
fn of_read(prim: Prim, one: &Value, two: &Value) -> Result<Value, Stop> {
    match (prim, one, two) {
        (Prim::Same, _, _) => Ok(Value::Truth(one.same(two))),
        (Prim::Item, Value::List(items), Value::Int(place)) => item(items, *place),
        (_, Value::Int(one), Value::Int(two)) => of_integers(prim, *one, *two),
        _ => trap(1),
    }
}

fn of_integers(prim: Prim, one: i64, two: i64) -> Result<Value, Stop> {
    if two == 0 && matches!(prim, Prim::Div | Prim::Rem) {
        return trap(3);
    }
    let number = match prim {
        Prim::Add => one.checked_add(two),
        Prim::Sub => one.checked_sub(two),
        Prim::Mul => one.checked_mul(two),
        Prim::Div => one.checked_div(two),
        Prim::Rem => one.checked_rem(two),
        Prim::Less => return Ok(Value::Truth(one < two)),
        _ => return trap(1),
    };
    match number {
        Some(number) => Ok(Value::Int(number)),
        None => trap(2),
    }
}

fn push(one: Value, two: Value) -> Result<Value, Stop> {
    match one {
        Value::List(mut items) => {
            push_value(&mut items, two)?;
            bounded(Value::List(items))
        }
        one => {
            drop(one);
            drop(two);
            trap(1)
        }
    }
}

/// Puts a value at the end of a list.
pub fn push_value(values: &mut Values, value: Value) -> Result<(), Stop> {
    match values.push(value) {
        Ok(()) => Ok(()),
        Err((value, _failed)) => {
            drop(value);
            Err(Stop::NoMemory)
        }
    }
}

fn item(items: &Values, place: i64) -> Result<Value, Stop> {
    let Ok(place) = usize::try_from(place) else {
        return trap(4);
    };
    match items.item(place) {
        Some(item) => Ok(item.copy()?),
        None => trap(4),
    }
}

fn cat(alloc: Global, one: Value, two: &Value) -> Result<Value, Stop> {
    match (one, two) {
        (Value::Text(one), Value::Text(two)) => join_texts(alloc, &one, two),
        (Value::List(one), Value::List(two)) => join_lists(one, two),
        _ => trap(1),
    }
}

fn join_texts(alloc: Global, one: &Text, two: &Text) -> Result<Value, Stop> {
    let mut bytes = Vec::from_slice(alloc, one.bytes())?;
    bytes.extend_from_slice(two.bytes())?;
    if !are_text_bytes(&bytes) {
        return trap(1);
    }
    bounded(Value::Text(Text::from_vec(alloc, bytes)?))
}

fn join_lists(mut one: Values, two: &Values) -> Result<Value, Stop> {
    push_copies(&mut one, two)?;
    bounded(Value::List(one))
}

/// Puts copies of the items of a list at the end of another.
fn push_copies(into: &mut Values, from: &Values) -> Result<(), Stop> {
    for item in from.items() {
        push_value(into, item.copy()?)?;
    }
    Ok(())
}
