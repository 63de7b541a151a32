//! Effects as text.
use std::alloc::AllocError;
use tau_eval::Effect;
use tau_value::Value;

/// Adds a blank and the effect, by its word, with its numbers and values.
pub(crate) fn add_effect(text: &mut String, effect: &Effect) -> Result<(), AllocError> {
    text.push_str(" (")?;
    text.push_str(word_of(effect))?;
    add_parts(text, effect)?;
    text.push(')')
}

/// The word of an effect.
fn word_of(effect: &Effect) -> &'static str {
    match effect {
        Effect::Get => "get",
        Effect::Set(_) => "set",
        Effect::Send(_, _) => "send",
        Effect::New { .. } => "new",
        Effect::Stabilize => "stabilize",
        Effect::Checkpoint => "checkpoint",
        Effect::Rollback => "rollback",
        Effect::Ask => "dependent",
        Effect::Done => "done",
        Effect::Trap(_) => "trap",
    }
}

/// Adds the numbers and values of an effect, each after a blank.
fn add_parts(text: &mut String, effect: &Effect) -> Result<(), AllocError> {
    match effect {
        Effect::Set(value) => add_part(text, value),
        Effect::Send(to, value) => {
            write!(text, " {to}")?;
            add_part(text, value)
        }
        Effect::New {
            behaviour,
            node,
            state,
        } => {
            write!(text, " {behaviour} {node}")?;
            add_part(text, state)
        }
        Effect::Trap(code) => write!(text, " {code}"),
        _ => Ok(()),
    }
}

/// Adds a value after a blank.
fn add_part(text: &mut String, value: &Value) -> Result<(), AllocError> {
    text.push(' ')?;
    add_value(text, value, 70)
}

/// Adds a value at most `depth` deep; of a long list or text its length.
fn add_value(text: &mut String, value: &Value, depth: u32) -> Result<(), AllocError> {
    match value {
        Value::Unit => text.push_str("unit"),
        Value::Truth(truth) => write!(text, "{truth}"),
        Value::Int(integer) => write!(text, "{integer}"),
        Value::Text(bytes) => add_bytes(text, bytes.bytes()),
        Value::Name(number) => write!(text, "(name {number})"),
        Value::List(items) => {
            let length = items.len();
            if depth == 0 || length > 20 {
                return write!(text, "(list of {length})");
            }
            text.push_str("(list")?;
            for item in items.items() {
                text.push(' ')?;
                add_value(text, item, depth - 1)?;
            }
            text.push(')')
        }
    }
}

fn add_bytes(text: &mut String, bytes: &[u8]) -> Result<(), AllocError> {
    let length = bytes.len();
    if length > 20 {
        return write!(text, "(text of {length})");
    }
    let spelled = str::from_utf8(bytes).unwrap_or("");
    write!(text, "\"{spelled}\"")
}
