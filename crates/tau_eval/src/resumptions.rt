//! How the evaluation of an expression goes on once the value of a part has come.
ghost use Rattle.std.specs.Prelude.{ℕ, List, ◌≡◌, IfOk, IfErr, Option, map};
ghost use Rattle.tau_value.specs.Val.{Val};
ghost use Rattle.tau_value.specs.Value.{val_of};
ghost use Rattle.tau_tree.specs.Expr.{code_of};
ghost use Rattle.tau_eval.specs.Answered.{answer_of};
ghost use Rattle.tau_eval.specs.Meaning.{Setting as Surrounding, Scope as Variables, meaning, chooses, sends, creates, node_at};
ghost use Rattle.tau_eval.specs.Settings.{setting_of};
ghost use Rattle.tau_eval.specs.Frames.{made_of, comes, StaysIn};

use crate::Effect;
use crate::frames::{Frame, Progress};
use crate::openings::{finish, gather, last_of, part};
use crate::operations::{of_one, of_two};
use crate::settings::Setting;
use std::alloc::{AllocError, Global};
use tau_tree::{Expr, Prim};
use tau_value::{Value, Values};

/// The branch of an if that a truth takes.
pub fn choose<'p>(value: Value, yes: &'p Expr, no: &'p Expr) -> Progress<'p>
    ensures value { (s : Surrounding) (env : Variables) (n : ℕ) (rs : List Val) → chooses (val_of value) (meaning (code_of yes.entry.now) s env) (meaning (code_of no.entry.now) s env) n rs ≡ comes result s env n rs }
    ensures stays { StaysIn result }
{
    match value {
        Value::Truth(truth) => {
            if truth {
                Progress::Whole(yes)
            } else {
                Progress::Whole(no)
            }
        }
        _ => Progress::Stop(Effect::Trap(1)),
    }
}

/// Effect send to a name.
pub fn send<'p>(to: Value, value: Value) -> Progress<'p>
    ensures value { (s : Surrounding) (env : Variables) (n : ℕ) (rs : List Val) → sends (val_of to) (val_of value) n rs ≡ comes result s env n rs }
    ensures stays { StaysIn result }
{
    match to {
        Value::Name(to) => Progress::Stop(Effect::Send(to, value)),
        _ => Progress::Stop(Effect::Trap(1)),
    }
}

/// The node of an integer, where there are so many nodes.
fn node_of(nodes: u32, integer: i64) -> Option<u32>
    ensures { result ≡ node_at nodes integer }
{
    match u32::try_from(integer) {
        Ok(node) => { if node < nodes { Some(node) } else { None } }
        Err(_) => None,
    }
}

/// Effect new on a node.
pub fn create<'p>(nodes: u32, behaviour: u32, node: Value, state: Value) -> Progress<'p>
    ensures value { (s : Surrounding) (env : Variables) (n : ℕ) (rs : List Val) → creates nodes behaviour (val_of node) (val_of state) n rs ≡ comes result s env n rs }
    ensures stays { StaysIn result }
{
    match node {
        Value::Int(integer) => match node_of(nodes, integer) {
            Some(node) => Progress::Stop(Effect::New {
                behaviour,
                node,
                state,
            }),
            None => Progress::Stop(Effect::Trap(8)),
        },
        _ => Progress::Stop(Effect::Trap(1)),
    }
}
