//! How the evaluation of an expression begins.
ghost use Rattle.std.specs.Prelude.{ℕ, List, ◌≡◌, IfOk, map, unwrap_or, [], ◌∷◌};
ghost use Rattle.tau_value.specs.Val.{Val, unit, list as list_value, inside as values_inside};
ghost use Rattle.tau_value.specs.Value.{val_of};
ghost use Rattle.tau_tree.specs.Code.{inside};
ghost use Rattle.tau_tree.specs.Expr.{code_of, codes_of};
ghost use Rattle.tau_eval.specs.Answered.{answer_of};
ghost use Rattle.tau_eval.specs.Operations.{bounded};
ghost use Rattle.tau_eval.specs.Outcome.{begun, finished, gives};
ghost use Rattle.tau_eval.specs.Meaning.{Setting as Surrounding, Scope as Variables, nearest, meaning, items, last, operation};
ghost use Rattle.tau_eval.specs.Settings.{setting_of};
ghost use Rattle.tau_eval.specs.Frames.{parts, comes, StaysIn};
ghost use Rattle.tau_eval.specs.declared.frames.Progress.TheVariants as progress;

use crate::Effect;
use crate::arguments::{Arguments, arguments_of};
use crate::frames::{Frame, Progress, Round};
use crate::operations::{Answer, bounded_or_trap};
use crate::scopes::Scope;
use crate::settings::Setting;
use std::alloc::AllocError;
use tau_sexpr::Word;
use tau_tree::{Expr, Exprs, Prim};
use tau_value::{Value, Values};

/// The value of an operation, or its trap.
#[inline(always)]
pub fn finish<'p>(answer: Answer) -> Progress<'p>
    ensures value { (s : Surrounding) (env : Variables) (n : ℕ) (rs : List Val) → finished (answer_of answer) n rs ≡ comes result s env n rs }
    ensures stays { StaysIn result }
{
    match answer {
        Answer::Value(value) => Progress::Value(value),
        Answer::Trap(code) => Progress::Stop(Effect::Trap(code)),
    }
}

/// The value of the nearest variable with a name; unit where none is bound, as in no sound program.
fn variable(name: &Word, scope: &Scope<'_>) -> Result<Value, AllocError>
    ensures { IfOk result (λ v. val_of v ≡ unwrap_or (nearest name.now scope.now) unit) }
{
    match scope.find(name) {
        Some(value) => value.copy(),
        None => Ok(Value::Unit),
    }
}

/// The list of these values and of those of the rest.
pub fn gather<'p>(values: Values, rest: &'p [Expr]) -> Progress<'p>
    ensures value { (s : Surrounding) (env : Variables) (n : ℕ) (rs : List Val) → items (parts rest.entry.now) s env values n rs ≡ comes result s env n rs }
    ensures stays { StaysIn result }
{
    match rest {
        [] => finish(bounded_or_trap(Value::List(values))),
        [part, rest @ ..] => Progress::Part {
            frame: Frame::Gather { values, rest },
            part,
        },
    }
}

/// The value of the last of the rest, and this one where there is none.
#[inline(always)]
pub fn last_of<'p>(value: Value, rest: &'p [Expr]) -> Progress<'p>
    ensures value { (s : Surrounding) (env : Variables) (n : ℕ) (rs : List Val) → last (parts rest.entry.now) s env (val_of value) n rs ≡ comes result s env n rs }
    ensures stays { StaysIn result }
{
    match rest {
        [] => Progress::Value(value),
        [whole] => Progress::Whole(whole),
        [part, rest @ ..] => Progress::Part {
            frame: Frame::Last { rest },
            part,
        },
    }
}

/// A part is evaluated first, and the frame goes on with its value.
#[inline(always)]
pub fn part<'p>(frame: Frame<'p>, part: &'p Expr) -> Progress<'p>
    ensures { result ≡ progress.Part frame.entry part.entry }
{
    Progress::Part { frame, part }
}

fn operation_of<'p>(prim: Prim, args: &'p Exprs) -> Progress<'p>
    ensures value { (s : Surrounding) (env : Variables) (n : ℕ) (rs : List Val) → operation prim (inside (codes_of args.entry.now)) s env n rs ≡ comes result s env n rs }
    ensures stays { StaysIn result }
{
    match arguments_of(args) {
        Arguments::One(part) => Progress::Part {
            frame: Frame::One { prim },
            part,
        },
        Arguments::Two(part, right) => Progress::Part {
            frame: Frame::Left { prim, right },
            part,
        },
        Arguments::Other => Progress::Stop(Effect::Trap(1)),
    }
}

/// How the evaluation of an expression begins. The error is want of memory.
#[tactic(auto, using(tau_tree::proofs::ExprLemmas::codes))]
pub fn open<'p>(
    expr: &'p Expr,
    setting: Setting<'_>,
    scope: &Scope<'p>,
) -> Result<Progress<'p>, AllocError>
    ensures value { IfOk result (λ p. (n : ℕ) (rs : List Val) → meaning (code_of expr.entry.now) (setting_of setting.entry) scope.now n rs ≡ begun n (λ m. comes p (setting_of setting.entry) scope.now m rs)) }
    ensures stays { IfOk result StaysIn }
{
    match expr {
        Expr::Unit => Ok(Progress::Value(Value::Unit)),
        Expr::Truth(truth) => Ok(Progress::Value(Value::Truth(*truth))),
        Expr::Int(number) => Ok(Progress::Value(Value::Int(*number))),
        Expr::Text(text) => Ok(Progress::Value(Value::Text(text.copy()?))),
        Expr::Msg => Ok(Progress::Value(setting.message.copy()?)),
        Expr::Own => Ok(Progress::Value(Value::Name(setting.own))),
        Expr::Var(name) => Ok(Progress::Value(variable(name, scope)?)),
        Expr::Start(number) => Ok(Progress::Value(Value::Name(*number))),
        Expr::List(items) => Ok(gather(Values::new(setting.alloc), items.items())),
        Expr::Let { name, value, body } => Ok(part(Frame::Bind { name, body }, value)),
        Expr::If { test, yes, no } => Ok(part(Frame::Choose { yes, no }, test)),
        Expr::Seq(items) => Ok(last_of(Value::Unit, items.items())),
        Expr::Fold {
            list,
            first,
            sum,
            item,
            body,
        } => {
            let round = Round { sum, item, body };
            Ok(part(Frame::First { first, round }, list))
        }
        Expr::Apply { prim, args } => Ok(operation_of(*prim, args)),
        Expr::Get => Ok(Progress::Stop(Effect::Get)),
        Expr::Set(value) => Ok(part(Frame::State, value)),
        Expr::Send { to, value } => Ok(part(Frame::To { value }, to)),
        Expr::New {
            behaviour,
            node,
            state,
        } => {
            let behaviour = *behaviour;
            Ok(part(Frame::Node { behaviour, state }, node))
        }
        Expr::Stabilize => Ok(Progress::Stop(Effect::Stabilize)),
        Expr::Checkpoint => Ok(Progress::Stop(Effect::Checkpoint)),
        Expr::Rollback => Ok(Progress::Stop(Effect::Rollback)),
        Expr::Dependent => Ok(Progress::Stop(Effect::Ask)),
    }
}
