//! The machine: it evaluates an expression by small steps, and holds what is left to do in frames.
ghost use Rattle.std.specs.Prelude.{ℕ, List, [], ◌∷◌, ◌++◌, drop, Some, slice_get, ◌≡◌, ◌+◌, ◌-◌, ◌*◌, ◌<◌, ◌≤◌, Ok, Err, IfOk, IfErr, map, length, vec_len};
ghost use Rattle.std.specs.Vec.{vec_capacity};
ghost use Rattle.tau_value.specs.Val.{Val, inside};
ghost use Rattle.tau_value.specs.Value.{val_of};
ghost use Rattle.tau_eval.specs.Effect.{eff_of};
ghost use Rattle.tau_eval.specs.Operations.{of_two as two_by};
ghost use Rattle.tau_eval.specs.Outcome.{and_then, finished, effect_of};
ghost use Rattle.tau_eval.specs.Meaning.{Setting as Surrounding, items, folds, for_each};
ghost use Rattle.tau_eval.specs.Settings.{setting_of};
ghost use Rattle.tau_eval.specs.Frames.{parts, meaning_of, round_of, comes, StaysIn, made_of, scope_under};
ghost use Rattle.tau_eval.specs.Machine.{rest_of, running, meeting, reached as reached_by, moved, left, SameEffect, work, Falls};
ghost use Rattle.tau_eval.specs.declared.machine.Focus.TheVariants as focus;

use crate::Effect;
use crate::frames::{Frame, Progress, Round};
use crate::immediates::{branch_at, operation_at, operation_with};
use crate::openings::{finish, gather, last_of, open, part};
use crate::operations::{of_one, of_two};
use crate::resumptions::{choose, create, send};
use crate::rounds::{Rounds, rounds_at};
use crate::scopes::Scope;
use crate::settings::Setting;
use std::alloc::{AllocError, Global};
use tau_sexpr::Word;
use tau_tree::{Expr, Prim};
use tau_value::{Value, Values};

/// What is left to do of an evaluation: the frames, the last one first; the variables around what is evaluated; and how
/// many evaluations have begun.
#[derive(Drop)]
pub struct Machine<'p> {
    pub frames: Vec<Frame<'p>>,
    pub scope: Scope<'p>,
    pub count: u32,
}

/// Where a machine stands.
#[derive(Drop)]
pub enum Focus<'p> {
    /// The expression is evaluated next.
    Eval(&'p Expr),
    /// The value is given to the last frame.
    Give(Value),
}

/// A step of a machine.
#[derive(Drop)]
pub enum Move<'p> {
    On(Focus<'p>),
    At(Effect),
}

impl<'p> Machine<'p> {
    /// A machine with nothing left to do. It takes no memory.
    pub fn new(alloc: Global) -> Machine<'p>
        ensures frames { result.frames.items ≡ [] }
        ensures scope { result.scope ≡ [] }
        ensures count { result.count ≡ 0 }
    {
        Machine {
            frames: Vec::new(alloc),
            scope: Scope::new(alloc),
            count: 0,
        }
    }

    /// Goes on as an evaluation does.
    #[inline(always)]
    fn follow(&mut self, progress: Progress<'p>) -> Move<'p>
        requires room { vec_len self.old.frames < vec_capacity self.old.frames }
        requires stays { StaysIn progress }
        ensures goes { (s : Surrounding) (rs : List Val) → and_then (comes progress.entry s self.old.scope self.old.count rs) (rest_of self.old s self.old.scope) ≡ moved self.new s result rs }
        ensures count { self.new.count ≡ self.old.count }
        ensures falls { Falls (3 * (100000 - self.old.count) + length self.old.frames.items + 2) self.new (Ok result) }
    {
        match progress {
            Progress::Value(value) => Move::On(Focus::Give(value)),
            Progress::Part { frame, part } => {
                self.frames.push_reserved(frame);
                Move::On(Focus::Eval(part))
            }
            Progress::Whole(whole) => Move::On(Focus::Eval(whole)),
            Progress::Stop(effect) => Move::At(effect),
        }
    }

    /// Where the machine stands before a frame meets a value, once more.
    #[cold]
    fn put_back(&mut self, frame: Frame<'p>, value: Value) -> Focus<'p>
        requires room { vec_len self.old.frames < vec_capacity self.old.frames }
        ensures goes { (s : Surrounding) (rs : List Val) → meeting self.old s frame.entry (val_of value) rs ≡ running self.new s result rs }
    {
        self.frames.push_reserved(frame);
        Focus::Give(value)
    }

    /// Begins the evaluation of an expression.
    fn eval(&mut self, expr: &'p Expr, setting: Setting<'_>) -> Result<Move<'p>, Focus<'p>>
        requires room { vec_len self.old.frames < vec_capacity self.old.frames }
        ensures goes { SameEffect (running self.old (setting_of setting.entry) (focus.Eval expr.entry)) (left self.new (setting_of setting.entry) result) }
        ensures falls { Falls (work self.old (focus.Eval expr.entry)) self.new result }
    {
        if self.count >= 100_000 {
            return Ok(Move::At(Effect::Trap(6)));
        }
        if self.count < 99_990 {
            if let Some(answer) = operation_at(expr, setting, &self.scope) {
                self.count += 3;
                return Ok(self.follow(finish(answer)));
            }
            if let Some(branch) = branch_at(expr, setting, &self.scope) {
                self.count += 4;
                return Ok(Move::On(Focus::Eval(branch)));
            }
        }
        match open(expr, setting, &self.scope) {
            Ok(progress) => {
                self.count += 1;
                Ok(self.follow(progress))
            }
            Err(_failed) => Err(Focus::Eval(expr)),
        }
    }

    /// Binds the value of a let in its body.
    fn enter(&mut self, name: &'p Word, body: &'p Expr, value: Value) -> Result<Move<'p>, Focus<'p>>
        requires room { vec_len self.old.frames < vec_capacity self.old.frames }
        ensures goes { (s : Surrounding) → SameEffect (λ rs. and_then (meaning_of body.entry.now s (self.old.scope ++ (name.entry.now, val_of value) ∷ []) self.old.count rs) (rest_of self.old s self.old.scope)) (left self.new s result) }
        ensures falls { Falls (3 * (100000 - self.old.count) + length self.old.frames.items + 2) self.new result }
    {
        let height = self.scope.len();
        match self.scope.bind(name, value) {
            Ok(()) => {
                self.frames.push_reserved(Frame::Leave { height });
                Ok(Move::On(Focus::Eval(body)))
            }
            Err((value, _failed)) => Err(self.put_back(Frame::Bind { name, body }, value)),
        }
    }

    /// The next round of a fold with this sum, or its end.
    fn each(
        &mut self,
        list: Values,
        next: usize,
        sum: Value,
        round: Round<'p>,
    ) -> Result<Move<'p>, Focus<'p>>
        requires room { vec_len self.old.frames < vec_capacity self.old.frames }
        ensures goes { (s : Surrounding) → SameEffect (λ rs. and_then (for_each (inside (drop next list)) (val_of sum) (round_of round.entry s self.old.scope) self.old.count rs) (rest_of self.old s self.old.scope)) (left self.new s result) }
        ensures falls { Falls (3 * (100000 - self.old.count) + length self.old.frames.items + 2) self.new result }
    {
        if next >= list.len() {
            return Ok(Move::On(Focus::Give(sum)));
        }
        let height = self.scope.len();
        match copy_of_item(&list, next) {
            Ok(item) => match self.scope.bind_two((round.sum, sum), (round.item, item)) {
                Ok(()) => {
                    self.frames.push_reserved(Frame::Next {
                        height,
                        list,
                        next: next + 1,
                        round,
                    });
                    Ok(Move::On(Focus::Eval(round.body)))
                }
                Err((sum, _item)) => {
                    let frame = Frame::Next {
                        height,
                        list,
                        next,
                        round,
                    };
                    Err(self.put_back(frame, sum))
                }
            },
            Err(_failed) => {
                let frame = Frame::Next {
                    height,
                    list,
                    next,
                    round,
                };
                Err(self.put_back(frame, sum))
            }
        }
    }

    /// The next rounds of a fold with this sum, or its end: first those whose value is at hand.
    fn rounds(
        &mut self,
        setting: Setting<'_>,
        list: Values,
        next: usize,
        sum: Value,
        round: Round<'p>,
    ) -> Result<Move<'p>, Focus<'p>>
        requires room { vec_len self.old.frames < vec_capacity self.old.frames }
        ensures goes { SameEffect (λ rs. and_then (for_each (inside (drop next list)) (val_of sum) (round_of round.entry (setting_of setting.entry) self.old.scope) self.old.count rs) (rest_of self.old (setting_of setting.entry) self.old.scope)) (left self.new (setting_of setting.entry) result) }
        ensures falls { Falls (3 * (100000 - self.old.count) + length self.old.frames.items + 2) self.new result }
    {
        let from = Rounds {
            next,
            sum,
            count: self.count,
        };
        let Rounds { next, sum, count } = rounds_at(&list, setting, &self.scope, round, from);
        self.count = count;
        self.each(list, next, sum, round)
    }

    /// Lets go of the variables that the last frame leaves, so that what they share can be changed in place.
    fn release(&mut self)
        ensures goes { (s : Surrounding) → rest_of self.new s self.new.scope ≡ rest_of self.old s self.old.scope }
        ensures frames { self.new.frames ≡ self.old.frames }
        ensures count { self.new.count ≡ self.old.count }
    {
        match self.frames.last() {
            Some(Frame::Leave { height }) => self.scope.cut(*height),
            Some(Frame::Next { height, .. }) => self.scope.cut(*height),
            _ => {}
        }
    }

    /// A list with one value more, or its end.
    fn collect(
        &mut self,
        mut values: Values,
        rest: &'p [Expr],
        value: Value,
    ) -> Result<Move<'p>, Focus<'p>>
        requires room { vec_len self.old.frames < vec_capacity self.old.frames }
        ensures goes { (s : Surrounding) → SameEffect (λ rs. and_then (items (parts rest.entry.now) s self.old.scope (values ++ val_of value ∷ []) self.old.count rs) (rest_of self.old s self.old.scope)) (left self.new s result) }
        ensures falls { Falls (3 * (100000 - self.old.count) + length self.old.frames.items + 2) self.new result }
    {
        match values.push(value) {
            Ok(()) => Ok(self.follow(gather(values, rest))),
            Err((value, _failed)) => Err(self.put_back(Frame::Gather { values, rest }, value)),
        }
    }

    /// An operation on two values.
    fn combine(
        &mut self,
        alloc: Global,
        prim: Prim,
        one: Value,
        two: Value,
    ) -> Result<Move<'p>, Focus<'p>>
        requires room { vec_len self.old.frames < vec_capacity self.old.frames }
        ensures goes { (s : Surrounding) → SameEffect (λ rs. and_then (finished (two_by prim (val_of one) (val_of two)) self.old.count rs) (rest_of self.old s self.old.scope)) (left self.new s result) }
        ensures falls { Falls (3 * (100000 - self.old.count) + length self.old.frames.items + 2) self.new result }
    {
        self.release();
        match of_two(alloc, prim, one, two) {
            Ok(answer) => Ok(self.follow(finish(answer))),
            Err((left, two, _failed)) => Err(self.put_back(Frame::Right { prim, left }, two)),
        }
    }

    /// The rounds of a fold over this value, with this first sum.
    fn fold(
        &mut self,
        setting: Setting<'_>,
        list: Value,
        first: Value,
        round: Round<'p>,
    ) -> Result<Move<'p>, Focus<'p>>
        requires room { vec_len self.old.frames < vec_capacity self.old.frames }
        ensures goes { SameEffect (λ rs. and_then (folds (val_of list) (val_of first) (round_of round.entry (setting_of setting.entry) self.old.scope) self.old.count rs) (rest_of self.old (setting_of setting.entry) self.old.scope)) (left self.new (setting_of setting.entry) result) }
        ensures falls { Falls (3 * (100000 - self.old.count) + length self.old.frames.items + 2) self.new result }
    {
        match list {
            Value::List(items) => self.rounds(setting, items, 0, first, round),
            _ => Ok(Move::At(Effect::Trap(1))),
        }
    }

    /// Goes on with the right part of an operation, whose left value has come.
    fn second(&mut self, setting: Setting<'_>, prim: Prim, right: &'p Expr, left: Value) -> Move<'p>
        requires room { vec_len self.old.frames < vec_capacity self.old.frames }
        ensures goes { (rs : List Val) → and_then (and_then (meaning_of right.entry.now (setting_of setting.entry) self.old.scope self.old.count rs) (λ w. finished (two_by prim (val_of left) w))) (rest_of self.old (setting_of setting.entry) self.old.scope) ≡ moved self.new (setting_of setting.entry) result rs }
        ensures falls { Falls (3 * (100000 - self.old.count) + length self.old.frames.items + 2) self.new (Ok result) }
    {
        if self.count < 100_000 {
            if let Some(answer) = operation_with(prim, &left, right, setting, &self.scope) {
                self.count += 1;
                return self.follow(finish(answer));
            }
        }
        self.follow(part(Frame::Right { prim, left }, right))
    }

    /// Gives a value to a frame.
    fn meet(
        &mut self,
        setting: Setting<'_>,
        frame: Frame<'p>,
        value: Value,
    ) -> Result<Move<'p>, Focus<'p>>
        requires room { vec_len self.old.frames < vec_capacity self.old.frames }
        ensures goes { SameEffect (meeting self.old (setting_of setting.entry) frame.entry (val_of value)) (left self.new (setting_of setting.entry) result) }
        ensures falls { Falls (3 * (100000 - self.old.count) + length self.old.frames.items + 2) self.new result }
    {
        match frame {
            Frame::Bind { name, body } => self.enter(name, body, value),
            Frame::Leave { height } => {
                self.scope.cut(height);
                Ok(Move::On(Focus::Give(value)))
            }
            Frame::Choose { yes, no } => Ok(self.follow(choose(value, yes, no))),
            Frame::Last { rest } => Ok(self.follow(last_of(value, rest))),
            Frame::Gather { values, rest } => self.collect(values, rest, value),
            Frame::First { first, round } => {
                let frame = Frame::Start { list: value, round };
                Ok(self.follow(part(frame, first)))
            }
            Frame::Start { list, round } => self.fold(setting, list, value, round),
            Frame::Next {
                height,
                list,
                next,
                round,
            } => {
                self.scope.cut(height);
                self.rounds(setting, list, next, value, round)
            }
            Frame::One { prim } => Ok(self.follow(finish(of_one(prim, &value)))),
            Frame::Left { prim, right } => Ok(self.second(setting, prim, right, value)),
            Frame::Right { prim, left } => self.combine(setting.alloc, prim, left, value),
            Frame::State => Ok(Move::At(Effect::Set(value))),
            Frame::To { value: expr } => {
                let frame = Frame::Sent { to: value };
                Ok(self.follow(part(frame, expr)))
            }
            Frame::Sent { to } => Ok(self.follow(send(to, value))),
            Frame::Node { behaviour, state } => {
                let frame = Frame::Created {
                    behaviour,
                    node: value,
                };
                Ok(self.follow(part(frame, state)))
            }
            Frame::Created { behaviour, node } => {
                Ok(self.follow(create(setting.nodes, behaviour, node, value)))
            }
        }
    }

    /// Gives a value to the last frame; where there is none the evaluation is done.
    fn give(&mut self, setting: Setting<'_>, value: Value) -> Result<Move<'p>, Focus<'p>>
        requires room { vec_len self.old.frames < vec_capacity self.old.frames }
        ensures goes { SameEffect (running self.old (setting_of setting.entry) (focus.Give value)) (left self.new (setting_of setting.entry) result) }
        ensures falls { Falls (work self.old (focus.Give value)) self.new result }
    {
        match self.frames.pop() {
            Some(frame) => self.meet(setting, frame, value),
            None => Ok(Move::At(Effect::Done)),
        }
    }

    /// One step. Without memory it answers where the machine stands, with the same that comes of it.
    fn step(&mut self, setting: Setting<'_>, focus: Focus<'p>) -> Result<Move<'p>, Focus<'p>>
        ensures goes { SameEffect (running self.old (setting_of setting.entry) focus.entry) (left self.new (setting_of setting.entry) result) }
        ensures falls { Falls (work self.old focus.entry) self.new result }
    {
        if self.frames.reserve(1).is_err() {
            return Err(focus);
        }
        match focus {
            Focus::Eval(expr) => self.eval(expr, setting),
            Focus::Give(value) => self.give(setting, value),
        }
    }

    /// Goes on to the next effect. Without memory it answers where the machine stands, with the same that comes of it.
    pub fn run(&mut self, setting: Setting<'_>, focus: Focus<'p>) -> Result<Effect, Focus<'p>>
        ensures reached { IfOk result (λ e. SameEffect (running self.old (setting_of setting.entry) focus.entry) (reached_by self.new (setting_of setting.entry) (eff_of e))) }
        ensures stays { IfErr result (λ f. SameEffect (running self.old (setting_of setting.entry) focus.entry) (running self.new (setting_of setting.entry) f)) }
    {
        let mut focus = focus;
        loop {
            match self.step(setting, focus) {
                Ok(Move::On(next)) => focus = next,
                Ok(Move::At(effect)) => return Ok(effect),
                Err(left) => return Err(left),
            }
        }
    }
}

/// A copy of the value at a place of a list.
fn copy_of_item(list: &Values, place: usize) -> Result<Value, AllocError>
    requires { place < length list.now }
    ensures { IfOk result (λ v. slice_get list.now place ≡ Some (val_of v)) }
{
    match list.item(place) {
        Some(item) => item.copy(),
        None => unreachable!(),
    }
}
