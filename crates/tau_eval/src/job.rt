//! Jobs: turns that are evaluated up to an effect, and go on from its reply (docs/language.md, "The next effect").
ghost use Rattle.std.specs.Prelude.{ℕ, List, [], ◌∷◌, ◌++◌, ◌≡◌, ◌↔◌, ◌<◌, Some, IsTrue, IfOk, IfErr, map, length, slice_get};
ghost use Rattle.tau_value.specs.Value.{val_of};
ghost use Rattle.tau_tree.specs.Sound.{bodies};
ghost use Rattle.tau_tree.specs.Expr.{code_of};
ghost use Rattle.tau_eval.specs.Effect.{eff_of};
ghost use Rattle.tau_eval.specs.Turn.{IsTurnOf, next_in, with_reply};

use crate::Effect;
use crate::course::{Course, State};
use crate::machine::{Focus, Machine};
use std::alloc::{AllocError, Global};
use std::marker::Model;
use tau_tree::{Expr, Program};
use tau_value::{Value, Values};

/// A turn that can go on. Contracts see it as its turn: the body of its behaviour, the number of nodes, its transactor,
/// the place of its Take, its message and the replies so far.
#[derive(Drop)]
pub struct Job<'p> {
    course: Course<'p>,
    state: State<'p>,
}

impl<'p> Model for Job<'p> {
    ghost use Rattle.tau_eval.specs.Turn.{TurnSoFar, turn_code};

    ghost Value = { TurnSoFar };

    ghost coded = { turn_code };

    ghost use Rattle.tau_eval.specs.Course.{turn_of, GoesOn, stated};

    ghost view = { λ j. turn_of j.course };

    ghost invariant = { λ j. GoesOn j.course (stated j.course j.state) };
}

/// A turn that has come to an effect. Contracts see it as its turn, as of a `Job`.
#[derive(Drop)]
pub struct Pending<'p> {
    course: Course<'p>,
    effect: Effect,
}

impl<'p> Model for Pending<'p> {
    ghost use Rattle.tau_eval.specs.Turn.{TurnSoFar, turn_code};

    ghost Value = { TurnSoFar };

    ghost coded = { turn_code };

    ghost use Rattle.tau_eval.specs.Course.{turn_of, IsPending};

    ghost view = { λ p. turn_of p.course };

    ghost invariant = { λ p. IsPending p.course p.effect };
}

/// The body of a behaviour.
fn body_of<'p>(program: &'p Program, behaviour: u32) -> &'p Expr
    requires { behaviour < length program.now.behaviours }
    ensures { slice_get (bodies program.entry.now) behaviour ≡ Some (code_of result.now) }
{
    let behaviour = &program.behaviours.items()[behaviour as usize];
    &behaviour.body
}

#[tactic(auto, using(crate::proofs::CourseLemmas::begins))]
fn job_of<'p>(
    alloc: Global,
    program: &'p Program,
    who: u32,
    behaviour: u32,
    turn: u32,
    message: Value,
    replies: Vec<Value>,
) -> Job<'p>
    requires { behaviour < length program.now.behaviours }
    ensures { IsTurnOf program.entry.now who behaviour turn (val_of message) (map val_of replies.items) result }
{
    let body = body_of(program, behaviour);
    let course = Course {
        body,
        nodes: program.nodes,
        who,
        turn,
        message,
        replies,
        used: 0,
        machine: Machine::new(alloc),
        alloc,
    };
    Job {
        course,
        state: State::Running(Focus::Eval(body)),
    }
}

/// The job of a turn that begins: of a transactor `who`, with a behaviour of the program, the place of its Take and the
/// message (docs/language.md). The error is want of memory.
pub fn begin<'p>(
    alloc: Global,
    program: &'p Program,
    who: u32,
    behaviour: u32,
    turn: u32,
    message: Value,
) -> Result<Job<'p>, AllocError>
    requires { behaviour < length program.now.behaviours }
    ensures { IfOk result (λ j. IsTurnOf program.entry.now who behaviour turn (val_of message) [] j) }
{
    Ok(job_of(
        alloc,
        program,
        who,
        behaviour,
        turn,
        message,
        Vec::new(alloc),
    ))
}

/// The job of a turn with these replies. The next `advance` evaluates it from its beginning. The error is want of memory.
pub fn again<'p>(
    alloc: Global,
    program: &'p Program,
    who: u32,
    behaviour: u32,
    turn: u32,
    message: Value,
    replies: Values,
) -> Result<Job<'p>, AllocError>
    requires { behaviour < length program.now.behaviours }
    ensures { IfOk result (λ j. IsTurnOf program.entry.now who behaviour turn (val_of message) replies j) }
{
    let replies = copies_of(alloc, replies.items())?;
    Ok(job_of(alloc, program, who, behaviour, turn, message, replies))
}

fn copies_of(alloc: Global, values: &[Value]) -> Result<Vec<Value>, AllocError>
    ensures { IfOk result (λ v. map val_of v.items ≡ map val_of values.now) }
{
    let mut copies = Vec::with_capacity(alloc, values.len())?;
    for value in values {
        copies.push(value.copy()?)?;
    }
    Ok(copies)
}

fn are_same(one: &[Value], two: &[Value]) -> bool
    ensures { IsTrue result ↔ (map val_of one.now ≡ map val_of two.now) }
{
    if one.len() != two.len() {
        return false;
    }
    for (k, value) in one.iter().enumerate() {
        if !value.same(&two[k]) {
            return false;
        }
    }
    true
}

impl<'p> Job<'p> {
    /// Evaluates the turn up to the effect that comes after its replies, and takes the room for a reply. It goes on where the
    /// turn stopped; that no part is evaluated twice has no clause. Without memory the same turn comes back.
    pub fn advance(self) -> Result<Pending<'p>, (Job<'p>, AllocError)>
        ensures ok { IfOk result (λ p. p ≡ self.entry) }
        ensures err { IfErr result (λ e. e.0 ≡ self.entry) }
    {
        let Job { mut course, state } = self;
        match course.go(state) {
            Ok(effect) => Ok(Pending { course, effect }),
            Err(state) => Err((Job { course, state }, AllocError)),
        }
    }

    /// The place of the Take of the turn.
    pub fn turn(&self) -> u32
        ensures { result ≡ self.now.place }
    {
        self.course.turn
    }

    /// The transactor of the turn, by its number.
    pub fn who(&self) -> u32
        ensures { result ≡ self.now.who }
    {
        self.course.who
    }
}

impl<'p> Pending<'p> {
    /// The effect that comes next in the turn (docs/language.md, "The next effect").
    pub fn effect(&self) -> &Effect
        ensures { eff_of result.now ≡ next_in self.now }
    {
        &self.effect
    }

    /// The job with one reply more. It takes no memory.
    pub fn resume(self, reply: Value) -> Job<'p>
        ensures { result ≡ with_reply self.entry (val_of reply) }
    {
        let Pending { mut course, effect } = self;
        course.replies.push_reserved(reply);
        Job {
            course,
            state: State::Reached(effect),
        }
    }

    /// The job from which this came, with the same replies. It takes no memory.
    pub fn back(self) -> Job<'p>
        ensures { result ≡ self.entry }
    {
        let Pending { course, effect } = self;
        Job {
            course,
            state: State::Reached(effect),
        }
    }

    /// How many parts the turn has evaluated so far (docs/rules.md, "Workers", Waiting). No clause rests on it.
    pub fn evaluated(&self) -> u32 {
        self.course.machine.count
    }

    /// How many replies the turn has had.
    pub fn replies_len(&self) -> usize
        ensures { result ≡ length self.now.replies }
    {
        self.course.replies.len()
    }

    /// Whether the turn has this body, number of nodes and message, and these replies.
    pub fn agrees(&self, body: &Expr, nodes: u32, message: &Value, replies: &Values) -> bool
        ensures { IsTrue result ↔ ((self.now.body ≡ code_of body.now) × (self.now.nodes ≡ nodes) × (self.now.message ≡ val_of message.now) × (self.now.replies ≡ replies.now)) }
    {
        self.course.nodes == nodes
            && self.course.message.same(message)
            && are_same(&self.course.replies, replies.items())
            && self.course.body.same(body)
    }

    /// The place of the Take of the turn.
    pub fn turn(&self) -> u32
        ensures { result ≡ self.now.place }
    {
        self.course.turn
    }

    /// The transactor of the turn, by its number.
    pub fn who(&self) -> u32
        ensures { result ≡ self.now.who }
    {
        self.course.who
    }
}
