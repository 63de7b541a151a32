//! Workers, each on a thread of its own.
ghost use Rattle.std.specs.Prelude.{◌≡◌, ◌<◌, ℕ, [], IsSome, IsTrue, IsFalse, IfOk, OnOk, OnErr, length, slice_index_or, All};
ghost use Rattle.tau_book.specs.Hands.{joined};

use std::alloc::AllocError;
use std::sync::Wait;
use std::thread;
use std::thread::Threads;
use tau_book::{Gate, Hand, Next, StepPlace, Told};
use tau_eval::{Job, Pending};

/// A worker: its number, its place on a book, and its hand; and whether it has ended for want of memory.
#[derive(Drop)]
pub struct Worker<'p, P> {
    pub number: u32,
    pub place: P,
    pub hand: Hand<'p>,
    pub short: bool,
}

/// What a thread does, which keeps a part of what it is, and has ended in some way. (A bound that names a lifetime, as `StepPlace<'p>`,
/// is none that a thread may be given, so `run` takes this one.)
pub trait Task {
    ghost Part: { Type 0 };

    ghost part: { Self → Part };

    ghost has_ended: { Self → Type 0 };

    fn work<R: Wait, G: Gate>(&mut self, rt: &R, gate: &G)
        ensures part { part self.new ≡ part self.old }
        ensures ended { has_ended self.new };
}

/// Lets each worker work on a thread of its own until it ends (docs/rules.md, "Workers"). Each keeps its part and has ended: a `Worker`
/// keeps its number and its place's key, and where its place tells its end and it isn't short, the place has one.
pub fn run<R: Threads + Wait + Sync, T: Task + Send, G: Gate + Sync>(
    rt: &R,
    workers: &mut [T],
    gate: &G,
)
    ensures part { (i : ℕ) (d : _) → i < length workers.old → T.part (slice_index_or workers.new i d) ≡ T.part (slice_index_or workers.old i d) }
    ensures ended { (i : ℕ) (d : _) → i < length workers.old → T.has_ended (slice_index_or workers.new i d) }
{
    let threads = workers.len();
    if threads > 0 {
        thread::for_each_mut(rt, workers, threads, &|_, worker| worker.work(rt, gate));
    }
}

// A worker keeps its number and its place's key. Where its place tells its end and it isn't short, the place has one.
impl<'p, P: StepPlace<'p>> Task for Worker<'p, P> {
    ghost use Rattle.std.specs.Prelude.{ℕ, IsTrue, IsFalse, IsSome};

    ghost Part = { ℕ × P.Key };

    ghost part = { λ w. (w.number, P.key w.place) };

    ghost has_ended = { λ w. IsTrue P.tells_end → IsFalse w.short → IsSome (P.end w.place) };

    fn work<R: Wait, G: Gate>(&mut self, rt: &R, gate: &G) {
        self.work_on(rt, gate);
    }
}

impl<'p, P: StepPlace<'p>> Worker<'p, P> {
    /// Works until the book answers `Complete` or `Stopped`, or memory is short. Then it gives its jobs back. What its hand held before it gives
    /// back at first, since its place vouches only for what comes from the book.
    fn work_on<R: Wait, G: Gate>(&mut self, rt: &R, gate: &G)
        ensures number { self.new.number ≡ self.old.number }
        ensures key { P.key self.new.place ≡ P.key self.old.place }
        ensures end { IsTrue P.tells_end → IsFalse self.new.short → IsSome (P.end self.new.place) }
    {
        self.begin_empty(rt);
        for _ in rt.forever() {
            match self.ask(rt, gate) {
                Ok(true) => {}
                Ok(false) => return,
                Err(_) => {
                    self.end_short(rt);
                    return;
                }
            }
        }
        unreachable!()
    }

    /// Gives back the jobs that the hand has, if any.
    fn begin_empty<R: Wait>(&mut self, rt: &R)
        ensures number { self.new.number ≡ self.old.number }
        ensures key { P.key self.new.place ≡ P.key self.old.place }
        ensures empty { self.new.hand.jobs ≡ [] }
    {
        if self.hand.len() > 0 {
            self.place.give_back(rt, &mut self.hand);
        }
    }

    /// Asks for something to do, and does it. `false` where the run has ended. The error is want of memory.
    fn ask<R: Wait, G: Gate>(&mut self, rt: &R, gate: &G) -> Result<bool, AllocError>
        requires known { All (P.vouches self.old.place) self.old.hand.jobs }
        ensures number { self.new.number ≡ self.old.number }
        ensures key { P.key self.new.place ≡ P.key self.old.place }
        ensures end { IfOk result (λ goes_on. IsTrue P.tells_end → IsFalse goes_on → IsSome (P.end self.new.place)) }
        ensures known { OnOk result (All (P.vouches self.new.place) self.new.hand.jobs) }
    {
        match self.place.next(rt, &mut self.hand)? {
            Next::Work(job) => {
                self.evaluate(rt, gate, job)?;
                Ok(true)
            }
            Next::Stepped => Ok(true),
            Next::Complete | Next::Stopped => Ok(false),
            Next::Idle { .. } => unreachable!(),
        }
    }

    /// Evaluates a job up to its next effect, and brings that. Where memory is short, the hand keeps the job.
    fn evaluate<R: Wait, G: Gate>(
        &mut self,
        rt: &R,
        gate: &G,
        job: Job<'p>,
    ) -> Result<(), AllocError>
        requires room { length self.old.hand.jobs < self.old.hand.size }
        requires known { All (P.vouches self.old.place) self.old.hand.jobs }
        requires job { P.vouches self.old.place job }
        ensures number { self.new.number ≡ self.old.number }
        ensures key { P.key self.new.place ≡ P.key self.old.place }
        ensures known { OnOk result (All (P.vouches self.new.place) self.new.hand.jobs) }
        ensures kept { OnErr result (self.new.hand ≡ joined self.old.hand job.entry) }
    {
        let turn = job.turn();
        gate.enter(self.number, turn);
        let advanced = job.advance();
        gate.leave(self.number, turn);
        match advanced {
            Ok(pending) => self.bring(rt, pending),
            Err((job, failed)) => {
                self.hand.keep(job);
                Err(failed)
            }
        }
    }

    /// Brings an effect, and brings it again for as long as a step of the script comes first. Where memory is short, the hand keeps the
    /// job that came to it.
    fn bring<R: Wait>(&mut self, rt: &R, pending: Pending<'p>) -> Result<(), AllocError>
        requires room { length self.old.hand.jobs < self.old.hand.size }
        requires known { All (P.vouches self.old.place) self.old.hand.jobs }
        requires pending { P.vouches self.old.place pending }
        ensures number { self.new.number ≡ self.old.number }
        ensures key { P.key self.new.place ≡ P.key self.old.place }
        ensures known { OnOk result (All (P.vouches self.new.place) self.new.hand.jobs) }
        ensures kept { OnErr result (self.new.hand ≡ joined self.old.hand pending.entry) }
    {
        let mut pending = pending;
        for _ in rt.forever() {
            match self.place.act(rt, &mut self.hand, pending) {
                Ok(Told::Later(back)) => pending = back,
                Ok(_) => return Ok(()),
                Err((refused, failed)) => {
                    self.hand.keep(refused.back());
                    return Err(failed);
                }
            }
        }
        unreachable!()
    }

    /// Gives the jobs back, and has ended as short of memory.
    fn end_short<R: Wait>(&mut self, rt: &R)
        ensures number { self.new.number ≡ self.old.number }
        ensures key { P.key self.new.place ≡ P.key self.old.place }
        ensures short { IsTrue self.new.short }
        ensures empty { self.new.hand.jobs ≡ [] }
    {
        self.place.give_back(rt, &mut self.hand);
        self.short = true;
    }
}
