//! Places on a book.
ghost use Rattle.std.specs.Prelude.{◌≡◌, ◌<◌, ◌≤◌, [], Bool, Option, IsSome, IsTrue, IfOk, IfErr, OnErr, length, All};
ghost use Rattle.tau_eval.specs.Turn.{TurnSoFar};
ghost use Rattle.tau_book.specs.Places.{End, EndsBy, IsNotIdle, LeavesRoom, IsVouched, ComesBack};
ghost use Rattle.tau_book.specs.Lefts.{IsLeftOf};

use crate::{Hand, Next, Told};
use std::alloc::AllocError;
use std::sync::Wait;
use tau_eval::Pending;

/// A place from which a worker makes the calls of a book that others may call too (docs/rules.md, "Choice of a worker"). It has a
/// key, which stays, and where its type tells ends, the end that `next` told, if it told one. Where its type sees the trace, it says of
/// which jobs a place has seen, from one state of it to a later one, that their turn is over. And a place vouches for jobs: it is brought
/// no other, hands out no other, and vouches on for those for which it did.
pub trait StepPlace<'p> {
    ghost Key: { Type 0 };

    ghost key: { Self → Key };

    ghost tells_end: { Bool };

    ghost end: { Self → Option End };

    ghost sees_over: { Self → Self → TurnSoFar → Type 0 };

    ghost vouches: { Self → TurnSoFar → Type 0 };

    /// `next` of the book. Where the book is `Idle`, it waits and asks again. Without memory no word was drawn, no job has come, and
    /// the hand keeps each job but those whose turn the place has seen over in this call.
    fn next<R: Wait>(&mut self, rt: &R, hand: &mut Hand<'p>) -> Result<Next<'p>, AllocError>
        requires known { All (vouches self.old) hand.old.jobs }
        ensures key { key self.new ≡ key self.old }
        ensures end { IsTrue tells_end → IfOk result (EndsBy (end self.new)) }
        ensures stays { IsSome (end self.old) → end self.new ≡ end self.old }
        ensures never_idle { IfOk result IsNotIdle }
        ensures room { IfOk result (LeavesRoom hand.new) }
        ensures hand_on_err { OnErr result (IsLeftOf (sees_over self.old self.new) hand.old hand.new) }
        ensures size { hand.new.size ≡ hand.old.size }
        ensures vouched { (job : TurnSoFar) → vouches self.old job → vouches self.new job }
        ensures known { All (vouches self.new) hand.new.jobs }
        ensures work { IfOk result (IsVouched (vouches self.new)) };

    /// `act` of the book.
    fn act<R: Wait>(
        &mut self,
        rt: &R,
        hand: &mut Hand<'p>,
        pending: Pending<'p>,
    ) -> Result<Told<'p>, (Pending<'p>, AllocError)>
        requires room { length hand.old.jobs < hand.old.size }
        requires known { All (vouches self.old) hand.old.jobs }
        requires pending { vouches self.old pending }
        ensures key { key self.new ≡ key self.old }
        ensures stays { IsSome (end self.old) → end self.new ≡ end self.old }
        ensures later { IfOk result (ComesBack hand.old hand.new pending.entry) }
        ensures pending_on_err { IfErr result (λ e. e.0 ≡ pending.entry) }
        ensures hand_on_err { OnErr result (hand.new ≡ hand.old) }
        ensures size { hand.new.size ≡ hand.old.size }
        ensures vouched { (job : TurnSoFar) → vouches self.old job → vouches self.new job }
        ensures known { All (vouches self.new) hand.new.jobs };

    /// `give_back` of the book.
    fn give_back<R: Wait>(&mut self, rt: &R, hand: &mut Hand<'p>)
        ensures key { key self.new ≡ key self.old }
        ensures stays { IsSome (end self.old) → end self.new ≡ end self.old }
        ensures empty { hand.new.jobs ≡ [] }
        ensures size { hand.new.size ≡ hand.old.size }
        ensures vouched { (job : TurnSoFar) → vouches self.old job → vouches self.new job };
}
