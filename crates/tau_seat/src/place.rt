//! A seat as the place of a worker.
ghost use Rattle.std.specs.Prelude.{◌≡◌, ◌<◌, [], None, IsSome, IsTrue, IfOk, IfErr, OnErr, length, All};
ghost use Rattle.tau_eval.specs.Turn.{TurnSoFar};
ghost use Rattle.tau_book.specs.Places.{EndsBy, IsNotIdle, LeavesRoom, IsVouched, ComesBack};
ghost use Rattle.tau_book.specs.Lefts.{IsLeftOf};
ghost use Rattle.tau_seat.specs.Lists.{bare, Begins};
ghost use Rattle.tau_seat.specs.Keys.{IsSound};
ghost use Rattle.tau_seat.specs.Seated.{key_at, Stays, Watches, Grows, EndsWith};
ghost use Rattle.tau_seat.specs.Knowing.{IsSeenOpen};
ghost use Rattle.tau_seat.specs.SeatPlaces.{HasEnded, IsSeenOver, Vouches, completeness_told, key_of_place, end_of};
ghost use Rattle.tau_seat.specs.Answers.{has_stepped, has_made};

use crate::seat_book::{BookSeat, SeatBook};
use std::alloc::AllocError;
use std::marker::Model;
use std::sync::Wait;
use tau_book::{Hand, Next, StepPlace, Told, known_jobs_are_handed_on};
use tau_eval::Pending;
use tau_knowledge::Knowledge;

/// A seat as the place of a worker (docs/rules.md, "Seats"). Contracts see the seat, the end that the book told it, if it told one, and
/// whether it knows its jobs. What the seat of a place that was told an end has seen is complete, or as long as the limit.
#[derive(Drop)]
pub struct SeatPlace<'a, 'p, K: Knowledge + Drop> {
    table: &'a SeatBook<'p, K>,
    seat: BookSeat<'p, K>,
    is_complete: Option<bool>,
    // Whether each job that it hands out or is brought was the record of an open turn: whenever it asked the book for one, no job had come
    // back. (Whoever gives a job back may have made it of another run.)
    knows: bool,
}

impl<'a, 'p, K: Knowledge + Drop> Model for SeatPlace<'a, 'p, K> {
    ghost use Rattle.std.specs.Prelude.{◌≡◌};
    ghost use Rattle.std.specs.Coded.{codes};
    ghost use Rattle.atomic_table.specs.Seated.{table_id_coded};
    ghost use Rattle.tau_value.specs.Val.{val_code};
    ghost use Rattle.tau_tree.specs.Code.{code_code};
    ghost use Rattle.tau_seat.specs.SeatPlaces.{Placed, HasEnded};

    ghost Value = { Placed };

    ghost coded = { Prim.hlevel (codes, table_id_coded, val_code, code_code) };

    ghost view = { λ p. record { seat = p.seat; is_complete = p.is_complete; knows = p.knows } };

    ghost invariant = { λ p. (p.seat.table ≡ p.table.now.table) × HasEnded p.seat p.is_complete };
}

impl<'a, 'p, K: Knowledge + Drop> SeatPlace<'a, 'p, K> {
    /// The place of a seat at its table, before it was told an end.
    pub fn new(table: &'a SeatBook<'p, K>, seat: BookSeat<'p, K>) -> SeatPlace<'a, 'p, K>
        requires { seat.table ≡ table.now.table }
        ensures seat { result.seat ≡ seat.entry }
        ensures end { result.is_complete ≡ None }
        ensures knows { IsTrue result.knows }
    {
        SeatPlace {
            table,
            seat,
            is_complete: None,
            knows: true,
        }
    }

    /// The seat, given up by the place.
    pub fn into_seat(self) -> BookSeat<'p, K>
        ensures seat { result ≡ self.entry.seat }
        ensures ended { HasEnded result self.entry.is_complete }
    {
        self.seat
    }
}

impl<'a, 'p, K: Knowledge + Drop> StepPlace<'p> for SeatPlace<'a, 'p, K> {
    ghost use Rattle.std.specs.Prelude.{Bool, true, Option};
    ghost use Rattle.tau_book.specs.Places.{End};
    ghost use Rattle.tau_seat.specs.SeatPlaces.{PlaceKey, key_of_place, end_of, IsSeenOver, Vouches};

    ghost Key = { PlaceKey };

    ghost key = { key_of_place };

    ghost tells_end = { true };

    ghost end = { λ p. end_of p.is_complete };

    ghost sees_over = { λ p q job. IsSeenOver p.seat q.seat job };

    ghost vouches = { Vouches };

    // As of each place, and the seat has made a step where the answer tells one, and none where it doesn't. The place knows its jobs no more
    // where one had come back to the book; no clause tells where that was.
    fn next<R: Wait>(&mut self, rt: &R, hand: &mut Hand<'p>) -> Result<Next<'p>, AllocError>
        requires known { All (Vouches self.old) hand.old.jobs }
        ensures key { key_of_place self.new ≡ key_of_place self.old }
        ensures end { IfOk result (EndsBy (end_of self.new.is_complete)) }
        ensures stays { IsSome (end_of self.old.is_complete) → end_of self.new.is_complete ≡ end_of self.old.is_complete }
        ensures never_idle { IfOk result IsNotIdle }
        ensures room { IfOk result (LeavesRoom hand.new) }
        ensures hand_on_err { OnErr result (IsLeftOf (IsSeenOver self.old.seat self.new.seat) hand.old hand.new) }
        ensures size { hand.new.size ≡ hand.old.size }
        ensures vouched { (job : TurnSoFar) → Vouches self.old job → Vouches self.new job }
        ensures known { All (Vouches self.new) hand.new.jobs }
        ensures work { IfOk result (IsVouched (Vouches self.new)) }
        ensures step { Grows (has_stepped result) self.old.seat self.new.seat }
    {
        match self.is_complete {
            Some(true) => return Ok(Next::Complete),
            Some(false) => return Ok(Next::Stopped),
            None => {}
        }
        let answer = ask(rt, self.table, &mut self.seat, hand, &mut self.knows)?;
        self.is_complete = end_told(&answer);
        Ok(answer)
    }

    fn act<R: Wait>(
        &mut self,
        rt: &R,
        hand: &mut Hand<'p>,
        pending: Pending<'p>,
    ) -> Result<Told<'p>, (Pending<'p>, AllocError)>
        requires room { length hand.old.jobs < hand.old.size }
        requires known { All (Vouches self.old) hand.old.jobs }
        requires pending { Vouches self.old pending }
        ensures key { key_of_place self.new ≡ key_of_place self.old }
        ensures stays { IsSome (end_of self.old.is_complete) → end_of self.new.is_complete ≡ end_of self.old.is_complete }
        ensures later { IfOk result (ComesBack hand.old hand.new pending.entry) }
        ensures pending_on_err { IfErr result (λ e. e.0 ≡ pending.entry) }
        ensures hand_on_err { OnErr result (hand.new ≡ hand.old) }
        ensures size { hand.new.size ≡ hand.old.size }
        ensures vouched { (job : TurnSoFar) → Vouches self.old job → Vouches self.new job }
        ensures known { All (Vouches self.new) hand.new.jobs }
        ensures step { Grows (has_made result) self.old.seat self.new.seat }
        ensures knows { self.new.knows ≡ self.old.knows }
    {
        bring(rt, self.table, &mut self.seat, hand, pending, self.knows)
    }

    fn give_back<R: Wait>(&mut self, rt: &R, hand: &mut Hand<'p>)
        ensures key { key_of_place self.new ≡ key_of_place self.old }
        ensures stays { IsSome (end_of self.old.is_complete) → end_of self.new.is_complete ≡ end_of self.old.is_complete }
        ensures empty { hand.new.jobs ≡ [] }
        ensures size { hand.new.size ≡ hand.old.size }
        ensures vouched { (job : TurnSoFar) → Vouches self.old job → Vouches self.new job }
        ensures step { Watches self.old.seat self.new.seat }
        ensures knows { self.new.knows ≡ self.old.knows }
    {
        self.table.give_back(rt, &mut self.seat, hand);
    }
}

/// `next` of the book in a turn of the seat. Where the book is `Idle`, the seat waits for a change of it and asks again. It knows its jobs
/// no more, if a job had come back then.
fn ask<'p, K: Knowledge + Drop, R: Wait>(
    rt: &R,
    table: &SeatBook<'p, K>,
    seat: &mut BookSeat<'p, K>,
    hand: &mut Hand<'p>,
    knows: &mut bool,
) -> Result<Next<'p>, AllocError>
    requires table { seat.old.table ≡ table.now.table }
    ensures stays { Stays seat.old seat.new }
    ensures prefix { Begins seat.old.seen seat.new.seen }
    ensures step { Grows (has_stepped result) seat.old seat.new }
    ensures end { IfOk result (EndsWith seat.new) }
    ensures never_idle { IfOk result IsNotIdle }
    ensures room { IfOk result (LeavesRoom hand.new) }
    ensures hand_on_err { OnErr result (IsLeftOf (IsSeenOver seat.old seat.new) hand.old hand.new) }
    ensures size { hand.new.size ≡ hand.old.size }
    ensures knew { IsTrue knows.new → IsTrue knows.old }
    ensures known { IsTrue knows.new → All (IsSeenOpen seat.old) hand.old.jobs → All (IsSeenOpen seat.new) hand.new.jobs }
    ensures work { IsTrue knows.new → All (IsSeenOpen seat.old) hand.old.jobs → IfOk result (IsVouched (IsSeenOpen seat.new)) }
{
    let has_jobs = hand.len() > 0;
    let mut idlers = table.enter_to_ask(rt, has_jobs);
    for _ in rt.forever() {
        match table.next_entered(rt, &mut idlers, seat, hand, knows)? {
            Next::Idle { .. } => idlers = table.wait_for_change(rt, idlers),
            answer => return Ok(answer),
        }
    }
    unreachable!()
}

/// `act` of the book in a turn of the seat, by which a job that is known is compared with no record that has as many replies.
fn bring<'p, K: Knowledge + Drop, R: Wait>(
    rt: &R,
    table: &SeatBook<'p, K>,
    seat: &mut BookSeat<'p, K>,
    hand: &mut Hand<'p>,
    pending: Pending<'p>,
    knows: bool,
) -> Result<Told<'p>, (Pending<'p>, AllocError)>
    requires table { seat.old.table ≡ table.now.table }
    requires room { length hand.old.jobs < hand.old.size }
    requires known { IsTrue knows → IsSeenOpen seat.old pending }
    ensures stays { Stays seat.old seat.new }
    ensures sound { IsSound (key_at seat.new) (bare seat.new.seen) }
    ensures prefix { Begins seat.old.seen seat.new.seen }
    ensures step { Grows (has_made result) seat.old seat.new }
    ensures later { IfOk result (ComesBack hand.old hand.new pending.entry) }
    ensures size { hand.new.size ≡ hand.old.size }
    ensures pending_on_err { IfErr result (λ e. e.0 ≡ pending.entry) }
    ensures hand_on_err { OnErr result (hand.new ≡ hand.old) }
    ensures jobs { All (IsSeenOpen seat.old) hand.old.jobs → All (IsSeenOpen seat.new) hand.new.jobs }
{
    // What is known of the jobs afterwards.
    known_jobs_are_handed_on();
    table.act(rt, seat, hand, pending, knows)
}

/// Whether the trace is complete, where the answer tells the end.
fn end_told(answer: &Next<'_>) -> Option<bool>
    ensures { result ≡ completeness_told answer.now }
{
    match answer {
        Next::Complete => Some(true),
        Next::Stopped => Some(false),
        _ => None,
    }
}
