//! The step book with seats.
ghost use Rattle.std.specs.Prelude.{◌≡◌, ◌≤◌, ◌<◌, ℕ, ◌+◌, [], ◌++◌, IsTrue, IfOk, IfErr, OnErr, length, take, drop, All};
ghost use Rattle.tau_book.specs.Nexts.{IsNext};
ghost use Rattle.tau_book.specs.Tolds.{IsTold, IsGivenBack};
ghost use Rattle.tau_book.specs.Places.{LeavesRoom, IsVouched, ComesBack};
ghost use Rattle.tau_seat.specs.Lists.{upto, times, bare, Begins, Behind};
ghost use Rattle.tau_seat.specs.Plays.{longer, shorter, teller_of};
ghost use Rattle.tau_seat.specs.Keys.{IsSound};
ghost use Rattle.tau_seat.specs.Seated.{key_at, mine_of, Stays, Watches, Grows, IsBookAt, IsTurn, EndsWith};
ghost use Rattle.tau_seat.specs.Knowing.{IsSeenOpen};
ghost use Rattle.tau_seat.specs.Answers.{has_stepped, has_made};

use crate::bell::{Bell, Idlers};
use crate::book_key::BookKey;
use crate::boxed_book::BoxedBook;
use crate::table::{Pass, SeatTable};
use std::alloc::{AllocError, Global};
use std::marker::Model;
use std::sync::{MutexGuard, Wait};
use tau_book::{Book, Hand, Next, Told, known_jobs_are_handed_on};
use tau_eval::Pending;
use tau_knowledge::Knowledge;

/// The step book shared by seats, which take turns by ticket (docs/rules.md, "Seats"). Contracts see which table it is, how many numbers its
/// seats share, the program and the limit of the book.
#[derive(Drop)]
pub struct SeatBook<'p, K: Knowledge + Drop> {
    table: SeatTable<BoxedBook<'p, K>>,
    bell: Bell,
}

impl<'p, K: Knowledge + Drop> Model for SeatBook<'p, K> {
    ghost use Rattle.std.specs.Coded.{codes};
    ghost use Rattle.atomic_table.specs.Seated.{table_id_coded};
    ghost use Rattle.tau_value.specs.Val.{val_code};
    ghost use Rattle.tau_tree.specs.Code.{code_code};
    ghost use Rattle.tau_seat.specs.Seated.{Tabled, tabled};

    ghost Value = { Tabled };

    ghost coded = { Prim.hlevel (codes, table_id_coded, val_code, code_code) };

    ghost view = { λ s. tabled s.table.table.shared.table_id s.table.table.shared.key };
}

/// A seat at a step book (docs/rules.md, "Seats"). Contracts see of which table it is, the program and the limit of that book, its numbers, and
/// the steps that it has seen, each with the number that owns its place.
#[derive(Drop)]
pub struct BookSeat<'p, K: Knowledge + Drop> {
    pass: Pass<BoxedBook<'p, K>>,
    key: BookKey<'p>,
}

impl<'p, K: Knowledge + Drop> Model for BookSeat<'p, K> {
    ghost use Rattle.std.specs.Coded.{codes};
    ghost use Rattle.atomic_table.specs.Seated.{table_id_coded};
    ghost use Rattle.tau_value.specs.Val.{val_code};
    ghost use Rattle.tau_tree.specs.Code.{code_code};
    ghost use Rattle.tau_seat.specs.Seated.{Seated, seated, IsSeat};

    ghost Value = { Seated };

    ghost coded = { Prim.hlevel (codes, table_id_coded, val_code, code_code) };

    ghost view = { λ s. seated s.pass.table_id s.key s.pass.me.0 };

    ghost invariant = { λ s. IsSeat s.key s.pass.me };
}

impl<'p, K: Knowledge + Drop> SeatBook<'p, K> {
    /// Puts a book without steps into a table whose seats share the numbers below n, at least one. The first seat has all of them, in
    /// order, and has seen nothing. Without memory the book comes back.
    pub fn new(
        alloc: Global,
        book: Book<'p, K>,
        n: u32,
    ) -> Result<(SeatBook<'p, K>, BookSeat<'p, K>), (Book<'p, K>, AllocError)>
        requires some { 1 ≤ n }
        requires empty { book.system.run.steps ≡ [] }
        ensures count { IfOk result (λ r. r.0.count ≡ n) }
        ensures program { IfOk result (λ r. r.0.program ≡ book.entry.system.program) }
        ensures limit { IfOk result (λ r. r.0.limit ≡ book.entry.limit) }
        ensures table { IfOk result (λ r. r.1.table ≡ r.0.table) }
        ensures names { IfOk result (λ r. (r.1.program ≡ r.0.program) × (r.1.limit ≡ r.0.limit)) }
        ensures numbers { IfOk result (λ r. r.1.numbers ≡ upto 0 n) }
        ensures seen { IfOk result (λ r. r.1.seen ≡ []) }
        ensures err { IfErr result (λ e. e.0 ≡ book.entry) }
    {
        // What holds of the book.
        let _system = book.system();
        let key = BookKey::of(&book);
        let boxed = match BoxedBook::new(alloc, book) {
            Ok(boxed) => boxed,
            Err(book) => return Err((book, AllocError)),
        };
        match SeatTable::new(alloc, boxed, n) {
            Ok((table, pass)) => {
                let bell = Bell::new();
                Ok((SeatBook { table, bell }, BookSeat { pass, key }))
            }
            Err(boxed) => Err((boxed.into_book(), AllocError)),
        }
    }

    /// Shares the numbers of a seat, more than `keep`, at least one, between two seats: the first keeps the first `keep`, and the second has
    /// the others. Both have seen the same.
    pub fn split(&self, seat: BookSeat<'p, K>, keep: u32) -> (BookSeat<'p, K>, BookSeat<'p, K>)
        requires table { seat.table ≡ self.now.table }
        requires some { 1 ≤ keep }
        requires more { keep < length seat.numbers }
        ensures first { result.0 ≡ record seat.entry { numbers = take keep seat.entry.numbers } }
        ensures second { result.1 ≡ record seat.entry { numbers = drop keep seat.entry.numbers } }
    {
        let BookSeat { pass, key } = seat;
        let other_key = key.again();
        let (pass, other) = self.table.split(pass, keep);
        (
            BookSeat { pass, key },
            BookSeat {
                pass: other,
                key: other_key,
            },
        )
    }

    /// Gives the numbers of one seat to another, which has then seen what either had seen. What one of them had seen begins what the other had
    /// seen, and the steps after it aren't its own.
    pub fn join(&self, into: &mut BookSeat<'p, K>, from: BookSeat<'p, K>)
        requires table { into.old.table ≡ self.now.table }
        requires from_table { from.table ≡ self.now.table }
        ensures names { (into.new.table ≡ into.old.table) × (into.new.program ≡ into.old.program) × (into.new.limit ≡ into.old.limit) }
        ensures numbers { into.new.numbers ≡ into.old.numbers ++ from.entry.numbers }
        ensures apart { (number : ℕ) → times number into.new.numbers ≤ 1 }
        ensures seen { into.new.seen ≡ longer into.old.seen from.entry.seen }
        ensures begins { Behind (teller_of into.old.numbers from.entry.numbers into.old.seen from.entry.seen) (shorter into.old.seen from.entry.seen) (longer into.old.seen from.entry.seen) }
        ensures mine { (place : ℕ) → times place (mine_of into.new) ≡ times place (mine_of into.old) + times place (mine_of from.entry) }
    {
        let BookSeat { pass, key: _key } = from;
        self.table.join(&mut into.pass, pass);
    }

    /// `next` of the book in the seat's turn, for which it waits (docs/rules.md, "Seats"). The error is want of memory; no step was appended
    /// then, and the hand is as it was.
    pub fn next<R: Wait>(
        &self,
        rt: &R,
        seat: &mut BookSeat<'p, K>,
        hand: &mut Hand<'p>,
    ) -> Result<Next<'p>, AllocError>
        requires table { seat.old.table ≡ self.now.table }
        ensures stays { Stays seat.old seat.new }
        ensures sound { IsSound (key_at seat.new) (bare seat.new.seen) }
        ensures prefix { Begins seat.old.seen seat.new.seen }
        ensures step { Grows (has_stepped result) seat.old seat.new }
        ensures answer { IfOk result (λ a. IsTurn seat.old seat.new (λ b c. IsNext b c hand.old hand.new a)) }
        ensures end { IfOk result (EndsWith seat.new) }
        ensures room { IfOk result (LeavesRoom hand.new) }
        ensures size { hand.new.size ≡ hand.old.size }
        ensures hand_on_err { OnErr result (hand.new ≡ hand.old) }
    {
        let mut idlers = self.bell.enter(rt);
        let mut knows = false;
        self.next_entered(rt, &mut idlers, seat, hand, &mut knows)
    }

    /// Waits until no other seat is between drawing its ticket and giving up its turn.
    pub(crate) fn enter<R: Wait>(&self, rt: &R) -> MutexGuard<'_, Idlers> {
        self.bell.enter(rt)
    }

    /// Waits as `enter` does, and where a seat has no jobs, evaluations are short and another seat evaluates, until it is woken.
    pub(crate) fn enter_to_ask<R: Wait>(&self, rt: &R, has_jobs: bool) -> MutexGuard<'_, Idlers> {
        self.bell.enter_to_ask(rt, has_jobs)
    }

    /// `next` of a seat that has entered. Its jobs are known on to be records of open turns where they were and no job had come back to the
    /// book; then what it is handed out is one too. (No clause tells which jobs had come back.)
    pub(crate) fn next_entered<R: Wait>(
        &self,
        rt: &R,
        idlers: &mut Idlers,
        seat: &mut BookSeat<'p, K>,
        hand: &mut Hand<'p>,
        knows: &mut bool,
    ) -> Result<Next<'p>, AllocError>
        requires table { seat.old.table ≡ self.now.table }
        ensures stays { Stays seat.old seat.new }
        ensures sound { IsSound (key_at seat.new) (bare seat.new.seen) }
        ensures prefix { Begins seat.old.seen seat.new.seen }
        ensures step { Grows (has_stepped result) seat.old seat.new }
        ensures answer { IfOk result (λ a. IsTurn seat.old seat.new (λ b c. IsNext b c hand.old hand.new a)) }
        ensures end { IfOk result (EndsWith seat.new) }
        ensures room { IfOk result (LeavesRoom hand.new) }
        ensures size { hand.new.size ≡ hand.old.size }
        ensures hand_on_err { OnErr result (hand.new ≡ hand.old) }
        ensures knew { IsTrue knows.new → IsTrue knows.old }
        ensures known { IsTrue knows.new → All (IsSeenOpen seat.old) hand.old.jobs → All (IsSeenOpen seat.new) hand.new.jobs }
        ensures work { IsTrue knows.new → All (IsSeenOpen seat.old) hand.old.jobs → IfOk result (IsVouched (IsSeenOpen seat.new)) }
    {
        // What is known of the jobs afterwards.
        known_jobs_are_handed_on();
        let mut boxed = self.table.take(rt, &mut seat.pass);
        let book = &mut *boxed.book;
        *knows = knows_still(*knows, book);
        let answer = book.next(hand);
        let offers_more = book.offers_more();
        let grew = has_stepped(&answer);
        self.table.put_back(&mut seat.pass, boxed, grew);
        self.tell(idlers, &answer, offers_more);
        answer
    }

    /// `act` of the book in the seat's turn, for which it waits (docs/rules.md, "Seats"). The hand has room. `was_open` says that the job was
    /// the record of an open turn at some moment of the run that the seat has seen. Without memory the effect comes back, no step was
    /// appended, and the hand is as it was.
    pub fn act<R: Wait>(
        &self,
        rt: &R,
        seat: &mut BookSeat<'p, K>,
        hand: &mut Hand<'p>,
        pending: Pending<'p>,
        was_open: bool,
    ) -> Result<Told<'p>, (Pending<'p>, AllocError)>
        requires table { seat.old.table ≡ self.now.table }
        requires room { length hand.old.jobs < hand.old.size }
        requires known { IsTrue was_open → IsSeenOpen seat.old pending }
        ensures stays { Stays seat.old seat.new }
        ensures sound { IsSound (key_at seat.new) (bare seat.new.seen) }
        ensures prefix { Begins seat.old.seen seat.new.seen }
        ensures step { Grows (has_made result) seat.old seat.new }
        ensures answer { IfOk result (λ a. IsTurn seat.old seat.new (λ b c. IsTold b c hand.old hand.new pending.entry a)) }
        ensures later { IfOk result (ComesBack hand.old hand.new pending.entry) }
        ensures size { hand.new.size ≡ hand.old.size }
        ensures pending_on_err { IfErr result (λ e. e.0 ≡ pending.entry) }
        ensures hand_on_err { OnErr result (hand.new ≡ hand.old) }
    {
        let mut idlers = self.bell.enter(rt);
        idlers.note_brought(&pending);
        let mut boxed = self.table.take(rt, &mut seat.pass);
        let book = &mut *boxed.book;
        // What holds of the book.
        let _system = book.system();
        let answer = book.act(hand, pending, was_open);
        let grew = has_made(&answer);
        self.table.put_back(&mut seat.pass, boxed, grew);
        answer
    }

    /// `give_back` of the book in the seat's turn, for which it waits (docs/rules.md, "Seats"). It takes no memory.
    pub fn give_back<R: Wait>(&self, rt: &R, seat: &mut BookSeat<'p, K>, hand: &mut Hand<'p>)
        requires table { seat.old.table ≡ self.now.table }
        ensures stays { Stays seat.old seat.new }
        ensures sound { IsSound (key_at seat.new) (bare seat.new.seen) }
        ensures prefix { Begins seat.old.seen seat.new.seen }
        ensures step { Watches seat.old seat.new }
        ensures given { IsTurn seat.old seat.new (λ b c. IsGivenBack b c hand.old hand.new) }
        ensures empty { hand.new.jobs ≡ [] }
        ensures size { hand.new.size ≡ hand.old.size }
    {
        let mut idlers = self.bell.enter(rt);
        let mut boxed = self.table.take(rt, &mut seat.pass);
        let book = &mut *boxed.book;
        // What holds of the book before and after.
        let _before = book.system();
        book.give_back(hand);
        let _after = book.system();
        self.table.put_back(&mut seat.pass, boxed, false);
        idlers.note_given_back();
        self.bell.ring(&mut idlers);
    }

    /// Wakes seats that wait for a change of the book, as the answer asks for; with Work only where the book offers more and evaluations are
    /// long. What `act` or a step of `next` has made to do is left to who made it: it asks at once again, and wakes another at Work or at an
    /// end, or it gives its jobs back and wakes another then. So while a seat sleeps for which there is something to do, another evaluates.
    fn tell(&self, idlers: &mut Idlers, answer: &Result<Next<'p>, AllocError>, offers_more: bool) {
        match answer {
            Ok(Next::Complete | Next::Stopped) => self.bell.ring_all(),
            Ok(Next::Work(_)) => {
                idlers.note_handed();
                if offers_more && idlers.are_long() {
                    self.bell.ring(idlers);
                }
            }
            Ok(Next::Stepped | Next::Idle { .. }) | Err(_) => {}
        }
    }

    /// Waits for a change of the book, of which the seat that has entered was told Idle.
    pub(crate) fn wait_for_change<'b, R: Wait>(
        &self,
        rt: &R,
        idlers: MutexGuard<'b, Idlers>,
    ) -> MutexGuard<'b, Idlers> {
        self.bell.wait(rt, idlers)
    }

    /// The book comes back from the seat that has all numbers. Its trace is what the seat has seen, and each of its places is the seat's.
    pub fn close(self, seat: BookSeat<'p, K>) -> Book<'p, K>
        requires table { seat.table ≡ self.table }
        requires all { length seat.numbers ≡ self.count }
        ensures book { IsBookAt seat.entry seat.entry.seen result }
        ensures mine { mine_of seat.entry ≡ upto 0 (length seat.entry.seen) }
        ensures owners { All (λ x. x.1 < self.entry.count) seat.entry.seen }
    {
        let SeatBook { table, bell: _bell } = self;
        let BookSeat { pass, key: _key } = seat;
        let boxed = table.close(pass);
        let book = boxed.into_book();
        // What holds of the book.
        let _system = book.system();
        book
    }
}

/// Whether jobs are known on: they were, and none has come back to the book.
fn knows_still<K: Knowledge + Drop>(knows: bool, book: &Book<'_, K>) -> bool
    ensures knew { IsTrue result → IsTrue knows }
    ensures none_back { IsTrue result → book.now.store ≡ [] }
    ensures on { book.now.store ≡ [] → result ≡ knows }
{
    let has_returned = book.has_returned();
    knows && !has_returned
}

/// Whether a step was appended.
fn has_stepped(answer: &Result<Next<'_>, AllocError>) -> bool
    ensures { result ≡ has_stepped answer.now }
{
    matches!(answer, Ok(Next::Stepped))
}

fn has_made<E>(answer: &Result<Told<'_>, E>) -> bool
    ensures { result ≡ has_made answer.now }
{
    matches!(answer, Ok(Told::Stepped | Told::Later(_)))
}
