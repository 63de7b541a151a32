//! The table of seats.
ghost use Rattle.std.specs.Prelude.{◌≡◌, ◌≢◌, ℕ, ◌+◌, ◌<◌, ◌≤◌, ◌%◌, [], ◌∷◌, ◌++◌, IfOk, IfErr, Some, None, length, true, false, nat_le};
ghost use Rattle.atomic_table.specs.Table.{rest};
ghost use Rattle.tau_seat.specs.Lists.{Behind, times, total, bit, bare, places, upto};
ghost use Rattle.tau_seat.specs.Rule.{first_view, turn_of_word};
ghost use Rattle.tau_seat.specs.Turns.{mine};
ghost use Rattle.tau_seat.specs.Plays.{waiting, Begun, front_of, back_of, both_of, cleared, teller_of, shorter, longer, IsIdle, grown, resting, Holds, HoldsMore, HasSeenSound, Takes};

use crate::kept::Kept;
use crate::rule::{Both, Count, Cut, Cutting, Draw, Learn, Look, Serve, Ticketed};
use crate::view::{Named, SeatView};
use atomic_table::{Refused, Table};
use std::alloc::Global;
use std::marker::Brand;
use std::sync::Wait;
use std::thread::yield_now;

/// How often a seat looks before it sleeps.
const LOOKS: u32 = 16;

/// A seat of a table.
pub type Pass<B> = atomic_table::Seat<Option<B>, SeatView<<B as Kept>::Key, <B as Kept>::Entry>>;

/// A kept value that seats take in turn. Word 0 is the next ticket, word 1 the one served, word 2 the number of entries.
#[derive(Drop)]
pub struct SeatTable<B: Kept + Drop> {
    table: Table<Option<B>, SeatView<B::Key, B::Entry>, Named<B::Key>, Ticketed<B>, Global>,
    ghost sized: { (table.shared.table_id.words ≡ 3) × (table.shared.table_id.slots ≡ 1) },
}

impl<B: Kept + Drop> SeatTable<B> {
    /// The first seat has all numbers below the count.
    pub fn new(alloc: Global, book: B, count: u32) -> Result<(SeatTable<B>, Pass<B>), B>
        requires empty { B.entries book ≡ [] }
        requires sound { B.is_sound (B.key_of book) [] }
        ensures ok { IfOk result (λ r. (r.1.table_id ≡ r.0.table.shared.table_id) × (r.1.me ≡ (first_view r.0.table.shared.key, []))) }
        ensures key { IfOk result (λ r. (r.0.table.shared.key.count ≡ count) × (r.0.table.shared.key.key ≡ B.key_of book)) }
        ensures err { IfErr result (λ b. b ≡ book) }
    {
        let about = Named {
            count,
            key: book.key(),
        };
        let Ok(mut slots) = Vec::with_capacity(alloc, 1) else {
            return Err(book);
        };
        slots.push_reserved(Some(book));
        match Table::new(alloc, &[0, 0, 0], slots, &about) {
            Ok((table, seat)) => Ok((SeatTable { table }, seat)),
            Err(Refused { mut slots }) => {
                let book = slots.pop().unwrap().unwrap();
                slots.destroy_empty();
                Err(book)
            }
        }
    }

    /// It has the turn if its ticket is the one served.
    fn look(&self, seat: &mut Pass<B>) -> u64
        requires table { seat.old.table_id ≡ self.now.table.shared.table_id }
        requires waits { (0 < seat.old.me.0.tickets) × (seat.old.me.0.turn ≡ false) }
        ensures same { (seat.new.table_id ≡ seat.old.table_id) × (seat.new.id ≡ seat.old.id) }
        ensures turn { (result ≡ seat.old.me.0.ticket % turn_of_word) → Begun B.key_of B.entries B.is_sound seat.old.me seat.new.me }
        ensures waits { (result ≢ seat.old.me.0.ticket % turn_of_word) → seat.new.me ≡ seat.old.me }
    {
        self.table.shared.load::<Look<B>>(seat, 1)
    }

    fn cut<C: Cutting>(&self, seat: &mut Pass<B>, _keep: u32) -> Pass<B>
        requires table { seat.old.table_id ≡ self.now.table.shared.table_id }
        requires keep { C.keep ≡ _keep }
        requires idle { (seat.old.me.0.tickets ≡ 0) × (seat.old.me.0.turn ≡ false) }
        ensures kept { (seat.new.table_id ≡ seat.old.table_id) × (seat.new.id ≡ seat.old.id) × (seat.new.me ≡ (front_of _keep seat.old.me.0, seat.old.me.1)) }
        ensures given { (result.table_id ≡ seat.old.table_id) × (result.me ≡ (back_of _keep seat.old.me.0, [])) }
    {
        self.table.shared.split_seat::<Cut<C>>(seat)
    }

    /// The first seat keeps the first numbers, and the second has the others. Both have seen the same.
    pub fn split(&self, mut seat: Pass<B>, keep: u32) -> (Pass<B>, Pass<B>)
        requires table { seat.table_id ≡ self.now.table.shared.table_id }
        requires idle { IsIdle seat.me }
        requires keep { (0 < keep) × (keep < length seat.me.0.numbers) }
        ensures kept { (result.0.table_id ≡ seat.table_id) × (result.0.me ≡ (front_of keep seat.me.0, [])) }
        ensures given { (result.1.table_id ≡ seat.table_id) × (result.1.me ≡ (back_of keep seat.me.0, [])) }
    {
        let other = self.cut::<Brand>(&mut seat, keep);
        (seat, other)
    }

    /// One seat has the numbers of both, and what either has seen. One has seen a beginning of what the other has.
    pub fn join(&self, seat: &mut Pass<B>, from: Pass<B>)
        requires table { (seat.old.table_id ≡ self.now.table.shared.table_id) × (from.table_id ≡ self.now.table.shared.table_id) }
        requires idle { IsIdle seat.old.me × IsIdle from.me × (0 < length seat.old.me.0.numbers) }
        ensures same { (seat.new.table_id ≡ seat.old.table_id) × (seat.new.id ≡ seat.old.id) }
        ensures both { seat.new.me ≡ (cleared (both_of seat.old.me.0 from.me.0), []) }
        ensures apart { (x : ℕ) → times x seat.new.me.0.numbers ≤ 1 }
        ensures places { (f : ℕ → ℕ) → total f (mine seat.new.me.0) ≡ total f (mine seat.old.me.0) + total f (mine from.me.0) }
        ensures sound { HasSeenSound B.key_of B.entries B.is_sound seat.new.me.0 }
        ensures begins { Behind (teller_of seat.old.me.0.numbers from.me.0.numbers seat.old.me.0.seen from.me.0.seen) (shorter seat.old.me.0.seen from.me.0.seen) (longer seat.old.me.0.seen from.me.0.seen) }
    {
        self.table.shared.join_seat::<Both>(seat, from);
        self.table.shared.load::<Learn<B>>(seat, 1);
    }

    /// It holds the next ticket.
    fn draw(&self, seat: &mut Pass<B>) -> u64
        requires table { seat.old.table_id ≡ self.now.table.shared.table_id }
        requires idle { (0 < length seat.old.me.0.numbers) × (seat.old.me.0.tickets ≡ 0) × (seat.old.me.0.turn ≡ false) }
        ensures same { (seat.new.table_id ≡ seat.old.table_id) × (seat.new.id ≡ seat.old.id) }
        ensures ticket { (t : ℕ) × (seat.new.me ≡ (waiting seat.old.me.0 t, seat.old.me.1)) × (result ≡ t % turn_of_word) }
    {
        self.table.shared.fetch_add::<Draw<B>>(seat, 0, 1)
    }

    /// One entry more is in the slot than the seat has seen, and now it has seen that too.
    fn count(&self, seat: &mut Pass<B>)
        requires table { seat.old.table_id ≡ self.now.table.shared.table_id }
        requires turn { (seat.old.me.0.turn ≡ true) × (0 < length seat.old.me.0.numbers) }
        requires more { HoldsMore B.key_of B.entries B.is_sound seat.old.me }
        ensures same { (seat.new.table_id ≡ seat.old.table_id) × (seat.new.id ≡ seat.old.id) }
        ensures counted { (e : B.Entry) × Holds B.key_of B.entries B.is_sound seat.old.me (bare seat.old.me.0.seen ++ e ∷ []) × (seat.new.me ≡ (grown seat.old.me.0 e, seat.old.me.1)) }
    {
        self.table.shared.fetch_add::<Count<B>>(seat, 2, 1);
    }

    /// Gives up the turn, with the kept value in the slot.
    fn serve(&self, seat: &mut Pass<B>)
        requires table { seat.old.table_id ≡ self.now.table.shared.table_id }
        requires turn { (seat.old.me.0.turn ≡ true) × (0 < length seat.old.me.0.numbers) }
        requires holds { Holds B.key_of B.entries B.is_sound seat.old.me (bare seat.old.me.0.seen) }
        ensures same { (seat.new.table_id ≡ seat.old.table_id) × (seat.new.id ≡ seat.old.id) }
        ensures served { seat.new.me ≡ (resting seat.old.me.0, rest seat.old.me.1) }
    {
        let served = self.table.shared.fetch_add::<Serve<B>>(seat, 1, 1);
        // Where no later ticket is drawn, nobody sleeps: who draws one from now on finds this word changed.
        if self.table.shared.peek(0) != served.wrapping_add(1) {
            self.table.shared.wake_all(1);
        }
    }

    /// Looks a few times, and then sleeps until another is served.
    fn wait<R: Wait>(&self, rt: &R, seat: &mut Pass<B>, ticket: u64)
        requires table { seat.old.table_id ≡ self.now.table.shared.table_id }
        requires waits { (0 < seat.old.me.0.tickets) × (seat.old.me.0.turn ≡ false) × (ticket ≡ seat.old.me.0.ticket % turn_of_word) }
        ensures same { (seat.new.table_id ≡ seat.old.table_id) × (seat.new.id ≡ seat.old.id) }
        ensures turn { Begun B.key_of B.entries B.is_sound seat.old.me seat.new.me }
    {
        let mut looks = 0u32;
        for _ in rt.forever() {
            let served = self.look(seat);
            if served == ticket {
                return;
            }
            if looks < LOOKS {
                looks += 1;
                yield_now();
            } else {
                self.table.shared.park(rt, 1, (served % (1 << 32)) as u32);
            }
        }
        unreachable!()
    }

    /// Waits for the seat's turn and takes the kept value out, to be given to `put_back`. Its entries are all that the seat has then seen.
    pub fn take<R: Wait>(&self, rt: &R, seat: &mut Pass<B>) -> B
        requires table { seat.old.table_id ≡ self.now.table.shared.table_id }
        requires idle { IsIdle seat.old.me × (0 < length seat.old.me.0.numbers) }
        ensures same { (seat.new.table_id ≡ seat.old.table_id) × (seat.new.id ≡ seat.old.id) }
        ensures taken { Takes B.key_of B.entries B.is_sound seat.old.me.0 result seat.new.me }
    {
        let ticket = self.draw(seat);
        self.wait(rt, seat, ticket);
        self.table.shared.exchange(seat, 0, None).unwrap()
    }

    /// Puts the kept value back, and gives up the turn. With one entry more, it is the seat's.
    pub fn put_back(&self, seat: &mut Pass<B>, value: B, grew: bool)
        requires table { seat.old.table_id ≡ self.now.table.shared.table_id }
        requires turn { (seat.old.me.0.turn ≡ true) × (0 < length seat.old.me.0.numbers) × (seat.old.me.1 ≡ (0, None) ∷ []) }
        requires value { (seat.old.me.0.names ≡ Some (B.key_of value)) × B.is_sound (B.key_of value) (B.entries value) }
        requires grew { grew ≡ true → (e : B.Entry) × (B.entries value ≡ bare seat.old.me.0.seen ++ e ∷ []) }
        requires stayed { grew ≡ false → B.entries value ≡ bare seat.old.me.0.seen }
        ensures same { (seat.new.table_id ≡ seat.old.table_id) × (seat.new.id ≡ seat.old.id) }
        ensures grew { grew ≡ true → (e : B.Entry) × (B.entries value ≡ bare seat.old.me.0.seen ++ e ∷ []) × (seat.new.me ≡ (resting (grown seat.old.me.0 e), [])) }
        ensures stayed { grew ≡ false → seat.new.me ≡ (resting seat.old.me.0, []) }
    {
        drop(self.table.shared.exchange(seat, 0, Some(value)));
        if grew {
            self.count(seat);
        }
        self.serve(seat);
    }

    /// The kept value comes back from the seat that has all numbers. The seat has seen each entry, and each place is its own.
    pub fn close(self, seat: Pass<B>) -> B
        requires table { seat.table_id ≡ self.table.shared.table_id }
        requires idle { IsIdle seat.me }
        requires all { length seat.me.0.numbers ≡ self.table.shared.key.count }
        requires some { 0 < length seat.me.0.numbers }
        ensures value { B.entries result ≡ bare seat.me.0.seen }
        ensures names { seat.me.0.names ≡ Some (B.key_of result) }
        ensures places { places seat.me.0.numbers 0 seat.me.0.seen ≡ upto 0 (length seat.me.0.seen) }
        ensures owners { total (λ x. bit (nat_le self.table.shared.key.count x.1)) seat.me.0.seen ≡ 0 }
    {
        let SeatTable { table } = self;
        let mut closed = table.close_with(seat);
        let kept = closed.take(0);
        closed.free();
        kept.unwrap()
    }
}
