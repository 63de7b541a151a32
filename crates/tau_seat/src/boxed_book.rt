//! The book as a value that a table of seats keeps.
ghost use Rattle.std.specs.Prelude.{◌≡◌, IfOk, IfErr};

use crate::book_key::BookKey;
use crate::kept::Kept;
use std::alloc::{AllocFailed, Global};
use std::marker::Model;
use tau_book::Book;
use tau_knowledge::Knowledge;
use tau_trace::Step;

/// A step book behind its address: what a seat takes out and puts back is the address, and the book stays where it is. Contracts see the book.
#[derive(Drop)]
pub struct BoxedBook<'p, K: Knowledge + Drop> {
    pub(crate) book: Box<Book<'p, K>>,
}

impl<'p, K: Knowledge + Drop> Model for BoxedBook<'p, K> {
    ghost use Rattle.std.specs.Coded.{codes};
    ghost use Rattle.tau_value.specs.Val.{val_code};
    ghost use Rattle.tau_tree.specs.Code.{code_code};
    ghost use Rattle.tau_eval.specs.Turn.{turn_code};
    ghost use Rattle.tau_book.specs.Books.{Booked};

    ghost Value = { Booked };

    ghost coded = { Prim.hlevel (codes, val_code, code_code, turn_code) };

    ghost view = { λ b. b.book.value };
}

impl<'p, K: Knowledge + Drop> BoxedBook<'p, K> {
    /// The book behind a new box. Without memory it comes back.
    pub(crate) fn new(alloc: Global, book: Book<'p, K>) -> Result<BoxedBook<'p, K>, Book<'p, K>>
        ensures ok { IfOk result (λ b. b ≡ book.entry) }
        ensures err { IfErr result (λ b. b ≡ book.entry) }
    {
        match Box::new(alloc, book) {
            Ok(book) => Ok(BoxedBook { book }),
            Err(AllocFailed { value: book }) => Err(book),
        }
    }

    /// The book, out of its box.
    pub(crate) fn into_book(self) -> Book<'p, K>
        ensures { result ≡ self.entry }
    {
        Box::into_inner(self.book)
    }
}

impl<'p, K: Knowledge + Drop> Kept for BoxedBook<'p, K> {
    type Key = BookKey<'p>;

    type Entry = Step;

    ghost use Rattle.tau_seat.specs.Keys.{key_of, steps_of, IsSound};
    ghost use Rattle.tau_seat.specs.Beginnings.{beginnings_sound};

    ghost key_of = { key_of };

    ghost entries = { steps_of };

    ghost is_sound = { IsSound };

    ghost prefixes = { beginnings_sound };

    fn key(&self) -> BookKey<'p> {
        BookKey::of(&self.book)
    }
}
