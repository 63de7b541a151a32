//! What a book is of.
ghost use Rattle.std.specs.Prelude.{◌≡◌};
ghost use Rattle.tau_seat.specs.Keys.{key_of};

use std::marker::Model;
use tau_book::Book;
use tau_knowledge::Knowledge;
use tau_tree::Program;

/// What a book is of: its program, and its limit of steps. Contracts see both.
#[derive(Drop)]
pub struct BookKey<'p> {
    program: &'p Program,
    limit: u32,
}

impl<'p> Model for BookKey<'p> {
    ghost use Rattle.std.specs.Coded.{codes};
    ghost use Rattle.tau_value.specs.Val.{val_code};
    ghost use Rattle.tau_tree.specs.Code.{code_code};
    ghost use Rattle.tau_seat.specs.Keys.{Key};

    ghost Value = { Key };

    ghost coded = { Prim.hlevel (codes, val_code, code_code) };

    ghost view = { λ k. record { program = k.program.now; limit = k.limit } };
}

impl<'p> BookKey<'p> {
    /// What a book is of.
    pub(crate) fn of<K: Knowledge + Drop>(book: &Book<'p, K>) -> BookKey<'p>
        ensures { result ≡ key_of book.now }
    {
        BookKey {
            program: book.system().program(),
            limit: book.limit(),
        }
    }

    /// The same key.
    pub(crate) fn again(&self) -> BookKey<'p>
        ensures { result ≡ self.now }
    {
        BookKey {
            program: self.program,
            limit: self.limit,
        }
    }
}
