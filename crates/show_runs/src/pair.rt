//! A book with two seats, and a hand at each.
ghost use Rattle.std.specs.Prelude.{◌≡◌, IfOk, length};
ghost use Rattle.tau_tree.specs.Sound.{Sound};
ghost use Rattle.show_runs.specs.Seats.{IsAt};

use crate::side::{Side, Who, side_of};
use std::alloc::{AllocError, Global};
use tau_book::{Book, Hand};
use tau_seat::{BookSeat, SeatBook};
use tau_tree::Program;
use tau_verdicts::MarkedHearing;

/// A table that keeps a book, and a hand at each of its two seats.
#[derive(Drop)]
pub struct Pair<'p> {
    pub table: SeatBook<'p, MarkedHearing>,
    pub first: Side<'p>,
    pub second: Side<'p>,
}

/// Puts a program's book into a table with two seats, which have one number each, with a new hand at each.
pub fn open_pair<'p>(alloc: Global, program: &'p Program) -> Result<Pair<'p>, AllocError>
    requires { Sound program.now }
    ensures count { IfOk result (λ p. p.table.count ≡ 2) }
    ensures first { IfOk result (λ p. IsAt p.table p.first.seat) }
    ensures second { IfOk result (λ p. IsAt p.table p.second.seat) }
{
    let hand = Hand::new(alloc, 0, 1)?;
    let other = match Hand::new(alloc, 0, 1) {
        Ok(other) => other,
        Err(failed) => {
            drop(hand);
            return Err(failed);
        }
    };
    let (table, seat) = match open_table(alloc, program) {
        Ok(opened) => opened,
        Err(failed) => {
            drop(hand);
            drop(other);
            return Err(failed);
        }
    };
    let (first, second) = table.split(seat, 1);
    Ok(Pair {
        table,
        first: side_of(Who::First, first, hand),
        second: side_of(Who::Second, second, other),
    })
}

/// Puts a program's book into a table with one seat, which has two numbers.
fn open_table<'p>(
    alloc: Global,
    program: &'p Program,
) -> Result<(SeatBook<'p, MarkedHearing>, BookSeat<'p, MarkedHearing>), AllocError>
    requires { Sound program.now }
    ensures count { IfOk result (λ r. r.0.count ≡ 2) }
    ensures table { IfOk result (λ r. r.1.table ≡ r.0.table) }
    ensures numbers { IfOk result (λ r. length r.1.numbers ≡ 2) }
{
    let book = Book::open(alloc, program, 1_000)?;
    match SeatBook::new(alloc, book, 2) {
        Ok(made) => Ok(made),
        Err((book, failed)) => {
            drop(book);
            Err(failed)
        }
    }
}

/// The book that comes back once both seats are joined.
pub fn book_of<'p>(
    table: SeatBook<'p, MarkedHearing>,
    mut first: BookSeat<'p, MarkedHearing>,
    second: BookSeat<'p, MarkedHearing>,
) -> Book<'p, MarkedHearing>
    requires count { table.count ≡ 2 }
    requires first { IsAt table first }
    requires second { IsAt table second }
{
    table.join(&mut first, second);
    table.close(first)
}
