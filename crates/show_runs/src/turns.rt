//! Turns of one seat.
ghost use Rattle.tau_tree.specs.Sound.{Sound};
ghost use Rattle.show_runs.specs.Seats.{IsAt};

use crate::pair::{Pair, book_of, open_pair};
use crate::side::{Side, seat_of, take_turn};
use std::alloc::{AllocError, Global};
use std::sync::Wait;
use tau_seat::SeatBook;
use tau_tree::Program;
use tau_verdicts::MarkedHearing;

/// Lets one seat take so many turns at the book of a program, in each of which it gives back the jobs of an empty hand, and adds how many
/// steps the book has that comes back.
pub fn add_turns<R: Wait>(
    rt: &R,
    alloc: Global,
    text: &mut String,
    program: &Program,
    turns: u32,
) -> Result<(), AllocError>
    requires { Sound program.now }
{
    let Pair {
        table,
        mut first,
        second,
    } = open_pair(alloc, program)?;
    take_turns(rt, &table, &mut first, turns);
    let book = book_of(table, seat_of(first), seat_of(second));
    let trace = book.into_trace();
    let steps = trace.len();
    drop(trace);
    writeln!(text, "{turns} turns of one seat: ended, steps: {steps}")
}

/// So many turns of a seat.
fn take_turns<'p, R: Wait>(
    rt: &R,
    table: &SeatBook<'p, MarkedHearing>,
    side: &mut Side<'p>,
    turns: u32,
)
    requires at { IsAt table.now side.old.seat }
    ensures at { IsAt table.now side.new.seat }
{
    for _ in 0..turns {
        take_turn(rt, table, side);
    }
}
