//! Two hands at one book with two seats, which do in turn what the words of a line say, and what becomes of the book then.
ghost use Rattle.std.specs.Prelude.{◌≡◌};
ghost use Rattle.tau_tree.specs.Sound.{Sound};
ghost use Rattle.show_runs.specs.Seats.{IsAt};

use crate::pair::{Pair, book_of, open_pair};
use crate::rest::add_rest;
use crate::side::{Side, Who, ask, bring, give_back, leave, seat_of};
use std::alloc::{AllocError, Global};
use std::sync::Wait;
use tau_seat::SeatBook;
use tau_tree::Program;
use tau_verdicts::MarkedHearing;

/// What a hand does.
#[derive(Clone, Copy)]
enum Deed {
    Ask,
    Bring,
    GiveBack,
    Leave,
}

/// Lets two hands do what words say, each `first` or `second`, then `-asks`, `-brings`, `-gives-back` or `-leaves`. Adds what they are
/// told, and what becomes of the book that comes back.
pub fn add_deeds<R: Wait>(
    rt: &R,
    alloc: Global,
    text: &mut String,
    program: &Program,
    words: &str,
) -> Result<(), AllocError>
    requires { Sound program.now }
{
    text.push_str("two hands at one book\n")?;
    let mut makers = Vec::new(alloc);
    let Pair {
        table,
        mut first,
        mut second,
    } = open_pair(alloc, program)?;
    let done = do_all(
        rt,
        alloc,
        text,
        &table,
        &mut first,
        &mut second,
        words,
        &mut makers,
    );
    let book = book_of(table, seat_of(first), seat_of(second));
    add_rest(alloc, text, book, &makers)?;
    done
}

/// Lets two hands do what words say, and notes who made the steps, in their order.
fn do_all<'p, R: Wait>(
    rt: &R,
    alloc: Global,
    text: &mut String,
    table: &SeatBook<'p, MarkedHearing>,
    first: &mut Side<'p>,
    second: &mut Side<'p>,
    words: &str,
    makers: &mut Vec<Who>,
) -> Result<(), AllocError>
    requires first { IsAt table.now first.old.seat }
    requires second { IsAt table.now second.old.seat }
    ensures first { IsAt table.now first.new.seat }
    ensures second { IsAt table.now second.new.seat }
{
    for word in words.split_whitespace() {
        let (who, deed) = word.split_once("-").unwrap_or((word, ""));
        match who {
            "first" => do_deed(rt, alloc, text, table, first, deed, makers)?,
            "second" => do_deed(rt, alloc, text, table, second, deed, makers)?,
            _ => text.push_str("no hand\n")?,
        }
    }
    Ok(())
}

/// Lets a hand do what a word says, and notes whether it made a step.
fn do_deed<'p, R: Wait>(
    rt: &R,
    alloc: Global,
    text: &mut String,
    table: &SeatBook<'p, MarkedHearing>,
    side: &mut Side<'p>,
    word: &str,
    makers: &mut Vec<Who>,
) -> Result<(), AllocError>
    requires at { IsAt table.now side.old.seat }
    ensures at { IsAt table.now side.new.seat }
{
    let Some(deed) = deed_of(word) else {
        return text.push_str("no deed\n");
    };
    let has_stepped = match deed {
        Deed::Ask => ask(rt, text, table, side)?,
        Deed::Bring => bring(rt, table, side)?,
        Deed::GiveBack => give_back(rt, text, table, side)?,
        Deed::Leave => leave(alloc, text, side)?,
    };
    if has_stepped {
        makers.push(side.who)?;
    }
    Ok(())
}

/// What a word says.
fn deed_of(word: &str) -> Option<Deed> {
    match word {
        "asks" => Some(Deed::Ask),
        "brings" => Some(Deed::Bring),
        "gives-back" => Some(Deed::GiveBack),
        "leaves" => Some(Deed::Leave),
        _ => None,
    }
}
