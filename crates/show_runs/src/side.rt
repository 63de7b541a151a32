//! A hand at a seat, and what it does there.
ghost use Rattle.std.specs.Prelude.{◌≡◌, IfOk};
ghost use Rattle.show_runs.specs.Seats.{IsAt};

use crate::told::add_told;
use std::alloc::{AllocError, Global};
use std::mem;
use std::sync::Wait;
use tau_book::{Hand, Next, Told};
use tau_eval::{Job, Pending};
use tau_seat::{BookSeat, SeatBook};
use tau_verdicts::MarkedHearing;

/// One of the two hands.
#[derive(Clone, Copy)]
pub enum Who {
    First,
    Second,
}

impl Who {
    /// The word for it.
    pub fn name(self) -> &'static str {
        match self {
            Who::First => "first",
            Who::Second => "second",
        }
    }
}

/// A hand and its seat, and the job that it was handed.
#[derive(Drop)]
pub struct Side<'p> {
    pub who: Who,
    pub seat: BookSeat<'p, MarkedHearing>,
    hand: Hand<'p>,
    job: Option<Job<'p>>,
}

/// A new hand at a seat.
pub fn side_of<'p>(who: Who, seat: BookSeat<'p, MarkedHearing>, hand: Hand<'p>) -> Side<'p>
    ensures { result.seat ≡ seat.entry }
{
    Side {
        who,
        seat,
        hand,
        job: None,
    }
}

/// The seat of a hand, which is given up.
pub fn seat_of<'p>(side: Side<'p>) -> BookSeat<'p, MarkedHearing>
    ensures { result ≡ side.entry.seat }
{
    let Side {
        who: _,
        seat,
        hand,
        job,
    } = side;
    drop(hand);
    drop(job);
    seat
}

/// A hand asks, and keeps the job that it is handed. Adds what it is told, and how many jobs it holds. Whether a step was appended.
pub fn ask<'p, R: Wait>(
    rt: &R,
    text: &mut String,
    table: &SeatBook<'p, MarkedHearing>,
    side: &mut Side<'p>,
) -> Result<bool, AllocError>
    requires at { IsAt table.now side.old.seat }
    ensures at { IsAt table.now side.new.seat }
{
    let answer = table.next(rt, &mut side.seat, &mut side.hand)?;
    let added = add_told(text, &answer, side.who.name());
    let (job, has_stepped) = job_of(answer);
    drop(mem::replace(&mut side.job, job));
    added?;
    add_len(text, &side.hand)?;
    Ok(has_stepped)
}

/// A hand evaluates the job that it was handed, and brings the effect. Whether a step was appended.
pub fn bring<'p, R: Wait>(
    rt: &R,
    table: &SeatBook<'p, MarkedHearing>,
    side: &mut Side<'p>,
) -> Result<bool, AllocError>
    requires at { IsAt table.now side.old.seat }
    ensures at { IsAt table.now side.new.seat }
{
    match effect_of(side.job.take())? {
        Some(pending) => act(rt, table, &mut side.seat, &mut side.hand, pending),
        None => Ok(false),
    }
}

/// Brings an effect: whether its step was appended. Where the hand has no room, nothing is brought.
fn act<'p, R: Wait>(
    rt: &R,
    table: &SeatBook<'p, MarkedHearing>,
    seat: &mut BookSeat<'p, MarkedHearing>,
    hand: &mut Hand<'p>,
    pending: Pending<'p>,
) -> Result<bool, AllocError>
    requires at { IsAt table.now seat.old }
    ensures at { IsAt table.now seat.new }
{
    if hand.room() == 0 {
        drop(pending);
        return Ok(false);
    }
    let told = table.act(rt, seat, hand, pending, false);
    has_stepped(told)
}

/// A hand gives its jobs back. Adds how many it holds then. No step is appended.
pub fn give_back<'p, R: Wait>(
    rt: &R,
    text: &mut String,
    table: &SeatBook<'p, MarkedHearing>,
    side: &mut Side<'p>,
) -> Result<bool, AllocError>
    requires at { IsAt table.now side.old.seat }
    ensures at { IsAt table.now side.new.seat }
{
    take_turn(rt, table, side);
    add_len(text, &side.hand)?;
    Ok(false)
}

/// A turn of the seat in which the hand gives its jobs back.
pub fn take_turn<'p, R: Wait>(rt: &R, table: &SeatBook<'p, MarkedHearing>, side: &mut Side<'p>)
    requires at { IsAt table.now side.old.seat }
    ensures at { IsAt table.now side.new.seat }
{
    table.give_back(rt, &mut side.seat, &mut side.hand);
}

/// A hand leaves with its jobs, and a new one takes its seat. No step is appended.
pub fn leave<'p>(alloc: Global, text: &mut String, side: &mut Side<'p>) -> Result<bool, AllocError>
    ensures { side.new.seat ≡ side.old.seat }
{
    add_len(text, &side.hand)?;
    let hand = Hand::new(alloc, 0, 1)?;
    drop(mem::replace(&mut side.hand, hand));
    drop(side.job.take());
    Ok(false)
}

/// Adds how many jobs a hand holds.
fn add_len(text: &mut String, hand: &Hand<'_>) -> Result<(), AllocError> {
    writeln!(text, "the jobs that it holds: {}", hand.len())
}

/// The job that is handed out, and whether a step was appended.
fn job_of<'p>(answer: Next<'p>) -> (Option<Job<'p>>, bool) {
    match answer {
        Next::Work(job) => (Some(job), false),
        Next::Stepped => (None, true),
        _ => (None, false),
    }
}

/// The effect that a job comes to next.
fn effect_of<'p>(job: Option<Job<'p>>) -> Result<Option<Pending<'p>>, AllocError> {
    let Some(job) = job else {
        return Ok(None);
    };
    match job.advance() {
        Ok(pending) => Ok(Some(pending)),
        Err((job, failed)) => {
            drop(job);
            Err(failed)
        }
    }
}

/// Whether the answer tells a step.
fn has_stepped<'p>(told: Result<Told<'p>, (Pending<'p>, AllocError)>) -> Result<bool, AllocError> {
    match told {
        Ok(told) => {
            let has_stepped = matches!(&told, Told::Stepped);
            drop(told);
            Ok(has_stepped)
        }
        Err((pending, failed)) => {
            drop(pending);
            Err(failed)
        }
    }
}
