//! Workers that each have a seat at a book.
ghost use Rattle.std.specs.Prelude.{◌≡◌, ◌≤◌, ◌<◌, IfOk, All, map, length};
ghost use Rattle.tau_book.specs.declared.limits.TheConstants.{JOB_LIMIT};
ghost use Rattle.tau_workers.specs.Inner.Hands.{opening_hand, opening_hands};
ghost use Rattle.tau_workers.specs.Inner.Seats.{IsSeatOf, HasOne};

use crate::running::Settings;
use crate::workers::{Worker, run};
use std::alloc::{AllocError, Global};
use std::sync::Wait;
use std::thread::Threads;
use tau_book::{Gate, Hand};
use tau_seat::{BookSeat, SeatBook, SeatPlace};
use tau_verdicts::MarkedHearing;

/// Lets workers work on a book, each with one number of the seat, and joins their seats.
pub fn work<'b, 'p, R: Threads + Wait + Sync, G: Gate + Sync>(
    rt: &R,
    alloc: Global,
    table: &'b SeatBook<'p, MarkedHearing>,
    seat: BookSeat<'p, MarkedHearing>,
    settings: Settings,
    gate: &G,
) -> Result<BookSeat<'p, MarkedHearing>, AllocError>
    requires seat { IsSeatOf table.now seat }
    requires numbers { length seat.numbers ≡ settings.workers }
    requires some { 1 ≤ settings.workers }
    requires jobs { 1 ≤ settings.jobs }
    requires few { settings.jobs ≤ JOB_LIMIT }
    ensures seat { IfOk result (IsSeatOf table.entry.now) }
    ensures numbers { IfOk result (λ s. length s.numbers ≡ settings.workers) }
{
    let mut workers = make_workers(alloc, table, seat, settings)?;
    run(rt, workers.as_mut_slice(), gate);
    Ok(join_all(table, workers))
}

/// The workers, by number, before their first step.
fn make_workers<'b, 'p>(
    alloc: Global,
    table: &'b SeatBook<'p, MarkedHearing>,
    seat: BookSeat<'p, MarkedHearing>,
    settings: Settings,
) -> Result<Vec<Worker<'p, SeatPlace<'b, 'p, MarkedHearing>>>, AllocError>
    requires seat { IsSeatOf table.now seat }
    requires numbers { length seat.numbers ≡ settings.workers }
    requires some { 1 ≤ settings.workers }
    requires jobs { 1 ≤ settings.jobs }
    requires few { settings.jobs ≤ JOB_LIMIT }
    ensures hands { IfOk result (λ ws. map (λ w. w.hand) ws.items ≡ opening_hands settings.seed settings.jobs settings.workers) }
    ensures many { IfOk result (λ ws. length ws.items ≡ settings.workers) }
    ensures ones { IfOk result (λ ws. All (λ w. HasOne table.entry.now w.place) ws.items) }
{
    let mut workers = Vec::with_capacity(alloc, settings.workers as usize)?;
    let last = settings.workers - 1;
    let mut rest = seat;
    for number in 0..last {
        let (one, others) = table.split(rest, 1);
        rest = others;
        workers.push(make_worker(alloc, table, one, settings, number)?)?;
    }
    workers.push(make_worker(alloc, table, rest, settings, last)?)?;
    Ok(workers)
}

/// A worker with a seat before its first step.
fn make_worker<'b, 'p>(
    alloc: Global,
    table: &'b SeatBook<'p, MarkedHearing>,
    seat: BookSeat<'p, MarkedHearing>,
    settings: Settings,
    number: u32,
) -> Result<Worker<'p, SeatPlace<'b, 'p, MarkedHearing>>, AllocError>
    requires seat { IsSeatOf table.now seat }
    requires jobs { 1 ≤ settings.jobs }
    requires few { settings.jobs ≤ JOB_LIMIT }
    ensures hand { IfOk result (λ w. w.hand ≡ opening_hand settings.seed settings.jobs number) }
    ensures seat { IfOk result (λ w. w.place.seat ≡ seat.entry) }
{
    let hand = make_hand(alloc, settings, number)?;
    Ok(Worker {
        number,
        place: SeatPlace::new(table, seat),
        hand,
        short: false,
    })
}

/// The hand of a worker before its first step.
fn make_hand<'p>(alloc: Global, settings: Settings, number: u32) -> Result<Hand<'p>, AllocError>
    requires jobs { 1 ≤ settings.jobs }
    requires few { settings.jobs ≤ JOB_LIMIT }
    ensures { IfOk result (λ h. h ≡ opening_hand settings.seed settings.jobs number) }
{
    Hand::new(
        alloc,
        settings.seed.wrapping_add(u64::from(number)),
        settings.jobs,
    )
}

/// The seat of all numbers of the workers' seats, in the workers' order.
fn join_all<'b, 'p>(
    table: &'b SeatBook<'p, MarkedHearing>,
    mut workers: Vec<Worker<'p, SeatPlace<'b, 'p, MarkedHearing>>>,
) -> BookSeat<'p, MarkedHearing>
    requires some { 1 ≤ length workers.items }
    requires ones { All (λ w. HasOne table.now w.place) workers.items }
    ensures seat { IsSeatOf table.entry.now result }
    ensures numbers { length result.numbers ≡ length workers.entry.items }
{
    let mut seat = seat_of(workers.pop().unwrap());
    while let Some(worker) = workers.pop() {
        let mut front = seat_of(worker);
        table.join(&mut front, seat);
        seat = front;
    }
    seat
}

/// The seat of a worker, which is given up.
fn seat_of<'b, 'p>(
    worker: Worker<'p, SeatPlace<'b, 'p, MarkedHearing>>,
) -> BookSeat<'p, MarkedHearing>
    ensures { result ≡ worker.entry.place.seat }
{
    worker.place.into_seat()
}
