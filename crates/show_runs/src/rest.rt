//! What becomes of a book that two hands have left.
use crate::side::Who;
use std::alloc::{AllocError, Global};
use tau_book::Book;
use tau_trace::{Step, Trace};
use tau_verdicts::MarkedHearing;
use tau_workers::finish;

/// Adds how many jobs the book adopts, and how many once more, and its steps once a last hand has gone on alone, each with the hand that
/// made it.
pub fn add_rest(
    alloc: Global,
    text: &mut String,
    mut book: Book<'_, MarkedHearing>,
    makers: &[Who],
) -> Result<(), AllocError> {
    let added = add_adopted(text, &mut book);
    let ran = finish(alloc, book, 0, 1)?;
    let told = add_makers(text, &ran.trace, makers);
    drop(ran);
    added.and(told)
}

/// Adds how many jobs the book adopts, and how many once more.
fn add_adopted(text: &mut String, book: &mut Book<'_, MarkedHearing>) -> Result<(), AllocError> {
    let adopted = book.adopt()?;
    let once_more = book.adopt()?;
    writeln!(
        text,
        "the jobs that the book adopts: {adopted}, and then {once_more}"
    )
}

/// Adds a line for each step, with who made it.
fn add_makers(text: &mut String, trace: &Trace, makers: &[Who]) -> Result<(), AllocError> {
    for place in 0..trace.len() {
        if let Some(step) = trace.step(place) {
            let maker = maker_at(makers, place);
            writeln!(text, "the {maker} hand made {}", kind_of(step))?;
        }
    }
    Ok(())
}

/// The word for who made the step at a place.
fn maker_at(makers: &[Who], place: u32) -> &'static str {
    match makers.get(place as usize) {
        Some(who) => who.name(),
        None => "last",
    }
}

/// The name of a step's kind.
fn kind_of(step: &Step) -> &'static str {
    match step {
        Step::Take { .. } => "Take",
        Step::Get { .. } => "Get",
        Step::Set { .. } => "Set",
        Step::Done { .. } => "Done",
        _ => "another",
    }
}
