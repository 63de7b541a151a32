//! What a decision has heard.
ghost use Rattle.std.specs.Prelude.{◌≡◌, ◌↔◌, ℕ, ◌<◌, ◌≤◌, length, Contains, IfOk, OnOk, IsTrue, Option, Some, option_and_then};
ghost use Rattle.std.specs.List.Sorted.{IsStrictlySortedBy};
ghost use Rattle.std.specs.Ordering.{nat_cmp};
ghost use Rattle.tau_trace.specs.declared.step.Step.{Step};
ghost use Rattle.tau_trace.specs.Steps.{actor};
ghost use Rattle.tau_trace.specs.Run.{len, step_at};
ghost use Rattle.tau_trace.specs.Numbering.{IsNew};
ghost use Rattle.tau_trace.specs.Known.{WellFormed};
ghost use Rattle.tau_past.specs.Heard as heard;
ghost use Rattle.tau_explain.specs.Decisions.{IsDecision, HeardAt};
ghost use Rattle.tau_explain.specs.Inner.Hearing.{IsMarked, IsMarkedOption, NeededAt, HearsFrom, IsEnteredAt, IsNoted, AreMarks, MarksOne, MarksNeeds};

use crate::chains::Places;
use std::alloc::{AllocError, Global};
use tau_trace::{Step, Trace};

/// Marks: places that were heard of, and transactors all of whose earlier steps were, with the New of each.
#[derive(Drop)]
struct Marks {
    known: Vec<bool>,
    entered: Vec<bool>,
}

/// The transactor that makes the step at a place.
fn actor_at(trace: &Trace, place: u32) -> Option<u32>
    ensures { result ≡ option_and_then actor (step_at trace.now.run place) }
{
    trace.step(place)?.actor()
}

/// The transactor that the step at a place makes; `None` where it is no New.
fn made_by(trace: &Trace, place: u32) -> Option<u32>
    ensures { (u : ℕ) → ((by : ℕ) × IsNew trace.now.run place by u) ↔ (result ≡ Some u) }
{
    match trace.step(place)? {
        Step::New { .. } => trace.made_at(place),
        _ => None,
    }
}

/// The message whose origin the step hears of; `None` where it hears of none (docs/definitions.md, "Heard").
fn heard_by(step: &Step) -> Option<u32>
    ensures { result ≡ heard.heard_by step.now }
{
    match step {
        Step::Take { message, .. }
        | Step::Drop { message, .. }
        | Step::Fall { message, .. }
        | Step::Heed { message, .. } => Some(*message),
        _ => None,
    }
}

/// The place of the origin of the message that the step at a place hears of.
fn heard_from(trace: &Trace, place: u32) -> Option<u32>
    ensures { HearsFrom trace.now.run place result }
{
    trace.origin(heard_by(trace.step(place)?)?)
}

/// Whether the number, if there is one, is marked.
fn is_marked(marks: &[bool], number: Option<u32>) -> bool
    ensures { IsTrue result ↔ IsMarkedOption marks.now number }
{
    match number {
        Some(number) => marks.get(number as usize).copied() == Some(true),
        None => false,
    }
}

/// Marks the number, if there is one.
fn mark(marks: &mut [bool], number: Option<u32>)
    requires { (k : ℕ) → number ≡ Some k → k < length marks.old }
    ensures { MarksOne number marks.old marks.new }
{
    if let Some(number) = number {
        marks[number as usize] = true;
    }
}

/// Marks what the step at a place needs: its transactor, and the Send that it hears of.
fn mark_needs(trace: &Trace, place: u32, marks: &mut Marks)
    requires well_formed { WellFormed trace.now.run }
    requires marks { AreMarks trace.now.run marks.old.known.items marks.old.entered.items }
    ensures { MarksNeeds trace.now.run place marks.old.known.items marks.new.known.items marks.old.entered.items marks.new.entered.items }
{
    mark(&mut marks.entered, actor_at(trace, place));
    mark(&mut marks.known, heard_from(trace, place));
}

/// Whether a transactor that takes part in the step at a place is marked: the one that makes it, or the one that it makes.
fn is_entered(trace: &Trace, place: u32, entered: &[bool]) -> bool
    ensures { IsTrue result ↔ IsEnteredAt trace.now.run place entered.now }
{
    is_marked(entered, actor_at(trace, place)) || is_marked(entered, made_by(trace, place))
}

/// Whether the place is marked, itself or for a transactor that takes part in it.
fn is_noted(trace: &Trace, place: u32, marks: &Marks) -> bool
    ensures { IsTrue result ↔ IsNoted trace.now.run place marks.now.known.items marks.now.entered.items }
{
    is_marked(&marks.known, Some(place)) || is_entered(trace, place, &marks.entered)
}

/// No mark.
fn no_marks(alloc: Global, trace: &Trace) -> Result<Marks, AllocError>
    ensures well_formed { OnOk result (WellFormed trace.now.run) }
    ensures marks { IfOk result (λ m. AreMarks trace.now.run m.known.items m.entered.items) }
    ensures none { IfOk result (λ m. (k : ℕ) → ¬ IsMarked m.known.items k) }
    ensures not_entered { IfOk result (λ m. (u : ℕ) → ¬ IsMarked m.entered.items u) }
{
    Ok(Marks {
        known: vec![in alloc; false; trace.len() as usize]?,
        entered: vec![in alloc; false; trace.born() as usize]?,
    })
}

/// A mark for each step: whether the step at the place needs it, or what it needs does. One pass from the place downwards.
pub(crate) fn needed_at(alloc: Global, trace: &Trace, place: u32) -> Result<Vec<bool>, AllocError>
    requires { place < len trace.now.run }
    ensures well_formed { OnOk result (WellFormed trace.now.run) }
    ensures length { IfOk result (λ v. length v.items ≡ len trace.now.run) }
    ensures marked { IfOk result (λ v. (j : ℕ) → IsMarked v.items j ↔ NeededAt trace.now.run place j) }
{
    let mut marks = no_marks(alloc, trace)?;
    mark_needs(trace, place, &mut marks);
    for at in (0..place).rev() {
        if is_noted(trace, at, &marks) {
            mark(&mut marks.known, Some(at));
            mark_needs(trace, at, &mut marks);
        }
    }
    Ok(marks.known)
}

/// The marked places below a bound, in ascending order.
fn marked_places(alloc: Global, marks: &[bool], bound: u32) -> Result<Vec<u32>, AllocError>
    requires { bound ≤ length marks.now }
    ensures ascending { IfOk result (λ v. IsStrictlySortedBy nat_cmp v.items) }
    ensures members { IfOk result (λ v. (j : ℕ) → Contains v.items j ↔ ((j < bound) × IsMarked marks.now j)) }
{
    let mut places = Vec::new(alloc);
    for place in 0..bound {
        if marks[place as usize] {
            places.push(place)?;
        }
    }
    Ok(places)
}

/// The places that the Hold, Drop or Fall at a place has heard of, in ascending order (docs/definitions.md, "Heard"): what its
/// transactor has, and for a Drop or a Fall also what its message has. One pass over the steps. The error is want of memory.
pub fn heard_at(alloc: Global, trace: &Trace, place: u32) -> Result<Places, AllocError>
    requires { IsDecision trace.now.run place }
    ensures ascending { IfOk result (IsStrictlySortedBy nat_cmp) }
    ensures members { IfOk result (λ v. (s : Step) → step_at trace.now.run place ≡ Some s → (j : ℕ) → Contains v j ↔ HeardAt trace.now.run place s j) }
{
    let known = needed_at(alloc, trace, place)?;
    Ok(Places::from_vec(marked_places(alloc, &known, place)?))
}
