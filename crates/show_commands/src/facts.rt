//! What holds of the trace that the workers made.
ghost use Rattle.std.specs.Prelude.{◌≡◌};
ghost use Rattle.tau_tree.specs.Sound.{Sound};
ghost use Rattle.tau_script.specs.Openings.{program_opening};

use crate::holding::Case;
use std::alloc::{AllocError, Global};
use tau_check::{Legality, check};
use tau_trace::{Step, Trace};
use tau_tree::Program;

/// Adds a line for each fact of the trace of a case.
pub fn add_facts(
    alloc: Global,
    text: &mut String,
    case: Case,
    program: &Program,
    trace: &Trace,
) -> Result<(), AllocError>
    requires sound { Sound program.now }
    requires opening { trace.now.run.opening ≡ program_opening program.now }
{
    match check(alloc, program, trace)? {
        Legality::Legal { complete } => {
            text.push_str("the trace is legal: true\n")?;
            writeln!(text, "the trace is complete: {complete}")?;
        }
        Legality::Bad { place } => writeln!(text, "the trace isn't legal at {place}")?,
    }
    let (Some(first), Some(other)) = (taker(trace, 0), taker(trace, 1)) else {
        return text.push_str("the two Takes stand at places 0 and 1: false\n");
    };
    let are_two = first != other;
    writeln!(text, "the two Takes stand at places 0 and 1: {are_two}")?;
    match case {
        Case::A => {
            let is_before = is_set_before_get(trace, other, first);
            writeln!(
                text,
                "the Set of the other turn stands before the Get of turn 0: {is_before}"
            )
        }
        Case::B => {
            let is_before = is_set_before_get(trace, first, other);
            writeln!(
                text,
                "the Set of turn 0 stands before the Get of the other turn: {is_before}"
            )
        }
    }
}

/// Who takes a message at a place.
fn taker(trace: &Trace, place: u32) -> Option<u32> {
    match trace.step(place) {
        Some(Step::Take { who, .. }) => Some(*who),
        _ => None,
    }
}

/// Whether one transactor's first Set stands before another's first Get.
fn is_set_before_get(trace: &Trace, setter: u32, getter: u32) -> bool {
    let set = (0..trace.len()).find(|place| is_set(trace, *place, setter));
    let get = (0..trace.len()).find(|place| is_get(trace, *place, getter));
    match (set, get) {
        (Some(set), Some(get)) => set < get,
        _ => false,
    }
}

/// Whether a transactor's Set stands at a place.
fn is_set(trace: &Trace, place: u32, setter: u32) -> bool {
    match trace.step(place) {
        Some(Step::Set { who, .. }) => *who == setter,
        _ => false,
    }
}

/// Whether a transactor's Get stands at a place.
fn is_get(trace: &Trace, place: u32, getter: u32) -> bool {
    match trace.step(place) {
        Some(Step::Get { who }) => *who == getter,
        _ => false,
    }
}
