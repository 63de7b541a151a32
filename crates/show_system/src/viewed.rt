//! What is asked of a system over views.
ghost use Rattle.std.specs.Prelude.{◌≡◌, ◌<◌, IfSome};
ghost use Rattle.tau_view.specs.Held.{AllComparable};

use crate::showing::{
    Shown, add_freedom, add_history_line, add_standing_or_state, add_verdict, add_view, point_of,
};
use std::alloc::{AllocError, Global};
use tau_rules::System;
use tau_view::fate::{Verdict, judge};
use tau_views::{Views, history_of, message_view, view_of};

/// Adds what a call asks for: the standing, state, saved state, history or view of a transactor, whether it is free, the view
/// of a message, or the verdict on it.
pub(crate) fn show_viewed<V: Shown>(
    alloc: Global,
    text: &mut String,
    system: &System<'_, Views<V>>,
    verb: &str,
    number: u32,
) -> Result<(), AllocError> {
    let born = system.trace().born();
    match verb {
        "history" => add_history_line(text, number, history_of(system, number)),
        "view" => add_view(text, born, view_of(system, number)),
        "message" => add_view(text, born, message_view(system, number)),
        "free" => add_freedom(alloc, text, number, view_of(system, number)),
        "verdict" => {
            let verdict = verdict_on(alloc, system, number)?;
            add_verdict(text, verdict)
        }
        _ => add_standing_or_state(text, system, verb, number),
    }
}

/// The verdict on a message in flight, by the views.
fn verdict_on<V: Shown>(
    alloc: Global,
    system: &System<'_, Views<V>>,
    message: u32,
) -> Result<Option<Verdict>, AllocError> {
    let Some(who) = system.trace().target(message) else {
        return Ok(None);
    };
    let (Some(history), Some(letter)) = (history_of(system, who), message_view(system, message))
    else {
        return Ok(None);
    };
    let Some(merged) = merged_view(system, who, message)? else {
        return Ok(None);
    };
    let verdict = judge(alloc, &merged, point_of(who, history), letter)?;
    Ok(Some(verdict))
}

/// The view of a transactor with the facts of a message in flight.
fn merged_view<V: Shown>(
    system: &System<'_, Views<V>>,
    who: u32,
    message: u32,
) -> Result<Option<V>, AllocError> {
    if message >= system.trace().sent() || who >= system.trace().born() {
        return Ok(None);
    }
    let (Some(own), Some(letter)) = (view_of(system, who), message_view(system, message)) else {
        return Ok(None);
    };
    let mut merged = own.try_copy()?;
    merged.merge_facts(letter)?;
    Ok(Some(merged))
}
