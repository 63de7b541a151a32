//! What is asked of a system that keeps what was heard as numbers of versions, by views that are made anew.
ghost use Rattle.tau_views.specs.Kept.{AreViews, held_of, letters_of};

use crate::showing::{
    Shown, add_freedom, add_history_line, add_standing_or_state, add_verdict, add_view,
};
use std::alloc::{AllocError, Global};
use tau_rules::System;
use tau_verdicts::MarkedHearing;
use tau_view::View;
use tau_view::fate::Verdict;
use tau_views::{Views, views_of};

/// Adds what a call asks for, as `show_viewed` does.
pub(crate) fn show_heard<V: Shown>(
    alloc: Global,
    text: &mut String,
    system: &System<'_, MarkedHearing>,
    verb: &str,
    number: u32,
) -> Result<(), AllocError> {
    match verb {
        "history" | "view" | "message" | "free" | "verdict" => {
            let views: Views<V> = views_of(alloc, system)?;
            let added = show_views(alloc, text, system, &views, verb, number);
            drop(views);
            added
        }
        _ => add_standing_or_state(text, system, verb, number),
    }
}

/// Adds what a call asks of the views of a system.
fn show_views<V: Shown>(
    alloc: Global,
    text: &mut String,
    system: &System<'_, MarkedHearing>,
    views: &Views<V>,
    verb: &str,
    number: u32,
) -> Result<(), AllocError>
    requires { AreViews V.drops_edge V.drops_root system.now.run (held_of V.held views.now.own.items) (letters_of V.held views.now.letters.items) }
{
    let own = views.view_of(number);
    match verb {
        "history" => add_history_of(text, number, own),
        "view" => add_view(text, system.trace().born(), own),
        "message" => add_view(text, system.trace().born(), views.message_view(number)),
        "free" => add_freedom(alloc, text, number, own),
        _ => add_verdict(text, verdict_on(alloc, system, views, number)?),
    }
}

/// Adds the history of a transactor in its view.
fn add_history_of<V: Shown>(
    text: &mut String,
    who: u32,
    view: Option<&V>,
) -> Result<(), AllocError> {
    match view {
        Some(view) => add_history_line(text, who, view.history_of(who)),
        None => add_history_line(text, who, None),
    }
}

/// The verdict on a message in flight, by the views.
fn verdict_on<V: Shown>(
    alloc: Global,
    system: &System<'_, MarkedHearing>,
    views: &Views<V>,
    message: u32,
) -> Result<Option<Verdict>, AllocError>
    requires { AreViews V.drops_edge V.drops_root system.now.run (held_of V.held views.now.own.items) (letters_of V.held views.now.letters.items) }
{
    let trace = system.trace();
    if message >= trace.sent() || trace.ended_by(message).is_some() {
        return Ok(None);
    }
    match trace.target(message) {
        Some(who) if who < trace.born() => {
            let verdict = views.judge(alloc, trace, who, message)?;
            Ok(Some(verdict))
        }
        _ => Ok(None),
    }
}
