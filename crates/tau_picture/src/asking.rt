//! The step of which a picture is asked to tell the cause.
ghost use Rattle.std.specs.Prelude.{◌≡◌, ◌↔◌, Some, IfOk, IsTrue};
ghost use Rattle.tau_explain.specs.Decisions.{IsDecision};
ghost use Rattle.tau_cut.specs.Cuts.{IsCut};
ghost use Rattle.tau_picture.specs.Inner.Asked.{IsAsked, IsAskedWithout};

use std::alloc::{AllocError, Global};
use tau_cut::Cut;
use tau_explain::chains::Chain;
use tau_scene::causes::cause_at;
use tau_trace::{Step, Trace};

/// That nothing was asked for, or the step that was, with its cause, if it has one.
#[derive(Drop)]
pub(crate) enum Asked {
    Nothing,
    Step { place: u32, cause: Option<Chain> },
}

/// Whether the step at a place is a Hold, a Drop or a Fall.
fn is_decision(trace: &Trace, place: u32) -> bool
    ensures { IsTrue result ↔ IsDecision trace.now.run place }
{
    matches!(
        trace.step(place),
        Some(Step::Hold { .. } | Step::Drop { .. } | Step::Fall { .. })
    )
}

/// The step at a place, which has no cause; `None` where it is no decision.
fn without_cause(trace: &Trace, place: u32) -> Option<Asked>
    ensures { IsAskedWithout trace.now.run place result }
{
    if !is_decision(trace, place) {
        return None;
    }
    Some(Asked::Step { place, cause: None })
}

/// The step at a place, with its cause; `None` where that may not be asked.
fn asked_at(
    alloc: Global,
    trace: &Trace,
    cut: &Cut,
    place: u64,
) -> Result<Option<Asked>, AllocError>
    requires { IsCut trace.now.run cut.now }
    ensures { IfOk result (IsAsked trace.now.run cut.now (Some place)) }
{
    if place >= u64::from(trace.len()) {
        return Ok(None);
    }
    let place = place as u32;
    match cause_at(alloc, trace, cut, place)? {
        Some(chain) => Ok(Some(Asked::Step {
            place,
            cause: Some(chain),
        })),
        None => Ok(without_cause(trace, place)),
    }
}

/// What was asked for; `None` where it may not be.
pub(crate) fn asked_of(
    alloc: Global,
    trace: &Trace,
    cut: &Cut,
    ask: Option<u64>,
) -> Result<Option<Asked>, AllocError>
    requires { IsCut trace.now.run cut.now }
    ensures { IfOk result (IsAsked trace.now.run cut.now ask) }
{
    match ask {
        Some(place) => asked_at(alloc, trace, cut, place),
        None => Ok(Some(Asked::Nothing)),
    }
}
