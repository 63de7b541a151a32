//! Questions of a trace, with their answers.
ghost use Rattle.std.specs.Prelude.{◌≡◌};
ghost use Rattle.tau_tree.specs.Sound.{Sound};
ghost use Rattle.tau_script.specs.Openings.{program_opening};

use crate::told::{
    add_audit, add_carried, add_copied, add_form, add_legality, add_number, add_past, add_report,
    add_second,
};
use crate::words_of;
use std::alloc::{AllocError, Global};
use tau_check::check;
use tau_past::audit;
use tau_points::Point;
use tau_trace::Trace;
use tau_tree::Program;

/// Adds the answer to a question of a trace of the program's opening, after a blank.
pub(crate) fn add_answer(
    alloc: Global,
    text: &mut String,
    program: &Program,
    trace: &Trace,
    question: &str,
) -> Result<(), AllocError>
    requires sound { Sound program.now }
    requires opening { trace.now.run.opening ≡ program_opening program.now }
{
    let (kind, first, second, third) = words_of(question);
    match kind {
        "check" => add_legality(text, check(alloc, program, trace)?),
        "report" => add_report(alloc, text, program, trace),
        "audit" => add_audit(text, audit(alloc, trace)?),
        "second" => add_second(text, trace),
        "copied" => add_copied(text, trace),
        "form" => add_form(alloc, text, trace, first),
        "carried" => add_carried(alloc, text, trace, first),
        "past" => {
            let point = Point {
                who: first,
                interval: second,
                incarnation: third,
            };
            add_past(alloc, text, trace, point)
        }
        "notice" => write!(text, " {}", trace.is_notice(first)),
        _ => add_number(text, number_at(trace, kind, first, second)),
    }
}

/// What a reader of the trace answers; `None` where it answers nothing, or the question is none for a reader.
fn number_at(trace: &Trace, kind: &str, first: u32, second: u32) -> Option<u32> {
    match kind {
        "length" => Some(trace.len()),
        "born" => Some(trace.born()),
        "sent" => Some(trace.sent()),
        "next-living" => trace.next_living(first, second),
        "ended-by" => trace.ended_by(first),
        "open-turn" => trace.open_turn(first),
        "end-of" => trace.end_of(first),
        "home" => trace.home(first),
        "target" => trace.target(first),
        "origin" => trace.origin(first),
        "sender" => trace.sender(first),
        "made" => trace.made_at(first),
        _ => None,
    }
}
