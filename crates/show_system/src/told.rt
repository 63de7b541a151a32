//! What is told of a trace, as text after a blank.
ghost use Rattle.std.specs.Prelude.{◌≡◌};
ghost use Rattle.tau_tree.specs.Sound.{Sound};
ghost use Rattle.tau_script.specs.Openings.{program_opening};

use crate::showing::{add_point, step_text};
use std::alloc::{AllocError, Global};
use tau_check::Legality;
use tau_past::{Audit, carried, past};
use tau_points::Point;
use tau_report::report;
use tau_trace::Trace;
use tau_tree::Program;

/// Adds a number, `none` where there is none.
pub(crate) fn add_number(text: &mut String, number: Option<u32>) -> Result<(), AllocError> {
    match number {
        Some(number) => write!(text, " {number}"),
        None => text.push_str(" none"),
    }
}

/// Adds the lines of the report.
pub(crate) fn add_report(
    alloc: Global,
    text: &mut String,
    program: &Program,
    trace: &Trace,
) -> Result<(), AllocError>
    requires sound { Sound program.now }
    requires opening { trace.now.run.opening ≡ program_opening program.now }
{
    add_lines(text, &report(alloc, program, trace)?)
}

/// Adds the version of the trace in version 2, and how many steps it has.
pub(crate) fn add_second(text: &mut String, trace: &Trace) -> Result<(), AllocError> {
    let second = trace.in_second()?;
    let (version, steps) = (second.opening().version, second.len());
    drop(second);
    write!(text, " version {version} {steps}")
}

/// Adds the length of a copy of the trace.
pub(crate) fn add_copied(text: &mut String, trace: &Trace) -> Result<(), AllocError> {
    let copied = trace.copy()?;
    let steps = copied.len();
    drop(copied);
    write!(text, " {steps}")
}

/// Adds the form of the step at a place, `none` from the length on.
pub(crate) fn add_form(
    alloc: Global,
    text: &mut String,
    trace: &Trace,
    place: u32,
) -> Result<(), AllocError> {
    if place >= trace.len() {
        return text.push_str(" none");
    }
    add_lines(text, &step_text(alloc, trace, place)?)
}

/// Adds the lines of a text, each after a blank.
fn add_lines(text: &mut String, bytes: &[u8]) -> Result<(), AllocError> {
    for line in str::from_utf8(bytes).unwrap_or("").lines() {
        write!(text, " {line}")?;
    }
    Ok(())
}

/// Adds the points that the step at a place carries.
pub(crate) fn add_carried(
    alloc: Global,
    text: &mut String,
    trace: &Trace,
    place: u32,
) -> Result<(), AllocError> {
    add_points(text, carried(alloc, trace, place)?.points())
}

/// Adds the causal past of a point.
pub(crate) fn add_past(
    alloc: Global,
    text: &mut String,
    trace: &Trace,
    point: Point,
) -> Result<(), AllocError> {
    add_points(text, past(alloc, trace, point)?.points())
}

/// Adds points in their order, `none` where there are none.
fn add_points(text: &mut String, points: &[Point]) -> Result<(), AllocError> {
    if points.is_empty() {
        return text.push_str(" none");
    }
    for point in points {
        add_point(text, point)?;
    }
    Ok(())
}

/// Adds what an audit has found.
pub(crate) fn add_audit(text: &mut String, found: Audit) -> Result<(), AllocError> {
    match found {
        Audit::Safe => text.push_str(" safe"),
        Audit::Broken {
            checkpoint,
            point,
            fall,
        } => {
            write!(text, " broken {checkpoint}")?;
            add_point(text, &point)?;
            write!(text, " {fall}")
        }
    }
}

/// Adds what a check has found.
pub(crate) fn add_legality(text: &mut String, legality: Legality) -> Result<(), AllocError> {
    match legality {
        Legality::Legal { complete: true } => text.push_str(" legal complete"),
        Legality::Legal { complete: false } => text.push_str(" legal open"),
        Legality::Bad { place } => write!(text, " bad step {place}"),
    }
}
