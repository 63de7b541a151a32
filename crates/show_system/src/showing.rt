//! Steps, histories, views and what they decide, as text.
ghost use Rattle.std.specs.Prelude.{◌<◌};
ghost use Rattle.tau_trace.specs.Run.{len};

use std::alloc::{AllocError, Global};
use tau_compact::PrunedView;
use tau_history::History;
use tau_knowledge::Knowledge;
use tau_points::{Point, PointSet, Relation};
use tau_rules::{Standing, System};
use tau_sexpr::{Forms, print_forms};
use tau_steps::form_of_step;
use tau_trace::Trace;
use tau_value::Value;
use tau_view::fate::{Freedom, Verdict, free};
use tau_view::{FullView, View};

/// A view whose edges can be shown.
pub(crate) trait Shown: View + Drop {
    /// The view's edges.
    fn shown_edges(&self) -> Result<Relation, AllocError>;
}

impl Shown for FullView {
    fn shown_edges(&self) -> Result<Relation, AllocError> {
        self.edges()
    }
}

impl Shown for PrunedView {
    fn shown_edges(&self) -> Result<Relation, AllocError> {
        self.edges()
    }
}

/// Adds what a call asks of a system over whatever it knows: the standing, the state or the saved state of a transactor.
pub(crate) fn add_standing_or_state<K: Knowledge + Drop>(
    text: &mut String,
    system: &System<'_, K>,
    verb: &str,
    number: u32,
) -> Result<(), AllocError> {
    match verb {
        "standing" => add_standing(text, number, system.standing(number)),
        "state" => add_state(text, verb, number, system.state_of(number)),
        "saved" => add_state(text, verb, number, system.saved_of(number)),
        _ => text.push_str("(no call)\n"),
    }
}

/// Adds the last step of a trace.
pub(crate) fn add_step(alloc: Global, text: &mut String, trace: &Trace) -> Result<(), AllocError> {
    let steps = trace.len();
    if steps == 0 {
        return Ok(());
    }
    let bytes = step_text(alloc, trace, steps - 1)?;
    text.push_str(str::from_utf8(&bytes).unwrap_or(""))
}

/// The line of a step.
pub(crate) fn step_text(alloc: Global, trace: &Trace, place: u32) -> Result<Vec<u8>, AllocError>
    requires { place < len trace.now.run }
{
    let form = form_of_step(alloc, trace, place)?;
    let mut forms = Forms::new(alloc);
    let printed = match forms.add(form) {
        Ok(()) => print_forms(alloc, &forms),
        Err(failed) => Err(failed),
    };
    drop(forms);
    printed
}

/// Adds what a transactor is doing.
fn add_standing(text: &mut String, who: u32, standing: Option<Standing>) -> Result<(), AllocError> {
    match standing {
        None => writeln!(text, "(standing {who} none)"),
        Some(Standing::Idle) => writeln!(text, "(standing {who} idle)"),
        Some(Standing::Busy { turn }) => writeln!(text, "(standing {who} busy {turn})"),
        Some(Standing::Ended { place }) => writeln!(text, "(standing {who} ended {place})"),
    }
}

/// Adds a state, or a saved one, by its integer.
fn add_state(
    text: &mut String,
    verb: &str,
    who: u32,
    state: Option<&Value>,
) -> Result<(), AllocError> {
    match state {
        None => writeln!(text, "({verb} {who} none)"),
        Some(Value::Int(number)) => writeln!(text, "({verb} {who} {number})"),
        Some(_) => writeln!(text, "({verb} {who} no integer)"),
    }
}

/// Adds the history of a transactor, on a line.
pub(crate) fn add_history_line(
    text: &mut String,
    who: u32,
    history: Option<&History>,
) -> Result<(), AllocError> {
    add_history(text, who, history)?;
    text.push('\n')
}

/// Adds a history: its transactor, its mode, and its numbers.
fn add_history(text: &mut String, who: u32, history: Option<&History>) -> Result<(), AllocError> {
    let Some(history) = history else {
        return Ok(());
    };
    let mode = if history.is_stable() { "S" } else { "V" };
    write!(text, "(history {who} {mode}")?;
    for interval in 0..=history.interval() {
        let number = history.number_at(interval).unwrap_or(0);
        write!(text, " {number}")?;
    }
    text.push(')')
}

/// Adds a point after a blank.
pub(crate) fn add_point(text: &mut String, point: &Point) -> Result<(), AllocError> {
    let (who, interval, incarnation) = (point.who, point.interval, point.incarnation);
    write!(text, " ({who} {interval} {incarnation})")
}

/// Adds a view: its histories of the transactors below a number, its edges and its roots.
pub(crate) fn add_view<V: Shown>(
    text: &mut String,
    born: u32,
    view: Option<&V>,
) -> Result<(), AllocError> {
    let Some(view) = view else {
        return text.push_str("(no view)\n");
    };
    text.push_str("(view")?;
    add_histories(text, born, view)?;
    add_edges(text, &view.shown_edges()?)?;
    add_roots(text, view.roots())?;
    text.push_str(")\n")
}

/// Adds the histories of a view, of the transactors below a number.
fn add_histories<V: Shown>(text: &mut String, born: u32, view: &V) -> Result<(), AllocError> {
    for who in 0..born {
        if view.history_of(who).is_some() {
            text.push(' ')?;
        }
        add_history(text, who, view.history_of(who))?;
    }
    Ok(())
}

/// Adds the edges of a view.
fn add_edges(text: &mut String, edges: &Relation) -> Result<(), AllocError> {
    for pair in edges.pairs() {
        text.push_str(" (edge")?;
        add_point(text, &pair.0)?;
        add_point(text, &pair.1)?;
        text.push(')')?;
    }
    Ok(())
}

/// Adds the roots of a view.
fn add_roots(text: &mut String, roots: &PointSet) -> Result<(), AllocError> {
    text.push_str(" (roots")?;
    for point in roots.points() {
        add_point(text, point)?;
    }
    text.push(')')
}

/// Adds whether a transactor is free, by its view.
pub(crate) fn add_freedom<V: Shown>(
    alloc: Global,
    text: &mut String,
    who: u32,
    view: Option<&V>,
) -> Result<(), AllocError> {
    let Some(view) = view else {
        return text.push_str("(no view)\n");
    };
    let Some(history) = view.history_of(who) else {
        return text.push_str("(no view)\n");
    };
    match free(alloc, view, point_of(who, history))? {
        Freedom::Free => text.push_str("(free)\n"),
        Freedom::Bound { point } => {
            text.push_str("(bound")?;
            add_point(text, &point)?;
            text.push_str(")\n")
        }
    }
}

/// The point of a transactor with a history.
pub(crate) fn point_of(who: u32, history: &History) -> Point {
    Point {
        who,
        interval: history.interval(),
        incarnation: history.incarnation(),
    }
}

/// Adds the verdict on a message in flight.
pub(crate) fn add_verdict(text: &mut String, verdict: Option<Verdict>) -> Result<(), AllocError> {
    let (word, point) = match verdict {
        None => return text.push_str("(no view)\n"),
        Some(Verdict::Take) => return text.push_str("(verdict take)\n"),
        Some(Verdict::Drop { point }) => ("drop", point),
        Some(Verdict::Fall { point }) => ("fall", point),
    };
    write!(text, "(verdict {word}")?;
    add_point(text, &point)?;
    text.push_str(")\n")
}
