//! Histories. Verbs, where K and J are numbers of histories, from 0 in the order in which they were made:
//! - `opening`, `newborn`, `copy K` make a history;
//! - `stabilize K`, `fall K`, `close K`, and `close_spare K`, which reserves room first, make a move;
//! - `rounds K N` makes N times the moves fall, stabilize and close, and writes the interval before each time;
//! - `history K` writes interval, incarnation, mode and numbers; `number K I` the number of an interval; `fate K I N` a fate;
//! - `precedes K J`, `before K J`, where one precedes the other, and `same K J` answer yes or no.
ghost use Rattle.std.specs.Prelude.{◌<◌, ◌-◌, ◌^◌, IsTrue};
ghost use Rattle.tau_history.specs.Timeline.{interval};

use crate::calls::{Call, Part};
use std::alloc::{AllocError, Global};
use tau_history::{Fate, History};

/// Histories in the order in which they were made.
#[derive(Drop)]
pub(crate) struct Histories {
    alloc: Global,
    made: Vec<History>,
}

impl Histories {
    pub(crate) fn new(alloc: Global) -> Histories {
        Histories {
            alloc,
            made: Vec::new(alloc),
        }
    }

    /// Makes a history.
    fn make(&mut self, text: &mut String, call: Call<'_>) -> Result<(), AllocError> {
        let history = match call.verb() {
            "opening" => History::opening(self.alloc)?,
            "newborn" => History::newborn(self.alloc)?,
            _ => match self.made.get(call.index(0)) {
                Some(history) => history.copy()?,
                None => return call.refuse(text),
            },
        };
        crosses_threads(&history);
        self.made.push(history)?;
        Ok(())
    }

    /// Adds whether two histories are as a verb says.
    fn compare(&self, text: &mut String, call: Call<'_>) -> Result<(), AllocError> {
        let (first, second) = (self.made.get(call.index(0)), self.made.get(call.index(1)));
        let (Some(history), Some(other)) = (first, second) else {
            return call.refuse(text);
        };
        call.decide(text, compared(call.verb(), history, other))
    }
}

impl Part for Histories {
    fn call(&mut self, text: &mut String, call: Call<'_>) -> Result<(), AllocError> {
        match call.verb() {
            "opening" | "newborn" | "copy" => return self.make(text, call),
            "precedes" | "before" | "same" => return self.compare(text, call),
            _ => {}
        }
        let Some(history) = self.made.get_mut(call.index(0)) else {
            return call.refuse(text);
        };
        match call.verb() {
            "rounds" => add_rounds(text, call, history),
            "history" => add_history(text, call, history),
            "number" => add_number(text, call, history),
            "fate" => add_fate(text, call, history),
            verb => {
                if make_move(history, verb)? {
                    return Ok(());
                }
                call.refuse(text)
            }
        }
    }
}

fn crosses_threads<T: Send + Sync>(_value: &T) {}

/// Makes a move where it is allowed; whether it was.
fn make_move(history: &mut History, verb: &str) -> Result<bool, AllocError> {
    match verb {
        "stabilize" => history.stabilize(),
        "fall" if history.incarnation() < u32::MAX => history.fall(),
        "close" if may_close(history) => history.close()?,
        "close_spare" if may_close(history) => {
            history.reserve()?;
            history.close_spare();
        }
        _ => return Ok(false),
    }
    Ok(true)
}

/// Whether the present interval can be closed.
fn may_close(history: &History) -> bool
    ensures stable { IsTrue result → IsTrue history.now.history.stable }
    ensures fits { IsTrue result → interval history.now.history < 2 ^ 32 - 1 }
{
    history.is_stable() && history.interval() < u32::MAX
}

/// Makes a number of times the moves fall, stabilize and close, and adds the interval before each time.
fn add_rounds(text: &mut String, call: Call<'_>, history: &mut History) -> Result<(), AllocError> {
    write!(text, "{}:", call.line())?;
    for _ in 0..call.number(1) {
        write!(text, " {}", history.interval())?;
        make_move(history, "fall")?;
        make_move(history, "stabilize")?;
        make_move(history, "close")?;
    }
    text.push('\n')
}

/// Adds interval, incarnation, mode and numbers.
fn add_history(text: &mut String, call: Call<'_>, history: &History) -> Result<(), AllocError> {
    let (interval, incarnation) = (history.interval(), history.incarnation());
    let mode = if history.is_stable() {
        "stable"
    } else {
        "volatile"
    };
    write!(
        text,
        "{}: interval {interval}, incarnation {incarnation}, {mode}, numbers",
        call.line()
    )?;
    for k in 0..=interval {
        let number = history.number_at(k).unwrap_or(u32::MAX);
        write!(text, " {number}")?;
    }
    text.push('\n')
}

/// Adds the number of an interval.
fn add_number(text: &mut String, call: Call<'_>, history: &History) -> Result<(), AllocError> {
    match history.number_at(call.number(1)) {
        Some(number) => writeln!(text, "{}: {number}", call.line()),
        None => call.answer(text, "none"),
    }
}

/// Adds the fate of a point.
fn add_fate(text: &mut String, call: Call<'_>, history: &History) -> Result<(), AllocError> {
    let fate = match history.fate(call.number(1), call.number(2)) {
        Fate::Ahead => "Ahead",
        Fate::Open => "Open",
        Fate::Stable => "Stable",
        Fate::Closed => "Closed",
        Fate::Fallen => "Fallen",
    };
    call.answer(text, fate)
}

/// Whether two histories are as the verb says; `None` where that can't be asked of them.
fn compared(verb: &str, history: &History, other: &History) -> Option<bool> {
    match verb {
        "precedes" => Some(history.precedes(other)),
        "same" => Some(history.same(other)),
        _ if history.precedes(other) || other.precedes(history) => Some(history.is_before(other)),
        _ => None,
    }
}
