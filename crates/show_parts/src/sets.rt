//! Sets of points. Verbs, where K and J are numbers of sets, from 0 in the order in which they were made, and P is a point:
//! - `new`, `set P ..`, `copy K` make a set;
//! - `insert K P` puts a point in, and tells whether it is new; `union K J` puts in all of another set; `without K WHO` takes out
//!   the points of a transactor, and `clear K` all;
//! - `points K` writes the points, `len K` their number, `item K N` the one at a position; `empty K`, `has K P` and `same K J`
//!   answer yes or no.
ghost use Rattle.std.specs.Prelude.{◌≡◌, ◌==◌, filter, not};

use crate::calls::{Call, Part};
use crate::points::{add_points, point_of, points_of};
use std::alloc::{AllocError, Global};
use tau_points::PointSet;

/// Sets in the order in which they were made.
#[derive(Drop)]
pub(crate) struct Sets {
    alloc: Global,
    made: Vec<PointSet>,
}

impl Sets {
    pub(crate) fn new(alloc: Global) -> Sets {
        Sets {
            alloc,
            made: Vec::new(alloc),
        }
    }

    /// Makes a set.
    fn make(&mut self, text: &mut String, call: Call<'_>) -> Result<(), AllocError> {
        let set = match call.verb() {
            "new" => PointSet::new(self.alloc),
            "set" => PointSet::from_slice(self.alloc, &points_of(self.alloc, call, 0)?)?,
            _ => match self.made.get(call.index(0)) {
                Some(set) => set.copy()?,
                None => return call.refuse(text),
            },
        };
        self.made.push(set)?;
        Ok(())
    }

    /// Puts all points of a set into another.
    fn join(&mut self, text: &mut String, call: Call<'_>) -> Result<(), AllocError> {
        let other = match self.made.get(call.index(1)) {
            Some(other) => other.copy()?,
            None => return call.refuse(text),
        };
        match self.made.get_mut(call.index(0)) {
            Some(set) => set.union(&other),
            None => call.refuse(text),
        }
    }

    /// Puts a point in, or takes points out.
    fn change(&mut self, text: &mut String, call: Call<'_>) -> Result<(), AllocError> {
        let Some(set) = self.made.get_mut(call.index(0)) else {
            return call.refuse(text);
        };
        match call.verb() {
            "insert" => {
                let is_new = set.insert(point_of(call.word(1)))?;
                return call.answer(text, if is_new { "new" } else { "known" });
            }
            "without" => without(set, call.number(1)),
            _ => set.clear(),
        }
        Ok(())
    }

    /// Adds what a reader answers.
    fn tell(&self, text: &mut String, call: Call<'_>) -> Result<(), AllocError> {
        let Some(set) = self.made.get(call.index(0)) else {
            return call.refuse(text);
        };
        match call.verb() {
            "points" => add_points(text, call, set.points()),
            "len" => writeln!(text, "{}: {}", call.line(), set.len()),
            "item" => match set.item(call.index(1)) {
                Some(point) => add_points(text, call, &[point]),
                None => call.answer(text, "none"),
            },
            "empty" => call.decide(text, Some(set.is_empty())),
            "has" => call.decide(text, Some(set.has(&point_of(call.word(1))))),
            "same" => {
                let other = self.made.get(call.index(1));
                call.decide(text, other.map(|other| set.same(other)))
            }
            _ => call.refuse(text),
        }
    }
}

impl Part for Sets {
    fn call(&mut self, text: &mut String, call: Call<'_>) -> Result<(), AllocError> {
        match call.verb() {
            "new" | "set" | "copy" => self.make(text, call),
            "union" => self.join(text, call),
            "insert" | "without" | "clear" => self.change(text, call),
            _ => self.tell(text, call),
        }
    }
}

/// Takes the points of a transactor out.
fn without(set: &mut PointSet, who: u32)
    ensures { set.new ≡ filter (λ p. not (p.who == who)) set.old }
{
    set.retain(|p| p.who != who);
}
