//! Relations of points. Verbs, where K and J are numbers of relations, from 0 in the order in which they were made, P is a point
//! and Q a pair:
//! - `new`, `relation Q ..`, `copy K` make a relation;
//! - `insert K Q` puts a pair in, and tells whether it is new; `union K J` puts in all of another relation; `only_to K WHO` takes
//!   out the pairs whose second point isn't of a transactor, and `clear K` all;
//! - `pairs K` writes the pairs, `len K` their number, `item K N` the one at a position, `span K P` the span of a point;
//!   `empty K`, `has K Q` and `same K J` answer yes or no;
//! - `reach K P ..` writes what is reached from points, and `longer K Q P ..` the same with one pair more.
use crate::calls::{Call, Part};
use crate::points::{add_pair, add_points, pair_of, pairs_of, point_of, points_of};
use crate::searches::Longer;
use std::alloc::{AllocError, Global};
use tau_points::{Point, PointSet, Relation, reachable, search};

/// Relations in the order in which they were made.
#[derive(Drop)]
pub(crate) struct Relations {
    alloc: Global,
    made: Vec<Relation>,
}

impl Relations {
    pub(crate) fn new(alloc: Global) -> Relations {
        Relations {
            alloc,
            made: Vec::new(alloc),
        }
    }

    /// Makes a relation.
    fn make(&mut self, text: &mut String, call: Call<'_>) -> Result<(), AllocError> {
        let relation = match call.verb() {
            "new" => Relation::new(self.alloc),
            "relation" => Relation::from_slice(self.alloc, &pairs_of(self.alloc, call)?)?,
            _ => match self.made.get(call.index(0)) {
                Some(relation) => relation.copy()?,
                None => return call.refuse(text),
            },
        };
        self.made.push(relation)?;
        Ok(())
    }

    /// Puts all pairs of a relation into another.
    fn join(&mut self, text: &mut String, call: Call<'_>) -> Result<(), AllocError> {
        let other = match self.made.get(call.index(1)) {
            Some(other) => other.copy()?,
            None => return call.refuse(text),
        };
        match self.made.get_mut(call.index(0)) {
            Some(relation) => relation.union(&other),
            None => call.refuse(text),
        }
    }

    /// Puts a pair in, or takes pairs out.
    fn change(&mut self, text: &mut String, call: Call<'_>) -> Result<(), AllocError> {
        let Some(relation) = self.made.get_mut(call.index(0)) else {
            return call.refuse(text);
        };
        match call.verb() {
            "insert" => {
                let (from, to) = pair_of(call.word(1));
                let is_new = relation.insert(from, to)?;
                return call.answer(text, if is_new { "new" } else { "known" });
            }
            "only_to" => {
                let who = call.number(1);
                relation.retain(|pair| pair.1.who == who);
            }
            _ => relation.clear(),
        }
        Ok(())
    }

    /// Adds what a reader answers.
    fn tell(&self, text: &mut String, call: Call<'_>) -> Result<(), AllocError> {
        let Some(relation) = self.made.get(call.index(0)) else {
            return call.refuse(text);
        };
        match call.verb() {
            "pairs" => add_pairs(text, call, relation.pairs()),
            "len" => writeln!(text, "{}: {}", call.line(), relation.len()),
            "item" => match relation.item(call.index(1)) {
                Some(pair) => add_pairs(text, call, &[pair]),
                None => call.answer(text, "none"),
            },
            "span" => {
                let (first, past) = relation.span(&point_of(call.word(1)));
                writeln!(text, "{}: {first} to {past}", call.line())
            }
            "empty" => call.decide(text, Some(relation.is_empty())),
            "has" => {
                let (from, to) = pair_of(call.word(1));
                call.decide(text, Some(relation.has(&from, &to)))
            }
            "same" => {
                let other = self.made.get(call.index(1));
                call.decide(text, other.map(|other| relation.same(other)))
            }
            _ => self.reach(text, call, relation),
        }
    }

    /// Adds what is reached over a relation.
    fn reach(&self, text: &mut String, call: Call<'_>, links: &Relation) -> Result<(), AllocError> {
        match call.verb() {
            "reach" => {
                let from = PointSet::from_slice(self.alloc, &points_of(self.alloc, call, 1)?)?;
                add_points(text, call, reachable(self.alloc, links, &from)?.points())
            }
            "longer" => {
                let from = PointSet::from_slice(self.alloc, &points_of(self.alloc, call, 2)?)?;
                let longer = Longer::new(links, pair_of(call.word(1)));
                add_points(text, call, search(self.alloc, &longer, &from)?.points())
            }
            _ => call.refuse(text),
        }
    }
}

impl Part for Relations {
    fn call(&mut self, text: &mut String, call: Call<'_>) -> Result<(), AllocError> {
        match call.verb() {
            "new" | "relation" | "copy" => self.make(text, call),
            "union" => self.join(text, call),
            "insert" | "only_to" | "clear" => self.change(text, call),
            _ => self.tell(text, call),
        }
    }
}

/// Adds the line of a call with pairs.
fn add_pairs(
    text: &mut String,
    call: Call<'_>,
    pairs: &[(Point, Point)],
) -> Result<(), AllocError> {
    write!(text, "{}:", call.line())?;
    for pair in pairs {
        add_pair(text, *pair)?;
    }
    text.push('\n')
}
