//! Shortest chains, and the lists that hold them. Verbs, where P is a point and Q a pair:
//! - `shortest Q .. / from P .. / to P ..` writes the first of the shortest chains over the pairs, from the points behind `from` to those
//!   behind `to`;
//! - `points P ..`, `places N ..` and `chain P ..` put items into a list, one after another, and write the number of them and the first
//!   one of a copy; in a chain each item has the place of its point in the line.
use crate::calls::{Call, Part, number_of};
use crate::points::{add_point, add_points, pairs_of, points_of};
use std::alloc::{AllocError, Global};
use tau_explain::chains::{Chain, Chained, Places, Points, shortest};
use tau_points::{PointSet, Relation};

/// What finds chains.
#[derive(Clone, Copy)]
pub(crate) struct Chains {
    alloc: Global,
}

impl Chains {
    pub(crate) fn new(alloc: Global) -> Chains {
        Chains { alloc }
    }
}

impl Part for Chains {
    fn call(&mut self, text: &mut String, call: Call<'_>) -> Result<(), AllocError> {
        match call.verb() {
            "shortest" => add_shortest(self.alloc, text, call),
            "points" => add_list(self.alloc, text, call),
            "places" => add_places(self.alloc, text, call),
            "chain" => add_chain(self.alloc, text, call),
            _ => call.refuse(text),
        }
    }
}

/// Adds the first of the shortest chains.
fn add_shortest(alloc: Global, text: &mut String, call: Call<'_>) -> Result<(), AllocError> {
    let line = call.line();
    let (pairs, rest) = line.split_once(" / ").unwrap_or((line, ""));
    let (from, to) = rest.split_once(" / ").unwrap_or((rest, ""));
    let links = Relation::from_slice(alloc, &pairs_of(alloc, Call::of(pairs))?)?;
    let from = PointSet::from_slice(alloc, &points_of(alloc, Call::of(from), 0)?)?;
    let to = PointSet::from_slice(alloc, &points_of(alloc, Call::of(to), 0)?)?;
    match shortest(alloc, &links, &from, &to)? {
        Some(chain) => add_points(text, call, chain.items()),
        None => call.answer(text, "none"),
    }
}

/// Adds the number of a list's points and the first one.
fn add_list(alloc: Global, text: &mut String, call: Call<'_>) -> Result<(), AllocError> {
    let mut list = Points::new(alloc);
    for point in &points_of(alloc, call, 0)? {
        list.push(*point).map_err(|failed| failed.1)?;
    }
    add_count(text, call, list.len(), list.is_empty())?;
    match list.copy()?.item(0) {
        Some(point) => add_point(text, *point)?,
        None => text.push_str(" none")?,
    }
    text.push('\n')
}

/// Adds the number of a list's places and the first one.
fn add_places(alloc: Global, text: &mut String, call: Call<'_>) -> Result<(), AllocError> {
    let mut places = Places::new(alloc);
    for word in call.line().split_whitespace().skip(1) {
        places.push(number_of(word)).map_err(|failed| failed.1)?;
    }
    add_count(text, call, places.len(), places.is_empty())?;
    match places.copy()?.item(0) {
        Some(place) => writeln!(text, " {place}"),
        None => text.push_str(" none\n"),
    }
}

/// Adds the number of a chain's points and the first one.
fn add_chain(alloc: Global, text: &mut String, call: Call<'_>) -> Result<(), AllocError> {
    let mut chain = Chain::new(alloc);
    for (place, point) in (0..).zip(&points_of(alloc, call, 0)?) {
        let linked = Chained {
            point: *point,
            by: Some(place),
        };
        chain.push(linked).map_err(|failed| failed.1)?;
    }
    add_count(text, call, chain.len(), chain.is_empty())?;
    match chain.copy()?.item(0) {
        Some(linked) => {
            add_point(text, linked.point)?;
            writeln!(text, " by {}", linked.by.unwrap_or(0))
        }
        None => text.push_str(" none\n"),
    }
}

/// Adds the line of a call with the number of items.
fn add_count(
    text: &mut String,
    call: Call<'_>,
    len: usize,
    is_empty: bool,
) -> Result<(), AllocError> {
    let word = if is_empty { "empty" } else { "items" };
    write!(text, "{}: {word} {len}, first", call.line())
}
