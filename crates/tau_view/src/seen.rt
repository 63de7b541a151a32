//! The search for a known past.
ghost use Rattle.std.specs.Prelude.{◌≡◌, ◌↔◌, ◌⊎◌, ◌+◌, ◌^◌, ◌<◌, Some, [], length, Contains, OnOk, IfOk};
ghost use Rattle.std.specs.Bool.{OnTrue, OnFalse};
ghost use Rattle.tau_points.specs.declared.point.Point.{Point};
ghost use Rattle.tau_points.specs.Order.{IsAscending};
ghost use Rattle.tau_points.specs.Members.{Adds, SameMembers};
ghost use Rattle.tau_points.specs.Reach.{Reach};
ghost use Rattle.tau_view.specs.Seen.{AllAmong};

use std::alloc::{AllocError, Global};
use std::collections::HashSet;
use std::marker::Model;
use tau_points::{Links, Point, PointSet};

/// The points that a search has come to, seen as their list in some order.
#[derive(Drop)]
pub(crate) struct Seen {
    table: HashSet<Point>,
    // For each low transactor the point of it that the search came to last: most links lead to it.
    recent: Vec<Option<Point>>,
}

impl Model for Seen {
    ghost use Rattle.std.specs.Prelude.{List};
    ghost use Rattle.tau_points.specs.declared.point.Point.{Point};

    ghost Value = { List Point };

    ghost use Rattle.tau_view.specs.Seen.{AllAmong};

    ghost view = { λ s. s.table.keys };

    ghost invariant = { λ s. AllAmong s.table.keys s.recent.items };
}

impl Seen {
    /// No point, with a place for the last one of each transactor below this number.
    fn new(alloc: Global, transactors: usize) -> Result<Seen, AllocError>
        ensures { IfOk result (λ s. s ≡ []) }
    {
        let recent = vec![in alloc; None; transactors]?;
        Ok(Seen {
            table: HashSet::new(alloc),
            recent,
        })
    }

    /// Whether the search came to this point of its transactor last.
    fn is_recent(&self, point: Point) -> bool
        ensures { OnTrue result (Contains self.now point) }
    {
        match self.recent.get(point.who as usize) {
            Some(Some(seen)) => *seen == point,
            _ => false,
        }
    }

    /// Adds the point; true where it is new.
    fn insert(&mut self, point: Point) -> Result<bool, AllocError>
        ensures members { OnOk result (Adds self.old self.new point) }
        ensures more { IfOk result (λ added. OnTrue added (length self.new ≡ length self.old + 1)) }
        ensures known { IfOk result (λ added. OnFalse added (Contains self.old point)) }
        ensures unchanged { IfOk result (λ added. OnFalse added (self.new ≡ self.old)) }
        ensures small { IfOk result (λ added. OnTrue added (length self.new < 2 ^ 63)) }
    {
        if self.is_recent(point) {
            return Ok(false);
        }
        let added = self.table.insert(point)?;
        prove!(self.table.len() <= usize::MAX / 2);
        remember(&mut self.recent, point);
        Ok(added)
    }

    /// The points as a set.
    fn set(&self, alloc: Global) -> Result<PointSet, AllocError>
        ensures ascending { IfOk result IsAscending }
        ensures members { IfOk result (SameMembers self.now) }
    {
        let points: Vec<Point> = self.table.iter().copied().collect(alloc)?;
        PointSet::from_slice(alloc, &points)
    }
}

/// Puts the point in its transactor's place, if there is one.
fn remember(recent: &mut Vec<Option<Point>>, point: Point)
    ensures { (p : Point) → Contains recent.new.items (Some p) → Contains recent.old.items (Some p) ⊎ (p ≡ point) }
{
    let place = point.who as usize;
    if place < recent.len() {
        recent[place] = Some(point);
    }
}

/// The points that are reached from a set by following links, as `tau_points::search` finds them. It is fast where many links
/// lead to few points, of transactors below this number.
pub(crate) fn search<L: Links>(
    alloc: Global,
    transactors: usize,
    links: &L,
    from: &PointSet,
) -> Result<PointSet, AllocError>
    ensures ascending { IfOk result IsAscending }
    ensures reached { IfOk result (λ set. (q : Point) → Contains set q ↔ Reach (L.leads links.now) (Contains from.now) q) }
{
    let mut seen = Seen::new(alloc, transactors)?;
    let mut stack = Vec::from_slice(alloc, from.points())?;
    'search: while let Some(point) = stack.pop() {
        if seen.insert(point)? {
            links.push_next(&point, &mut stack)?;
        }
    }
    seen.set(alloc)
}
