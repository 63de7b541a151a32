ghost use Rattle.std.specs.Prelude.{◌≡◌, ◌↔◌, IfOk, OnOk, Contains};
ghost use Rattle.tau_points.specs.declared.point.Point.{Point};
ghost use Rattle.tau_points.specs.Order.{IsAscending};
ghost use Rattle.tau_view.specs.Held.{fate_in};
ghost use Rattle.tau_view.specs.Past.{KnownPast, PastUpToClosed};
ghost use Rattle.tau_view.specs.Inner.Before.{before_in};
ghost use Rattle.tau_view.specs.Stored.{history_in, point_in, held};

use crate::facts::Facts;
use crate::seen::search;
use std::alloc::AllocError;
use tau_history::Fate;
use tau_points::{Links, Point, PointSet};

/// What leads on from a point that isn't Closed.
#[derive(Drop)]
struct OpenLinks<'a> {
    facts: &'a Facts,
}

impl Facts {
    /// The fate of a point; Ahead where its transactor has no history (`docs/rules.md`, "Fates").
    pub fn fate_of(&self, point: &Point) -> Fate
        ensures { result ≡ fate_in (history_in self.now.histories) point.now }
    {
        self.histories().fate_of(point)
    }

    /// The point of the interval before, as the history of the point's transactor has it.
    fn before(&self, point: &Point) -> Option<Point>
        ensures { result ≡ before_in (history_in self.now.histories) point.now }
    {
        if point.interval == 0 {
            return None;
        }
        let interval = point.interval - 1;
        let history = self.history_of(point.who)?;
        let incarnation = history.number_at(interval)?;
        Some(Point {
            who: point.who,
            interval,
            incarnation,
        })
    }

    /// The known past of these points (`docs/rules.md`, "Known past"). The time is by the number of points and edges
    /// found, times the logarithm of the number of points.
    pub fn past_of(&self, from: &PointSet) -> Result<PointSet, AllocError>
        ensures ascending { IfOk result IsAscending }
        ensures past { IfOk result
            (λ past. (q : Point) → Contains past q ↔ KnownPast (held self.now) (point_in from.now) q) }
    {
        search(self.allocator(), self.histories().len(), self, from)
    }

    /// The part of the known past that is reached without going on from a Closed point, in time by its own size.
    pub fn past_up_to_closed(&self, from: &PointSet) -> Result<PointSet, AllocError>
        ensures ascending { IfOk result IsAscending }
        ensures past { IfOk result
            (λ past. (q : Point) → Contains past q ↔ PastUpToClosed (held self.now) (point_in from.now) q) }
    {
        search(
            self.allocator(),
            self.histories().len(),
            &OpenLinks { facts: self },
            from,
        )
    }
}

impl Links for Facts {
    ghost use Rattle.tau_view.specs.Past.{Link};
    ghost use Rattle.tau_view.specs.Stored.{held};

    ghost leads = { λ s. Link (held s) };

    fn push_next(&self, point: &Point, stack: &mut Vec<Point>) -> Result<(), AllocError> {
        self.edges().push_next(point, stack)?;
        if let Some(before) = self.before(point) {
            stack.push(before)?;
        }
        Ok(())
    }
}

impl<'a> Links for OpenLinks<'a> {
    ghost use Rattle.tau_view.specs.Past.{OpenLink};
    ghost use Rattle.tau_view.specs.Stored.{held};

    ghost leads = { λ l. OpenLink (held l.facts.now) };

    fn push_next(&self, point: &Point, stack: &mut Vec<Point>) -> Result<(), AllocError> {
        match self.facts.fate_of(point) {
            Fate::Closed => Ok(()),
            _ => self.facts.push_next(point, stack),
        }
    }
}
