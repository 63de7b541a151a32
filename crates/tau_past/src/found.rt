//! The points that a search has come to.
ghost use Rattle.std.specs.Prelude.{◌≡◌, ◌+◌, ◌^◌, ◌<◌, [], length, Contains, OnOk, IfOk};
ghost use Rattle.std.specs.Bool.{OnTrue, OnFalse};
ghost use Rattle.tau_points.specs.Members.{Adds};

use std::alloc::{AllocError, Global};
use std::collections::HashSet;
use std::marker::Model;
use tau_points::Point;

/// The points that a search has come to, seen as their list in some order.
#[derive(Drop)]
pub(crate) struct Found {
    table: HashSet<Point>,
}

impl Model for Found {
    ghost use Rattle.std.specs.Prelude.{List};
    ghost use Rattle.tau_points.specs.declared.point.Point.{Point};

    ghost Value = { List Point };

    ghost view = { λ v. v.table.keys };
}

impl Found {
    pub(crate) fn new(alloc: Global) -> Self
        ensures { result ≡ [] }
    {
        Found {
            table: HashSet::new(alloc),
        }
    }

    /// Adds the point; true where it is new.
    pub(crate) fn insert(&mut self, point: Point) -> Result<bool, AllocError>
        ensures members { OnOk result (Adds self.old self.new point) }
        ensures more { IfOk result (λ added. OnTrue added (length self.new ≡ length self.old + 1)) }
        ensures fresh { IfOk result (λ added. OnTrue added (¬ Contains self.old point)) }
        ensures known { IfOk result (λ added. OnFalse added (Contains self.old point)) }
        ensures unchanged { IfOk result (λ added. OnFalse added (self.new ≡ self.old)) }
        ensures small { OnOk result (length self.new < 2 ^ 63) }
    {
        let added = self.table.insert(point)?;
        prove!(self.table.len() <= usize::MAX / 2);
        Ok(added)
    }

    /// The points in some order.
    pub(crate) fn points(&self, alloc: Global) -> Result<Vec<Point>, AllocError>
        ensures { IfOk result (λ points. points.items ≡ self.now) }
    {
        self.table.iter().copied().collect(alloc)
    }
}
