ghost use Rattle.std.specs.Prelude.{◌≡◌, [], length, filter, slice_get, Bool, IsTrue, ◌↔◌, Contains, OnOk, OnErr, IfOk};
ghost use Rattle.std.specs.Bool.{OnTrue, OnFalse};
ghost use Rattle.std.specs.Fn.{ComputesKey};
ghost use Rattle.tau_points.specs.declared.point.Point.{Point};
ghost use Rattle.tau_points.specs.Order.{IsAscending};
ghost use Rattle.tau_points.specs.Members.{Adds, Joins, SameMembers, HasAll};

use crate::point::Point;
use crate::sorted;
use crate::visited::Visited;
use std::alloc::{AllocError, Global};
use std::marker::Model;

/// A set of points, seen as the ascending list of its distinct points (docs/rules.md, "Points").
#[derive(Drop)]
pub struct PointSet {
    items: Vec<Point>,
}

impl Model for PointSet {
    ghost use Rattle.std.specs.Prelude.{List};
    ghost use Rattle.tau_points.specs.declared.point.Point.{Point};
    ghost use Rattle.tau_points.specs.Order.{IsAscending};

    ghost Value = { List Point };

    ghost view = { λ s. s.items.items };

    ghost invariant = { λ s. IsAscending s.items.items };
}

impl PointSet {
    /// The empty set.
    pub fn new(alloc: Global) -> Self
        ensures { result ≡ [] }
    {
        PointSet {
            items: Vec::new(alloc),
        }
    }

    /// The set of the points of a list in any order, with or without repeats.
    pub fn from_slice(alloc: Global, points: &[Point]) -> Result<Self, AllocError>
        ensures ascending { IfOk result IsAscending }
        ensures members { IfOk result (SameMembers points.now) }
    {
        let mut items = Vec::from_slice(alloc, points)?;
        sorted::arrange(&mut items);
        Ok(PointSet { items })
    }

    /// The set of the points that a search has come to.
    pub(crate) fn from_visited(alloc: Global, visited: &Visited) -> Result<Self, AllocError>
        ensures ascending { IfOk result IsAscending }
        ensures members { IfOk result (SameMembers visited.now) }
    {
        let mut items = visited.points(alloc)?;
        sorted::arrange(&mut items);
        Ok(PointSet { items })
    }

    /// Puts a point into the set; true where it is new. Finding its place takes time by the logarithm of the number
    /// of points, and the later ones move up in one block. An `Err` leaves the set as it was.
    pub fn insert(&mut self, point: Point) -> Result<bool, AllocError>
        ensures ascending { IsAscending self.new }
        ensures members { OnOk result (Adds self.old self.new point) }
        ensures added { IfOk result (λ added. OnTrue added (¬ Contains self.old point)) }
        ensures known { IfOk result (λ added. OnFalse added (Contains self.old point)) }
        ensures unchanged { IfOk result (λ added. OnFalse added (self.new ≡ self.old)) }
        ensures err { OnErr result (self.new ≡ self.old) }
    {
        sorted::insert(&mut self.items, point)
    }

    /// Puts all points of the other set into this one, in one pass over both. All room is taken first: an `Err`
    /// leaves the set as it was, and where no point is new no room is taken.
    pub fn union(&mut self, other: &PointSet) -> Result<(), AllocError>
        ensures ascending { IsAscending self.new }
        ensures members { OnOk result (Joins self.old other.now self.new) }
        ensures unchanged { HasAll self.old other.now → self.new ≡ self.old }
        ensures err { OnErr result (self.new ≡ self.old) }
    {
        sorted::merge(&mut self.items, &other.items)
    }

    /// Keeps the points at which `keep` answers true.
    pub fn retain<F: FnMut(&Point) -> bool>(&mut self, keep: F)
        requires { F.IsAlwaysCallable keep }
        ensures ascending { IsAscending self.new }
        ensures fewer { HasAll self.old self.new }
        ensures kept { (test : Point → Bool) → ComputesKey F.FnMut test keep → self.new ≡ filter test self.old }
    {
        sorted::retain(&mut self.items, keep);
    }

    /// Takes all points out. The set keeps its room.
    pub fn clear(&mut self)
        ensures { self.new ≡ [] }
    {
        self.items.clear();
    }

    /// Whether the point is in the set, in time by the logarithm of the number of points.
    pub fn has(&self, point: &Point) -> bool
        ensures { IsTrue result ↔ Contains self.now point.now }
    {
        sorted::has(&self.items, point)
    }

    /// The number of points.
    pub fn len(&self) -> usize
        ensures { result ≡ length self.now }
    {
        self.items.len()
    }

    /// Whether the set has no point.
    pub fn is_empty(&self) -> bool
        ensures { IsTrue result ↔ (self.now ≡ []) }
    {
        self.items.is_empty()
    }

    /// The point at position `k`, counted from 0 in ascending order.
    pub fn item(&self, k: usize) -> Option<Point>
        ensures { result ≡ slice_get self.now k }
    {
        self.items.get(k).copied()
    }

    /// The points in ascending order.
    pub fn points(&self) -> &[Point]
        ensures points { result.now ≡ self.now }
        ensures ascending { IsAscending result.now }
    {
        &self.items
    }

    /// A second set of the same points.
    pub fn copy(&self) -> Result<PointSet, AllocError>
        ensures { IfOk result (λ set. set ≡ self.now) }
    {
        let items = Vec::from_slice(*self.items.allocator(), &self.items)?;
        Ok(PointSet { items })
    }

    /// Whether both sets have the same points.
    pub fn same(&self, other: &PointSet) -> bool
        ensures { IsTrue result ↔ (self.now ≡ other.now) }
    {
        self.items == other.items
    }
}
