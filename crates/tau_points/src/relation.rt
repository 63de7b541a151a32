ghost use Rattle.std.specs.Prelude.{◌≡◌, ◌≤◌, [], length, filter, slice_get, Bool, IsTrue, false, ◌↔◌, Contains, OnOk, OnErr, IfOk};
ghost use Rattle.std.specs.Bool.{OnTrue, OnFalse};
ghost use Rattle.std.specs.Fn.{ComputesKey};
ghost use Rattle.std.specs.List.{AllWithin};
ghost use Rattle.std.specs.Ordering.{is_lt};
ghost use Rattle.std.specs.declared.cmp.Ordering.TheVariants.{Less};
ghost use Rattle.tau_points.specs.declared.point.Point.{Point};
ghost use Rattle.tau_points.specs.Order.{point_cmp, IsAscendingInPairs};
ghost use Rattle.tau_points.specs.Members.{Adds, Joins, SameMembers, HasAll};

use crate::point::Point;
use crate::sorted;
use std::alloc::{AllocError, Global};
use std::marker::Model;

/// A set of pairs of points, seen as the ascending list of its distinct pairs (docs/rules.md, "Views").
#[derive(Drop)]
pub struct Relation {
    items: Vec<(Point, Point)>,
}

impl Model for Relation {
    ghost use Rattle.std.specs.Prelude.{List};
    ghost use Rattle.tau_points.specs.declared.point.Point.{Point};
    ghost use Rattle.tau_points.specs.Order.{IsAscendingInPairs};

    ghost Value = { List (Point × Point) };

    ghost view = { λ r. r.items.items };

    ghost invariant = { λ r. IsAscendingInPairs r.items.items };
}

impl Relation {
    /// The relation without pairs.
    pub fn new(alloc: Global) -> Self
        ensures { result ≡ [] }
    {
        Relation {
            items: Vec::new(alloc),
        }
    }

    /// The relation of the pairs of a list in any order, with or without repeats.
    pub fn from_slice(alloc: Global, pairs: &[(Point, Point)]) -> Result<Self, AllocError>
        ensures ascending { IfOk result IsAscendingInPairs }
        ensures members { IfOk result (SameMembers pairs.now) }
    {
        let mut items = Vec::from_slice(alloc, pairs)?;
        sorted::arrange(&mut items);
        Ok(Relation { items })
    }

    /// Puts a pair into the relation; true where it is new. Finding its place takes time by the logarithm of the
    /// number of pairs, and the later ones move up in one block. An `Err` leaves the relation as it was.
    pub fn insert(&mut self, from: Point, to: Point) -> Result<bool, AllocError>
        ensures ascending { IsAscendingInPairs self.new }
        ensures members { OnOk result (Adds self.old self.new (from, to)) }
        ensures added { IfOk result (λ added. OnTrue added (¬ Contains self.old (from, to))) }
        ensures known { IfOk result (λ added. OnFalse added (Contains self.old (from, to))) }
        ensures unchanged { IfOk result (λ added. OnFalse added (self.new ≡ self.old)) }
        ensures err { OnErr result (self.new ≡ self.old) }
    {
        sorted::insert(&mut self.items, (from, to))
    }

    /// Puts all pairs of the other relation into this one, in one pass over both. All room is taken first: an `Err`
    /// leaves the relation as it was, and where no pair is new no room is taken.
    pub fn union(&mut self, other: &Relation) -> Result<(), AllocError>
        ensures ascending { IsAscendingInPairs self.new }
        ensures members { OnOk result (Joins self.old other.now self.new) }
        ensures unchanged { HasAll self.old other.now → self.new ≡ self.old }
        ensures err { OnErr result (self.new ≡ self.old) }
    {
        sorted::merge(&mut self.items, &other.items)
    }

    /// Keeps the pairs at which `keep` answers true.
    pub fn retain<F: FnMut(&(Point, Point)) -> bool>(&mut self, keep: F)
        requires { F.IsAlwaysCallable keep }
        ensures ascending { IsAscendingInPairs self.new }
        ensures fewer { HasAll self.old self.new }
        ensures kept { (test : Point × Point → Bool) → ComputesKey F.FnMut test keep → self.new ≡ filter test self.old }
    {
        sorted::retain(&mut self.items, keep);
    }

    /// Takes all pairs out. The relation keeps its room.
    pub fn clear(&mut self)
        ensures { self.new ≡ [] }
    {
        self.items.clear();
    }

    /// Whether the pair is in the relation, in time by the logarithm of the number of pairs.
    pub fn has(&self, from: &Point, to: &Point) -> bool
        ensures { IsTrue result ↔ Contains self.now (from.now, to.now) }
    {
        sorted::has(&self.items, &(*from, *to))
    }

    /// The number of pairs.
    pub fn len(&self) -> usize
        ensures { result ≡ length self.now }
    {
        self.items.len()
    }

    /// Whether the relation has no pair.
    pub fn is_empty(&self) -> bool
        ensures { IsTrue result ↔ (self.now ≡ []) }
    {
        self.items.is_empty()
    }

    /// The pair at position `k`, counted from 0 in ascending order.
    pub fn item(&self, k: usize) -> Option<(Point, Point)>
        ensures { result ≡ slice_get self.now k }
    {
        self.items.get(k).copied()
    }

    /// The first position of a pair from `from`, and one past the last; where there is none, twice the position at
    /// which it would stand. The time is by the logarithm of the number of pairs.
    pub fn span(&self, from: &Point) -> (usize, usize)
        ensures ordered { result.0 ≤ result.1 }
        ensures within { result.1 ≤ length self.now }
        ensures before { AllWithin (λ pair. point_cmp pair.0 from.now ≡ Less) self.now 0 result.0 }
        ensures inside { AllWithin (λ pair. pair.0 ≡ from.now) self.now result.0 result.1 }
        ensures after { AllWithin (λ pair. point_cmp from.now pair.0 ≡ Less) self.now result.1 (length self.now) }
    {
        let first = self.first_from(from);
        let past = self.items.partition_point(|pair| pair.0 <= *from);
        (first, past)
    }

    /// The first position of a pair that is not before those from `from`.
    pub(crate) fn first_from(&self, from: &Point) -> usize
        ensures within { result ≤ length self.now }
        ensures before { AllWithin (λ pair. point_cmp pair.0 from.now ≡ Less) self.now 0 result }
        ensures not_before { AllWithin (λ pair. is_lt (point_cmp pair.0 from.now) ≡ false) self.now result (length self.now) }
    {
        self.items.partition_point(|pair| pair.0 < *from)
    }

    /// The pairs in ascending order.
    pub fn pairs(&self) -> &[(Point, Point)]
        ensures pairs { result.now ≡ self.now }
        ensures ascending { IsAscendingInPairs result.now }
    {
        &self.items
    }

    /// A second relation of the same pairs.
    pub fn copy(&self) -> Result<Relation, AllocError>
        ensures { IfOk result (λ relation. relation ≡ self.now) }
    {
        let items = Vec::from_slice(*self.items.allocator(), &self.items)?;
        Ok(Relation { items })
    }

    /// Whether both relations have the same pairs.
    pub fn same(&self, other: &Relation) -> bool
        ensures { IsTrue result ↔ (self.now ≡ other.now) }
    {
        self.items == other.items
    }
}
