// Ascending lists without repeats, at any type whose order tells its values apart.
ghost use Rattle.std.specs.Prelude.{◌≡◌, ◌↔◌, ◌≤◌, length, filter, Bool, Contains, IsTrue, OnOk, OnErr, IfOk, IfErr};
ghost use Rattle.std.specs.Bool.{OnTrue, OnFalse};
ghost use Rattle.std.specs.Fn.{ComputesKey};
ghost use Rattle.std.specs.declared.cmp.Ordering.TheVariants.{Equal};
ghost use Rattle.std.specs.List.Sorted.{IsStrictlySortedBy};
ghost use Rattle.tau_points.specs.Members.{Adds, Joins, HasAll, SameMembers, IsPlace};
ghost use Rattle.tau_points.specs.Exact.{point_cmp-exact, pair_cmp-exact};

use crate::point::Point;
use std::alloc::{AllocError, Global};
use std::cmp::Ordering;

/// An order in which a value compares equal only to itself.
pub(crate) trait Exact: Ord {
    ghost exact: { (x y : Self) → Self.cmp x y ≡ Equal → x ≡ y };
}

impl Exact for Point {
    ghost exact = { point_cmp-exact };
}

impl Exact for (Point, Point) {
    ghost exact = { pair_cmp-exact };
}

/// The position of `item`, or as an `Err` the position at which it would stand.
fn find<T: Exact>(items: &[T], item: &T) -> Result<usize, usize>
    requires { IsStrictlySortedBy T.cmp items.now }
    ensures found { OnOk result (Contains items.now item.now) }
    ensures within { IfErr result (λ k. k ≤ length items.now) }
    ensures place { IfErr result (IsPlace T.cmp item.now items.now) }
{
    items.binary_search(item)
}

pub(crate) fn has<T: Exact>(items: &[T], item: &T) -> bool
    requires { IsStrictlySortedBy T.cmp items.now }
    ensures { IsTrue result ↔ Contains items.now item.now }
{
    find(items, item).is_ok()
}

/// Puts `item` at its place, unless it is there; true where it is new.
pub(crate) fn insert<T: Exact + Copy>(items: &mut Vec<T>, item: T) -> Result<bool, AllocError>
    requires { IsStrictlySortedBy T.cmp items.old.items }
    ensures sorted { IsStrictlySortedBy T.cmp items.new.items }
    ensures members { OnOk result (Adds items.old.items items.new.items item) }
    ensures added { IfOk result (λ added. OnTrue added (¬ Contains items.old.items item)) }
    ensures known { IfOk result (λ added. OnFalse added (Contains items.old.items item)) }
    ensures unchanged { IfOk result (λ added. OnFalse added (items.new.items ≡ items.old.items)) }
    ensures err { OnErr result (items.new.items ≡ items.old.items) }
{
    match find(items, &item) {
        Ok(_) => Ok(false),
        Err(place) => {
            items.insert(place, item)?;
            Ok(true)
        }
    }
}

/// How many of `others` are not among `items`.
fn count_missing<T: Exact>(items: &[T], others: &[T]) -> usize
    ensures { result ≡ 0 → (q : T) → Contains others.now q → Contains items.now q }
{
    let (mut i, mut j, mut missing) = (0, 0, 0);
    'scan: while i < items.len() && j < others.len() {
        match items[i].cmp(&others[j]) {
            Ordering::Less => i += 1,
            Ordering::Equal => {
                i += 1;
                j += 1;
            }
            Ordering::Greater => {
                missing += 1;
                j += 1;
            }
        }
    }
    missing + (others.len() - j)
}

/// The items of both lists, with room for `len` taken first.
fn merged<T: Exact + Copy>(
    alloc: Global,
    ours: &[T],
    theirs: &[T],
    len: usize,
) -> Result<Vec<T>, AllocError>
    requires ours { IsStrictlySortedBy T.cmp ours.now }
    requires theirs { IsStrictlySortedBy T.cmp theirs.now }
    ensures sorted { IfOk result (λ all. IsStrictlySortedBy T.cmp all.items) }
    ensures members { IfOk result (λ all. Joins ours.now theirs.now all.items) }
{
    let mut all = Vec::with_capacity(alloc, len)?;
    let (mut i, mut j) = (0, 0);
    'merge: while i < ours.len() && j < theirs.len() {
        let (mine, other) = (ours[i], theirs[j]);
        match mine.cmp(&other) {
            Ordering::Less => {
                all.push(mine)?;
                i += 1;
            }
            Ordering::Equal => {
                all.push(mine)?;
                i += 1;
                j += 1;
            }
            Ordering::Greater => {
                all.push(other)?;
                j += 1;
            }
        }
    }
    all.extend_from_slice(&ours[i..])?;
    all.extend_from_slice(&theirs[j..])?;
    Ok(all)
}

/// Adds `others` in one pass over both lists.
pub(crate) fn merge<T: Exact + Copy>(items: &mut Vec<T>, others: &[T]) -> Result<(), AllocError>
    requires ours { IsStrictlySortedBy T.cmp items.old.items }
    requires theirs { IsStrictlySortedBy T.cmp others.now }
    ensures sorted { IsStrictlySortedBy T.cmp items.new.items }
    ensures members { OnOk result (Joins items.old.items others.now items.new.items) }
    ensures unchanged { HasAll items.old.items others.now → items.new.items ≡ items.old.items }
    ensures err { OnErr result (items.new.items ≡ items.old.items) }
{
    let missing = count_missing(items, others);
    if missing == 0 {
        return Ok(());
    }
    let len = items.len().saturating_add(missing);
    let all = merged(*items.allocator(), items, others, len)?;
    *items = all;
    Ok(())
}

/// Puts a list in any order into ascending order, each item once.
pub(crate) fn arrange<T: Exact + Copy>(items: &mut Vec<T>)
    ensures sorted { IsStrictlySortedBy T.cmp items.new.items }
    ensures members { SameMembers items.old.items items.new.items }
{
    items.sort_unstable();
    items.dedup();
}

/// Keeps the items at which `keep` answers true.
pub(crate) fn retain<T: Exact + Copy, F: FnMut(&T) -> bool>(items: &mut Vec<T>, keep: F)
    requires callable { F.IsAlwaysCallable keep }
    requires sorted { IsStrictlySortedBy T.cmp items.old.items }
    ensures sorted { IsStrictlySortedBy T.cmp items.new.items }
    ensures fewer { HasAll items.old.items items.new.items }
    ensures kept { (test : T → Bool) → ComputesKey F.FnMut test keep → items.new.items ≡ filter test items.old.items }
{
    items.retain(keep);
}
