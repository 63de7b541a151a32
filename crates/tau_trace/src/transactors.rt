//! A record for each transactor, and for each node the transactors there that have not ended.
ghost use Rattle.std.specs.Prelude.{◌≡◌, ◌<◌, ◌≤◌, ◌^◌, ℕ, [], ◌∷◌, ◌++◌, length, slice_get, slice_set, vec_len, Some, None, IsTrue, IfOk, OnOk, All, map};
ghost use Rattle.std.specs.List.{HoldsAt};
ghost use Rattle.tau_trace.specs.Ascending.{WithRoom};
ghost use Rattle.tau_trace.specs.Living.{ChangesAt, Keeps, Gains, Loses, IsLeastLiving};
ghost use Rattle.tau_trace.specs.Tracking.{transactor_after, opened_at};
ghost use Rattle.tau_trace.specs.declared.transactor.Transactor.{Transactor};

use crate::ascending::Ascending;
use crate::step::Step;
use crate::transactor::Transactor;
use std::alloc::{AllocError, Global};
use std::marker::Model;

/// The records, in the order of the transactors' numbers. All lists of living transactors but at most one have room
/// for one more.
#[derive(Drop)]
pub(crate) struct Transactors {
    items: Vec<Transactor>,
    living: Vec<Ascending>,
    full: Option<u32>,
}

impl Model for Transactors {
    ghost use Rattle.std.specs.Prelude.{◌&&◌, vec_len, nat_lt, length, is_none};
    ghost use Rattle.std.specs.Vec.{vec_capacity};
    ghost use Rattle.tau_trace.specs.Living.{Tracked, IsLivingIndex};

    ghost Value = { Tracked };

    ghost view = { λ t. record {
      transactors = t.items.items;
      nodes = length t.living.items;
      ready = nat_lt (vec_len t.items) (vec_capacity t.items) && is_none t.full;
    } };

    ghost invariant = { λ t. IsLivingIndex t.items.items t.living.items t.full };
}

impl Transactors {
    /// No transactors, at the given number of nodes.
    pub(crate) fn new(alloc: Global, nodes: u32) -> Result<Transactors, AllocError>
        ensures transactors { IfOk result (λ t. t.transactors ≡ []) }
        ensures nodes { IfOk result (λ t. t.nodes ≡ nodes) }
    {
        let living = empty_lists(alloc, nodes)?;
        Ok(Transactors {
            items: Vec::new(alloc),
            living,
            full: None,
        })
    }

    /// The start transactors, each at its node.
    pub(crate) fn open(alloc: Global, homes: &[u32], nodes: u32) -> Result<Transactors, AllocError>
        requires homes { All (λ n. n < nodes) homes.now }
        requires few { length homes.now ≤ 1024 }
        ensures transactors { IfOk result (λ t. t.transactors ≡ map opened_at homes.now) }
        ensures nodes { IfOk result (λ t. t.nodes ≡ nodes) }
    {
        let mut transactors = Transactors::new(alloc, nodes)?;
        for home in homes {
            transactors.reserve()?;
            transactors.add_spare(Transactor::start(*home));
        }
        Ok(transactors)
    }

    /// How many transactors there are.
    pub(crate) fn len(&self) -> usize
        ensures { result ≡ length self.now.transactors }
    {
        self.items.len()
    }

    /// The record of a transactor.
    pub(crate) fn get(&self, who: u32) -> Option<Transactor>
        ensures { result ≡ slice_get self.now.transactors who }
    {
        self.items.get(who as usize).copied()
    }

    /// Makes room for one more transactor.
    pub(crate) fn reserve(&mut self) -> Result<(), AllocError>
        ensures transactors { self.new.transactors ≡ self.old.transactors }
        ensures nodes { self.new.nodes ≡ self.old.nodes }
        ensures ok { OnOk result (IsTrue self.new.ready) }
        ensures ready { IsTrue self.old.ready → IsTrue self.new.ready }
    {
        self.items.reserve(1)?;
        if let Some(node) = self.full {
            reserve_at(&mut self.living, node as usize)?;
            self.full = None;
        }
        Ok(())
    }

    /// Adds a transactor that has not ended, in the room that there is.
    pub(crate) fn add_spare(&mut self, transactor: Transactor)
        requires ready { IsTrue self.old.ready }
        requires home { transactor.home < self.old.nodes }
        requires living { transactor.end ≡ None }
        requires fits { length self.old.transactors < 2 ^ 32 }
        ensures transactors { self.new.transactors ≡ self.old.transactors ++ transactor ∷ [] }
        ensures nodes { self.new.nodes ≡ self.old.nodes }
    {
        let who = self.items.len() as u32;
        put_at(&mut self.living, transactor.home as usize, who);
        self.full = Some(transactor.home);
        self.items.push_reserved(transactor);
    }

    /// Notes a transactor's own step at a place.
    pub(crate) fn note(&mut self, who: u32, step: &Step, place: u32)
        requires { who < length self.old.transactors }
        ensures transactors { (t : Transactor) → slice_get self.old.transactors who ≡ Some t
            → self.new.transactors ≡ slice_set self.old.transactors who (transactor_after step.now place t) }
        ensures nodes { self.new.nodes ≡ self.old.nodes }
        ensures ready { self.new.ready ≡ self.old.ready }
    {
        let before = self.items[who as usize];
        let after = before.after(step, place);
        self.items[who as usize] = after;
        if before.ends_by(after) {
            take_at(&mut self.living, before.home as usize, who);
        }
    }

    /// The least transactor at the node that has not ended and has at least the number `from`.
    pub(crate) fn first_living(&self, node: u32, from: u32) -> Option<u32>
        ensures { IsLeastLiving self.now.transactors node from result }
    {
        self.living.get(node as usize)?.first_from(from)
    }
}

/// No transactors at each of the nodes, with room for one.
fn empty_lists(alloc: Global, nodes: u32) -> Result<Vec<Ascending>, AllocError>
    ensures nodes { IfOk result (λ v. vec_len v ≡ nodes) }
    ensures empty { IfOk result (λ v. All (λ a. (a.numbers ≡ []) × (a.room ≡ 1)) v.items) }
{
    let mut lists = Vec::with_capacity(alloc, nodes as usize)?;
    for _node in 0..nodes {
        lists.push(Ascending::with_room(alloc, 1)?)?;
    }
    Ok(lists)
}

/// Makes room for one more at a node.
fn reserve_at(lists: &mut Vec<Ascending>, node: usize) -> Result<(), AllocError>
    requires { node < vec_len lists.old }
    ensures kept { ChangesAt node Keeps lists.old.items lists.new.items }
    ensures ok { OnOk result (HoldsAt (λ a. 1 ≤ a.room) lists.new.items node) }
{
    lists[node].reserve()
}

/// Puts a transactor at the end of a node's list.
fn put_at(lists: &mut Vec<Ascending>, node: usize, who: u32)
    requires node { node < vec_len lists.old }
    requires room { HoldsAt (λ a. 1 ≤ a.room) lists.old.items node }
    requires last { HoldsAt (λ a. All (λ n. n < who) a.numbers) lists.old.items node }
    ensures { ChangesAt node (Gains who) lists.old.items lists.new.items }
{
    lists[node].push_spare(who);
}

/// Takes a transactor out of a node's list.
fn take_at(lists: &mut Vec<Ascending>, node: usize, who: u32)
    requires { node < vec_len lists.old }
    ensures { ChangesAt node (Loses who) lists.old.items lists.new.items }
{
    lists[node].take_out(who);
}
