// The letters of all receivers, as a whole and by receiver.
ghost use Rattle.std.specs.Prelude.{◌≡◌, ◌<◌, ◌≤◌, [], ◌∷◌, ◌++◌, length, slice_get, find, filter, All, IfOk, OnOk};

use crate::letter::Letter;
use crate::order::Order;
use crate::parts::{push_at, reserve_at, take_at};
use std::alloc::{AllocError, Global};
use std::marker::Model;

/// The letters, seen as the number of nodes, the list of the letters by ascending message, and the room of each receiver.
#[derive(Drop)]
pub(crate) struct Mail {
    order: Order,
    parts: Vec<Order>,
    nodes: u32,
    alloc: Global,
}

impl Model for Mail {
    ghost use Rattle.tau_mailbox.specs.Parts.{rooms_of};
    ghost use Rattle.tau_mailbox.specs.Consistent.{WithRooms, IsConsistent};

    ghost Value = { WithRooms };

    ghost view = { λ m. record { nodes = m.nodes; letters = m.order.letters; rooms = rooms_of m.parts.items m.order.room } };

    ghost invariant = { λ m. IsConsistent m.nodes m.parts.items m.order.letters };
}

impl Mail {
    ghost use Rattle.tau_mailbox.specs.Letters.{is_message, is_other, is_for, is_at, is_to, IsAscending, AllBelow};
    ghost use Rattle.tau_mailbox.specs.MailState.{room, KeepsRoom, TakesPlace};

    pub(crate) fn new(alloc: Global, nodes: u32) -> Self
        ensures nodes { result.nodes ≡ nodes }
        ensures letters { result.letters ≡ [] }
    {
        Mail {
            order: Order::new(alloc),
            parts: Vec::new(alloc),
            nodes,
            alloc,
        }
    }

    pub(crate) fn len(&self) -> usize
        ensures len { result ≡ length self.now.letters }
        ensures ascending { IsAscending self.now.letters }
        ensures homes { All (λ l. l.node < self.now.nodes) self.now.letters }
    {
        self.order.len()
    }

    pub(crate) fn nodes(&self) -> u32
        ensures { result ≡ self.now.nodes }
    {
        self.nodes
    }

    pub(crate) fn at(&self, k: usize) -> Option<Letter>
        ensures { result ≡ slice_get self.now.letters k }
    {
        self.order.at(k)
    }

    /// Makes room for one more letter of a receiver.
    pub(crate) fn reserve(&mut self, who: u32) -> Result<(), AllocError>
        ensures nodes { self.new.nodes ≡ self.old.nodes }
        ensures letters { self.new.letters ≡ self.old.letters }
        ensures ok { OnOk result (1 ≤ room self.new.rooms who) }
        ensures room { KeepsRoom self.old.rooms self.new.rooms }
    {
        self.order.reserve()?;
        reserve_at(&mut self.parts, self.alloc, who)
    }

    /// Puts a letter at the end, in the room of its receiver.
    pub(crate) fn push_spare(&mut self, letter: Letter)
        requires node { letter.node < self.old.nodes }
        requires last { AllBelow letter.message self.old.letters }
        requires room { 1 ≤ room self.old.rooms letter.who }
        ensures nodes { self.new.nodes ≡ self.old.nodes }
        ensures letters { self.new.letters ≡ self.old.letters ++ letter ∷ [] }
        ensures room { TakesPlace self.old.rooms self.new.rooms }
    {
        self.order.push_spare(letter);
        push_at(&mut self.parts, letter);
    }

    /// Takes the letter of a message out.
    pub(crate) fn take_out(&mut self, message: u32) -> Option<Letter>
        ensures nodes { self.new.nodes ≡ self.old.nodes }
        ensures found { result ≡ find (is_message message) self.old.letters }
        ensures rest { self.new.letters ≡ filter (is_other message) self.old.letters }
        ensures room { KeepsRoom self.old.rooms self.new.rooms }
    {
        let letter = self.order.take_out(message)?;
        take_at(&mut self.parts, letter);
        Some(letter)
    }

    /// The letters at a node.
    pub(crate) fn at_node(&self, node: u32) -> Result<Vec<Letter>, AllocError>
        ensures { IfOk result (λ v. v.items ≡ filter (is_at node) self.now.letters) }
    {
        self.order.at_node(node)
    }

    /// The letter of a receiver with the least message.
    pub(crate) fn first_for(&self, who: u32) -> Option<Letter>
        ensures { result ≡ find (is_for who) self.now.letters }
    {
        match self.parts.get(who as usize) {
            Some(part) => part.at(0),
            None => None,
        }
    }

    /// How many letters of a receiver have at most the given message.
    pub(crate) fn count_for(&self, who: u32, message: u32) -> usize
        ensures { result ≡ length (filter (is_to message) (filter (is_for who) self.now.letters)) }
    {
        match self.parts.get(who as usize) {
            Some(part) => part.count_to(message),
            None => 0,
        }
    }
}
