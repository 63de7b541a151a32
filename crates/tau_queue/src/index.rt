//! What a worker chooses from: the messages in flight, the receivers that are in a turn, and the open turns.
ghost use Rattle.std.specs.Prelude.{◌≡◌, ◌<◌, ◌≤◌, [], ◌∷◌, ◌++◌, ◌↔◌, false, filter, IsTrue, IfSome, OnOk, OnErr, vec_len};
ghost use Rattle.std.specs.Vec.{vec_capacity};
ghost use Rattle.tau_mailbox.specs.Letters.{is_other, AllBelow};
ghost use Rattle.tau_mailbox.specs.MailState.{is_busy, is_not, room, KeepsRoom};
ghost use Rattle.tau_rules.specs.Answers.{acted_by};
ghost use Rattle.tau_queue.specs.Inner.Index.{IsSame, receiver_of, with_letter, with_notice, letters_received, busy_received, turns_received, busy_ended, turns_ended, letters_acted, busy_acted, turns_acted};

use std::alloc::{AllocError, Global};
use tau_eval::{Effect, Pending};
use tau_mailbox::{Letter, Mailboxes};
use tau_rules::{Acted, Delivered};
use tau_value::Value;

/// The messages in flight with the receivers that are in a turn, and the places of the Takes of the open turns.
#[derive(Drop)]
pub(crate) struct Index {
    pub(crate) mailboxes: Mailboxes,
    pub(crate) turns: Vec<u32>,
}

impl Index {
    /// No letters, at the given number of nodes, and no open turns.
    pub(crate) fn new(alloc: Global, nodes: u32) -> Index
        ensures nodes { result.mailboxes.nodes ≡ nodes }
        ensures letters { result.mailboxes.letters ≡ [] }
        ensures busy { result.mailboxes.busy ≡ [] }
        ensures turns { result.turns.items ≡ [] }
    {
        Index {
            mailboxes: Mailboxes::new(alloc, nodes),
            turns: Vec::new(alloc),
        }
    }

    /// Makes room for one more open turn.
    pub(crate) fn reserve_turn(&mut self) -> Result<(), AllocError>
        ensures same { IsSame self.old self.new }
        ensures rooms { self.new.mailboxes.rooms ≡ self.old.mailboxes.rooms }
        ensures busy { OnOk result (1 ≤ self.new.mailboxes.turn_room) }
        ensures turns { OnOk result (vec_len self.new.turns < vec_capacity self.new.turns) }
    {
        self.mailboxes.reserve_open()?;
        self.turns.reserve(1)
    }

    /// Makes room for the letter of the message that an effect sends, if it sends one.
    pub(crate) fn reserve_letter(&mut self, effect: &Effect) -> Result<(), AllocError>
        ensures same { IsSame self.old self.new }
        ensures ok { OnOk result (IfSome (receiver_of effect.now) (λ u. 1 ≤ room self.new.mailboxes.rooms u)) }
    {
        match effect {
            Effect::Send(to, _) => self.mailboxes.reserve(*to),
            _ => Ok(()),
        }
    }

    /// Makes room for a letter, if there is one.
    pub(crate) fn reserve_for(&mut self, letter: Option<Letter>) -> Result<(), AllocError>
        ensures same { IsSame self.old self.new }
        ensures ok { OnOk result (IfSome letter (λ l. 1 ≤ room self.new.mailboxes.rooms l.who)) }
    {
        match letter {
            Some(letter) => self.mailboxes.reserve(letter.who),
            None => Ok(()),
        }
    }

    /// Whether no turn is open.
    pub(crate) fn has_no_turn(&self) -> bool
        ensures { IsTrue result ↔ (self.now.turns.items ≡ []) }
    {
        self.turns.as_slice().is_empty()
    }

    /// Takes in a receipt of a message at a place, with the letter of the notice that its Echo makes.
    pub(crate) fn receive(
        &mut self,
        letter: Letter,
        notice: Option<Letter>,
        place: u32,
        delivered: &Delivered<'_>,
    )
        requires idle { is_busy self.old.mailboxes.busy letter.who ≡ false }
        requires node { IfSome notice (λ l. l.node < self.old.mailboxes.nodes) }
        requires last { IfSome notice (λ l. AllBelow l.message self.old.mailboxes.letters) }
        requires room { IfSome notice (λ l. 1 ≤ room self.old.mailboxes.rooms l.who) }
        requires busy { 1 ≤ self.old.mailboxes.turn_room }
        requires turns { vec_len self.old.turns < vec_capacity self.old.turns }
        ensures nodes { self.new.mailboxes.nodes ≡ self.old.mailboxes.nodes }
        ensures letters { self.new.mailboxes.letters ≡ letters_received letter.message notice self.old.mailboxes.letters delivered.now }
        ensures busy { self.new.mailboxes.busy ≡ busy_received letter.who self.old.mailboxes.busy delivered.now }
        ensures turns { self.new.turns.items ≡ turns_received place self.old.turns.items delivered.now }
    {
        match delivered {
            Delivered::Began(_) => {
                self.remove(letter.message);
                self.mailboxes.open(letter.who);
                self.turns.push_reserved(place);
            }
            Delivered::Dropped | Delivered::Voided | Delivered::Heeded => {
                self.remove(letter.message);
            }
            Delivered::Echoed => self.echo(letter.message, notice),
            Delivered::Fell => {}
        }
    }

    /// Takes a message out of flight.
    pub(crate) fn remove(&mut self, message: u32)
        ensures nodes { self.new.mailboxes.nodes ≡ self.old.mailboxes.nodes }
        ensures letters { self.new.mailboxes.letters ≡ filter (is_other message) self.old.mailboxes.letters }
        ensures busy { self.new.mailboxes.busy ≡ self.old.mailboxes.busy }
        ensures room { KeepsRoom self.old.mailboxes.rooms self.new.mailboxes.rooms }
        ensures turn_room { self.new.mailboxes.turn_room ≡ self.old.mailboxes.turn_room }
        ensures turns { self.new.turns ≡ self.old.turns }
    {
        let _letter = self.mailboxes.leave(message);
    }

    /// Takes a message out of flight, and puts the letter of its notice behind the others, in the room that was made for it.
    fn echo(&mut self, message: u32, notice: Option<Letter>)
        requires node { IfSome notice (λ l. l.node < self.old.mailboxes.nodes) }
        requires last { IfSome notice (λ l. AllBelow l.message self.old.mailboxes.letters) }
        requires room { IfSome notice (λ l. 1 ≤ room self.old.mailboxes.rooms l.who) }
        ensures nodes { self.new.mailboxes.nodes ≡ self.old.mailboxes.nodes }
        ensures letters { self.new.mailboxes.letters ≡ with_notice (filter (is_other message) self.old.mailboxes.letters) notice }
        ensures busy { self.new.mailboxes.busy ≡ self.old.mailboxes.busy }
        ensures turns { self.new.turns ≡ self.old.turns }
    {
        self.remove(message);
        self.put(notice);
    }

    /// Puts a letter behind the others, if there is one, in the room that was made for it.
    pub(crate) fn put(&mut self, letter: Option<Letter>)
        requires node { IfSome letter (λ l. l.node < self.old.mailboxes.nodes) }
        requires last { IfSome letter (λ l. AllBelow l.message self.old.mailboxes.letters) }
        requires room { IfSome letter (λ l. 1 ≤ room self.old.mailboxes.rooms l.who) }
        ensures nodes { self.new.mailboxes.nodes ≡ self.old.mailboxes.nodes }
        ensures letters { self.new.mailboxes.letters ≡ with_notice self.old.mailboxes.letters letter }
        ensures busy { self.new.mailboxes.busy ≡ self.old.mailboxes.busy }
        ensures turns { self.new.turns ≡ self.old.turns }
    {
        if let Some(letter) = letter {
            self.mailboxes.arrive_spare(letter);
        }
    }

    /// Puts the message that an effect sends in flight, if it sends one, where its receiver is at this node.
    pub(crate) fn send(&mut self, message: u32, node: u32, effect: &Effect)
        requires node { node < self.old.mailboxes.nodes }
        requires last { AllBelow message self.old.mailboxes.letters }
        requires room { IfSome (receiver_of effect.now) (λ u. 1 ≤ room self.old.mailboxes.rooms u) }
        ensures nodes { self.new.mailboxes.nodes ≡ self.old.mailboxes.nodes }
        ensures letters { self.new.mailboxes.letters ≡ with_letter message node self.old.mailboxes.letters (receiver_of effect.now) }
        ensures busy { self.new.mailboxes.busy ≡ self.old.mailboxes.busy }
        ensures turns { self.new.turns.items ≡ self.old.turns.items }
    {
        if let Effect::Send(to, _) = effect {
            self.mailboxes.arrive_spare(Letter {
                message,
                who: *to,
                node,
            });
        }
    }

    /// Ends the turn of a transactor that began at a place, if one did.
    pub(crate) fn end(&mut self, who: u32, turn: Option<u32>)
        ensures nodes { self.new.mailboxes.nodes ≡ self.old.mailboxes.nodes }
        ensures letters { self.new.mailboxes.letters ≡ self.old.mailboxes.letters }
        ensures busy { self.new.mailboxes.busy ≡ busy_ended who self.old.mailboxes.busy turn }
        ensures turns { self.new.turns.items ≡ turns_ended self.old.turns.items turn }
    {
        if let Some(place) = turn {
            self.mailboxes.close(who);
            self.turns.retain(|turn| *turn != place);
        }
    }

    /// Takes in what came of an effect, where the next message has this number and its receiver this node.
    pub(crate) fn act(
        &mut self,
        message: u32,
        node: u32,
        pending: &Pending<'_>,
        effect: &Effect,
        acted: &Acted<'_>,
    )
        requires node { node < self.old.mailboxes.nodes }
        requires last { AllBelow message self.old.mailboxes.letters }
        requires room { IfSome (receiver_of effect.now) (λ u. 1 ≤ room self.old.mailboxes.rooms u) }
        ensures nodes { self.new.mailboxes.nodes ≡ self.old.mailboxes.nodes }
        ensures letters { self.new.mailboxes.letters ≡ letters_acted message node self.old.mailboxes.letters effect.now acted.now }
        ensures busy { self.new.mailboxes.busy ≡ busy_acted pending.now.who self.old.mailboxes.busy acted.now }
        ensures turns { self.new.turns.items ≡ turns_acted pending.now.place self.old.turns.items acted.now }
    {
        match acted {
            Acted::Reply(_) => self.send(message, node, effect),
            Acted::TurnOver => self.end(pending.who(), Some(pending.turn())),
            Acted::Redo(_) => {}
        }
    }

    /// Takes in the step of an effect of a job that is the record of its turn, with the reply where the turn goes on; the next message
    /// has this number and its receiver this node.
    pub(crate) fn act_open(
        &mut self,
        message: u32,
        node: u32,
        pending: &Pending<'_>,
        effect: &Effect,
        reply: &Option<Value>,
    )
        requires node { node < self.old.mailboxes.nodes }
        requires last { AllBelow message self.old.mailboxes.letters }
        requires room { IfSome (receiver_of effect.now) (λ u. 1 ≤ room self.old.mailboxes.rooms u) }
        ensures nodes { self.new.mailboxes.nodes ≡ self.old.mailboxes.nodes }
        ensures letters { self.new.mailboxes.letters ≡ letters_acted message node self.old.mailboxes.letters effect.now (acted_by reply.now) }
        ensures busy { self.new.mailboxes.busy ≡ busy_acted pending.now.who self.old.mailboxes.busy (acted_by reply.now) }
        ensures turns { self.new.turns.items ≡ turns_acted pending.now.place self.old.turns.items (acted_by reply.now) }
    {
        match reply {
            Some(_) => self.send(message, node, effect),
            None => self.end(pending.who(), Some(pending.turn())),
        }
    }
}
