ghost use Rattle.std.specs.Prelude.{◌≡◌, ◌<◌, ◌≤◌, ◌+◌, ◌↔◌, [], ◌∷◌, ◌++◌, false, length, slice_get, find, filter, take, IsTrue, All, IfOk, OnOk, OnErr};
ghost use Rattle.tau_mailbox.specs.MailState.{is_blocked, AllDiffer};
ghost use Rattle.tau_mailbox.specs.Letters.{is_to};

use crate::letter::Letter;
use crate::mail::Mail;
use std::alloc::{AllocError, Global};
use std::marker::Model;

/// The messages in flight and the receivers in a turn (docs/rules.md, "Messages in flight" and "Choice of a worker"),
/// seen as the number of nodes, the letters by ascending message, the receivers in a turn in the order in which their
/// turns opened, and the room that there is without memory.
///
/// A letter arrives at the end and leaves by binary searches and a move within a block. The deliverable letter of a
/// number is found by a binary search, each step of which asks how many letters of each receiver in a turn stand before.
/// The letters at a node are looked for among all.
#[derive(Drop)]
pub struct Mailboxes {
    mail: Mail,
    busy: Vec<u32>,
}

impl Model for Mailboxes {
    ghost use Rattle.std.specs.Prelude.{◌-◌, vec_len};
    ghost use Rattle.std.specs.Vec.{vec_capacity};
    ghost use Rattle.tau_mailbox.specs.MailState.{MailState, AllDiffer};

    ghost Value = { MailState };

    ghost view = { λ m. record { nodes = m.mail.nodes; letters = m.mail.letters; busy = m.busy.items; rooms = m.mail.rooms; turn_room = vec_capacity m.busy - vec_len m.busy } };

    ghost invariant = { λ m. AllDiffer m.busy.items };
}

impl Mailboxes {
    ghost use Rattle.tau_mailbox.specs.Letters.{is_message, is_other, is_for, is_at, IsAscending, AllBelow};
    ghost use Rattle.tau_mailbox.specs.MailState.{MailState, is_busy, is_not, AllDiffer, is_deliverable, deliverable, room, KeepsRoom, TakesPlace};

    /// No letters, at the given number of nodes, and nobody in a turn. It takes no memory.
    pub fn new(alloc: Global, nodes: u32) -> Mailboxes
        ensures nodes { result.nodes ≡ nodes }
        ensures letters { result.letters ≡ [] }
        ensures busy { result.busy ≡ [] }
    {
        Mailboxes {
            mail: Mail::new(alloc, nodes),
            busy: Vec::new(alloc),
        }
    }

    /// How many letters there are. Each has a message above all earlier ones and a node below the number of nodes.
    pub fn len(&self) -> usize
        ensures len { result ≡ length self.now.letters }
        ensures ascending { IsAscending self.now.letters }
        ensures homes { All (λ l. l.node < self.now.nodes) self.now.letters }
    {
        self.mail.len()
    }

    /// Whether there is no letter.
    pub fn is_empty(&self) -> bool
        ensures { IsTrue result ↔ (self.now.letters ≡ []) }
    {
        self.mail.len() == 0
    }

    /// How many nodes there are.
    pub fn nodes(&self) -> u32
        ensures { result ≡ self.now.nodes }
    {
        self.mail.nodes()
    }

    /// The letter at place `k` by ascending message, or `None` where there are no more than `k`.
    pub fn in_order(&self, k: usize) -> Option<Letter>
        ensures { result ≡ slice_get self.now.letters k }
    {
        self.mail.at(k)
    }

    /// The letters at a node by ascending message. It fails only for want of memory.
    pub fn of_node(&self, node: u32) -> Result<Vec<Letter>, AllocError>
        ensures { IfOk result (λ v. v.items ≡ filter (is_at node) self.now.letters) }
    {
        self.mail.at_node(node)
    }

    /// The letter with the least message for a receiver, or `None` where there is none for it.
    pub fn first_for(&self, who: u32) -> Option<Letter>
        ensures { result ≡ find (is_for who) self.now.letters }
    {
        self.mail.first_for(who)
    }

    /// How many receivers are in a turn. None stands twice.
    pub fn busy_len(&self) -> usize
        ensures len { result ≡ length self.now.busy }
        ensures differ { AllDiffer self.now.busy }
    {
        self.busy.len()
    }

    /// Whether a receiver is in a turn.
    pub fn is_busy(&self, who: u32) -> bool
        ensures { result ≡ is_busy self.now.busy who }
    {
        self.busy.contains(&who)
    }

    /// Makes room for one more letter of a receiver. It fails only for want of memory.
    pub fn reserve(&mut self, who: u32) -> Result<(), AllocError>
        ensures nodes { self.new.nodes ≡ self.old.nodes }
        ensures letters { self.new.letters ≡ self.old.letters }
        ensures busy { self.new.busy ≡ self.old.busy }
        ensures ok { OnOk result (1 ≤ room self.new.rooms who) }
        ensures room { KeepsRoom self.old.rooms self.new.rooms }
        ensures turn_room { self.new.turn_room ≡ self.old.turn_room }
    {
        self.mail.reserve(who)
    }

    /// Puts a letter in. Its message is above all that are there. It fails only for want of memory, and the letters
    /// then stay.
    pub fn arrive(&mut self, letter: Letter) -> Result<(), AllocError>
        requires node { letter.node < self.old.nodes }
        requires last { AllBelow letter.message self.old.letters }
        ensures nodes { self.new.nodes ≡ self.old.nodes }
        ensures ok { OnOk result (self.new.letters ≡ self.old.letters ++ letter ∷ []) }
        ensures err { OnErr result (self.new.letters ≡ self.old.letters) }
        ensures busy { self.new.busy ≡ self.old.busy }
        ensures room { TakesPlace self.old.rooms self.new.rooms }
        ensures room_on_err { OnErr result (KeepsRoom self.old.rooms self.new.rooms) }
        ensures turn_room { self.new.turn_room ≡ self.old.turn_room }
    {
        self.reserve(letter.who)?;
        self.arrive_spare(letter);
        Ok(())
    }

    /// Puts a letter in, in the room that was reserved for its receiver. Its message is above all that are there.
    pub fn arrive_spare(&mut self, letter: Letter)
        requires node { letter.node < self.old.nodes }
        requires last { AllBelow letter.message self.old.letters }
        requires room { 1 ≤ room self.old.rooms letter.who }
        ensures nodes { self.new.nodes ≡ self.old.nodes }
        ensures letters { self.new.letters ≡ self.old.letters ++ letter ∷ [] }
        ensures busy { self.new.busy ≡ self.old.busy }
        ensures room { TakesPlace self.old.rooms self.new.rooms }
        ensures turn_room { self.new.turn_room ≡ self.old.turn_room }
    {
        self.mail.push_spare(letter);
    }

    /// Takes the letter of a message out and gives it, or `None` where the message isn't there.
    pub fn leave(&mut self, message: u32) -> Option<Letter>
        ensures nodes { self.new.nodes ≡ self.old.nodes }
        ensures found { result ≡ find (is_message message) self.old.letters }
        ensures letters { self.new.letters ≡ filter (is_other message) self.old.letters }
        ensures busy { self.new.busy ≡ self.old.busy }
        ensures room { KeepsRoom self.old.rooms self.new.rooms }
        ensures turn_room { self.new.turn_room ≡ self.old.turn_room }
    {
        self.mail.take_out(message)
    }

    /// Makes room for one more receiver in a turn. It fails only for want of memory.
    pub fn reserve_open(&mut self) -> Result<(), AllocError>
        ensures nodes { self.new.nodes ≡ self.old.nodes }
        ensures letters { self.new.letters ≡ self.old.letters }
        ensures busy { self.new.busy ≡ self.old.busy }
        ensures room { self.new.rooms ≡ self.old.rooms }
        ensures ok { OnOk result (1 ≤ self.new.turn_room) }
        ensures turn_room { self.old.turn_room ≤ self.new.turn_room }
    {
        self.busy.reserve(1)
    }

    /// Opens a turn of a receiver that is in none, in the room that was reserved.
    pub fn open(&mut self, who: u32)
        requires idle { is_busy self.old.busy who ≡ false }
        requires room { 1 ≤ self.old.turn_room }
        ensures nodes { self.new.nodes ≡ self.old.nodes }
        ensures letters { self.new.letters ≡ self.old.letters }
        ensures busy { self.new.busy ≡ self.old.busy ++ who ∷ [] }
        ensures room { self.new.rooms ≡ self.old.rooms }
        ensures turn_room { self.new.turn_room + 1 ≡ self.old.turn_room }
    {
        self.busy.push_reserved(who);
    }

    /// Closes the turn of a receiver; nothing changes where it is in none.
    pub fn close(&mut self, who: u32)
        ensures nodes { self.new.nodes ≡ self.old.nodes }
        ensures letters { self.new.letters ≡ self.old.letters }
        ensures busy { self.new.busy ≡ filter (is_not who) self.old.busy }
        ensures room { self.new.rooms ≡ self.old.rooms }
        ensures turn_room { self.old.turn_room ≤ self.new.turn_room }
    {
        self.busy.retain(|b| *b != who);
    }

    /// How many letters are deliverable: their receivers are in no turn.
    pub fn deliverable_len(&self) -> usize
        ensures { result ≡ length (deliverable self.now) }
    {
        match self.mail.len().checked_sub(1) {
            Some(last) => self.passed(last),
            None => 0,
        }
    }

    /// The deliverable letter at place `k` by ascending message, counted from 0, or `None` where there are no more
    /// than `k`.
    pub fn deliverable(&self, k: usize) -> Option<Letter>
        ensures { result ≡ slice_get (deliverable self.now) k }
    {
        let count = self.deliverable_len();
        if count <= k {
            return None;
        }
        // The place is as far from the middle, at least, as the number of letters passed there is from the one wanted.
        let mut low = k;
        let mut high = k + (self.mail.len() - count);
        while low < high {
            let middle = low + (high - low) / 2;
            let passed = self.passed(middle);
            if passed <= k {
                low = middle + 1 + (k - passed);
            } else {
                high = middle - (passed - k - 1);
            }
        }
        self.mail.at(low)
    }

    /// How many letters up to a place, with the one there, are deliverable.
    fn passed(&self, place: usize) -> usize
        requires { place < length self.now.letters }
        ensures { result ≡ length (filter (is_deliverable self.now.busy) (take (place + 1) self.now.letters)) }
    {
        // The place is below a length, so the one after it fits.
        let _most = self.mail.len();
        let Some(letter) = self.mail.at(place) else {
            unreachable!()
        };
        place + 1 - blocked_to(&self.mail, &self.busy, letter.message)
    }
}

/// How many letters with at most the given message are for the receivers in a turn.
fn blocked_to(mail: &Mail, busy: &[u32], message: u32) -> usize
    requires { AllDiffer busy.now }
    ensures { result ≡ length (filter (is_to message) (filter (is_blocked busy.now) mail.now.letters)) }
{
    // The receivers differ, so there are no more letters for them than there are letters.
    let _most = mail.len();
    let mut blocked = 0;
    for who in busy {
        blocked += mail.count_for(*who, message);
    }
    blocked
}
