// An ascending list of letters, with room for more.
ghost use Rattle.std.specs.Prelude.{◌≡◌, ◌<◌, ◌≤◌, ◌+◌, ◌^◌, [], ◌∷◌, ◌++◌, length, find, filter, slice_get, Any, MatchBool, IfOk, OnOk, IfSome, IfNone};
ghost use Rattle.tau_mailbox.specs.Letters.{is_message, is_other, is_at, is_to, IsAscending, AllBelow, IsLowerBound, IsAbsent, IsPlaceOf};

use crate::letter::Letter;
use std::alloc::{AllocError, Global};
use std::marker::Model;

/// Letters by ascending message.
#[derive(Drop)]
pub(crate) struct Letters {
    items: Vec<Letter>,
}

impl Model for Letters {
    ghost use Rattle.std.specs.Prelude.{◌-◌, vec_len};
    ghost use Rattle.std.specs.Vec.{vec_capacity};
    ghost use Rattle.tau_mailbox.specs.Letters.{WithRoom, IsAscending};

    ghost Value = { WithRoom };

    ghost view = { λ s. record { letters = s.items.items; room = vec_capacity s.items - vec_len s.items } };

    ghost invariant = { λ s. IsAscending s.items.items };
}

impl Letters {
    pub(crate) fn new(alloc: Global) -> Self
        ensures { result.letters ≡ [] }
    {
        Letters {
            items: Vec::new(alloc),
        }
    }

    /// No letters, with room for as many as given.
    pub(crate) fn with_room(alloc: Global, room: usize) -> Result<Self, AllocError>
        ensures letters { IfOk result (λ l. l.letters ≡ []) }
        ensures room { IfOk result (λ l. l.room ≡ room) }
    {
        let items = Vec::with_capacity(alloc, room)?;
        Ok(Letters { items })
    }

    /// How many more letters fit without memory.
    pub(crate) fn room(&self) -> usize
        ensures { result ≡ self.now.room }
    {
        self.items.capacity() - self.items.len()
    }

    pub(crate) fn len(&self) -> usize
        ensures len { result ≡ length self.now.letters }
        ensures ascending { IsAscending self.now.letters }
    {
        self.items.len()
    }

    pub(crate) fn at(&self, k: usize) -> Option<Letter>
        ensures { result ≡ slice_get self.now.letters k }
    {
        self.items.get(k).copied()
    }

    /// Puts the letters at a node behind those that were found before.
    pub(crate) fn put_at_node(&self, node: u32, found: &mut Vec<Letter>) -> Result<(), AllocError>
        ensures { OnOk result (found.new.items ≡ found.old.items ++ filter (is_at node) self.now.letters) }
    {
        for letter in &self.items {
            if letter.node == node {
                found.push(*letter)?;
            }
        }
        Ok(())
    }

    /// Makes room for one more letter.
    pub(crate) fn reserve(&mut self) -> Result<(), AllocError>
        ensures letters { self.new.letters ≡ self.old.letters }
        ensures ok { OnOk result (1 ≤ self.new.room) }
        ensures room { self.old.room ≤ self.new.room }
    {
        self.items.reserve(1)
    }

    /// Puts a letter at the end, in the room that there is.
    pub(crate) fn push_spare(&mut self, letter: Letter)
        requires room { 1 ≤ self.old.room }
        requires last { AllBelow letter.message self.old.letters }
        ensures letters { self.new.letters ≡ self.old.letters ++ letter ∷ [] }
        ensures ascending { IsAscending self.new.letters }
        ensures room { self.new.room + 1 ≡ self.old.room }
    {
        self.items.push_reserved(letter);
    }

    /// Puts the letters of a later list at the end, in the room that there is.
    pub(crate) fn append(&mut self, later: &Letters)
        requires room { length later.now.letters ≤ self.old.room }
        requires ascending { IsAscending (self.old.letters ++ later.now.letters) }
        ensures { self.new.letters ≡ self.old.letters ++ later.now.letters }
    {
        let Ok(()) = self.items.extend_from_slice(&later.items) else {
            unreachable!()
        };
    }

    /// Takes the letter of a message out.
    pub(crate) fn take_out(&mut self, message: u32) -> Option<Letter>
        ensures found { result ≡ find (is_message message) self.old.letters }
        ensures rest { self.new.letters ≡ filter (is_other message) self.old.letters }
        ensures none { IfNone result (self.new ≡ self.old) }
        ensures ascending { IsAscending self.new.letters }
        ensures room { self.old.room ≤ self.new.room }
    {
        let place = place_of(&self.items, message)?;
        Some(self.items.remove(place))
    }

    /// Whether all messages are below the given one.
    pub(crate) fn ends_below(&self, message: u32) -> bool
        ensures { MatchBool result (AllBelow message self.now.letters) (Any (λ l. message ≤ l.message) self.now.letters) }
    {
        match self.items.last() {
            Some(last) => last.message < message,
            None => true,
        }
    }

    /// How many letters have at most the given message.
    pub(crate) fn count_to(&self, message: u32) -> usize
        ensures { result ≡ length (filter (is_to message) self.now.letters) }
    {
        self.items.partition_point(|l| l.message <= message)
    }
}

/// How many letters have a message below the given one.
fn lower_bound(letters: &[Letter], message: u32) -> usize
    requires { IsAscending letters.now }
    ensures { IsLowerBound message letters.now result }
{
    letters.partition_point(|l| l.message < message)
}

/// Where the letter of a message is.
fn place_of(letters: &[Letter], message: u32) -> Option<usize>
    requires { IsAscending letters.now }
    ensures absent { IfNone result (IsAbsent message letters.now) }
    ensures found { IfSome result (IsPlaceOf message letters.now) }
{
    let place = lower_bound(letters, message);
    if place == letters.len() {
        return None;
    }
    if letters[place].message != message {
        return None;
    }
    Some(place)
}
