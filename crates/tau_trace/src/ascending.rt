//! Ascending lists of numbers, with room for more.
ghost use Rattle.std.specs.Prelude.{◌≡◌, ◌≢◌, ◌↔◌, ◌<◌, ◌≤◌, ◌+◌, ℕ, [], ◌∷◌, ◌++◌, All, Contains, MatchResult, IfOk, OnOk, slice_index, length};
ghost use Rattle.tau_trace.specs.Ascending.{WithRoom, IsAscending, IsLeastMember};

use std::alloc::{AllocError, Global};
use std::marker::Model;

/// Numbers, each above the one before.
#[derive(Drop)]
pub(crate) struct Ascending {
    items: Vec<u32>,
}

impl Model for Ascending {
    ghost use Rattle.std.specs.Prelude.{◌-◌, vec_len};
    ghost use Rattle.std.specs.Vec.{vec_capacity};
    ghost use Rattle.tau_trace.specs.Ascending.{WithRoom, IsAscending};

    ghost Value = { WithRoom };

    ghost view = { λ a. record { numbers = a.items.items; room = vec_capacity a.items - vec_len a.items } };

    ghost invariant = { λ a. IsAscending a.items.items };
}

impl Ascending {
    /// No numbers, with room for as many as given.
    pub(crate) fn with_room(alloc: Global, room: usize) -> Result<Ascending, AllocError>
        ensures numbers { IfOk result (λ a. a.numbers ≡ []) }
        ensures room { IfOk result (λ a. a.room ≡ room) }
    {
        let items = Vec::with_capacity(alloc, room)?;
        Ok(Ascending { items })
    }

    /// Makes room for one more number.
    pub(crate) fn reserve(&mut self) -> Result<(), AllocError>
        ensures numbers { self.new.numbers ≡ self.old.numbers }
        ensures ok { OnOk result (1 ≤ self.new.room) }
        ensures room { self.old.room ≤ self.new.room }
    {
        self.items.reserve(1)
    }

    /// Puts a number at the end, in the room that there is.
    pub(crate) fn push_spare(&mut self, number: u32)
        requires room { 1 ≤ self.old.room }
        requires last { All (λ n. n < number) self.old.numbers }
        ensures numbers { self.new.numbers ≡ self.old.numbers ++ number ∷ [] }
        ensures room { self.new.room + 1 ≡ self.old.room }
    {
        self.items.push_reserved(number);
    }

    /// Takes a number out, where it is there.
    pub(crate) fn take_out(&mut self, number: u32)
        ensures members { (n : ℕ) → Contains self.new.numbers n ↔ (Contains self.old.numbers n × (n ≢ number)) }
        ensures room { self.old.room ≤ self.new.room }
    {
        if let Ok(place) = place_of(&self.items, number) {
            let _ = self.items.remove(place);
        }
    }

    /// The least number that is at least `from`, in logarithmic time.
    pub(crate) fn first_from(&self, from: u32) -> Option<u32>
        ensures { IsLeastMember from self.now.numbers result }
    {
        match place_of(&self.items, from) {
            Ok(_) => Some(from),
            Err(place) => self.items.get(place).copied(),
        }
    }

    /// An equal list, with the same room.
    pub(crate) fn copy(&self) -> Result<Ascending, AllocError>
        ensures numbers { IfOk result (λ a. a.numbers ≡ self.now.numbers) }
    {
        let items = Vec::from_slice(*self.items.allocator(), &self.items)?;
        Ok(Ascending { items })
    }
}

/// Where a number is, or else where it would be.
fn place_of(numbers: &[u32], number: u32) -> Result<usize, usize>
    requires { IsAscending numbers.now }
    ensures { MatchResult result (λ i. (i < length numbers.now) × (slice_index numbers.now i ≡ number))
        (λ i. (i ≤ length numbers.now) × ((k : ℕ) → k < i → slice_index numbers.now k < number)
        × ((k : ℕ) → i ≤ k → k < length numbers.now → number < slice_index numbers.now k)) }
{
    numbers.binary_search(&number)
}
