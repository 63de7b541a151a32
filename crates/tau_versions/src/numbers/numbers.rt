// A list of numbers that is its owner's alone, or shared.
ghost use Rattle.std.specs.Prelude.{◌≡◌, ◌≢◌, ◌+◌, ◌<◌, ◌≤◌, ℕ, max, [], length, get_or, IfOk, OnOk};
ghost use Rattle.std.specs.Vec.{vec_capacity};

use crate::numbers::raising::{copied, raise_all, raise_far};
use std::alloc::{AllocError, Global};
use std::marker::Model;
use std::mem;
use std::sync::Arc;

/// A number for each transactor, 0 where none stands.
///
/// Contracts see the list and its room: how many numbers it can hold without memory. A shared list has no room.
#[derive(Drop)]
pub struct Numbers {
    list: List,
}

/// The list.
#[derive(Drop)]
enum List {
    Own(Vec<u32>),
    Shared(Arc<Vec<u32>>),
}

impl Model for Numbers {
    ghost use Rattle.tau_versions.specs.Numbers.Kept.{Kept};

    ghost Value = { Kept };

    ghost use Rattle.tau_versions.specs.Numbers.Held.{kept};

    ghost view = { λ n. kept n.list };
}

impl Numbers {
    /// No number.
    pub fn new(alloc: Global) -> Numbers
        ensures { result.numbers ≡ [] }
    {
        Numbers {
            list: List::Own(Vec::new(alloc)),
        }
    }

    /// The numbers of a list that others may have too. It takes no memory.
    pub fn from_shared(shared: Arc<Vec<u32>>) -> Numbers
        ensures { result.numbers ≡ shared.value.items }
    {
        Numbers {
            list: List::Shared(shared),
        }
    }

    /// The numbers.
    pub fn items(&self) -> &[u32]
        ensures { result.now ≡ self.now.numbers }
    {
        match &self.list {
            List::Own(own) => own,
            List::Shared(shared) => shared,
        }
    }

    /// The number of a transactor, 0 where none stands.
    pub fn number(&self, who: u32) -> u32
        ensures { result ≡ get_or self.now.numbers who 0 }
    {
        match self.items().get(who as usize) {
            Some(number) => *number,
            None => 0,
        }
    }

    /// Makes the list its owner's alone, with room for `count` numbers. It is copied only where others have it.
    pub fn own(&mut self, count: usize) -> Result<(), AllocError>
        ensures numbers { self.new.numbers ≡ self.old.numbers }
        ensures ok { OnOk result (count ≤ self.new.room) }
        ensures room { self.old.room ≤ self.new.room }
    {
        let alloc = self.allocator();
        match mem::replace(&mut self.list, List::Own(Vec::new(alloc))) {
            List::Own(own) => self.keep(own, count),
            List::Shared(shared) => self.unshare(shared, count),
        }
    }

    /// Another owner of the list, which is shared then. The numbers aren't copied.
    pub fn share(&mut self) -> Result<Arc<Vec<u32>>, AllocError>
        ensures numbers { self.new.numbers ≡ self.old.numbers }
        ensures ok { IfOk result (λ a. a.value.items ≡ self.old.numbers) }
    {
        let alloc = self.allocator();
        match mem::replace(&mut self.list, List::Own(Vec::new(alloc))) {
            List::Shared(shared) => self.keep_shared(shared),
            List::Own(own) => match Arc::new(alloc, own) {
                Ok(shared) => self.keep_shared(shared),
                Err(failed) => {
                    self.list = List::Own(failed.value);
                    Err(AllocError)
                }
            },
        }
    }

    /// Makes each number the greater of itself and the other list's. It takes no memory.
    pub fn raise(&mut self, others: &[u32])
        requires room { length others.now ≤ self.old.room }
        ensures numbers { (u : ℕ) → get_or self.new.numbers u 0 ≡ max (get_or self.old.numbers u 0) (get_or others.now u 0) }
        ensures length { length self.new.numbers ≡ max (length self.old.numbers) (length others.now) }
        ensures room { self.new.room ≡ self.old.room }
    {
        if let List::Own(own) = &mut self.list {
            raise_all(own, others)
        }
    }

    /// Makes the number of one transactor the greater of itself and another. It takes no memory.
    pub fn raise_one(&mut self, who: u32, number: u32)
        requires room { who < self.old.room }
        ensures number { get_or self.new.numbers who 0 ≡ max (get_or self.old.numbers who 0) number }
        ensures others { (u : ℕ) → u ≢ who → get_or self.new.numbers u 0 ≡ get_or self.old.numbers u 0 }
        ensures length { length self.new.numbers ≡ max (length self.old.numbers) (who + 1) }
        ensures room { self.new.room ≡ self.old.room }
    {
        if let List::Own(own) = &mut self.list {
            raise_far(own, who as usize, number)
        }
    }

    /// The allocator of the list.
    fn allocator(&self) -> Global {
        match &self.list {
            List::Own(own) => *own.allocator(),
            List::Shared(shared) => *shared.allocator(),
        }
    }

    /// Keeps an own list, with room where there is memory.
    fn keep(&mut self, own: Vec<u32>, count: usize) -> Result<(), AllocError>
        ensures numbers { self.new.numbers ≡ own.items }
        ensures ok { OnOk result (count ≤ self.new.room) }
        ensures room { vec_capacity own ≤ self.new.room }
    {
        let mut own = own;
        let made = own.reserve(count.saturating_sub(own.len()));
        self.list = List::Own(own);
        made
    }

    /// Makes the numbers those of a shared list, and the list its owner's alone where there is memory.
    fn unshare(&mut self, shared: Arc<Vec<u32>>, count: usize) -> Result<(), AllocError>
        ensures numbers { self.new.numbers ≡ shared.value.items }
        ensures ok { OnOk result (count ≤ self.new.room) }
    {
        match Arc::try_unwrap(shared) {
            Ok(own) => self.keep(own, count),
            Err(shared) => match copied(&shared, *shared.allocator(), count) {
                Ok(own) => {
                    self.list = List::Own(own);
                    Ok(())
                }
                Err(failed) => {
                    self.list = List::Shared(shared);
                    Err(failed)
                }
            },
        }
    }

    /// Keeps a shared list, and gives another owner of it.
    fn keep_shared(&mut self, shared: Arc<Vec<u32>>) -> Result<Arc<Vec<u32>>, AllocError>
        ensures numbers { self.new.numbers ≡ shared.value.items }
        ensures ok { IfOk result (λ a. a.value.items ≡ shared.value.items) }
    {
        let other = Arc::try_clone(&shared);
        self.list = List::Shared(shared);
        other
    }
}
