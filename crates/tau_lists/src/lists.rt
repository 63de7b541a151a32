//! Lists of items.
ghost use Rattle.std.specs.Prelude.{◌≡◌, ◌↔◌, [], ◌∷◌, ◌++◌, length, slice_get, IsTrue, IfOk, IfErr, OnOk, OnErr, option_copied};

use crate::{Compare, Item};
use std::alloc::{AllocError, Global};
use std::marker::Model;

/// A list of items. Contracts see it as its list.
#[derive(Debug, Drop)]
pub struct ItemList<T: Item> {
    items: Vec<T>,
}

impl<T: Item> Model for ItemList<T> {
    ghost use Rattle.std.specs.Prelude.{List};
    ghost use Rattle.std.specs.Coded.{coded_list};

    ghost Value = { List T };

    ghost coded = { coded_list T.code };

    ghost view = { λ s. s.items.items };
}

impl<T: Item> ItemList<T> {
    /// The empty list. It takes no memory.
    pub fn new(alloc: Global) -> ItemList<T>
        ensures { result ≡ [] }
    {
        ItemList {
            items: Vec::new(alloc),
        }
    }

    /// The list of these items.
    pub fn from_vec(items: Vec<T>) -> ItemList<T>
        ensures { result ≡ items.items }
    {
        ItemList { items }
    }

    /// Adds an item at the end. Without memory it comes back, and the list stays as it was.
    pub fn push(&mut self, item: T) -> Result<(), (T, AllocError)>
        ensures ok { OnOk result (self.new ≡ self.old ++ item ∷ []) }
        ensures err { IfErr result (λ e. (e.0 ≡ item) × (self.new ≡ self.old)) }
    {
        match self.items.push(item) {
            Ok(()) => Ok(()),
            Err(failed) => Err((failed.value, AllocError)),
        }
    }

    /// Adds an item at the end. Without memory it is dropped, and the list stays as it was.
    pub fn add(&mut self, item: T) -> Result<(), AllocError>
        ensures ok { OnOk result (self.new ≡ self.old ++ item ∷ []) }
        ensures err { OnErr result (self.new ≡ self.old) }
    {
        match self.push(item) {
            Ok(()) => Ok(()),
            Err((_item, failed)) => Err(failed),
        }
    }

    /// How many items the list has.
    pub fn len(&self) -> usize
        ensures { result ≡ length self.now }
    {
        self.items.len()
    }

    /// Whether the list has no items.
    pub fn is_empty(&self) -> bool
        ensures { IsTrue result ↔ (self.now ≡ []) }
    {
        self.items.is_empty()
    }

    /// The item at `k`, counted from 0; `None` where there is none.
    pub fn item(&self, k: usize) -> Option<&T>
        ensures { option_copied result ≡ slice_get self.now k }
    {
        self.items.get(k)
    }

    /// The items of the list.
    pub fn items(&self) -> &[T]
        ensures { result.now ≡ self.now }
    {
        &self.items
    }

    /// An equal list. The error is want of memory.
    pub fn copy(&self) -> Result<ItemList<T>, AllocError>
        ensures { IfOk result (λ s. s ≡ self.now) }
    {
        let mut items = Vec::with_capacity(*self.items.allocator(), self.items.len())?;
        for item in &self.items {
            items.push(item.copied()?)?;
        }
        Ok(ItemList { items })
    }
}

impl<T: Compare> ItemList<T> {
    /// Whether two lists are equal.
    pub fn same(&self, other: &ItemList<T>) -> bool
        ensures { IsTrue result ↔ (self.now ≡ other.now) }
    {
        if self.items.len() != other.items.len() {
            return false;
        }
        for (k, item) in self.items.iter().enumerate() {
            if !item.equals(&other.items[k]) {
                return false;
            }
        }
        true
    }
}
