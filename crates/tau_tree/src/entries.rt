//! Entries of the failure script.
use std::alloc::AllocError;
use tau_lists::{Compare, Item, ItemList};

/// What a script entry does: a node fails, a message is lost, or, in version 2, a message is repeated (docs/rules.md,
/// "Scripts").
#[derive(Clone, Copy, Debug, PartialEq, Eq)]
pub enum Failure {
    Fail { node: u32 },
    Lose { message: u32 },
    Repeat { message: u32 },
}

/// A script entry: what happens, and at which place of the trace at the earliest (docs/rules.md, "Scripts").
#[derive(Clone, Copy, Debug, PartialEq, Eq)]
pub struct Entry {
    pub at: u32,
    pub failure: Failure,
}

impl Item for Entry {
    fn copied(&self) -> Result<Entry, AllocError> {
        Ok(*self)
    }
}

impl Compare for Entry {
    fn equals(&self, other: &Entry) -> bool {
        self == other
    }
}

/// The failure script: its entries, in order.
pub type Script = ItemList<Entry>;
