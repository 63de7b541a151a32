//! Start transactors, and lists of them.
ghost use Rattle.std.specs.Prelude.{◌≡◌, ◌↔◌, IsTrue, IfOk};

use std::alloc::AllocError;
use tau_lists::{Compare, Item, ItemList};
use tau_sexpr::Word;
use tau_value::Value;

/// A start transactor: its name, its behaviour and its node by their numbers, and its opening state
/// (docs/formats.md, "Programs").
#[derive(Drop)]
pub struct Start {
    pub name: Word,
    pub behaviour: u32,
    pub node: u32,
    pub state: Value,
}

impl Start {
    /// An equal start. The error is want of memory.
    pub fn copy(&self) -> Result<Start, AllocError>
        ensures { IfOk result (λ s. s ≡ self.now) }
    {
        Ok(Start {
            name: self.name.copy()?,
            behaviour: self.behaviour,
            node: self.node,
            state: self.state.copy()?,
        })
    }

    /// Whether two starts are equal.
    pub fn same(&self, other: &Start) -> bool
        ensures { IsTrue result ↔ (self.now ≡ other.now) }
    {
        if self.behaviour != other.behaviour || self.node != other.node {
            return false;
        }
        self.name.same(&other.name) && self.state.same(&other.state)
    }
}

impl Item for Start {
    fn copied(&self) -> Result<Start, AllocError> {
        self.copy()
    }
}

impl Compare for Start {
    fn equals(&self, other: &Start) -> bool {
        self.same(other)
    }
}

/// A list of start transactors.
pub type Starts = ItemList<Start>;
