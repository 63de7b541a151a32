//! What lists hold.
ghost use Rattle.std.specs.Prelude.{◌≡◌, ◌↔◌, IsTrue, IfOk};

use std::alloc::AllocError;

/// What a list holds: an item that is copied.
pub trait Item: Drop + Sized {
    /// An equal item. The error is want of memory.
    fn copied(&self) -> Result<Self, AllocError>
        ensures { IfOk result (λ i. i ≡ self.now) };
}

/// An item that is compared with others.
pub trait Compare: Item {
    /// Whether two items are equal.
    fn equals(&self, other: &Self) -> bool
        ensures { IsTrue result ↔ (self.now ≡ other.now) };
}

impl Item for u32 {
    fn copied(&self) -> Result<u32, AllocError> {
        Ok(*self)
    }
}
