//! Posts, and lists of them.
ghost use Rattle.std.specs.Prelude.{◌≡◌, ◌↔◌, IsTrue, IfOk};

use std::alloc::AllocError;
use tau_lists::{Compare, Item, ItemList};
use tau_value::Value;

/// A post: a message that is in flight from the opening. The receiver is a start transactor, by its number
/// (docs/formats.md, "Programs").
#[derive(Drop)]
pub struct Post {
    pub to: u32,
    pub value: Value,
}

impl Post {
    /// An equal post. The error is want of memory.
    pub fn copy(&self) -> Result<Post, AllocError>
        ensures { IfOk result (λ p. p ≡ self.now) }
    {
        Ok(Post {
            to: self.to,
            value: self.value.copy()?,
        })
    }

    /// Whether two posts are equal.
    pub fn same(&self, other: &Post) -> bool
        ensures { IsTrue result ↔ (self.now ≡ other.now) }
    {
        self.to == other.to && self.value.same(&other.value)
    }
}

impl Item for Post {
    fn copied(&self) -> Result<Post, AllocError> {
        self.copy()
    }
}

impl Compare for Post {
    fn equals(&self, other: &Post) -> bool {
        self.same(other)
    }
}

/// A list of posts.
pub type Posts = ItemList<Post>;
