//! Behaviours, and lists of them.
ghost use Rattle.std.specs.Prelude.{◌≡◌, ◌↔◌, IsTrue, IfOk};

use crate::Expr;
use std::alloc::AllocError;
use std::marker::Model;
use tau_lists::{Compare, Item, ItemList};
use tau_sexpr::Word;

/// A behaviour: what transactors do with a message (docs/language.md).
/// Contracts see it as its name and the plain data of its body.
#[derive(Drop)]
pub struct Behaviour {
    pub name: Word,
    pub body: Expr,
}

impl Model for Behaviour {
    ghost use Rattle.tau_tree.specs.Behaviour.{NamedCode, named_code};

    ghost Value = { NamedCode };

    ghost coded = { named_code };

    ghost use Rattle.tau_tree.specs.Expr.{code_of};

    ghost view = { λ b. record { name = b.name; body = code_of b.body } };
}

impl Behaviour {
    /// An equal behaviour. The error is want of memory.
    pub fn copy(&self) -> Result<Behaviour, AllocError>
        ensures { IfOk result (λ b. b ≡ self.now) }
    {
        Ok(Behaviour {
            name: self.name.copy()?,
            body: self.body.copy()?,
        })
    }

    /// Whether two behaviours are equal.
    pub fn same(&self, other: &Behaviour) -> bool
        ensures { IsTrue result ↔ (self.now ≡ other.now) }
    {
        self.name.same(&other.name) && self.body.same(&other.body)
    }
}

impl Item for Behaviour {
    fn copied(&self) -> Result<Behaviour, AllocError> {
        self.copy()
    }
}

impl Compare for Behaviour {
    fn equals(&self, other: &Behaviour) -> bool {
        self.same(other)
    }
}

/// A list of behaviours.
pub type Behaviours = ItemList<Behaviour>;
