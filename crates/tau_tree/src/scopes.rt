//! The variables that are bound around an expression.
ghost use Rattle.std.specs.Prelude.{◌≡◌, ◌↔◌, ℕ, List, [], ◌∷◌, ◌++◌, IsTrue, OnOk, Contains};

use std::alloc::{AllocError, Global};
use std::marker::Model;
use tau_sexpr::Word;

/// The names of variables that are bound around an expression, the nearest last.
#[derive(Drop)]
pub struct Scope<'p> {
    names: Vec<&'p Word>,
}

impl<'p> Model for Scope<'p> {
    ghost use Rattle.std.specs.Prelude.{ℕ, List, map};

    ghost Value = { List (List ℕ) };

    ghost view = { λ s. map (λ w. w.now) s.names.items };
}

impl<'p> Scope<'p> {
    /// The scope without variables. It takes no memory.
    pub fn new(alloc: Global) -> Scope<'p>
        ensures { result ≡ [] }
    {
        Scope {
            names: Vec::new(alloc),
        }
    }

    /// Binds a variable. The error is want of memory.
    pub fn bind(&mut self, name: &'p Word) -> Result<(), AllocError>
        ensures { OnOk result (self.new ≡ self.old ++ name.entry.now ∷ []) }
    {
        self.names.push(name)?;
        Ok(())
    }

    /// Takes back the variable that was bound last.
    pub fn unbind(&mut self)
        ensures { (before : List (List ℕ)) (name : List ℕ) → self.old ≡ before ++ name ∷ [] → self.new ≡ before }
    {
        self.names.pop();
    }

    /// Whether a variable is bound. It looks at each variable.
    pub fn has(&self, name: &Word) -> bool
        ensures { IsTrue result ↔ Contains self.now name.now }
    {
        for bound in &self.names {
            if bound.same(name) {
                return true;
            }
        }
        false
    }
}
