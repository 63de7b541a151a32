//! The variables that are bound around an expression, with their values.
ghost use Rattle.std.specs.Prelude.{take, length, map, ◌≡◌, List, [], ◌∷◌, ◌++◌, ℕ, IfErr, OnOk, option_map};
ghost use Rattle.tau_value.specs.Val.{Val};
ghost use Rattle.tau_value.specs.Value.{val_of};
ghost use Rattle.tau_eval.specs.Meaning.{nearest};

use std::alloc::{AllocError, Global};
use std::marker::Model;
use tau_sexpr::Word;
use tau_value::Value;

#[derive(Drop)]
struct Binding<'p> {
    name: &'p Word,
    value: Value,
}

/// The variables that are bound around an expression, with their values, the nearest last.
#[derive(Drop)]
pub struct Scope<'p> {
    bindings: Vec<Binding<'p>>,
}

impl<'p> Model for Scope<'p> {
    ghost use Rattle.std.specs.Prelude.{take, length, map, ℕ, List, map};
    ghost use Rattle.std.specs.Coded.{coded_list, coded×};
    ghost use Rattle.tau_value.specs.Val.{Val, val_code};
    ghost use Rattle.tau_value.specs.Value.{val_of};
    ghost use Rattle.tau_tree.specs.Code.{word_code};

    ghost Value = { List (List ℕ × Val) };

    ghost coded = { coded_list (coded× word_code val_code) };

    ghost view = { λ s. map (λ b. (b.name.now, val_of b.value)) s.bindings.items };
}

impl<'p> Scope<'p> {
    /// The scope without variables. It takes no memory.
    pub fn new(alloc: Global) -> Scope<'p>
        ensures { result ≡ [] }
    {
        Scope {
            bindings: Vec::new(alloc),
        }
    }

    /// Binds a variable. Without memory the value comes back, and the scope stays as it was.
    pub fn bind(&mut self, name: &'p Word, value: Value) -> Result<(), (Value, AllocError)>
        ensures ok { OnOk result (self.new ≡ self.old ++ (name.entry.now, val_of value) ∷ []) }
        ensures err { IfErr result (λ e. (e.0 ≡ value) × (self.new ≡ self.old)) }
    {
        match self.bindings.push(Binding { name, value }) {
            Ok(()) => Ok(()),
            Err(failed) => Err((failed.value.value, AllocError)),
        }
    }

    /// Binds two variables, one after the other. Without memory the values come back, and the scope stays as it was.
    pub fn bind_two(
        &mut self,
        one: (&'p Word, Value),
        two: (&'p Word, Value),
    ) -> Result<(), (Value, Value)>
        ensures ok { OnOk result (self.new ≡ self.old ++ (one.entry.0.now, val_of one.entry.1) ∷ (two.entry.0.now, val_of two.entry.1) ∷ []) }
        ensures err { IfErr result (λ e. (e.0 ≡ one.entry.1) × (e.1 ≡ two.entry.1) × (self.new ≡ self.old)) }
    {
        let (first, sum) = one;
        let (second, item) = two;
        if self.bindings.reserve(2).is_err() {
            return Err((sum, item));
        }
        self.bindings.push_reserved(Binding {
            name: first,
            value: sum,
        });
        self.bindings.push_reserved(Binding {
            name: second,
            value: item,
        });
        Ok(())
    }

    /// Takes back all variables but the first `height`.
    pub fn cut(&mut self, height: usize)
        ensures { self.new ≡ take height self.old }
    {
        self.bindings.truncate(height);
    }

    /// How many variables are bound.
    pub fn len(&self) -> usize
        ensures { result ≡ length self.now }
    {
        self.bindings.len()
    }

    /// The value of the nearest variable with a name; `None` where there is none. It compares names from the nearest on.
    pub fn find(&self, name: &Word) -> Option<&Value>
        ensures { option_map (λ v. val_of v.now) result ≡ nearest name.now self.now }
    {
        find_in(&self.bindings, name)
    }
}

#[inline(always)]
fn find_in<'b, 'p>(bindings: &'b [Binding<'p>], name: &Word) -> Option<&'b Value>
    ensures { option_map (λ v. val_of v.now) result ≡ nearest name.now (map (λ b. (b.name.now, val_of b.value)) bindings.entry.now) }
{
    let mut below = bindings.len();
    while below > 0 {
        below -= 1;
        let binding = &bindings[below];
        if binding.name.same(name) {
            return Some(&binding.value);
        }
    }
    None
}
