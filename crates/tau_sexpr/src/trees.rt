//! Forms and lists of forms.
ghost use Rattle.std.specs.Prelude.{◌≡◌, ◌↔◌, ◌-◌, ◌^◌, min, [], ◌∷◌, ◌++◌, length, map, slice_get, IsTrue, IfOk, IfErr, OnOk, OnErr, option_map};
ghost use Rattle.tau_sexpr.specs.Form.{tree_of};
ghost use Rattle.tau_sexpr.specs.Tree.{size_of, sizes};

use crate::{Text, Word};
use std::alloc::{AllocError, Global};
use std::marker::Model;

/// A form: a word, a text in quotes or a list of forms (docs/formats.md, "Texts and forms").
#[cycle(form)]
#[derive(Drop)]
pub enum Form {
    Word(Word),
    Text(Text),
    List(Forms),
}

/// A list of forms. Contracts see it as a list of plain data, `Tree`.
#[cycle(form)]
#[derive(Drop)]
pub struct Forms {
    items: Vec<Form>,
}

impl Model for Forms {
    ghost use Rattle.std.specs.Prelude.{List, map};
    ghost use Rattle.std.specs.Coded.{coded_list};
    ghost use Rattle.tau_sexpr.specs.Tree.{Tree, tree_code, sizes};

    ghost Value = { List Tree };

    ghost coded = { coded_list tree_code };

    ghost use Rattle.tau_sexpr.specs.Form.{tree_of};

    ghost view = { λ f. map tree_of f.items.items };

    ghost size = { sizes };

    ghost use Rattle.tau_sexpr.specs.Falls.{most_le_sizes};
    ghost use Rattle.std.proofs.Common.{arith};

    ghost size_decreases = { λ a h. omega (arith, most_le_sizes a.items.items) };
}

impl Form {
    /// An equal form. The error is want of memory.
    #[cycle(copy)]
    pub fn copy(&self) -> Result<Form, AllocError>
        ensures { IfOk result (λ f. tree_of f ≡ tree_of self.now) }
    {
        match self {
            Form::Word(word) => Ok(Form::Word(word.copy()?)),
            Form::Text(text) => Ok(Form::Text(text.copy()?)),
            Form::List(items) => Ok(Form::List(items.copy()?)),
        }
    }

    /// How many nodes the form has: itself and all that it holds. A greater number is answered as the last of u64.
    #[cycle(size)]
    pub fn size(&self) -> u64
        ensures { result ≡ min (size_of (tree_of self.now)) (2 ^ 64 - 1) }
    {
        match self {
            Form::Word(_) | Form::Text(_) => 1,
            Form::List(items) => items.size().saturating_add(1),
        }
    }

    /// Whether two forms are equal.
    #[cycle(same)]
    pub fn same(&self, other: &Form) -> bool
        ensures { IsTrue result ↔ (tree_of self.now ≡ tree_of other.now) }
    {
        match (self, other) {
            (Form::Word(one), Form::Word(two)) => one.same(two),
            (Form::Text(one), Form::Text(two)) => one.same(two),
            (Form::List(one), Form::List(two)) => one.same(two),
            _ => false,
        }
    }
}

impl Forms {
    /// The empty list. It takes no memory.
    pub fn new(alloc: Global) -> Forms
        ensures { result ≡ [] }
    {
        Forms {
            items: Vec::new(alloc),
        }
    }

    /// The empty list, with room for so many forms. The error is want of memory.
    pub fn with_capacity(alloc: Global, count: usize) -> Result<Forms, AllocError>
        ensures { IfOk result (λ f. f ≡ []) }
    {
        Ok(Forms {
            items: Vec::with_capacity(alloc, count)?,
        })
    }

    /// Adds a form at the end. Without memory the form comes back, and the list stays as it was.
    pub fn push(&mut self, item: Form) -> Result<(), (Form, AllocError)>
        ensures ok { OnOk result (self.new ≡ self.old ++ tree_of item ∷ []) }
        ensures err { IfErr result (λ e. (e.0 ≡ item) × (self.new ≡ self.old)) }
    {
        match self.items.push(item) {
            Ok(()) => Ok(()),
            Err(failed) => Err((failed.value, AllocError)),
        }
    }

    /// Adds a form at the end. Without memory the form is dropped, and the list stays as it was.
    pub fn add(&mut self, item: Form) -> Result<(), AllocError>
        ensures ok { OnOk result (self.new ≡ self.old ++ tree_of item ∷ []) }
        ensures err { OnErr result (self.new ≡ self.old) }
    {
        match self.push(item) {
            Ok(()) => Ok(()),
            Err((_item, failed)) => Err(failed),
        }
    }

    /// Moves the forms into a list that has room for no more, and leaves the room that they had. The error is want of memory.
    pub(crate) fn take_all(&mut self) -> Result<Forms, AllocError>
        ensures taken { IfOk result (λ f. f ≡ self.old) }
        ensures left { OnOk result (self.new ≡ []) }
    {
        let mut items = Vec::with_capacity(*self.items.allocator(), self.items.len())?;
        items.append(&mut self.items)?;
        Ok(Forms { items })
    }

    /// Gives the room back that the list has beyond its forms.
    pub(crate) fn shrink(&mut self)
        ensures { self.new ≡ self.old }
    {
        self.items.shrink_to_fit();
    }

    /// Drops the forms, and leaves the room that they had.
    pub(crate) fn clear(&mut self)
        ensures { self.new ≡ [] }
    {
        self.items.clear();
    }

    /// How many forms the list has.
    pub fn len(&self) -> usize
        ensures { result ≡ length self.now }
    {
        self.items.len()
    }

    /// Whether the list has no forms.
    pub fn is_empty(&self) -> bool
        ensures { IsTrue result ↔ (self.now ≡ []) }
    {
        self.items.is_empty()
    }

    /// The form at `k`, counted from 0; `None` where there is none.
    pub fn item(&self, k: usize) -> Option<&Form>
        ensures { option_map (λ f. tree_of f.now) result ≡ slice_get self.now k }
    {
        self.items.get(k)
    }

    /// The forms of the list.
    pub fn items(&self) -> &[Form]
        ensures { map tree_of result.now ≡ self.now }
    {
        &self.items
    }

    /// An equal list. The error is want of memory.
    #[cycle(copy)]
    pub fn copy(&self) -> Result<Forms, AllocError>
        ensures { IfOk result (λ f. f ≡ self.now) }
    {
        let mut items = Vec::with_capacity(*self.items.allocator(), self.items.len())?;
        for item in &self.items {
            items.push(item.copy()?)?;
        }
        Ok(Forms { items })
    }

    /// How many nodes the forms have: themselves and all that they hold. A greater number is answered as the last of u64.
    #[cycle(size)]
    pub fn size(&self) -> u64
        ensures { result ≡ min (sizes self.now) (2 ^ 64 - 1) }
    {
        let mut size: u64 = 0;
        for item in &self.items {
            size = size.saturating_add(item.size());
        }
        size
    }

    /// Whether two lists are equal.
    #[cycle(same)]
    pub fn same(&self, other: &Forms) -> bool
        ensures { IsTrue result ↔ (self.now ≡ other.now) }
    {
        if self.items.len() != other.items.len() {
            return false;
        }
        for (k, item) in self.items.iter().enumerate() {
            if !item.same(&other.items[k]) {
                return false;
            }
        }
        true
    }
}
