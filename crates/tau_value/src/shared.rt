//! Values and lists of values, which share what they hold.
ghost use Rattle.std.specs.Prelude.{◌≡◌, ◌↔◌, [], ◌∷◌, ◌++◌, length, map, slice_get, IsTrue, IfOk, IfErr, OnOk, None, option_map};
ghost use Rattle.std.specs.List.{last_or};
ghost use Rattle.tau_value.specs.Val.{inside};
ghost use Rattle.tau_value.specs.Numbers.{capped};
ghost use Rattle.tau_value.specs.Sizes.{parts_of, parts_of_all, levels_of, levels_of_all, names_end_of, names_end_of_all, IsInBounds, NamesBelow};
ghost use Rattle.tau_value.specs.Value.{val_of};

use std::alloc::{AllocError, Global};
use std::marker::Model;
use std::sync::Arc;
use tau_sexpr::Text;

/// A value: what transactors hold, send and answer (docs/formats.md, "Values").
/// Contracts see it as plain data, `Val`.
#[cycle(value)]
#[derive(Drop)]
pub enum Value {
    Unit,
    Truth(bool),
    Int(i64),
    Text(Text),
    /// The name of a transactor, by its number.
    Name(u32),
    List(Values),
}

/// A list of values. Contracts see it as a list of plain data, `Val`.
/// Copies share the values, and the list keeps its sizes, so `copy`, `len`, `parts` and `levels` take the same time
/// for every length. A `push` takes the same time on average where no copy shares the values.
#[cycle(value)]
#[derive(Drop)]
pub struct Values {
    // `None` for the empty list.
    shared: Option<Arc<ValuesAndSizes>>,
    alloc: Global,
}

impl Model for Values {
    ghost use Rattle.std.specs.Prelude.{◌+◌, ◌*◌, List};
    ghost use Rattle.tau_value.specs.Shared.{held};
    ghost use Rattle.std.specs.Coded.{coded_list};
    ghost use Rattle.tau_value.specs.Val.{Val, val_code};
    ghost use Rattle.tau_value.specs.Sizes.{all_parts};

    ghost Value = { List Val };

    ghost coded = { coded_list val_code };

    ghost view = { λ f. held f.shared };

    ghost size = { λ vs. 2 * all_parts vs + 1 };

    ghost use Rattle.tau_value.specs.Falls.{shared_falls};
    ghost use Rattle.std.proofs.Common.{arith};

    ghost size_decreases = { λ a h. omega (arith, shared_falls a.shared) };
}

/// Values with their sizes, so that lists which share them are one pointer each.
#[cycle(value)]
#[derive(Drop)]
struct ValuesAndSizes {
    items: Vec<Value>,
    parts: u64,
    levels: u64,
    names_end: u64,
}

impl Model for ValuesAndSizes {
    ghost use Rattle.std.specs.Prelude.{◌*◌, List, map};
    ghost use Rattle.std.specs.Coded.{coded_list};
    ghost use Rattle.tau_value.specs.Val.{Val, val_code, inside};
    ghost use Rattle.tau_value.specs.Sizes.{AreSizes, all_parts};

    ghost Value = { List Val };

    ghost coded = { coded_list val_code };

    ghost use Rattle.tau_value.specs.Value.{val_of};

    ghost view = { λ s. map val_of s.items.items };

    ghost invariant = { λ s. AreSizes (inside (map val_of s.items.items)) s.parts s.levels s.names_end };

    ghost size = { λ vs. 2 * all_parts vs };

    ghost use Rattle.tau_value.specs.Falls.{items_fall};
    ghost use Rattle.std.proofs.Common.{arith};

    ghost size_decreases = { λ a h. omega (arith, items_fall a.items) };
}

/// The parts of a value: one for each value in it, itself included, and one for each byte of a text
/// (docs/limits.md). A greater count is answered as `u64::MAX`. It takes the same time for every value.
pub fn parts(value: &Value) -> u64
    ensures { result ≡ capped (parts_of (val_of value.now)) }
{
    match value {
        Value::Unit | Value::Truth(_) | Value::Int(_) | Value::Name(_) => 1,
        Value::Text(text) => (text.len() as u64).saturating_add(1),
        Value::List(items) => items.parts().saturating_add(1),
    }
}

/// The levels of a value: how deep lists stand inside one another, where a name counts as a list
/// (docs/limits.md). A greater count is answered as `u64::MAX`. It takes the same time for every value.
pub fn levels(value: &Value) -> u64
    ensures { result ≡ capped (levels_of (val_of value.now)) }
{
    match value {
        Value::Unit | Value::Truth(_) | Value::Int(_) | Value::Text(_) => 0,
        Value::Name(_) => 1,
        Value::List(items) => items.levels().saturating_add(1),
    }
}

/// The least number that each name in the value is below.
fn names_end(value: &Value) -> u64
    ensures { result ≡ capped (names_end_of (val_of value.now)) }
{
    match value {
        Value::Unit | Value::Truth(_) | Value::Int(_) | Value::Text(_) => 0,
        Value::Name(number) => u64::from(*number) + 1,
        Value::List(items) => items.names_end(),
    }
}

/// Whether a value is in bounds: it has at most 65,536 parts and 64 levels (docs/limits.md).
/// It takes the same time for every value.
pub fn in_bounds(value: &Value) -> bool
    ensures { IsTrue result ↔ IsInBounds (val_of value.now) }
{
    parts(value) <= 65_536 && levels(value) <= 64
}

/// Whether each name in the value is a number below `bound`. It takes the same time for every value.
pub fn names_below(value: &Value, bound: u32) -> bool
    ensures { IsTrue result ↔ NamesBelow bound (val_of value.now) }
{
    names_end(value) <= u64::from(bound)
}

impl Clone for Value {
    ghost use Rattle.std.specs.Prelude.{◌≡◌};

    ghost is_clone = { λ v w. w ≡ v };

    fn clone(&self) -> Result<Value, AllocError> {
        self.copy()
    }
}

impl Value {
    /// An equal value, which shares what this one holds. The error is want of memory.
    pub fn copy(&self) -> Result<Value, AllocError>
        ensures { IfOk result (λ v. v ≡ self.now) }
    {
        match self {
            Value::Unit => Ok(Value::Unit),
            Value::Truth(truth) => Ok(Value::Truth(*truth)),
            Value::Int(number) => Ok(Value::Int(*number)),
            Value::Text(text) => Ok(Value::Text(text.copy()?)),
            Value::Name(number) => Ok(Value::Name(*number)),
            Value::List(items) => Ok(Value::List(items.copy()?)),
        }
    }

    /// Whether two values are equal.
    #[cycle(same)]
    pub fn same(&self, other: &Value) -> bool
        ensures { IsTrue result ↔ (val_of self.now ≡ val_of other.now) }
    {
        match (self, other) {
            (Value::Unit, Value::Unit) => true,
            (Value::Truth(one), Value::Truth(two)) => one == two,
            (Value::Int(one), Value::Int(two)) => one == two,
            (Value::Text(one), Value::Text(two)) => one.same(two),
            (Value::Name(one), Value::Name(two)) => one == two,
            (Value::List(one), Value::List(two)) => one.same(two),
            _ => false,
        }
    }
}

impl Values {
    /// The empty list. It takes no memory.
    pub fn new(alloc: Global) -> Values
        ensures { result ≡ [] }
    {
        Values {
            shared: None,
            alloc,
        }
    }

    /// Adds a value at the end. Without memory the value comes back, and the list stays as it was.
    /// It copies the list where another list shares its values.
    pub fn push(&mut self, item: Value) -> Result<(), (Value, AllocError)>
        ensures ok { OnOk result (self.new ≡ self.old ++ val_of item ∷ []) }
        ensures err { IfErr result (λ e. (e.0 ≡ item) × (self.new ≡ self.old)) }
    {
        match &mut self.shared {
            Some(shared) => put(shared, self.alloc, item),
            None => {
                let own = with_one(ValuesAndSizes::new(self.alloc), self.alloc, item)?;
                self.shared = Some(own);
                Ok(())
            }
        }
    }

    /// How many values the list has.
    pub fn len(&self) -> usize
        ensures { result ≡ length self.now }
    {
        self.items().len()
    }

    /// Whether the list has no values.
    pub fn is_empty(&self) -> bool
        ensures { IsTrue result ↔ (self.now ≡ []) }
    {
        self.items().is_empty()
    }

    /// The value at `k`, counted from 0; `None` where there is none.
    pub fn item(&self, k: usize) -> Option<&Value>
        ensures { option_map (λ v. val_of v.now) result ≡ slice_get self.now k }
    {
        self.items().get(k)
    }

    /// The values of the list.
    pub fn items(&self) -> &[Value]
        ensures { map val_of result.now ≡ self.now }
    {
        match &self.shared {
            Some(shared) => shared.items(),
            None => &[],
        }
    }

    /// An equal list, which shares the values. The error is want of memory.
    pub fn copy(&self) -> Result<Values, AllocError>
        ensures { IfOk result (λ f. f ≡ self.now) }
    {
        let shared = match &self.shared {
            Some(shared) => Some(Arc::try_clone(shared)?),
            None => None,
        };
        Ok(Values {
            shared,
            alloc: self.alloc,
        })
    }

    /// Whether two lists are equal.
    #[cycle(same)]
    pub fn same(&self, other: &Values) -> bool
        ensures { IsTrue result ↔ (self.now ≡ other.now) }
    {
        if self.len() != other.len() {
            return false;
        }
        let others = other.items();
        for (k, item) in self.items().iter().enumerate() {
            if !item.same(&others[k]) {
                return false;
            }
        }
        true
    }

    /// The parts of the values, at most `u64::MAX`.
    fn parts(&self) -> u64
        ensures { result ≡ capped (parts_of_all (inside self.now)) }
    {
        match &self.shared {
            Some(shared) => shared.parts(),
            None => 0,
        }
    }

    /// The levels of the values, at most `u64::MAX`.
    fn levels(&self) -> u64
        ensures { result ≡ capped (levels_of_all (inside self.now)) }
    {
        match &self.shared {
            Some(shared) => shared.levels(),
            None => 0,
        }
    }

    /// The least number that each name in the values is below, at most `u64::MAX`.
    fn names_end(&self) -> u64
        ensures { result ≡ capped (names_end_of_all (inside self.now)) }
    {
        match &self.shared {
            Some(shared) => shared.names_end(),
            None => 0,
        }
    }
}

impl ValuesAndSizes {
    fn new(alloc: Global) -> ValuesAndSizes
        ensures { result ≡ [] }
    {
        ValuesAndSizes {
            items: Vec::new(alloc),
            parts: 0,
            levels: 0,
            names_end: 0,
        }
    }

    fn items(&self) -> &[Value]
        ensures { map val_of result.now ≡ self.now }
    {
        &self.items
    }

    fn parts(&self) -> u64
        ensures { result ≡ capped (parts_of_all (inside self.now)) }
    {
        self.parts
    }

    fn levels(&self) -> u64
        ensures { result ≡ capped (levels_of_all (inside self.now)) }
    {
        self.levels
    }

    fn names_end(&self) -> u64
        ensures { result ≡ capped (names_end_of_all (inside self.now)) }
    {
        self.names_end
    }

    /// Adds a value at the end. Without memory the value comes back, and the list stays as it was.
    fn push(&mut self, item: Value) -> Result<(), (Value, AllocError)>
        ensures ok { OnOk result (self.new ≡ self.old ++ val_of item ∷ []) }
        ensures err { IfErr result (λ e. (e.0 ≡ item) × (self.new ≡ self.old)) }
    {
        let more_parts = self.parts.saturating_add(parts(&item));
        let more_levels = self.levels.max(levels(&item));
        let more_names_end = self.names_end.max(names_end(&item));
        match self.items.push(item) {
            Ok(()) => {
                self.parts = more_parts;
                self.levels = more_levels;
                self.names_end = more_names_end;
                Ok(())
            }
            Err(failed) => Err((failed.value, AllocError)),
        }
    }

    /// Copies of the values, with room for one more.
    fn copy(&self, alloc: Global) -> Result<ValuesAndSizes, AllocError>
        ensures { IfOk result (λ s. s ≡ self.now) }
    {
        Ok(ValuesAndSizes {
            items: copies(&self.items, alloc)?,
            parts: self.parts,
            levels: self.levels,
            names_end: self.names_end,
        })
    }

    /// Takes the last value out of a list that goes away.
    fn into_last(self) -> Option<Value>
        ensures { option_map val_of result ≡ last_or None self }
    {
        let mut items = self.items;
        match items.as_slice() {
            [] => None,
            _ => items.pop(),
        }
    }
}

/// Adds a value to values that other lists may share.
fn put(
    shared: &mut Arc<ValuesAndSizes>,
    alloc: Global,
    item: Value,
) -> Result<(), (Value, AllocError)>
    ensures ok { OnOk result (shared.new.value ≡ shared.old.value ++ val_of item ∷ []) }
    ensures err { IfErr result (λ e. (e.0 ≡ item) × (shared.new.value ≡ shared.old.value)) }
{
    if let Some(own) = Arc::get_mut(shared) {
        return own.push(item);
    }
    match shared.copy(alloc) {
        Ok(own) => {
            let more = with_one(own, alloc, item)?;
            *shared = more;
            Ok(())
        }
        Err(failed) => Err((item, failed)),
    }
}

/// Copies of the values, with room for one more.
fn copies(items: &[Value], alloc: Global) -> Result<Vec<Value>, AllocError>
    ensures { IfOk result (λ v. v.items ≡ items.now) }
{
    let mut own = Vec::with_capacity(alloc, items.len() + 1)?;
    for item in items {
        own.push(item.copy()?)?;
    }
    Ok(own)
}

/// These values and one more, for lists to share.
fn with_one(
    mut own: ValuesAndSizes,
    alloc: Global,
    item: Value,
) -> Result<Arc<ValuesAndSizes>, (Value, AllocError)>
    ensures ok { IfOk result (λ a. a.value ≡ own ++ val_of item ∷ []) }
    ensures err { IfErr result (λ e. e.0 ≡ item) }
{
    own.push(item)?;
    match Arc::new(alloc, own) {
        Ok(shared) => Ok(shared),
        Err(failed) => match failed.value.into_last() {
            Some(item) => Err((item, AllocError)),
            None => unreachable!(),
        },
    }
}
