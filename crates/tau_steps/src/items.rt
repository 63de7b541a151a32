//! The items of the forms of steps (docs/formats.md, "Steps").
ghost use Rattle.std.specs.Prelude.{◌≡◌, option_map, if◌then◌else◌};
ghost use Rattle.tau_sexpr.specs.Form.{tree_of};
ghost use Rattle.tau_value.specs.Numbers.{capped};
ghost use Rattle.tau_value.specs.Value.{val_of};
ghost use Rattle.tau_steps.specs.Faults as role;
ghost use Rattle.tau_steps.specs.Meaning as item;
ghost use Rattle.tau_steps.specs.Meaning.{count_at};
ghost use Rattle.tau_steps.specs.Inner.Reading.{IsPlace, TellsItem, both_of};
ghost use Rattle.tau_steps.specs.declared.items.Place.{Place};

use crate::errors::ItemError;
use std::alloc::Global;
use tau_sexpr::Form;
use tau_trace::Opening;
use tau_value::{Value, ValueError, count_of, is_name, value_of};

/// What exists before a step: how many transactors and messages of an opening.
#[derive(Clone, Copy, Drop)]
pub(crate) struct Place<'o> {
    pub(crate) opening: &'o Opening,
    pub(crate) transactors: u32,
    pub(crate) messages: u32,
}

impl Place<'_> {
    /// The number of a transactor that exists: a start's by its name, another's by its number.
    pub(crate) fn transactor(self, form: &Form) -> Result<u32, ItemError>
        requires { IsPlace self }
        ensures { TellsItem self.entry role.transactor item.transactor (tree_of form.now) result }
    {
        let Form::Word(word) = form else {
            return Err(ItemError::Shape);
        };
        let names = &self.opening.names;
        if let Some(place) = names.find(word) {
            return Ok(place as u32);
        }
        match count_of(word) {
            Some(count) => {
                if names.len() as u64 <= count && count < u64::from(self.transactors) {
                    Ok(count as u32)
                } else {
                    Err(ItemError::Unknown)
                }
            }
            None => Err(unnamed(is_name(word))),
        }
    }

    /// The number of a message that exists.
    pub(crate) fn message(self, form: &Form) -> Result<u32, ItemError>
        ensures { TellsItem self.entry role.message item.message (tree_of form.now) result }
    {
        match count_in(form) {
            Some(count) => {
                if count < u64::from(self.messages) {
                    Ok(count as u32)
                } else {
                    Err(ItemError::Unknown)
                }
            }
            None => Err(ItemError::Shape),
        }
    }

    /// The number of a behaviour, by its name.
    pub(crate) fn behaviour(self, form: &Form) -> Result<u32, ItemError>
        requires { IsPlace self }
        ensures { TellsItem self.entry role.behaviour item.behaviour (tree_of form.now) result }
    {
        let Form::Word(word) = form else {
            return Err(ItemError::Shape);
        };
        match self.opening.behaviours.find(word) {
            Some(place) => Ok(place as u32),
            None => Err(unnamed(is_name(word) || count_of(word).is_some())),
        }
    }

    /// The number of a node that is there.
    pub(crate) fn node(self, form: &Form) -> Result<u32, ItemError>
        requires { IsPlace self }
        ensures { TellsItem self.entry role.node item.node (tree_of form.now) result }
    {
        match count_in(form) {
            Some(count) => {
                if count < u64::from(self.opening.nodes) {
                    Ok(count as u32)
                } else {
                    Err(ItemError::Shape)
                }
            }
            None => Err(ItemError::Shape),
        }
    }

    /// The value of a form.
    pub(crate) fn value(self, alloc: Global, form: &Form) -> Result<Value, ItemError>
        requires { IsPlace self }
        ensures { TellsItem self.entry role.value (λ v. item.value (val_of v)) (tree_of form.now) result }
    {
        match value_of(alloc, form, &self.opening.names, self.transactors) {
            Ok(value) => Ok(value),
            Err(ValueError::Shape { node: _ }) => Err(ItemError::Shape),
            Err(ValueError::Unknown { node: _ }) => Err(ItemError::Unknown),
            Err(ValueError::NoMemory) => Err(ItemError::NoMemory),
        }
    }
}

/// Tests that a form is the number that the step makes.
pub(crate) fn next(form: &Form, number: u32) -> Result<(), ItemError>
    ensures { (p : Place) → TellsItem p (role.next number) (λ _. item.next number) (tree_of form.now) result }
{
    match count_in(form) {
        Some(count) => {
            if count == u64::from(number) {
                Ok(())
            } else {
                Err(ItemError::Unknown)
            }
        }
        None => Err(ItemError::Shape),
    }
}

/// A code, 1 to 8.
pub(crate) fn code(form: &Form) -> Result<u8, ItemError>
    ensures { (p : Place) → TellsItem p role.code item.code (tree_of form.now) result }
{
    match count_in(form) {
        Some(count) => {
            if 1 <= count && count <= 8 {
                Ok(count as u8)
            } else {
                Err(ItemError::Shape)
            }
        }
        None => Err(ItemError::Shape),
    }
}

/// A truth.
pub(crate) fn truth(form: &Form) -> Result<bool, ItemError>
    ensures { (p : Place) → TellsItem p role.truth item.truth (tree_of form.now) result }
{
    let Form::Word(word) = form else {
        return Err(ItemError::Shape);
    };
    if word.bytes() == b"true".as_slice() {
        return Ok(true);
    }
    if word.bytes() == b"false".as_slice() {
        return Ok(false);
    }
    Err(ItemError::Shape)
}

/// The number of a count, and the last of u64 where it is greater; `None` where a form is no count.
fn count_in(form: &Form) -> Option<u64>
    ensures { result ≡ option_map capped (count_at (tree_of form.now)) }
{
    match form {
        Form::Word(word) => count_of(word),
        Form::Text(_) | Form::List(_) => None,
    }
}

/// The error for a word that names nothing: whether it is of the shape of one that might.
fn unnamed(of_shape: bool) -> ItemError
    ensures { result ≡ (if of_shape then ItemError.Unknown else ItemError.Shape) }
{
    if of_shape {
        ItemError::Unknown
    } else {
        ItemError::Shape
    }
}

/// Both answers; of two errors the one that tells more: Unknown gives way.
pub(crate) fn both<A: Drop, B: Drop>(
    one: Result<A, ItemError>,
    two: Result<B, ItemError>,
) -> Result<(A, B), ItemError>
    ensures { result ≡ both_of one two }
{
    match (one, two) {
        (Ok(one), Ok(two)) => Ok((one, two)),
        (Ok(_), Err(error)) => Err(error),
        (Err(ItemError::Unknown), Err(error)) => Err(error),
        (Err(error), _) => Err(error),
    }
}
