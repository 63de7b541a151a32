//! Values read from forms.
ghost use Rattle.std.specs.Prelude.{◌≡◌, ◌^◌, ◌<◌, ◌≤◌, ℕ, List, length, map, option_map, IfOk, IfErr};
ghost use Rattle.tau_sexpr.specs.Form.{tree_of};
ghost use Rattle.tau_sexpr.specs.Tree as tree;
ghost use Rattle.tau_sexpr.specs.Tree.{inside, more, none};
ghost use Rattle.tau_value.specs.Meaning.{Means, IsFault, name_word, word_value, number_named, named, counted, counted_all};
ghost use Rattle.tau_value.specs.Numbers.{capped};
ghost use Rattle.tau_value.specs.Inner.Reading.{HasHead, Reads, ReadsAll};
ghost use Rattle.tau_value.specs.Sizes.{IsInBounds, NamesBelow, parts_of, levels_of, parts_of_all, levels_of_all};
ghost use Rattle.tau_value.specs.Val.{Val};
ghost use Rattle.tau_value.specs.Value.{val_of};

use crate::{Names, Value, ValueError, Values, count_of, integer_of, is_name};
use std::alloc::Global;
use tau_sexpr::{Form, Forms, Word};

/// The value that a form means, read with the names of the starts and a bound for the numbers of transactors
/// (docs/formats.md, "Values"). It is in bounds, and the names in it are below the bound.
/// `Shape` and `Unknown` come exactly at the first fault of the form: the least faulty node, in preorder within the form
/// from 0. The names are found by their first place.
pub fn value_of(alloc: Global, form: &Form, names: &Names, bound: u32) -> Result<Value, ValueError>
    requires { length names.now ≤ bound }
    ensures value { IfOk result (λ v. Means names.now bound (tree_of form.now) (val_of v)) }
    ensures within { IfOk result (λ v. IsInBounds (val_of v)) }
    ensures names { IfOk result (λ v. NamesBelow bound (val_of v)) }
    ensures fault { IfErr result (IsFault names.now bound (tree_of form.now)) }
    ensures read { (v : Val) → Means names.now bound (tree_of form.now) v
        → IfErr result (λ e. e ≡ ValueError.NoMemory) }
{
    let extent = extent_of(form, names, bound);
    if extent.parts > 65_536 || extent.levels > 64 {
        return Err(ValueError::Shape { node: 0 });
    }
    let mut node = 0;
    read(alloc, form, names, bound, &mut node)
}

/// How the items of a list begin: after the word `list` come items, after the word `name` one form.
#[derive(Clone, Copy)]
enum Head<'f> {
    List(&'f [Form]),
    Name(&'f Form),
    Other,
}

fn head_of(items: &Forms) -> Head<'_>
    ensures { HasHead (inside items.now) result }
{
    let [first, rest @ ..] = items.items() else {
        return Head::Other;
    };
    let Form::Word(head) = first else {
        return Head::Other;
    };
    if head.bytes() == b"list".as_slice() {
        return Head::List(rest);
    }
    if head.bytes() != b"name".as_slice() {
        return Head::Other;
    }
    match rest {
        [] => Head::Other,
        [name] => Head::Name(name),
        [_, _, ..] => Head::Other,
    }
}

fn value_of_word(word: &Word) -> Option<Value>
    ensures { option_map val_of result ≡ word_value word.now }
{
    if word.bytes() == b"unit".as_slice() {
        return Some(Value::Unit);
    }
    if word.bytes() == b"true".as_slice() {
        return Some(Value::Truth(true));
    }
    if word.bytes() == b"false".as_slice() {
        return Some(Value::Truth(false));
    }
    Some(Value::Int(integer_of(word)?))
}

/// The number that a word means in `(name X)`.
fn number_of(word: &Word, names: &Names, bound: u32) -> Option<u32>
    requires { length names.now ≤ bound }
    ensures { result ≡ number_named names.now bound word.now }
{
    if let Some(place) = names.find(word) {
        return Some(place as u32);
    }
    let count = count_of(word)?;
    if count < names.len() as u64 || count >= u64::from(bound) {
        return None;
    }
    Some(count as u32)
}

/// How large the value is that a form counts as.
#[derive(Clone, Copy)]
struct Extent {
    parts: u64,
    levels: u64,
}

#[cycle(extent)]
fn extent_of(form: &Form, names: &Names, bound: u32) -> Extent
    requires { length names.now ≤ bound }
    ensures parts { result.parts ≡ capped (parts_of (counted names.now bound (tree_of form.now))) }
    ensures levels { result.levels ≡ capped (levels_of (counted names.now bound (tree_of form.now))) }
{
    match form {
        Form::Word(_) => Extent {
            parts: 1,
            levels: 0,
        },
        Form::Text(text) => Extent {
            parts: (text.len() as u64).saturating_add(1),
            levels: 0,
        },
        Form::List(items) => match head_of(items) {
            Head::List(rest) => {
                let inner = extent_of_all(rest, names, bound);
                Extent {
                    parts: inner.parts.saturating_add(1),
                    levels: inner.levels.saturating_add(1),
                }
            }
            Head::Name(name) => Extent {
                parts: 1,
                levels: levels_of_name(name, names, bound),
            },
            Head::Other => Extent {
                parts: 1,
                levels: 0,
            },
        },
    }
}

#[cycle(extent)]
fn extent_of_all(items: &[Form], names: &Names, bound: u32) -> Extent
    requires { length names.now ≤ bound }
    ensures parts { let counts = counted_all names.now bound (inside (map tree_of items.now)) in
        result.parts ≡ capped (parts_of_all counts) }
    ensures levels { let counts = counted_all names.now bound (inside (map tree_of items.now)) in
        result.levels ≡ capped (levels_of_all counts) }
{
    let mut parts = 0u64;
    let mut levels = 0u64;
    for item in items {
        let extent = extent_of(item, names, bound);
        parts = parts.saturating_add(extent.parts);
        levels = levels.max(extent.levels);
    }
    Extent { parts, levels }
}

/// The levels of `(name X)`: 1 where X means a number.
fn levels_of_name(name: &Form, names: &Names, bound: u32) -> u64
    requires { length names.now ≤ bound }
    ensures { result ≡ levels_of (named names.now bound (more (tree_of name.now) none)) }
{
    let Form::Word(word) = name else {
        return 0;
    };
    match number_of(word, names, bound) {
        Some(_) => 1,
        None => 0,
    }
}

/// Reads a form that is in bounds, whose own node is `node`; after it `node` is the next.
#[cycle(read)]
fn read(
    alloc: Global,
    form: &Form,
    names: &Names,
    bound: u32,
    node: &mut u64,
) -> Result<Value, ValueError>
    requires names { length names.now ≤ bound }
    requires range { node.old < 2 ^ 64 }
    ensures { Reads names.now bound (tree_of form.now) node.old node.new result }
{
    match form {
        Form::Word(word) => read_word(word, node),
        Form::Text(text) => {
            let value = Value::Text(text.copy()?);
            *node = node.saturating_add(1);
            Ok(value)
        }
        Form::List(items) => match head_of(items) {
            Head::List(rest) => {
                *node = node.saturating_add(2);
                let values = read_all(alloc, rest, names, bound, node)?;
                Ok(Value::List(values))
            }
            Head::Name(name) => read_name(name, names, bound, node),
            Head::Other => Err(ValueError::Shape { node: *node }),
        },
    }
}

#[cycle(read)]
fn read_all(
    alloc: Global,
    items: &[Form],
    names: &Names,
    bound: u32,
    node: &mut u64,
) -> Result<Values, ValueError>
    requires names { length names.now ≤ bound }
    requires range { node.old < 2 ^ 64 }
    ensures { ReadsAll names.now bound (inside (map tree_of items.now)) node.old node.new result }
{
    let mut values = Values::new(alloc);
    for item in items {
        let value = read(alloc, item, names, bound, node)?;
        if let Err((_value, _failed)) = values.push(value) {
            return Err(ValueError::NoMemory);
        }
    }
    Ok(values)
}

fn read_word(word: &Word, node: &mut u64) -> Result<Value, ValueError>
    ensures { (names : List (List ℕ)) (bound : ℕ) →
        Reads names bound (tree.word word.now) node.old node.new result }
{
    match value_of_word(word) {
        Some(value) => {
            *node = node.saturating_add(1);
            Ok(value)
        }
        None => Err(ValueError::Shape { node: *node }),
    }
}

/// Reads `(name X)`.
fn read_name(name: &Form, names: &Names, bound: u32, node: &mut u64) -> Result<Value, ValueError>
    requires { length names.now ≤ bound }
    ensures { let form = tree.list (more (tree.word name_word) (more (tree_of name.now) none)) in
        Reads names.now bound form node.old node.new result }
{
    let place = node.saturating_add(2);
    let Form::Word(word) = name else {
        return Err(ValueError::Shape { node: place });
    };
    if let Some(number) = number_of(word, names, bound) {
        *node = node.saturating_add(3);
        return Ok(Value::Name(number));
    }
    if is_name(word) || count_of(word).is_some() {
        return Err(ValueError::Unknown { node: place });
    }
    Err(ValueError::Shape { node: place })
}
