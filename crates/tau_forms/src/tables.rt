//! What a program defines.
ghost use Rattle.std.specs.Prelude.{◌≡◌, ◌==◌, ◌||◌, [], ◌∷◌, ◌++◌, List, Some, map, option_map, IfOk, OnOk, if◌then◌else◌};
ghost use Rattle.std.specs.Option.{option_or};
ghost use Rattle.tau_sexpr.specs.Form.{tree_of};
ghost use Rattle.tau_sexpr.specs.Tree.{Tree, inside};
ghost use Rattle.tau_forms.specs.Inner.Defined.{Defines, IsDefined, name_told as name_in_items, nodes_told as nodes_in_items, version_items};
ghost use Rattle.tau_forms.specs.Tops.{sort_of as sort_in_tree, tables_of, with_name};

use crate::keywords::{Sort, sort_of};
use crate::rows::split_head;
use std::alloc::{AllocError, Global};
use tau_sexpr::{Form, Word};
use tau_value::{NODE_LIMIT, Names, count_of, is_name};

/// The names that the lists at the top define, each once, how many nodes there are, and the version.
#[derive(Drop)]
pub(crate) struct Tables {
    pub(crate) behaviours: Names,
    pub(crate) starts: Names,
    pub(crate) nodes: u64,
    pub(crate) version: u32,
}

/// What the lists at the top up to a place define: the names of behaviours and starts, each once, how many nodes there are
/// and which version it is, if one of them tells it, and whether one of them is a (version 2).
#[derive(Drop)]
pub(crate) struct Defined {
    pub(crate) behaviours: Names,
    pub(crate) starts: Names,
    pub(crate) nodes: Option<u64>,
    pub(crate) version: Option<u64>,
    pub(crate) second: bool,
}

impl Defined {
    /// Before the first list. It takes no memory.
    pub(crate) fn new(alloc: Global) -> Defined
        ensures { IsDefined [] result }
    {
        Defined {
            behaviours: Names::new(alloc),
            starts: Names::new(alloc),
            nodes: None,
            version: None,
            second: false,
        }
    }

    /// Goes on behind the next form. The error is want of memory.
    pub(crate) fn note(&mut self, form: &Form) -> Result<(), AllocError>
        ensures { OnOk result ((before : List Tree) → IsDefined before self.old
            → IsDefined (before ++ tree_of form.now ∷ []) self.new) }
    {
        match definition_of(form) {
            Definition::Behaviour(name) => add(&mut self.behaviours, name),
            Definition::Start(name) => add(&mut self.starts, name),
            Definition::Nodes(nodes) => {
                self.nodes = first_told(self.nodes, nodes);
                Ok(())
            }
            Definition::Version(version) => {
                self.version = first_told(self.version, version);
                self.second = or_two(self.second, version);
                Ok(())
            }
            Definition::Nothing => Ok(()),
        }
    }

    /// What all forms of a program define, which have been noted.
    pub(crate) fn tables(self) -> Tables
        ensures { (ts : List Tree) → IsDefined ts self → result ≡ tables_of ts }
    {
        Tables {
            behaviours: self.behaviours,
            starts: self.starts,
            nodes: self.nodes.unwrap_or(NODE_LIMIT as u64),
            version: version_by(self.second),
        }
    }
}

/// The version of a program, by whether a (version 2) stands among its forms.
fn version_by(second: bool) -> u32
    ensures { result ≡ (if second then 2 else 1) }
{
    if second { 2 } else { 1 }
}

/// The number that was told first.
fn first_told(earlier: Option<u64>, number: u64) -> Option<u64>
    ensures { result ≡ option_or earlier (Some number) }
{
    match earlier {
        Some(earlier) => Some(earlier),
        None => Some(number),
    }
}

/// Whether a version 2 was told, earlier or now.
fn or_two(earlier: bool, version: u64) -> bool
    ensures { result ≡ (earlier || version == 2) }
{
    earlier || version == 2
}

/// What a form at the top is, by the word that begins it.
pub(crate) fn sort_of_form(form: &Form) -> Sort
    ensures { result ≡ sort_in_tree (tree_of form.now) }
{
    let Form::List(items) = form else {
        return Sort::Other;
    };
    match split_head(items.items()) {
        Some(list) => sort_of(list.head),
        None => Sort::Other,
    }
}

/// What one form at the top defines.
#[derive(Clone, Copy, Drop)]
enum Definition<'f> {
    Behaviour(&'f Word),
    Start(&'f Word),
    Nodes(u64),
    Version(u64),
    Nothing,
}

fn definition_of(form: &Form) -> Definition<'_>
    ensures { Defines (tree_of form.now) result }
{
    let Form::List(items) = form else {
        return Definition::Nothing;
    };
    let Some(list) = split_head(items.items()) else {
        return Definition::Nothing;
    };
    match sort_of(list.head) {
        Sort::Nodes => match nodes_told(list.rest) {
            Some(nodes) => Definition::Nodes(nodes),
            None => Definition::Nothing,
        },
        Sort::Version => match version_told(list.rest) {
            Some(version) => Definition::Version(version),
            None => Definition::Nothing,
        },
        Sort::Behaviour => match name_told(list.rest) {
            Some(name) => Definition::Behaviour(name),
            None => Definition::Nothing,
        },
        Sort::Start => match name_told(list.rest) {
            Some(name) => Definition::Start(name),
            None => Definition::Nothing,
        },
        Sort::Post | Sort::At | Sort::Other => Definition::Nothing,
    }
}

/// The first of these forms, if it is a name.
fn name_told(items: &[Form]) -> Option<&Word>
    ensures { option_map (λ w. w.now) result ≡ name_in_items (inside (map tree_of items.now)) }
{
    let list = split_head(items)?;
    if is_name(list.head) {
        Some(list.head)
    } else {
        None
    }
}

/// The number of nodes that these forms tell: one count from 1 to 64.
pub(crate) fn nodes_told(items: &[Form]) -> Option<u64>
    ensures { result ≡ nodes_in_items (inside (map tree_of items.now)) }
{
    let list = split_head(items)?;
    if !list.rest.is_empty() {
        return None;
    }
    let count = count_of(list.head)?;
    if count >= 1 && count < 65 {
        Some(count)
    } else {
        None
    }
}

/// The version that these forms tell: one count, 1 or 2.
pub(crate) fn version_told(items: &[Form]) -> Option<u64>
    ensures { result ≡ version_items (inside (map tree_of items.now)) }
{
    let list = split_head(items)?;
    if !list.rest.is_empty() {
        return None;
    }
    let count = count_of(list.head)?;
    if count >= 1 && count < 3 {
        Some(count)
    } else {
        None
    }
}

/// Adds a name, if it isn't there.
fn add(names: &mut Names, name: &Word) -> Result<(), AllocError>
    ensures { OnOk result (names.new ≡ with_name names.old (Some name.now)) }
{
    if names.find(name).is_some() {
        return Ok(());
    }
    match names.push(name.copy()?) {
        Ok(()) => Ok(()),
        Err((_name, failed)) => Err(failed),
    }
}
