//! The program that forms mean.
ghost use Rattle.std.specs.Prelude.{◌≡◌, ◌≤◌, [], ◌∷◌, ◌++◌, List, length, map, IfOk, IfErr, OnOk};
ghost use Rattle.std.specs.Option.{option_to_list};
ghost use Rattle.tau_sexpr.specs.Form.{tree_of};
ghost use Rattle.tau_sexpr.specs.Tree.{Tree, inside};
ghost use Rattle.tau_value.specs.Meaning.{counted};
ghost use Rattle.tau_value.specs.Value.{val_of};
ghost use Rattle.tau_forms.specs.Inner.Building.{HasBuilt, IsTopForm, TellsBehaviour, TellsEntry, TellsFailure, TellsPost, TellsStart, entry_part, post_part, start_part};
ghost use Rattle.tau_forms.specs.Inner.Passing.{AreAdmitted};
ghost use Rattle.tau_forms.specs.Meaning.{Means, code_in, count_of as count_meant, plain_post, plain_start};
ghost use Rattle.tau_forms.specs.declared.faults.ProgramError.{ProgramError};
ghost use Rattle.tau_forms.specs.declared.tables.Tables.{Tables};

use crate::ProgramError;
use crate::build::{Parts, build_expression, number_of, parts_of};
use crate::keywords::{FailureWord, Sort, failure_of, sort_of};
use crate::rows::split_head;
use crate::tables::Tables;
use std::alloc::{AllocError, Global};
use tau_sexpr::{Form, Forms, Word};
use tau_tree::{
    Behaviour, Behaviours, Entry, Failure, Post, Posts, Program, Script, Start, Starts,
};
use tau_value::{NODE_LIMIT, Names, START_LIMIT, Value, count_of, value_of};

/// The parts of a program up to a form.
#[derive(Drop)]
pub(crate) struct Draft {
    behaviours: Behaviours,
    starts: Starts,
    posts: Posts,
    script: Script,
}

impl Draft {
    pub(crate) fn new(alloc: Global) -> Draft
        ensures { (t : Tables) → HasBuilt t [] result }
    {
        Draft {
            behaviours: Behaviours::new(alloc),
            starts: Starts::new(alloc),
            posts: Posts::new(alloc),
            script: Script::new(alloc),
        }
    }

    /// The program of the forms, which have been added.
    pub(crate) fn finish(self, tables: &Tables) -> Program
        requires { tables.now.nodes ≤ NODE_LIMIT }
        ensures { (ts : List Tree) → AreAdmitted ts tables.now → HasBuilt tables.now ts self → Means ts result }
    {
        Program {
            version: tables.version,
            nodes: tables.nodes as u32,
            behaviours: self.behaviours,
            starts: self.starts,
            posts: self.posts,
            script: self.script,
        }
    }

    /// Adds what a form defines. The error is want of memory.
    pub(crate) fn add(
        &mut self,
        alloc: Global,
        form: &Form,
        tables: &Tables,
    ) -> Result<(), AllocError>
        requires few { length tables.now.starts ≤ START_LIMIT }
        ensures { OnOk result ((before : List Tree) → HasBuilt tables.now before self.old
            → HasBuilt tables.now (before ++ tree_of form.now ∷ []) self.new) }
    {
        match top_form(form) {
            TopForm::Behaviour { name, body } => {
                add_behaviour(&mut self.behaviours, alloc, name, body, tables)
            }
            TopForm::Start(parts) => add_start(&mut self.starts, alloc, parts, tables),
            TopForm::Post(parts) => add_post(&mut self.posts, alloc, parts, tables),
            TopForm::At(parts) => add_entry(&mut self.script, parts),
            TopForm::Other => Ok(()),
        }
    }
}

fn add_behaviour(
    behaviours: &mut Behaviours,
    alloc: Global,
    name: &Word,
    body: &Form,
    tables: &Tables,
) -> Result<(), AllocError>
    ensures { OnOk result (behaviours.new ≡ behaviours.old
        ++ record { name = name.now; body = code_in tables.now (tree_of body.now) } ∷ []) }
{
    let behaviour = Behaviour {
        name: name.copy()?,
        body: build_expression(alloc, body, tables)?,
    };
    behaviours.add(behaviour)
}

fn add_start(
    starts: &mut Starts,
    alloc: Global,
    parts: StartParts<'_>,
    tables: &Tables,
) -> Result<(), AllocError>
    requires { length tables.now.starts ≤ START_LIMIT }
    ensures { OnOk result (map plain_start starts.new ≡ map plain_start starts.old ++ start_part tables.now parts.entry ∷ []) }
{
    let start = Start {
        name: parts.name.copy()?,
        behaviour: number_of(&tables.behaviours, parts.behaviour)?,
        node: number_meant(parts.node)?,
        state: value_meant(alloc, parts.state, &tables.starts)?,
    };
    starts.add(start)
}

fn add_post(
    posts: &mut Posts,
    alloc: Global,
    parts: PostParts<'_>,
    tables: &Tables,
) -> Result<(), AllocError>
    requires { length tables.now.starts ≤ START_LIMIT }
    ensures { OnOk result (map plain_post posts.new ≡ map plain_post posts.old ++ post_part tables.now parts.entry ∷ []) }
{
    let post = Post {
        to: number_of(&tables.starts, parts.to)?,
        value: value_meant(alloc, parts.value, &tables.starts)?,
    };
    posts.add(post)
}

fn add_entry(script: &mut Script, parts: EntryParts<'_>) -> Result<(), AllocError>
    ensures { OnOk result (script.new ≡ script.old ++ option_to_list (entry_part parts.entry)) }
{
    let at = number_meant(parts.place)?;
    let number = number_meant(parts.number)?;
    let failure = match parts.failure {
        FailureWord::Fail => Failure::Fail { node: number },
        FailureWord::Lose => Failure::Lose { message: number },
        FailureWord::Repeat => Failure::Repeat { message: number },
        FailureWord::Other => return Ok(()),
    };
    script.add(Entry { at, failure })
}

/// What a form at the top defines, by its parts.
#[derive(Clone, Copy)]
enum TopForm<'f> {
    Behaviour { name: &'f Word, body: &'f Form },
    Start(StartParts<'f>),
    Post(PostParts<'f>),
    At(EntryParts<'f>),
    Other,
}

#[derive(Clone, Copy)]
struct StartParts<'f> {
    name: &'f Word,
    behaviour: &'f Word,
    node: &'f Word,
    state: &'f Form,
}

#[derive(Clone, Copy)]
struct PostParts<'f> {
    to: &'f Word,
    value: &'f Form,
}

#[derive(Clone, Copy)]
struct EntryParts<'f> {
    place: &'f Word,
    failure: FailureWord,
    number: &'f Word,
}

fn top_form(form: &Form) -> TopForm<'_>
    ensures { (t : Tables) → IsTopForm t (tree_of form.now) result }
{
    let Form::List(items) = form else {
        return TopForm::Other;
    };
    let Some(list) = split_head(items.items()) else {
        return TopForm::Other;
    };
    match sort_of(list.head) {
        Sort::Behaviour => behaviour_form(list.rest),
        Sort::Start => start_form(list.rest),
        Sort::Post => post_form(list.rest),
        Sort::At => entry_form(list.rest),
        Sort::Nodes | Sort::Version | Sort::Other => TopForm::Other,
    }
}

fn behaviour_form(items: &[Form]) -> TopForm<'_>
    ensures { (t : Tables) → TellsBehaviour t (inside (map tree_of items.now)) result }
{
    let Parts::Two(name, body) = parts_of(items) else {
        return TopForm::Other;
    };
    match name {
        Form::Word(name) => TopForm::Behaviour { name, body },
        Form::Text(_) | Form::List(_) => TopForm::Other,
    }
}

fn start_form(items: &[Form]) -> TopForm<'_>
    ensures { (t : Tables) → TellsStart t (inside (map tree_of items.now)) result }
{
    let Parts::Four(name, behaviour, node, state) = parts_of(items) else {
        return TopForm::Other;
    };
    let Form::Word(name) = name else {
        return TopForm::Other;
    };
    let Form::Word(behaviour) = behaviour else {
        return TopForm::Other;
    };
    match node {
        Form::Word(node) => TopForm::Start(StartParts {
            name,
            behaviour,
            node,
            state,
        }),
        Form::Text(_) | Form::List(_) => TopForm::Other,
    }
}

fn post_form(items: &[Form]) -> TopForm<'_>
    ensures { (t : Tables) → TellsPost t (inside (map tree_of items.now)) result }
{
    let Parts::Two(to, value) = parts_of(items) else {
        return TopForm::Other;
    };
    match to {
        Form::Word(to) => TopForm::Post(PostParts { to, value }),
        Form::Text(_) | Form::List(_) => TopForm::Other,
    }
}

fn entry_form(items: &[Form]) -> TopForm<'_>
    ensures { TellsEntry (inside (map tree_of items.now)) result }
{
    let Parts::Two(place, failure) = parts_of(items) else {
        return TopForm::Other;
    };
    let Form::Word(place) = place else {
        return TopForm::Other;
    };
    match failure {
        Form::List(failure) => failure_form(place, failure.items()),
        Form::Word(_) | Form::Text(_) => TopForm::Other,
    }
}

fn failure_form<'f>(place: &'f Word, items: &'f [Form]) -> TopForm<'f>
    ensures { TellsFailure place.entry.now (inside (map tree_of items.entry.now)) result }
{
    let Some(list) = split_head(items) else {
        return TopForm::Other;
    };
    let Parts::One(number) = parts_of(list.rest) else {
        return TopForm::Other;
    };
    match number {
        Form::Word(number) => TopForm::At(EntryParts {
            place,
            failure: failure_of(list.head),
            number,
        }),
        Form::Text(_) | Form::List(_) => TopForm::Other,
    }
}

/// The number that a word means; 0 where it is no count. Forms without faults have none that doesn't fit, which is answered
/// as want of memory.
fn number_meant(word: &Word) -> Result<u32, AllocError>
    ensures { IfOk result (λ n. n ≡ count_meant word.now) }
{
    match count_of(word) {
        Some(count) => u32::try_from(count).map_err(|_| AllocError),
        None => Ok(0),
    }
}

/// The value that a form means. Forms without faults mean one, so the error is want of memory.
fn value_meant(alloc: Global, form: &Form, starts: &Names) -> Result<Value, AllocError>
    requires { length starts.now ≤ START_LIMIT }
    ensures { IfOk result (λ v. val_of v ≡ counted starts.now (length starts.now) (tree_of form.now)) }
{
    match value_of(alloc, form, starts, starts.len() as u32) {
        Ok(value) => Ok(value),
        Err(_) => Err(AllocError),
    }
}
