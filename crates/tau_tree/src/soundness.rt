//! The rules of a sound program.
ghost use Rattle.std.specs.Prelude.{◌≡◌, ◌≢◌, ◌↔◌, ◌∷◌, [], ◌++◌, IsTrue, IfOk, OnOk, All, AllPairs, Contains, map};
ghost use Rattle.tau_tree.specs.Sound.{IsSoundFailure};
ghost use Rattle.tau_tree.specs.Checks.{KeepsLimits, IsSoundStart, IsSoundPost, IsSoundBehaviour};

use crate::bodies::{is_bound, is_regular, is_shallow};
use crate::scopes::Scope;
use crate::{Behaviour, Entry, Failure, Post, Program, Start};
use std::alloc::{AllocError, Global};
use tau_sexpr::Word;
use tau_value::{
    BEHAVIOUR_LIMIT, ENTRY_LIMIT, NODE_LIMIT, Names, POST_LIMIT, START_LIMIT, in_bounds, is_name,
    names_below,
};

/// How many nodes, behaviours and starts a program has.
#[derive(Clone, Copy)]
pub struct Counts {
    pub nodes: u32,
    pub behaviours: u32,
    pub starts: u32,
}

/// Whether a program keeps its limits (docs/limits.md), and its version is 1 or 2.
pub fn keeps_limits(program: &Program) -> bool
    ensures { IsTrue result ↔ KeepsLimits program.now }
{
    (1..=2).contains(&program.version)
        && (1..=NODE_LIMIT).contains(&program.nodes)
        && program.behaviours.len() <= BEHAVIOUR_LIMIT
        && program.starts.len() <= START_LIMIT
        && program.posts.len() <= POST_LIMIT
        && program.script.len() <= ENTRY_LIMIT
}

/// Whether the starts are sound, and no two have one name. The error is want of memory.
pub fn are_sound_starts(alloc: Global, starts: &[Start], counts: Counts) -> Result<bool, AllocError>
    ensures { IfOk result
        (λ b. IsTrue b ↔ (All (IsSoundStart counts.nodes counts.behaviours counts.starts) starts.now
        × AllPairs (λ v w. v ≢ w) (map (λ s. s.name) starts.now))) }
{
    let mut names = Names::new(alloc);
    for start in starts {
        if !is_sound_start(start, counts) {
            return Ok(false);
        }
        if !is_new(&mut names, &start.name)? {
            return Ok(false);
        }
    }
    Ok(true)
}

fn is_sound_start(start: &Start, counts: Counts) -> bool
    ensures { IsTrue result ↔ IsSoundStart counts.nodes counts.behaviours counts.starts start.now }
{
    start.behaviour < counts.behaviours
        && start.node < counts.nodes
        && is_name(&start.name)
        && in_bounds(&start.state)
        && names_below(&start.state, counts.starts)
}

/// Whether the posts are sound.
pub fn are_sound_posts(posts: &[Post], starts: u32) -> bool
    ensures { IsTrue result ↔ All (IsSoundPost starts) posts.now }
{
    posts.iter().all(|post| is_sound_post(post, starts))
}

fn is_sound_post(post: &Post, starts: u32) -> bool
    ensures { IsTrue result ↔ IsSoundPost starts post.now }
{
    post.to < starts && in_bounds(&post.value) && names_below(&post.value, starts)
}

/// Whether each node that fails exists, and no message is repeated in version 1.
pub fn are_sound_entries(entries: &[Entry], nodes: u32, version: u32) -> bool
    ensures { IsTrue result ↔ All (λ e. IsSoundFailure nodes version e.failure) entries.now }
{
    entries
        .iter()
        .all(|entry| is_sound_entry(entry, nodes, version))
}

fn is_sound_entry(entry: &Entry, nodes: u32, version: u32) -> bool
    ensures { IsTrue result ↔ IsSoundFailure nodes version entry.now.failure }
{
    match entry.failure {
        Failure::Fail { node } => node < nodes,
        Failure::Lose { .. } => true,
        Failure::Repeat { .. } => version == 2,
    }
}

/// Whether the behaviours are sound, and no two have one name. The error is want of memory.
pub fn are_sound_behaviours(
    alloc: Global,
    behaviours: &[Behaviour],
    counts: Counts,
) -> Result<bool, AllocError>
    ensures { IfOk result
        (λ b. IsTrue b ↔ (All (IsSoundBehaviour counts.starts counts.behaviours) behaviours.now
        × AllPairs (λ v w. v ≢ w) (map (λ b. b.name) behaviours.now))) }
{
    let mut names = Names::new(alloc);
    for behaviour in behaviours {
        if !is_sound_behaviour(alloc, behaviour, counts)? {
            return Ok(false);
        }
        if !is_new(&mut names, &behaviour.name)? {
            return Ok(false);
        }
    }
    Ok(true)
}

fn is_sound_behaviour(
    alloc: Global,
    behaviour: &Behaviour,
    counts: Counts,
) -> Result<bool, AllocError>
    ensures { IfOk result
        (λ b. IsTrue b ↔ IsSoundBehaviour counts.starts counts.behaviours behaviour.now) }
{
    // the list of the behaviour itself is one of the 200
    if !is_name(&behaviour.name) || !is_shallow(&behaviour.body, 199) {
        return Ok(false);
    }
    if !is_regular(&behaviour.body, counts.starts, counts.behaviours) {
        return Ok(false);
    }
    let mut scope = Scope::new(alloc);
    is_bound(&behaviour.body, &mut scope)
}

/// Whether a word isn't among the names yet. It is put there.
fn is_new(names: &mut Names, word: &Word) -> Result<bool, AllocError>
    ensures value { IfOk result (λ b. IsTrue b ↔ (Contains names.old word.now → ⊥)) }
    ensures names { OnOk result (names.new ≡ names.old ++ word.now ∷ []) }
{
    let new = names.find(word).is_none();
    names.add(word.copy()?)?;
    Ok(new)
}
