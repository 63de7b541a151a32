//! The opening of a trace.
ghost use Rattle.std.specs.Prelude.{◌≡◌, ◌↔◌, ◌<◌, All, Some, IfOk, IsTrue};
ghost use Rattle.tau_value.specs.Names.{AreNames, place_of};

use crate::numbers::Numbers;
use std::alloc::AllocError;
use tau_sexpr::Word;
use tau_value::{BEHAVIOUR_LIMIT, NODE_LIMIT, Names, POST_LIMIT, START_LIMIT, is_name};

/// What stands before the first step (docs/rules.md, "Numbers"): the names of the start transactors and of the
/// behaviours, the number of nodes, the node of each start, the receiver of each post, and the version (docs/rules.md,
/// "Version 1 and version 2").
#[derive(Drop)]
pub struct Opening {
    pub names: Names,
    pub behaviours: Names,
    pub nodes: u32,
    pub homes: Numbers,
    pub targets: Numbers,
    pub version: u32,
}

impl Opening {
    ghost use Rattle.tau_trace.specs.Known.{IsSound};

    /// Whether the opening is one that a trace may have: the names of starts and of behaviours are distinct names, at
    /// most 1,024 and 256; there are 1 to 64 nodes; each start has a node that is there; each of at most 4,096 posts has
    /// a start as its receiver (docs/limits.md); and the version is 1 or 2.
    pub fn is_sound(&self) -> bool
        ensures { IsTrue result ↔ IsSound self.now }
    {
        self.names.len() <= START_LIMIT
            && self.behaviours.len() <= BEHAVIOUR_LIMIT
            && self.targets.len() <= POST_LIMIT
            && 1 <= self.nodes
            && self.nodes <= NODE_LIMIT
            && 1 <= self.version
            && self.version <= 2
            && self.homes.len() == self.names.len()
            && are_names(&self.names)
            && are_names(&self.behaviours)
            && all_below(self.homes.items(), self.nodes)
            && all_below(self.targets.items(), self.names.len() as u32)
    }

    /// An equal opening. The error is want of memory.
    pub fn copy(&self) -> Result<Opening, AllocError>
        ensures { IfOk result (λ o. o ≡ self.now) }
    {
        self.in_version(self.version)
    }

    /// The same opening in another version. The error is want of memory.
    pub(crate) fn in_version(&self, version: u32) -> Result<Opening, AllocError>
        ensures { IfOk result (λ o. o ≡ record self.now { version = version }) }
    {
        Ok(Opening {
            names: self.names.copy()?,
            behaviours: self.behaviours.copy()?,
            nodes: self.nodes,
            homes: self.homes.copy()?,
            targets: self.targets.copy()?,
            version,
        })
    }
}

/// Whether the words of a list are distinct names.
fn are_names(names: &Names) -> bool
    ensures { IsTrue result ↔ AreNames names.now }
{
    for (place, word) in names.items().iter().enumerate() {
        if !is_name(word) {
            return false;
        }
        if !is_found_at(names, word, place) {
            return false;
        }
    }
    true
}

/// Whether the place is the first of a word.
fn is_found_at(names: &Names, word: &Word, place: usize) -> bool
    ensures { IsTrue result ↔ (place_of names.now word.now ≡ Some place) }
{
    match names.find(word) {
        Some(first) => first == place,
        None => false,
    }
}

/// Whether each number is below a bound.
fn all_below(numbers: &[u32], bound: u32) -> bool
    ensures { IsTrue result ↔ All (λ n. n < bound) numbers.now }
{
    for number in numbers {
        if *number >= bound {
            return false;
        }
    }
    true
}
