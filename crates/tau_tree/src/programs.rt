//! Programs.
ghost use Rattle.std.specs.Prelude.{◌≡◌, ◌↔◌, IsTrue, IfOk};

use crate::soundness::{
    Counts, are_sound_behaviours, are_sound_entries, are_sound_posts, are_sound_starts,
    keeps_limits,
};
use crate::{Behaviours, Posts, Script, Starts};
use std::alloc::{AllocError, Global};

/// A program: its version, how many nodes it has, its behaviours, start transactors and posts, and its failure script
/// (docs/formats.md, "Programs"). Behaviours, starts and posts are numbered from 0 in their order.
#[derive(Drop)]
pub struct Program {
    /// 1 or 2 (docs/rules.md, "Version 1 and version 2").
    pub version: u32,
    pub nodes: u32,
    pub behaviours: Behaviours,
    pub starts: Starts,
    pub posts: Posts,
    pub script: Script,
}

impl Program {
    ghost use Rattle.tau_tree.specs.Sound.{Sound};

    /// An equal program. The error is want of memory.
    pub fn copy(&self) -> Result<Program, AllocError>
        ensures { IfOk result (λ p. p ≡ self.now) }
    {
        Ok(Program {
            version: self.version,
            nodes: self.nodes,
            behaviours: self.behaviours.copy()?,
            starts: self.starts.copy()?,
            posts: self.posts.copy()?,
            script: self.script.copy()?,
        })
    }

    /// Whether two programs are equal.
    pub fn same(&self, other: &Program) -> bool
        ensures { IsTrue result ↔ (self.now ≡ other.now) }
    {
        self.version == other.version
            && self.nodes == other.nodes
            && self.behaviours.same(&other.behaviours)
            && self.starts.same(&other.starts)
            && self.posts.same(&other.posts)
            && self.script.same(&other.script)
    }

    /// Whether the program is sound: its version is 1 or 2; it keeps its limits; each number in it names something that
    /// exists, but for a message that is lost or repeated; a message is repeated in version 2 alone; each variable is bound;
    /// each name is a name, and no two behaviours and no two starts have the same one; each operation has its number of
    /// arguments; no `seq` is empty; the two names of a `fold` differ; each value is in bounds, texts in bodies included; and
    /// no form that it is printed as is deeper than 200 (docs/formats.md, "Programs"). The error is want of memory.
    pub fn sound(&self, alloc: Global) -> Result<bool, AllocError>
        ensures { IfOk result (λ b. IsTrue b ↔ Sound self.now) }
    {
        if !keeps_limits(self) {
            return Ok(false);
        }
        let counts = Counts {
            nodes: self.nodes,
            behaviours: self.behaviours.len() as u32,
            starts: self.starts.len() as u32,
        };
        if !are_sound_posts(self.posts.items(), counts.starts) {
            return Ok(false);
        }
        if !are_sound_entries(self.script.items(), counts.nodes, self.version) {
            return Ok(false);
        }
        if !are_sound_starts(alloc, self.starts.items(), counts)? {
            return Ok(false);
        }
        are_sound_behaviours(alloc, self.behaviours.items(), counts)
    }
}
