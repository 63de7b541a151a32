//! The opening of a program.
ghost use Rattle.std.specs.Prelude.{◌≡◌, map, IfOk};
ghost use Rattle.tau_tree.specs.Sound.{Sound};
ghost use Rattle.tau_trace.specs.Known.{IsSound};
ghost use Rattle.tau_script.specs.Openings.{program_opening};

use std::alloc::{AllocError, Global};
use tau_trace::{Numbers, Opening};
use tau_tree::{Behaviour, Post, Program, Start};
use tau_value::Names;

/// The opening of a program: the names of its starts and behaviours, the number of its nodes, the node of each start, the
/// receiver of each post, and its version (docs/definitions.md, "Opening"). A sound program has an opening that a trace may
/// have. The error is want of memory.
pub fn opening_of(alloc: Global, program: &Program) -> Result<Opening, AllocError>
    ensures opening { IfOk result (λ o. o ≡ program_opening program.now) }
    ensures sound { Sound program.now → IfOk result IsSound }
{
    Ok(Opening {
        names: start_names(alloc, program.starts.items())?,
        behaviours: behaviour_names(alloc, program.behaviours.items())?,
        nodes: program.nodes,
        homes: homes(alloc, program.starts.items())?,
        targets: targets(alloc, program.posts.items())?,
        version: program.version,
    })
}

/// The names of the starts.
fn start_names(alloc: Global, starts: &[Start]) -> Result<Names, AllocError>
    ensures { IfOk result (λ v. v ≡ map (λ s. s.name) starts.now) }
{
    let mut names = Names::new(alloc);
    for start in starts {
        names.add(start.name.copy()?)?;
    }
    Ok(names)
}

/// The names of the behaviours.
fn behaviour_names(alloc: Global, behaviours: &[Behaviour]) -> Result<Names, AllocError>
    ensures { IfOk result (λ v. v ≡ map (λ b. b.name) behaviours.now) }
{
    let mut names = Names::new(alloc);
    for behaviour in behaviours {
        names.add(behaviour.name.copy()?)?;
    }
    Ok(names)
}

/// The nodes of the starts.
fn homes(alloc: Global, starts: &[Start]) -> Result<Numbers, AllocError>
    ensures { IfOk result (λ v. v ≡ map (λ s. s.node) starts.now) }
{
    let mut homes = Numbers::new(alloc);
    for start in starts {
        homes.add(start.node)?;
    }
    Ok(homes)
}

/// The receivers of the posts.
fn targets(alloc: Global, posts: &[Post]) -> Result<Numbers, AllocError>
    ensures { IfOk result (λ v. v ≡ map (λ q. q.to) posts.now) }
{
    let mut targets = Numbers::new(alloc);
    for post in posts {
        targets.add(post.to)?;
    }
    Ok(targets)
}
