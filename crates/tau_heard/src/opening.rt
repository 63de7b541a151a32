//! What is kept before the first step.
ghost use Rattle.std.specs.Prelude.{◌≡◌, IfOk, length};
ghost use Rattle.tau_trace.specs.declared.opening.Opening.{Opening};
ghost use Rattle.tau_trace.specs.Known.{IsSound};
ghost use Rattle.tau_knowledge.specs.Knowing.{opened};
ghost use Rattle.tau_heard.specs.Opened.{AreStartLogs, AreStartOwn, ArePosts};
ghost use Rattle.tau_heard.specs.Hears.{Knows};

use crate::hearing::Hearing;
use crate::letter::Letter;
use crate::own::Own;
use std::alloc::{AllocError, Global};
use tau_versions::logs::Log;
use tau_versions::numbers::Numbers;
use tau_versions::roots::Roots;

impl Hearing {
    /// What is kept before the first step, of so many starts and posts. The error is want of memory.
    pub fn begin(alloc: Global, starts: usize, posts: usize) -> Result<Hearing, AllocError>
        ensures { IfOk result (λ h. (o : Opening) → IsSound o → length o.names ≡ starts → length o.targets ≡ posts → Knows h (opened o)) }
    {
        Ok(Hearing {
            logs: start_logs(alloc, starts)?,
            own: start_own(alloc, starts)?,
            letters: post_letters(alloc, posts)?,
            falls: 0,
            alloc,
        })
    }
}

/// The logs of so many starts.
fn start_logs(alloc: Global, starts: usize) -> Result<Vec<Log>, AllocError>
    ensures { IfOk result (λ v. AreStartLogs v.items starts) }
{
    let mut logs = Vec::with_capacity(alloc, starts)?;
    for _start in 0..starts {
        logs.push(Log::opening(alloc)?)?;
    }
    Ok(logs)
}

/// What is kept of so many starts. They have heard of nothing.
fn start_own(alloc: Global, starts: usize) -> Result<Vec<Own>, AllocError>
    ensures { IfOk result (λ v. AreStartOwn v.items starts) }
{
    let mut own = Vec::with_capacity(alloc, starts)?;
    for _start in 0..starts {
        own.push(Own::unheard(alloc))?;
    }
    Ok(own)
}

/// What is kept of so many posts. They have heard nothing.
fn post_letters(alloc: Global, posts: usize) -> Result<Vec<Option<Letter>>, AllocError>
    ensures { IfOk result (λ v. ArePosts v.items posts) }
{
    let mut letters = Vec::with_capacity(alloc, posts)?;
    for _post in 0..posts {
        letters.push(Some(Letter::post()))?;
    }
    Ok(letters)
}
