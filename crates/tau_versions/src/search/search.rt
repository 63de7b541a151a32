//! The searches that decide.
ghost use Rattle.std.specs.Prelude.{◌↔◌, ℕ, Bool, IsTrue, Contains, IfOk};
ghost use Rattle.std.specs.Bool.{OnFalse};
ghost use Rattle.tau_history.specs.declared.fate.Fate.{Fate};
ghost use Rattle.tau_versions.specs.Search.Searching.{Finds, FoundNone, is_fallen, is_not_firm};

use crate::logs::Log;
use crate::search::heard::HeardVersions;
use crate::search::seen::Wanted;
use crate::search::walk::Walk;
use std::alloc::{AllocError, Global};
use std::marker::Model;
use tau_points::Point;

/// A search for a fallen point, which can go on from further points. Contracts see which transactors it has met.
#[derive(Drop)]
pub struct Search {
    walk: Walk,
}

impl Model for Search {
    ghost use Rattle.std.specs.Prelude.{List, Bool};

    ghost Value = { List Bool };

    ghost view = { λ s. s.walk.met.items };
}

impl Search {
    /// A search over these logs that has met nobody. The error is want of memory.
    pub fn new(alloc: Global, logs: &[Log]) -> Result<Search, AllocError>
        ensures { IfOk result (λ s. (wanted : Fate → Bool) (numbers : ℕ → ℕ) → FoundNone wanted logs.now numbers s) }
    {
        let walk = Walk {
            met: vec![in alloc; false; logs.len()]?,
            left: Vec::new(alloc),
        };
        Ok(Search { walk })
    }

    /// Whether the search from these points comes to a fallen one: one of them, or one that the point of the version heard
    /// of an Open or Stable one has taken, and so on (docs/rules.md, "Verdict"). What it has met it doesn't meet again.
    /// After `true`, and after the error, which is want of memory, no clause tells how it goes on.
    pub fn finds_fallen<V: HeardVersions>(
        &mut self,
        logs: &[Log],
        heard: &V,
        from: &[Point],
    ) -> Result<bool, AllocError>
        requires { FoundNone is_fallen logs.now (V.numbers heard.now) self.old }
        ensures found { IfOk result (λ b. IsTrue b ↔ Finds is_fallen logs.now (V.numbers heard.now) (Contains from.now)) }
        ensures passed { IfOk result (λ b. OnFalse b (FoundNone is_fallen logs.now (V.numbers heard.now) self.new)) }
    {
        self.walk.finds(logs, heard, Wanted::AnyFallen, from)
    }
}

/// Whether the search from these points comes to one that isn't firm, as `finds_fallen` does to a fallen one
/// (docs/rules.md, "Free"). The error is want of memory.
pub fn finds_not_firm<V: HeardVersions>(
    alloc: Global,
    logs: &[Log],
    heard: &V,
    from: &[Point],
) -> Result<bool, AllocError>
    ensures { IfOk result (λ b. IsTrue b ↔ Finds is_not_firm logs.now (V.numbers heard.now) (Contains from.now)) }
{
    let mut search = Search::new(alloc, logs)?;
    search.walk.finds(logs, heard, Wanted::AnyNotFirm, from)
}
