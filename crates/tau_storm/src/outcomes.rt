//! Outcomes.
ghost use Rattle.std.specs.Prelude.{◌≡◌, length, slice_get};

use std::marker::Model;
use tau_tree::Script;

/// The lines by which a run ends, each with its line end (docs/formats.md, "Storm"). Contracts see them as their bytes.
#[derive(Drop)]
pub struct Lines {
    bytes: Vec<u8>,
}

impl Model for Lines {
    ghost use Rattle.std.specs.Prelude.{ℕ, List};
    ghost use Rattle.std.specs.Coded.{coded_ℕ, coded_list};

    ghost Value = { List ℕ };

    ghost coded = { coded_list coded_ℕ };

    ghost view = { λ l. l.bytes.items };
}

impl Lines {
    /// The lines of these bytes.
    pub(crate) fn from_vec(bytes: Vec<u8>) -> Lines
        ensures { result ≡ bytes.items }
    {
        Lines { bytes }
    }

    /// The bytes of the lines.
    pub fn bytes(&self) -> &[u8]
        ensures { result.now ≡ self.now }
    {
        &self.bytes
    }

    /// The bytes of the lines.
    pub(crate) fn into_vec(self) -> Vec<u8>
        ensures { result.items ≡ self }
    {
        self.bytes
    }
}

/// The ends with the same lines (docs/definitions.md, "Storm").
#[derive(Drop)]
pub struct Outcome {
    /// How each of the runs ends.
    pub lines: Lines,
    /// How many ends have these lines.
    pub runs: u64,
    /// The seed of the simplest of them.
    pub seed: u64,
    /// How many faults it has.
    pub faults: u32,
    /// How many steps it has.
    pub steps: u32,
    /// The script of its program.
    pub script: Script,
}

/// Outcomes, each once. Contracts see them as their list.
#[derive(Drop)]
pub struct Outcomes {
    items: Vec<Outcome>,
}

impl Model for Outcomes {
    ghost use Rattle.std.specs.Prelude.{List};
    ghost use Rattle.std.specs.Coded.{codes};
    ghost use Rattle.tau_storm.specs.declared.outcomes.Outcome.{Outcome};
    ghost use Rattle.tau_storm.specs.contracts.outcomes.Outcome as outcome;

    ghost Value = { List Outcome };

    ghost coded = { Prim.hlevel (codes, outcome.the_row.coded) };

    ghost view = { λ o. o.items.items };
}

impl Outcomes {
    /// The list of these outcomes.
    pub(crate) fn from_vec(items: Vec<Outcome>) -> Outcomes
        ensures { result ≡ items.items }
    {
        Outcomes { items }
    }

    /// The list of them.
    pub(crate) fn into_vec(self) -> Vec<Outcome>
        ensures { result.items ≡ self }
    {
        self.items
    }

    /// How many there are.
    pub fn len(&self) -> usize
        ensures { result ≡ length self.now }
    {
        self.items.len()
    }

    /// The outcomes.
    pub fn items(&self) -> &[Outcome]
        ensures { result.now ≡ self.now }
    {
        &self.items
    }

    /// The first one; `None` where there is none.
    pub fn into_first(self) -> Option<Outcome>
        ensures { result ≡ slice_get self 0 }
    {
        self.items.into_iter().next()
    }
}
