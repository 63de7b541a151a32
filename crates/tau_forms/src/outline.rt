//! What a program's forms define, found in a first reading of them.
ghost use Rattle.std.specs.Prelude.{◌≡◌, ◌-◌, ◌^◌, min, [], ◌∷◌, ◌++◌, List, map, IfOk, IfErr, OnOk};
ghost use Rattle.tau_sexpr.specs.Form.{tree_of};
ghost use Rattle.tau_sexpr.specs.Tree.{Tree};
ghost use Rattle.tau_forms.specs.Faults.{IsFault};
ghost use Rattle.tau_forms.specs.Readings.{IsOutline, HasTaken};
ghost use Rattle.tau_forms.specs.Tops.{count_of, is_other};

use crate::ProgramError;
use crate::builder::ProgramBuilder;
use crate::limits::Counts;
use crate::tables::{Defined, sort_of_form};
use std::alloc::{AllocError, Global};
use tau_sexpr::Form;

/// What the forms of a program define, and how many there are: the first of two readings of them (docs/formats.md,
/// "Programs"), in which they come in order, some at a time. So a caller needs to have few of them in memory at once.
#[derive(Drop)]
pub struct Outline {
    counts: Counts,
    nodes: u64,
    defined: Defined,
}

impl Outline {
    /// Before the first form. It takes no memory.
    pub fn new(alloc: Global) -> Outline
        ensures { IsOutline [] result }
    {
        Outline {
            counts: Counts::none(),
            nodes: 0,
            defined: Defined::new(alloc),
        }
    }

    /// Goes on behind the next forms. It takes memory for the names that they define. The error is want of memory, and some of
    /// the forms may then be noted.
    pub fn add(&mut self, forms: &[Form]) -> Result<(), AllocError>
        ensures { OnOk result ((before : List Tree) → IsOutline before self.old
            → IsOutline (before ++ map tree_of forms.now) self.new) }
    {
        for form in forms {
            self.note(form)?;
        }
        Ok(())
    }

    /// Goes on behind the next form. The error is want of memory.
    fn note(&mut self, form: &Form) -> Result<(), AllocError>
        ensures { OnOk result ((before : List Tree) → IsOutline before self.old
            → IsOutline (before ++ tree_of form.now ∷ []) self.new) }
    {
        self.counts.note(sort_of_form(form));
        self.nodes = self.nodes.saturating_add(form.size());
        self.defined.note(form)
    }

    /// How many of the forms are no lists of a kind that programs have: where there is one, the forms mean no program. A greater
    /// number is told as the last of usize.
    pub fn others(&self) -> usize
        ensures { (ts : List Tree) → IsOutline ts self.now → result ≡ min (count_of is_other ts) (2 ^ 64 - 1) }
    {
        self.counts.others()
    }

    /// What builds the program of all forms, which have been noted, in a second reading.
    /// `Limit` comes exactly where there are too many lists of a kind, the least such kind; the only other error is want of
    /// memory.
    pub fn builder(self, alloc: Global) -> Result<ProgramBuilder, ProgramError>
        ensures builder { (ts : List Tree) → IsOutline ts self → IfOk result (HasTaken ts []) }
        ensures fault { (ts : List Tree) → IsOutline ts self → IfErr result (IsFault ts) }
    {
        if let Some(which) = self.counts.limit() {
            return Err(ProgramError::Limit { which });
        }
        // So many nodes don't fit into memory, so their numbers fit into 64 bits.
        if self.nodes == u64::MAX {
            return Err(ProgramError::NoMemory);
        }
        Ok(ProgramBuilder::new(alloc, self.defined.tables()))
    }
}
