//! Programs built in a second reading of their forms.
ghost use Rattle.std.specs.Prelude.{◌≡◌, ◌+◌, ◌<◌, ◌≤◌, ◌^◌, [], ◌∷◌, ◌++◌, List, None, map, IfOk, IfErr, OnOk};
ghost use Rattle.tau_sexpr.specs.Form.{tree_of};
ghost use Rattle.tau_sexpr.specs.Tree.{Tree, depths, sizes};
ghost use Rattle.tau_tree.specs.Sound.{Sound};
ghost use Rattle.tau_forms.specs.Faults.{IsFault};
ghost use Rattle.tau_forms.specs.Meaning.{Means};
ghost use Rattle.tau_forms.specs.Readings.{HasTaken, ComesNext};
ghost use Rattle.tau_forms.specs.Tops.{limit_of, tables_of};

use crate::ProgramError;
use crate::programs::Draft;
use crate::tables::{Defined, Tables};
use crate::tops::check_top;
use std::alloc::Global;
use tau_sexpr::Form;
use tau_tree::Program;

/// The program of forms of which an outline was made: the second of two readings of them (docs/formats.md, "Programs"), in
/// which they come in the same order, some at a time. Each is checked, and what it defines is added to the program.
#[derive(Drop)]
pub struct ProgramBuilder {
    tables: Tables,
    earlier: Defined,
    node: u64,
    draft: Draft,
}

impl ProgramBuilder {
    /// Before the first form of a program that defines this. It takes no memory.
    pub(crate) fn new(alloc: Global, tables: Tables) -> ProgramBuilder
        ensures { (ts : List Tree) → limit_of ts ≡ None → sizes ts + 1 < 2 ^ 64 → tables ≡ tables_of ts
            → HasTaken ts [] result }
    {
        ProgramBuilder {
            tables,
            earlier: Defined::new(alloc),
            node: 0,
            draft: Draft::new(alloc),
        }
    }

    /// Takes the next forms. The error is the first fault of all forms, which is in these (`Shape`, `Unknown` or `Twice`; where
    /// a node has several faults, in this order), or want of memory.
    pub fn add(&mut self, alloc: Global, forms: &[Form]) -> Result<(), ProgramError>
        requires { ComesNext self.old (map tree_of forms.now) }
        ensures taken { OnOk result ((ts before after : List Tree) → ts ≡ before ++ (map tree_of forms.now ++ after)
            → HasTaken ts before self.old → HasTaken ts (before ++ map tree_of forms.now) self.new) }
        ensures fault { IfErr result (λ e. (ts before after : List Tree) → ts ≡ before ++ (map tree_of forms.now ++ after)
            → HasTaken ts before self.old → IsFault ts e) }
    {
        for form in forms {
            self.take(alloc, form)?;
        }
        Ok(())
    }

    /// Takes the next form.
    fn take(&mut self, alloc: Global, form: &Form) -> Result<(), ProgramError>
        requires { ComesNext self.old (tree_of form.now ∷ []) }
        ensures taken { OnOk result ((ts before after : List Tree) → ts ≡ before ++ (tree_of form.now ∷ after)
            → HasTaken ts before self.old → HasTaken ts (before ++ tree_of form.now ∷ []) self.new) }
        ensures fault { IfErr result (λ e. (ts before after : List Tree) → ts ≡ before ++ (tree_of form.now ∷ after)
            → HasTaken ts before self.old → IsFault ts e) }
    {
        check_top(alloc, form, &self.tables, &self.earlier, &mut self.node)?;
        self.earlier.note(form)?;
        self.draft.add(alloc, form, &self.tables)?;
        Ok(())
    }

    /// The program, once all forms have been taken. It is sound where at most 200 lists stand in one another.
    /// The error is `Shape` at the node behind the last where no number of nodes stands among the forms, or want of memory.
    pub fn finish(self) -> Result<Program, ProgramError>
        requires { ComesNext self [] }
        ensures program { (ts : List Tree) → HasTaken ts ts self → IfOk result (Means ts) }
        ensures sound { (ts : List Tree) → HasTaken ts ts self → depths ts ≤ 200 → IfOk result Sound }
        ensures fault { (ts : List Tree) → HasTaken ts ts self → IfErr result (IsFault ts) }
    {
        match self.earlier.nodes {
            Some(_) => Ok(self.draft.finish(&self.tables)),
            None => Err(ProgramError::Shape { node: self.node }),
        }
    }
}
