//! The forms of a front of an input, which are kept so that they needn't be read again.
ghost use Rattle.std.specs.Prelude.{◌≡◌, ◌≤◌, List, ℕ, length, OnOk};
ghost use Rattle.tau_sexpr.specs.Rest.{forms_from, behind};
ghost use Rattle.tau_text.specs.Inner.Surveyed.{IsFront};

use std::alloc::{AllocError, Global};
use tau_sexpr::Forms;

/// The forms of an input from its start up to a place, as they were read some at a time.
#[derive(Drop)]
pub(crate) struct Front {
    pub(crate) pieces: Vec<Forms>,
    pub(crate) end: usize,
}

impl Front {
    /// The front that is empty. It takes no memory.
    pub(crate) fn new(alloc: Global) -> Front
        ensures { (bytes : List ℕ) → IsFront bytes result }
    {
        Front {
            pieces: Vec::new(alloc),
            end: 0,
        }
    }

    /// Keeps the forms between two places, where the front ends at the first; otherwise they are dropped. The error is
    /// want of memory.
    pub(crate) fn keep(&mut self, forms: Forms, from: usize, to: usize) -> Result<(), AllocError>
        ensures { OnOk result ((bytes : List ℕ) → to ≤ length bytes
            → forms_from bytes from ≡ behind forms (forms_from bytes to)
            → IsFront bytes self.old → IsFront bytes self.new) }
    {
        if self.end == from {
            self.pieces.push(forms)?;
            self.end = to;
        }
        Ok(())
    }
}
