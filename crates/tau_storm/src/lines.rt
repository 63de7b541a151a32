//! The lines of an outcome.
ghost use Rattle.std.specs.Prelude.{◌≡◌, ◌++◌, ◌∷◌, ℕ, [], if◌then◌else◌, IfOk, OnOk};
ghost use Rattle.tau_sexpr.specs.Printing.{printed};
ghost use Rattle.tau_tree.specs.Sound.{Sound};
ghost use Rattle.tau_legal.specs.Ends.{EndsAt};
ghost use Rattle.tau_storm.specs.Outcomes.{open_form, EndsWithLines};

use crate::outcomes::Lines;
use std::alloc::{AllocError, Global};
use tau_cut::{end_states, put_states};
use tau_faults::Ran;
use tau_report::put_saved;
use tau_tree::Program;

/// How many bytes are taken for the lines at once; most runs end by fewer.
const USUAL_LEN: usize = 256;

/// The lines by which a run ends (docs/definitions.md, "Storm"). The error is want of memory.
pub fn lines_of(alloc: Global, program: &Program, ran: &Ran) -> Result<Lines, AllocError>
    requires sound { Sound program.now }
    requires ends { (limit : ℕ) × EndsAt limit program.now ran.now.trace.run ran.now.is_complete }
    ensures { IfOk result (EndsWithLines program.now ran.now.trace.run) }
{
    let mut bytes = Vec::with_capacity(alloc, USUAL_LEN)?;
    put_open(&mut bytes, ran.is_complete)?;
    let end = end_states(alloc, program, &ran.trace)?;
    put_saved(&mut bytes, &ran.trace, &end.states)?;
    put_states(&mut bytes, &ran.trace, &end.kept)?;
    Ok(Lines::from_vec(bytes))
}

/// Adds the line that tells that a run isn't complete, where it isn't.
fn put_open(out: &mut Vec<u8>, is_complete: bool) -> Result<(), AllocError>
    ensures { OnOk result (out.new.items ≡ out.old.items ++ printed (if is_complete then [] else open_form ∷ [])) }
{
    if is_complete {
        return Ok(());
    }
    out.extend_from_slice(b"(open)\n")
}
