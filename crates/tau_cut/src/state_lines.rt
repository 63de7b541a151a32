//! The lines of the states that are kept, put straight behind a text: no form of a state is made.
ghost use Rattle.std.specs.Prelude.{◌≡◌, ◌∷◌, ◌++◌, ℕ, List, [], length, OnOk};
ghost use Rattle.tau_sexpr.specs.Printing.{printed};
ghost use Rattle.tau_tree.specs.declared.programs.Program.{Program};
ghost use Rattle.tau_trace.specs.Run.{len};
ghost use Rattle.tau_trace.specs.Numbering.{born};
ghost use Rattle.tau_cut.specs.KeptStates.{AreKeptWith, PutsStates};
ghost use Rattle.tau_cut.specs.Inner.Keeping.{state_form, state_row};

use crate::states::{Kept, KeptStates};
use std::alloc::AllocError;
use tau_forms::{add_count, add_name, add_value};
use tau_trace::{Opening, Trace};

/// Adds the lines of what is kept of the transactors of a trace to the end of `out` (docs/formats.md, "Cuts"), by number. The error is
/// want of memory, and a part of the lines may then be added.
pub fn put_states(out: &mut Vec<u8>, trace: &Trace, states: &KeptStates) -> Result<(), AllocError>
    requires { length states.now ≡ born trace.now.run (len trace.now.run) }
    ensures { OnOk result ((P : Program) (steps : List ℕ) → AreKeptWith P trace.now.run steps states.now → PutsStates P trace.now.run steps out.old.items out.new.items) }
{
    let rows = states.states();
    let opening = trace.opening();
    for who in 0..trace.born() {
        put_row(out, opening, who, &rows[who as usize])?;
    }
    Ok(())
}

/// Adds the line of what is kept of a transactor, if anything is.
fn put_row(
    out: &mut Vec<u8>,
    opening: &Opening,
    who: u32,
    state: &Option<Kept>,
) -> Result<(), AllocError>
    ensures { OnOk result (out.new.items ≡ out.old.items ++ printed (state_row opening.now who state.now)) }
{
    match state {
        Some(kept) => put_state(out, opening, who, kept),
        None => Ok(()),
    }
}

/// Adds the line of what is kept of a transactor.
fn put_state(out: &mut Vec<u8>, opening: &Opening, who: u32, kept: &Kept) -> Result<(), AllocError>
    ensures { OnOk result (out.new.items ≡ out.old.items ++ printed (state_form opening.now who kept.now ∷ [])) }
{
    out.extend_from_slice(b"(state")?;
    add_name(out, &opening.names, who)?;
    add_count(out, kept.interval)?;
    add_value(out, &kept.value, &opening.names)?;
    out.extend_from_slice(b")\n")
}
