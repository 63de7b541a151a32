//! The lines of saved states, put straight behind a text: no form of a saved state is made.
ghost use Rattle.std.specs.Prelude.{◌≡◌, ◌<◌, ◌^◌, ◌∷◌, ◌++◌, [], length, All, OnOk};
ghost use Rattle.tau_sexpr.specs.Printing.{printed, HasBytes};
ghost use Rattle.tau_value.specs.Names.{AreNames};
ghost use Rattle.tau_value.specs.Value.{val_of};
ghost use Rattle.tau_value.specs.Written.{IsWritten};
ghost use Rattle.tau_report.specs.Inner.Rows as rows;
ghost use Rattle.tau_report.specs.Inner.Rows.{saved_form, saved_row, IsRowWritten, PutsRows};

use std::alloc::AllocError;
use tau_forms::{add_count, add_name, add_value};
use tau_states::StateRecord;
use tau_trace::Opening;

/// Adds the lines of the saved states of transactors, by number, from their records. The error is want of memory, and a part
/// of the lines may then be added.
pub(crate) fn put_rows(
    out: &mut Vec<u8>,
    opening: &Opening,
    records: &[StateRecord],
) -> Result<(), AllocError>
    requires names { AreNames opening.now.names }
    requires few { length records.now < 2 ^ 32 }
    ensures { OnOk result (PutsRows opening.now records.now (length records.now) out.old.items out.new.items) }
{
    for (who, saved) in records.iter().enumerate() {
        put_row(out, opening, who as u32, saved)?;
    }
    Ok(())
}

/// Adds the line of a transactor's saved state, if it has one and has not ended.
fn put_row(
    out: &mut Vec<u8>,
    opening: &Opening,
    who: u32,
    saved: &StateRecord,
) -> Result<(), AllocError>
    requires { AreNames opening.now.names }
    ensures text { OnOk result (out.new.items ≡ out.old.items ++ printed (saved_row opening.now who saved.now)) }
    ensures bytes { OnOk result (All HasBytes (saved_row opening.now who saved.now)) }
    ensures written { OnOk result (IsRowWritten opening.now saved.now) }
{
    if is_unlisted(saved) {
        return Ok(());
    }
    put_state(out, opening, who, saved)
}

/// Whether a transactor has ended or is at interval 0.
fn is_unlisted(saved: &StateRecord) -> bool
    ensures { result ≡ rows.is_unlisted saved.now }
{
    saved.ended || saved.interval == 0
}

/// Adds the line of a transactor's saved state.
#[tactic(auto, using(tau_sexpr::proofs::Literals::word_literal), unfolding(tau_sexpr::specs::Bytes::is_word_byte, tau_sexpr::specs::Bytes::is_letter_or_digit, tau_sexpr::specs::Bytes::is_word_sign))]
fn put_state(
    out: &mut Vec<u8>,
    opening: &Opening,
    who: u32,
    saved: &StateRecord,
) -> Result<(), AllocError>
    requires { AreNames opening.now.names }
    ensures text { OnOk result (out.new.items ≡ out.old.items ++ printed (saved_form opening.now who saved.now.interval saved.now.base ∷ [])) }
    ensures bytes { OnOk result (HasBytes (saved_form opening.now who saved.now.interval saved.now.base)) }
    ensures written { OnOk result (IsWritten opening.now.names (val_of saved.now.base)) }
{
    out.extend_from_slice(b"(saved")?;
    add_name(out, &opening.names, who)?;
    add_count(out, saved.interval)?;
    add_value(out, &saved.base, &opening.names)?;
    out.extend_from_slice(b")\n")
}
