//! The records of a journal behind its first, each of which may go on with the run.
ghost use Rattle.std.specs.Prelude.{◌≡◌, ◌≢◌, ◌≤◌, [], ◌∷◌, None, IfOk, IsTrue, length};
ghost use Rattle.tau_value.specs.declared.limits.TheConstants.{ENTRY_LIMIT};
ghost use Rattle.tau_sexpr.specs.Tree.{Tree};
ghost use Rattle.tau_revival.specs.Revival.{LeadsOn};
ghost use Rattle.tau_run_journal.specs.Inner.Items.{TellsForm, IsFormed, AddsForm, TakesItem};

use crate::texts::is_last_text;
use std::alloc::{AllocError, Global};
use tau_revival::laws::cursors_lead_on;
use tau_revival::pass_due;
use tau_script::Cursor;
use tau_sexpr::{FormError, Forms, read_forms};
use tau_steps::{StepError, add_steps};
use tau_trace::Trace;
use tau_tree::Script;

/// Whether a record is the text of a step that may stand behind those of the trace, which then gets it; the cursor of the script comes
/// along. Where it isn't, nothing is promised of the trace and the cursor. The text is a buffer.
pub(crate) fn take_item(
    alloc: Global,
    script: &Script,
    cursor: &mut Cursor,
    trace: &mut Trace,
    text: &mut Vec<u8>,
    bytes: &[u8],
) -> Result<bool, AllocError>
    requires few { length script.now ≤ ENTRY_LIMIT }
    requires formed { IsFormed trace.old.run }
    requires cursor { LeadsOn script.now trace.old.run cursor.old }
    ensures taken { IfOk result (TakesItem trace.old.run bytes.now trace.new.run) }
    ensures cursor { IfOk result (λ b. IsTrue b → LeadsOn script.now trace.new.run cursor.new) }
{
    cursors_lead_on();
    let read = one_form(alloc, bytes)?;
    let Some(forms) = read else {
        return Ok(false);
    };
    pass_due(script, cursor, trace);
    let added = add_form(alloc, trace, &forms)?;
    if !added {
        return Ok(false);
    }
    is_last_text(alloc, text, trace, bytes)
}

/// The form of a record that has one; `None` where it has none or several.
fn one_form(alloc: Global, bytes: &[u8]) -> Result<Option<Forms>, AllocError>
    ensures { IfOk result (TellsForm bytes.now) }
{
    match read_forms(alloc, bytes) {
        Ok(forms) => {
            if forms.len() != 1 {
                return Ok(None);
            }
            Ok(Some(forms))
        }
        Err(error) => no_form(error),
    }
}

/// No form, where reading failed for another reason than want of memory.
fn no_form(error: FormError) -> Result<Option<Forms>, AllocError>
    ensures { IfOk result (λ o. (o ≡ None) × (error ≢ FormError.NoMemory)) }
{
    match error {
        FormError::NoMemory => Err(AllocError),
        _ => Ok(None),
    }
}

/// Whether the form means a step behind those of the trace, which then gets it.
fn add_form(alloc: Global, trace: &mut Trace, forms: &Forms) -> Result<bool, AllocError>
    requires { IsFormed trace.old.run }
    ensures { IfOk result (λ b. (f : Tree) → forms.now ≡ f ∷ [] → AddsForm trace.old.run f trace.new.run b) }
{
    match add_steps(alloc, trace, forms.items()) {
        Ok(()) => Ok(true),
        Err(StepError::Shape { .. }) => Ok(false),
        Err(StepError::Unknown { .. }) => Ok(false),
        Err(StepError::NoMemory) => Err(AllocError),
    }
}
