//! Making journals.
ghost use Rattle.std.specs.Prelude.{◌≡◌, None, IfOk, IfSome};
ghost use Rattle.tau_journal.specs.Records.{IsAtRest};
ghost use Rattle.tau_journal.specs.Gates.{gate_of};

use crate::playing::made;
use std::alloc::{AllocError, Global};
use tau_journal::Journal;
use tau_journal::disk::Disk;
use tau_text::{InputError, read_program};

/// Makes a journal of a program.
pub(crate) fn create<D: Disk>(
    alloc: Global,
    text: &mut String,
    disk: &mut D,
    forms: &String,
) -> Result<Option<Journal>, AllocError>
    ensures { IfOk result (λ o. IfSome o (λ j. IsAtRest (D.bytes disk.new) (D.images disk.new) (gate_of j))) }
{
    match read_program(alloc, forms.as_bytes()) {
        Ok(program) => {
            let created = tau_run_journal::create(alloc, disk, &program);
            drop(program);
            made(text, created)
        }
        Err(error) => no_program(text, error),
    }
}

/// Adds why a text is no program.
pub(crate) fn no_program(
    text: &mut String,
    error: InputError,
) -> Result<Option<Journal>, AllocError>
    ensures { IfOk result (λ o. o ≡ None) }
{
    writeln!(text, "{error}")?;
    Ok(None)
}

/// Makes a journal of one record, whatever it is.
pub(crate) fn begin<D: Disk>(
    alloc: Global,
    text: &mut String,
    disk: &mut D,
    record: &String,
) -> Result<Option<Journal>, AllocError>
    ensures { IfOk result (λ o. IfSome o (λ j. IsAtRest (D.bytes disk.new) (D.images disk.new) (gate_of j))) }
{
    made(text, Journal::create(alloc, disk, record.as_bytes()))
}
