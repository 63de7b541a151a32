//! Records that are found on a disk.
ghost use Rattle.std.specs.Prelude.{IfOk, IfSome};
ghost use Rattle.tau_journal.specs.Records.{IsAtRest};
ghost use Rattle.tau_journal.specs.Gates.{gate_of};

use crate::playing::made;
use crate::texts::add_lines;
use std::alloc::{AllocError, Global};
use tau_journal::disk::Disk;
use tau_journal::{Journal, Records};

/// Adds the records that are found on a disk, whatever they are, or why none are.
pub(crate) fn records<D: Disk>(
    alloc: Global,
    text: &mut String,
    disk: &mut D,
) -> Result<Option<Journal>, AllocError>
    ensures { IfOk result (λ o. IfSome o (λ j. IsAtRest (D.bytes disk.new) (D.images disk.new) (gate_of j))) }
{
    match Journal::find(alloc, disk) {
        Ok((journal, records)) => {
            let added = add_records(text, &records);
            drop(records);
            added?;
            made(text, Ok(journal))
        }
        Err(error) => made(text, Err(error)),
    }
}

/// Adds records, each with `, ` behind it and its lines as one.
fn add_records(text: &mut String, records: &Records) -> Result<(), AllocError> {
    for k in 0..records.len() {
        if let Some(record) = records.item(k) {
            add_lines(text, record)?;
            text.push_str(", ")?;
        }
    }
    Ok(())
}
