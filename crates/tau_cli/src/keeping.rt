//! The command `keep`.
ghost use Rattle.std.specs.Prelude.{◌≡◌, ◌≤◌};
ghost use Rattle.tau_value.specs.declared.limits.TheConstants.{STEP_LIMIT};
ghost use Rattle.tau_book.specs.declared.limits.TheConstants.{JOB_LIMIT};
ghost use Rattle.tau_cli.specs.Effects.{effect_on, disk_effect};
ghost use Rattle.tau_cli.specs.Inner.{Keeps};

use crate::Status;
use crate::reading::read_input;
use std::alloc::Global;
use tau_io::Source;
use tau_journal::disk::Disk;
use tau_journaling::keep_run;
use tau_output::{Gate, Output, write_run};
use tau_text::read_program;

/// Makes the serial run of the program that an input spells, and keeps it in a new journal; the run text, or the status with which
/// that ends before anything is written.
pub(crate) fn kept_text<I: Source, G: Gate, D: Disk>(
    alloc: Global,
    jobs: u32,
    seed: u64,
    steps: u32,
    input: &mut I,
    disk: &mut D,
    gate: &G,
) -> Result<Output, Status>
    requires some { 1 ≤ jobs }
    requires few { jobs ≤ JOB_LIMIT }
    requires limit { steps ≤ STEP_LIMIT }
    ensures { Keeps jobs seed steps (effect_on I.left I.faults input.old input.new)
        (disk_effect D.bytes D.images D.moment D.left_since D.faults disk.old disk.new) result }
{
    let bytes = read_input(alloc, input)?;
    let program = read_program(alloc, &bytes)?;
    let ran = keep_run(alloc, &program, jobs, seed, steps, disk, gate)?;
    Ok(write_run(alloc, &program, &ran.trace, ran.is_complete)?)
}
