//! The command `resume`.
ghost use Rattle.std.specs.Prelude.{◌≡◌, ◌≤◌};
ghost use Rattle.tau_value.specs.declared.limits.TheConstants.{STEP_LIMIT};
ghost use Rattle.tau_book.specs.declared.limits.TheConstants.{JOB_LIMIT};
ghost use Rattle.tau_cli.specs.Effects.{disk_effect};
ghost use Rattle.tau_cli.specs.Inner.{Resumes};

use crate::Status;
use std::alloc::Global;
use tau_journal::disk::Disk;
use tau_journaling::resume_run;
use tau_output::{Gate, Output, write_run};

/// Goes on with the run for which a disk stands; the run text, or the status with which that ends before anything is written.
pub(crate) fn resumed_text<G: Gate, D: Disk>(
    alloc: Global,
    jobs: u32,
    seed: u64,
    steps: u32,
    disk: &mut D,
    gate: &G,
) -> Result<Output, Status>
    requires some { 1 ≤ jobs }
    requires few { jobs ≤ JOB_LIMIT }
    requires limit { steps ≤ STEP_LIMIT }
    ensures { Resumes jobs seed steps (disk_effect D.bytes D.images D.moment D.left_since D.faults disk.old disk.new) result }
{
    let resumed = resume_run(alloc, jobs, seed, steps, disk, gate)?;
    let ran = resumed.ran;
    Ok(write_run(alloc, &resumed.program, &ran.trace, ran.is_complete)?)
}
