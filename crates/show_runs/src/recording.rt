//! Runs that are made and kept on a disk.
ghost use Rattle.std.specs.Prelude.{◌≡◌, None, IfOk};
ghost use Rattle.tau_tree.specs.Sound.{Sound};

use crate::making::no_program;
use crate::runs::{add_judged, none};
use std::alloc::{AllocError, Global};
use tau_book::{OpenGate, Ran};
use tau_journal::Journal;
use tau_journal::disk::Disk;
use tau_journaling::{keep_run, resume_run};
use tau_text::read_program;
use tau_tree::Program;

/// How many jobs the hand has room for, its seed, and the most steps of a run.
const JOBS: u32 = 1;

const SEED: u64 = 0;

const STEPS: u32 = 1_000;

/// Makes the run of a program, and keeps it.
pub(crate) fn run<D: Disk>(
    alloc: Global,
    text: &mut String,
    disk: &mut D,
    forms: &String,
) -> Result<Option<Journal>, AllocError>
    ensures { IfOk result (λ o. o ≡ None) }
{
    match read_program(alloc, forms.as_bytes()) {
        Ok(program) => {
            let ran = run_program(alloc, text, disk, &program);
            drop(program);
            ran
        }
        Err(error) => no_program(text, error),
    }
}

/// Makes the run of a program, keeps it, and adds how it ends.
fn run_program<D: Disk>(
    alloc: Global,
    text: &mut String,
    disk: &mut D,
    program: &Program,
) -> Result<Option<Journal>, AllocError>
    requires { Sound program.now }
    ensures { IfOk result (λ o. o ≡ None) }
{
    match keep_run(alloc, program, JOBS, SEED, STEPS, disk, &OpenGate) {
        Ok(ran) => {
            let added = add_ran(alloc, text, program, &ran);
            drop(ran);
            added
        }
        Err(error) => none(text, error),
    }
}

/// Goes on with the run of a disk, and adds how it ends.
pub(crate) fn resume<D: Disk>(
    alloc: Global,
    text: &mut String,
    disk: &mut D,
) -> Result<Option<Journal>, AllocError>
    ensures { IfOk result (λ o. o ≡ None) }
{
    match resume_run(alloc, JOBS, SEED, STEPS, disk, &OpenGate) {
        Ok(resumed) => {
            let added = add_ran(alloc, text, &resumed.program, &resumed.ran);
            drop(resumed);
            added
        }
        Err(error) => none(text, error),
    }
}

/// Adds a program and its run, which is kept.
fn add_ran(
    alloc: Global,
    text: &mut String,
    program: &Program,
    ran: &Ran,
) -> Result<Option<Journal>, AllocError>
    requires { Sound program.now }
    ensures { IfOk result (λ o. o ≡ None) }
{
    add_judged(alloc, text, program, &ran.trace, ran.is_complete)?;
    text.push_str("kept\n")?;
    Ok(None)
}
