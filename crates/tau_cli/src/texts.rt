//! The commands that make one text of one input.
ghost use Rattle.std.specs.Prelude.{◌≡◌};
ghost use Rattle.tau_output.specs.Writing.{Writes, WritesSerially, HasLimit};
ghost use Rattle.tau_cli.specs.Effects.{effect_on};
ghost use Rattle.tau_cli.specs.Inner.{Makes};

use crate::Status;
use crate::reading::input_of;
use std::alloc::Global;
use std::sync::Wait;
use std::thread::Threads;
use tau_command::TextCommand;
use tau_io::Source;
use tau_output::{Gate, Output, Watch, output_by_workers, output_of};

/// Reads the input of a command, and makes its text on the caller's thread alone; or the status with which that ends before anything is
/// written.
pub(crate) fn serial_text<I: Source>(
    alloc: Global,
    command: TextCommand,
    input: &mut I,
) -> Result<Output, Status>
    requires limit { HasLimit command }
    ensures { Makes WritesSerially command (effect_on I.left I.faults input.old input.new) result }
{
    let bytes = input_of(alloc, &command, input)?;
    Ok(output_of(alloc, command, &bytes)?)
}

/// Does so, but `run` and `storm` with two workers or more start a thread for each of them.
pub(crate) fn text_by_workers<R: Threads + Wait + Sync, I: Source, G: Gate + Watch + Sync>(
    rt: &R,
    alloc: Global,
    command: TextCommand,
    input: &mut I,
    gate: &G,
) -> Result<Output, Status>
    requires limit { HasLimit command }
    ensures { Makes Writes command (effect_on I.left I.faults input.old input.new) result }
{
    let bytes = input_of(alloc, &command, input)?;
    Ok(output_by_workers(rt, alloc, command, &bytes, gate)?)
}
