//! The commands, from the words to the status.
ghost use Rattle.std.specs.Prelude.{◌≡◌};
ghost use Rattle.tau_output.specs.Writing.{Writes, WritesSerially};
ghost use Rattle.tau_cli.specs.Effects.{effect_on, disk_effect};
ghost use Rattle.tau_cli.specs.Ends.{Ends};
ghost use Rattle.tau_cli.specs.Inner.{Finishes};

use crate::Status;
use crate::keeping::kept_text;
use crate::resuming::resumed_text;
use crate::texts::{serial_text, text_by_workers};
use std::alloc::Global;
use std::sync::Wait;
use std::thread::Threads;
use tau_command::{Command, Words, read_words};
use tau_io::{Sink, Source, WriteError, write_all_of};
use tau_journal::disk::Disk;
use tau_output::{Gate, Output, Watch};

/// Does what the words of a command line ask for: reads the input of their command, which is at most 16 MiB, and writes
/// its text, in one call of `write_all_of`. It does all on the caller's thread, and starts no other.
///
/// `keep` reads a program, and makes its serial run, each step of which is kept in a new journal on the disk before the next
/// is made. `resume` reads nothing, and goes on with the run for which the disk stands (docs/journal.md, "Commands"). With every other
/// command the disk stays.
///
/// The status says how it ended (docs/formats.md, "Statuses"): `Words` exactly where the words name no command, and then
/// nothing is read; `ReadFault` only where the source's count of faults rose; `Input` exactly where the input has a fault,
/// the first one (docs/formats.md, "Input faults"), of `keep` as of `run`; `Place` exactly where `why` asks for a place at which no Hold,
/// Drop or Fall stands, or `draw` for one at which no Checkpoint stands either that can't be kept; `NoClaim` exactly where `storm` claims
/// a behaviour that the program hasn't, and `NoOutcome` where it is to show an outcome that there isn't. Of `keep`, `Journal` exactly
/// where the disk isn't blank or has no room, and of `resume` by the table of docs/formats.md, "Journal"; `DiskFault` only where the
/// disk's count of faults rose. After these nothing is written to the sink, and after all but fault 8 and `DiskFault` the disk's bytes are
/// as they were.
///
/// `Done`, `Stopped`, `Bad`, `Broken` and `Claim` come where the whole text was written: with `run` the run text of the input's program
/// and a legal run, which is complete with `Done`, and has exactly as many steps as its limit and isn't complete with `Stopped`, and so
/// with `keep` and `resume`; with `check` the line for the first step that isn't legal with `Bad`, and with `audit` the line for the first
/// checkpoint that isn't safe with `Broken`; with `migrate` the run text of the same steps in version 2, where each is legal, and with
/// `Bad` the line for the first that isn't; with `why` the first of the shortest chains to a cause, with `cut` the greatest set of
/// checkpoints that could all be kept, and with `draw` the picture of the run. `gen` and `drill` read nothing, and `drill` ends with `Done`
/// or `Stopped` as the run does that it tells of.
///
/// `WriteFault` comes only where the sink's count rose; the sink then holds a front of such a text more than before, and the disk of `keep`
/// and of `resume` stands for the whole run all the same. `NoMemory` may come in place of each; nothing or a front of the text is written
/// then.
pub fn tau_still<I: Source, O: Sink, D: Disk, G: Gate>(
    alloc: Global,
    words: &Words,
    input: &mut I,
    output: &mut O,
    disk: &mut D,
    gate: &G,
) -> Status
    // With `run` the text is as `RunsBy` says of one worker.
    ensures { Ends WritesSerially words.now (effect_on I.left I.faults input.old input.new)
        (effect_on O.held O.faults output.old output.new)
        (disk_effect D.bytes D.images D.moment D.left_since D.faults disk.old disk.new) result }
{
    match read_words(alloc, words) {
        Ok(Command::Keep { jobs, seed, steps }) => finish(
            kept_text(alloc, jobs, seed, steps, input, disk, gate),
            output,
        ),
        Ok(Command::Resume { jobs, seed, steps }) => finish(
            resumed_text(alloc, jobs, seed, steps, disk, gate),
            output,
        ),
        Ok(Command::Text(command)) => finish(serial_text(alloc, command, input), output),
        Err(error) => Status::from(error),
    }
}

/// Does what the words of a command line ask for, as [`tau_still`] does, but `run` and `storm` with two workers or more start a thread for
/// each of them (docs/rules.md, "Workers", "Storm"). It waits for them, so all is said of it if it returns. Of several workers' run it is
/// said that it is a legal run of the input's program, and not which one; what `storm` writes is the same whatever their number. Each
/// evaluation of a `run` stands between a call of the gate's `enter` and one of its `leave`, and while the runs of a `storm` are made, the
/// gate is told of them.
pub fn tau<R: Threads + Wait + Sync, I: Source, O: Sink, D: Disk, G: Gate + Watch + Sync>(
    rt: &R,
    alloc: Global,
    words: &Words,
    input: &mut I,
    output: &mut O,
    disk: &mut D,
    gate: &G,
) -> Status
    // With `run` the text is as `RunsBy` says of as many workers as are told.
    ensures { Ends Writes words.now (effect_on I.left I.faults input.old input.new)
        (effect_on O.held O.faults output.old output.new)
        (disk_effect D.bytes D.images D.moment D.left_since D.faults disk.old disk.new) result }
{
    match read_words(alloc, words) {
        Ok(Command::Keep { jobs, seed, steps }) => finish(
            kept_text(alloc, jobs, seed, steps, input, disk, gate),
            output,
        ),
        Ok(Command::Resume { jobs, seed, steps }) => finish(
            resumed_text(alloc, jobs, seed, steps, disk, gate),
            output,
        ),
        Ok(Command::Text(command)) => finish(
            text_by_workers(rt, alloc, command, input, gate),
            output,
        ),
        Err(error) => Status::from(error),
    }
}

/// Writes an output, in one call of `write_all_of`, and nothing where there is none.
fn finish<O: Sink>(made: Result<Output, Status>, output: &mut O) -> Status
    ensures { Finishes made (effect_on O.held O.faults output.old output.new) result }
{
    match made {
        Ok(answer) => match write_all_of(output, &answer.text) {
            Ok(()) => Status::from(answer.end),
            Err(WriteError::WriteFault) => Status::WriteFault,
            Err(WriteError::NoMemory) => Status::NoMemory,
        },
        Err(refusal) => refusal,
    }
}
