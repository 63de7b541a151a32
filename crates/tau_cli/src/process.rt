//! The process: its command line, its standard input and output, its disk, and the number that it ends with.
ghost use Rattle.std.specs.Prelude.{◌≡◌, ℕ, List, Result};
ghost use Rattle.std.specs.Process.{exit_status};
ghost use Rattle.tau_command.specs.declared.commands.WordsError.{WordsError};
ghost use Rattle.tau_output.specs.Writing.{Writes};
ghost use Rattle.tau_cli.specs.Effects.{effect_on, disk_effect};
ghost use Rattle.tau_cli.specs.Ends.{EndsFor, Exits};
ghost use Rattle.tau_cli.specs.Status.{number_of};

use crate::{Status, number, tau};
use std::alloc::Global;
use std::env;
use std::io::{self, ErrorKind};
use std::process::ExitCode;
use std::rt::Env;
use std::sync::Wait;
use std::thread::Threads;
use tau_command::{Line, Words, WordsError};
use tau_io::{Sink, Source};
use tau_journal::disk::Disk;
use tau_output::{Gate, Watch};

/// Does what the command line of the process asks for, by one call of [`tau`](crate::tau). It prints the line of the status
/// on standard error, and gives the number of the status (docs/formats.md, "Statuses"). A word that isn't UTF-8 is a faulty
/// command line; without memory for the words the status is `NoMemory`.
///
/// Which words the process has, and what its standard error takes, no contract says.
pub fn run_process<
    R: Env + Alloc + Eprint + Threads + Wait + Sync,
    I: Source,
    O: Sink,
    D: Disk,
    G: Gate + Watch + Sync,
>(rt: &R, alloc: Global, input: &mut I, output: &mut O, disk: &mut D, gate: &G) -> ExitCode
    ensures { (words : Result (List (List ℕ)) WordsError)
        × Exits Writes words (effect_on I.left I.faults input.old input.new)
        (effect_on O.held O.faults output.old output.new)
        (disk_effect D.bytes D.images D.moment D.left_since D.faults disk.old disk.new) (exit_status result) }
{
    let words = collect_words(rt, alloc);
    run_words(rt, alloc, words, input, output, disk, gate)
}

/// Does what these words ask for, by one call of [`tau`](crate::tau), and nothing where they couldn't be collected. It prints
/// the line of the status on standard error, and gives the number of the status (docs/formats.md, "Statuses").
pub fn run_words<
    R: Eprint + Threads + Wait + Sync,
    I: Source,
    O: Sink,
    D: Disk,
    G: Gate + Watch + Sync,
>(
    rt: &R,
    alloc: Global,
    words: Result<Words, WordsError>,
    input: &mut I,
    output: &mut O,
    disk: &mut D,
    gate: &G,
) -> ExitCode
    ensures { Exits Writes words (effect_on I.left I.faults input.old input.new)
        (effect_on O.held O.faults output.old output.new)
        (disk_effect D.bytes D.images D.moment D.left_since D.faults disk.old disk.new) (exit_status result) }
{
    let status = call_tau(rt, alloc, words, input, output, disk, gate);
    if status != Status::Done {
        // Nothing is left to do where standard error takes no line.
        let _ = eprintln!(rt; "{status}");
    }
    exit_code(&status)
}

/// What ends the process: the number of the status (docs/formats.md, "Statuses").
pub fn exit_code(status: &Status) -> ExitCode
    ensures { exit_status result ≡ number_of status.now }
{
    ExitCode::from(number(status))
}

/// The call of `tau`, for words of which the collection may have failed.
fn call_tau<R: Threads + Wait + Sync, I: Source, O: Sink, D: Disk, G: Gate + Watch + Sync>(
    rt: &R,
    alloc: Global,
    words: Result<Words, WordsError>,
    input: &mut I,
    output: &mut O,
    disk: &mut D,
    gate: &G,
) -> Status
    ensures { EndsFor Writes words (effect_on I.left I.faults input.old input.new)
        (effect_on O.held O.faults output.old output.new)
        (disk_effect D.bytes D.images D.moment D.left_since D.faults disk.old disk.new) result }
{
    match words {
        Ok(words) => tau(rt, alloc, &words, input, output, disk, gate),
        Err(error) => Status::from(error),
    }
}

/// The words of the command line, without the program's own name.
fn collect_words<R: Env + Alloc>(rt: &R, alloc: Global) -> Result<Words, WordsError> {
    let mut words = Words::new(alloc);
    for word in env::args(rt).map_err(words_error)?.skip(1) {
        let line = Line::of(alloc, word.as_str())?;
        words.add(line)?;
    }
    Ok(words)
}

/// A word that isn't UTF-8 is a faulty command line.
fn words_error(error: io::Error) -> WordsError {
    match error.kind() {
        ErrorKind::OutOfMemory => WordsError::NoMemory,
        _ => WordsError::Words,
    }
}
