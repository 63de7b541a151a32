//! Runs that journals keep, and runs by workers, with what calls answer. Standard input has sections: a line `# DISK` and calls, one a line;
//! or a line `# WAY NUMBER..` or `# deeds WORD..` and a program. For each section the line is written first. DISK is
//! - `disk BYTE..`: a disk in memory of these bytes;
//! - `fails CALL BYTE..`: the same, whose call CALL fails;
//! - `zeros COUNT`: a disk in memory of so many zeros;
//! - `stops LOOK CALLS BYTE..`: a disk in memory of these bytes; behind the answers, for each write among the first CALLS calls, what
//!   the call LOOK finds where it was stopped before its first byte, behind it and behind its last;
//! - `file`: the file `tau.journal` of the present folder.
//!
//! Each call is written with its answer. The calls are:
//! - `create PROGRAM`: makes a journal of the program, of forms with `; ` between them;
//! - `full COUNT PROGRAM`: the same, of the program with so many entries `(at 9 (fail 0))` behind its forms;
//! - `begin RECORD`: makes a journal whose one record has these lines, with `; ` between them;
//! - `append RECORD`: appends a record, whatever it is;
//! - `keep STEP`: finds the run, and keeps it with this step;
//! - `mark`: appends the record that the run went on;
//! - `records`: finds the records, whatever they are;
//! - `read`: finds the run, whether its steps are legal or not;
//! - `find`: finds the run, whose steps must be legal, and tells whether it is complete;
//! - `revive`: finds the run, and where it isn't complete revives it;
//! - `run PROGRAM`: makes the serial run of the program, with one job, the seed 0 and at most 1,000 steps, and keeps it;
//! - `resume`: goes on with the run, so too.
//!
//! `append` and `mark` go on with the journal that the call before left; where it left none, they answer `no journal`.
//!
//! For each number of a way, lines tell what came of it:
//! - `deeds WORD..`: two hands at a book with two seats do in turn what the words say, the book that comes back adopts jobs for the
//!   turns that they have left open, and a last hand goes on alone;
//! - `seats W..`: so many workers run the program on seats, as `run_workers` does it: whether the run ended, and whether it is told as
//!   complete;
//! - `checked W..`: the same, and the trace is checked: whether it is legal and complete;
//! - `lock W..`: so many workers run it on a book under a lock: whether the run ended, how many of them were short of memory, where one hand
//!   would make what is left, and whether the run is complete;
//! - `both W..`: `checked`, then `lock`;
//! - `short W..`: so many workers are short of memory behind one answer each, and one hand alone makes the steps that are left;
//! - `turns N..`: one seat takes so many turns.
//!
//! The status is 3 where the input is no text in UTF-8, 5 or 6 where reading or writing failed, and 7 without memory.
#![tactic(auto)]

mod deeds;
mod disks;
mod limited;
mod locked;
mod making;
mod on_seats;
mod pair;
mod playing;
mod recording;
mod records;
mod rest;
mod runs;
mod side;
mod texts;
mod told;
mod turns;
mod ways;

use crate::disks::{add_stops, disk_of, zeros_of};
use crate::playing::play;
use crate::ways::add_way;
use std::alloc::{AllocError, Global};
use std::fs::File;
use std::process::ExitCode;
use std::rt::Files;
use std::sync::Wait;
use std::thread::Threads;
use tau_io::{StdSink, StdSource, read_all, write_all_of};
use tau_journal::disk::FileDisk;

fn main(rt: HostRuntime) -> ExitCode {
    let alloc = rt.alloc();
    let Ok(bytes) = read_all(alloc, &mut StdSource::new(rt.stdin()), 16_777_216) else {
        return ExitCode::from(5);
    };
    let Ok(input) = str::from_utf8(&bytes) else {
        return ExitCode::from(3);
    };
    let Ok(text) = text_of(&rt, alloc, input) else {
        return ExitCode::from(7);
    };
    match write_all_of(&mut StdSink::new(rt.stdout()), text.as_bytes()) {
        Ok(()) => ExitCode::from(0),
        Err(_) => ExitCode::from(6),
    }
}

/// The text for all sections.
fn text_of<R: Files<File = File> + Threads + Wait + Sync>(
    rt: &R,
    alloc: Global,
    input: &str,
) -> Result<String, AllocError> {
    let mut text = String::new(alloc);
    for section in input.split("# ").skip(1) {
        add_section(rt, alloc, &mut text, section)?;
    }
    Ok(text)
}

/// Adds the line of a section, and what its calls answer, or what came of its ways.
fn add_section<R: Files<File = File> + Threads + Wait + Sync>(
    rt: &R,
    alloc: Global,
    text: &mut String,
    section: &str,
) -> Result<(), AllocError> {
    let (title, rest) = section.split_once("\n").unwrap_or((section, ""));
    writeln!(text, "# {title}")?;
    match title.split_whitespace().next().unwrap_or("") {
        "file" => play(alloc, text, &mut FileDisk::new(rt), rest),
        "disk" | "fails" | "zeros" | "stops" => play_in_memory(alloc, text, title, rest),
        _ => add_way(rt, alloc, text, title, rest),
    }
}

/// Adds what calls answer on a disk in memory, and with `stops` what is found where each write was stopped.
fn play_in_memory(
    alloc: Global,
    text: &mut String,
    title: &str,
    lines: &str,
) -> Result<(), AllocError> {
    let kind = title.split_whitespace().next().unwrap_or("");
    let mut disk = match kind {
        "fails" => disk_of(alloc, title, 2, true)?,
        "zeros" => zeros_of(alloc, title)?,
        "stops" => disk_of(alloc, title, 3, false)?,
        _ => disk_of(alloc, title, 1, false)?,
    };
    let mut played = play(alloc, text, &mut disk, lines);
    if kind == "stops" && played.is_ok() {
        played = add_stops(alloc, text, title, &disk);
    }
    drop(disk);
    played
}
