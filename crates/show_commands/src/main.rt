//! Commands with what `tau` writes for them: worked rows, hostile texts, limits at their last value and one past it, and reads and
//! writes that fail. Standard input has sections: a line `# WORDS` or `# WORDS ; TITLE`, and then an input (`inputs.rt`). For each
//! section the line is written, then what the command of these words writes for the input on one thread, and on a line `; N LINE` the
//! number of its status and the status's line on standard error. What stands at once behind the `#` tells more:
//!
//! - nothing: of `run` with one worker and of `storm` a further line says whether the call that starts threads does the same;
//! - `#`: as nothing, but the run text is shown by the number of its steps and the last two alone, and then by what `check` writes for it;
//! - a number: the number of lines that the command writes stands in place of them, and behind it so many of the last ones;
//! - `=`: for each line `;? TEXT` of the input, how many of the lines that the command writes hold the text stands in place of them;
//!   they are written by the call that starts threads;
//! - `!`: what comes where a read or a write fails (`failing.rt`);
//! - `?`: what comes where the read behind the last byte that an input may have fails;
//! - `@`: several commands with ` | ` between them, over one disk in memory (`kept.rt`);
//! - `*`: what comes where a call of the disk fails, and of `resume` then;
//! - `+`: what holds of the traces where two workers are held by gates, so that one input gives two traces, by `run_workers` and by the
//!   command (`cases.rt`);
//! - `&`: which evaluations began and which records were kept, one after another (`events.rt`), in place of what the command writes.
//!
//! The last line is that of a want of memory.
#![tactic(auto)]

mod answers;
mod calls;
mod cases;
mod counted;
mod events;
mod facts;
mod failing;
mod holding;
mod inputs;
mod kept;
mod words;

use crate::answers::{add_check, add_last_lines, add_last_steps, add_status};
use crate::calls::{still, with_threads};
use crate::cases::add_cases;
use crate::counted::add_counts;
use crate::failing::{Tried, add_failures, add_late_failure};
use crate::inputs::{input_of, line_of};
use crate::kept::{add_events, add_failing_disk, add_kept};
use crate::words::{words_of, writes_one_text};
use std::alloc::{AllocError, Global};
use std::process::ExitCode;
use std::sync::Wait;
use std::thread::Threads;
use tau_cli::{Status, Words};
use tau_io::{StdSink, StdSource, SteadySink, SteadySource, read_all, write_all_of};

fn main(rt: HostRuntime) -> ExitCode {
    let alloc = rt.alloc();
    let mut input = StdSource::new(rt.stdin());
    let mut output = StdSink::new(rt.stdout());
    let Ok(bytes) = read_all(alloc, &mut input, 16_777_216) else {
        return ExitCode::from(5);
    };
    let Ok(text) = text_of(&rt, alloc, &bytes) else {
        return ExitCode::from(7);
    };
    match write_all_of(&mut output, &text) {
        Ok(()) => ExitCode::from(0),
        Err(_) => ExitCode::from(6),
    }
}

/// The text for all sections.
fn text_of<R: Threads + Wait + Sync>(
    rt: &R,
    alloc: Global,
    bytes: &[u8],
) -> Result<Vec<u8>, AllocError> {
    let mut text = Vec::new(alloc);
    let mut rest = bytes;
    for _ in 0..bytes.len() {
        let Some((line, after)) = line_of(rest) else {
            break;
        };
        let (section, next) = section_of(after);
        add_section(rt, alloc, &mut text, line, section)?;
        rest = next;
    }
    add_status(alloc, &mut text, Status::NoMemory)?;
    Ok(text)
}

/// What stands before the first line that begins with `#`, and from there on.
fn section_of(bytes: &[u8]) -> (&[u8], &[u8]) {
    let mut at_start = true;
    for (place, byte) in bytes.iter().enumerate() {
        if at_start && *byte == b'#' {
            return (&bytes[..place], &bytes[place..]);
        }
        at_start = *byte == b'\n';
    }
    (bytes, &bytes[bytes.len()..])
}

/// Adds the line of a section, and what its command does.
fn add_section<R: Threads + Wait + Sync>(
    rt: &R,
    alloc: Global,
    text: &mut Vec<u8>,
    line: &[u8],
    section: &[u8],
) -> Result<(), AllocError> {
    text.extend_from_slice(line)?;
    text.push(b'\n')?;
    let line = str::from_utf8(line).unwrap_or("");
    let (command, _title) = line.split_once(" ; ").unwrap_or((line, ""));
    let (mark, commands) = command.split_once(" ").unwrap_or((command, ""));
    let words = words_of(alloc, commands)?;
    let input = input_of(alloc, section)?;
    match mark {
        "#@" => add_kept(alloc, text, commands, &input),
        "#*" => add_failing_disk(alloc, text, commands, &input),
        "#&" => add_events(alloc, text, commands, &input),
        "#!" => add_failures(alloc, text, Tried::new(&words, &input)),
        "#?" => {
            let status = add_late_failure(alloc, text, &words)?;
            add_status(alloc, text, status)
        }
        "#" | "##" => add_whole(rt, alloc, text, mark, &words, &input),
        "#=" => add_counted(rt, alloc, text, &words, &input),
        "#+" => add_cases(rt, alloc, text, &words, &input),
        _ => add_end(alloc, text, mark, &words, input),
    }
}

/// Adds what words write for an input, the status, and where they have one text whether the call that starts threads does the same.
fn add_whole<R: Threads + Wait + Sync>(
    rt: &R,
    alloc: Global,
    text: &mut Vec<u8>,
    mark: &str,
    words: &Words,
    input: &[u8],
) -> Result<(), AllocError> {
    let mut source = SteadySource::new(Vec::from_slice(alloc, input)?);
    let mut output = SteadySink::new(alloc);
    let status = still(alloc, words, &mut source, &mut output);
    let is_long = mark == "##";
    if is_long {
        add_last_steps(alloc, text, output.bytes())?;
    } else {
        text.extend_from_slice(output.bytes())?;
    }
    add_status(alloc, text, status)?;
    if writes_one_text(alloc, words) {
        let is_same = is_same_with_threads(rt, alloc, words, input, status, output.bytes())?;
        let line = if is_same { "the same" } else { "another text" };
        text.extend_from_slice(b"; with threads ")?;
        text.extend_from_slice(line.as_bytes())?;
        text.push(b'\n')?;
    }
    if is_long {
        add_check(alloc, text, output.bytes())?;
    }
    Ok(())
}

/// Whether the call that starts threads ends with this status and writes these bytes.
fn is_same_with_threads<R: Threads + Wait + Sync>(
    rt: &R,
    alloc: Global,
    words: &Words,
    input: &[u8],
    status: Status,
    written: &[u8],
) -> Result<bool, AllocError> {
    let mut source = SteadySource::new(Vec::from_slice(alloc, input)?);
    let mut output = SteadySink::new(alloc);
    let end = with_threads(rt, alloc, words, &mut source, &mut output);
    Ok(end == status && output.bytes() == written)
}

/// Adds how many of the lines that words write for an input hold each text that it names, and the status.
fn add_counted<R: Threads + Wait + Sync>(
    rt: &R,
    alloc: Global,
    text: &mut Vec<u8>,
    words: &Words,
    input: &[u8],
) -> Result<(), AllocError> {
    let mut source = SteadySource::new(Vec::from_slice(alloc, input)?);
    let mut output = SteadySink::new(alloc);
    let status = with_threads(rt, alloc, words, &mut source, &mut output);
    add_counts(alloc, text, input, output.bytes())?;
    add_status(alloc, text, status)
}

/// Adds the end of what words write for an input, as the number behind the `#` says, and the status.
fn add_end(
    alloc: Global,
    text: &mut Vec<u8>,
    mark: &str,
    words: &Words,
    input: Vec<u8>,
) -> Result<(), AllocError> {
    let mut source = SteadySource::new(input);
    let mut output = SteadySink::new(alloc);
    let status = still(alloc, words, &mut source, &mut output);
    let last = mark
        .strip_prefix("#")
        .and_then(|number| number.parse().ok())
        .unwrap_or(0);
    add_last_lines(alloc, text, output.bytes(), last)?;
    add_status(alloc, text, status)
}
