//! Copies from a source of a text of 79 bytes to a sink. A line has a source, a sink and limits, with ` / ` between them. A source
//! and a sink are `memory PIECE CALL ..`, which moves at most so many bytes a call and fails at these calls; `steady`; or
//! `standard`, a reader and a writer of the standard library in memory. For each limit what is left is read, if it isn't longer,
//! and written; the answer tells how that ended. Then what the sink holds is written.
ghost use Rattle.std.specs.Prelude.{◌≤◌};

use crate::calls::{Call, Part, number_of};
use std::alloc::{AllocError, Global};
use tau_io::{
    MemorySink, MemorySource, ReaderSource, Sink, Source, SteadySink, SteadySource, WriterSink,
    read_all, write_all_of,
};

const TEXT: &str =
    "(nodes 1)\n(behaviour copy (seq (get) (set msg)))\n(start a copy 0 0)\n(post a 5)\n";

/// What copies.
#[derive(Clone, Copy)]
pub(crate) struct Copies {
    alloc: Global,
}

impl Copies {
    pub(crate) fn new(alloc: Global) -> Copies {
        Copies { alloc }
    }
}

impl Part for Copies {
    fn call(&mut self, text: &mut String, call: Call<'_>) -> Result<(), AllocError> {
        let alloc = self.alloc;
        let line = call.line();
        let (from, rest) = line.split_once(" / ").unwrap_or((line, ""));
        let (to, limits) = rest.split_once(" / ").unwrap_or((rest, ""));
        writeln!(text, "{line}")?;
        match from.split_whitespace().next().unwrap_or("") {
            "memory" => {
                let bytes = Vec::from_slice(alloc, TEXT.as_bytes())?;
                let mut source = MemorySource::new(bytes, piece_of(from), fails_of(alloc, from)?);
                copy_to(alloc, text, &mut source, to, limits)
            }
            "steady" => {
                let bytes = Vec::from_slice(alloc, TEXT.as_bytes())?;
                copy_to(alloc, text, &mut SteadySource::new(bytes), to, limits)
            }
            "standard" => {
                let mut source = ReaderSource::new(TEXT.as_bytes());
                copy_to(alloc, text, &mut source, to, limits)
            }
            _ => call.refuse(text),
        }
    }
}

/// Copies to the sink of these words, and adds what it holds.
fn copy_to<I: Source>(
    alloc: Global,
    text: &mut String,
    source: &mut I,
    to: &str,
    limits: &str,
) -> Result<(), AllocError> {
    match to.split_whitespace().next().unwrap_or("") {
        "memory" => {
            let mut sink = MemorySink::new(alloc, piece_of(to), fails_of(alloc, to)?);
            add_copies(alloc, text, source, &mut sink, limits)?;
            add_held(text, sink.bytes())
        }
        "steady" => {
            let mut sink = SteadySink::new(alloc);
            add_copies(alloc, text, source, &mut sink, limits)?;
            add_held(text, sink.bytes())
        }
        _ => {
            let mut sink = WriterSink::new(Vec::new(alloc));
            add_copies(alloc, text, source, &mut sink, limits)?;
            add_held(text, &sink.into_writer())
        }
    }
}

/// Copies what is left, for each limit, and adds how that ended.
fn add_copies<I: Source, O: Sink>(
    alloc: Global,
    text: &mut String,
    source: &mut I,
    sink: &mut O,
    limits: &str,
) -> Result<(), AllocError> {
    for word in limits.split_whitespace() {
        match read_all(alloc, source, number_of(word) as usize) {
            Ok(bytes) => add_written(text, sink, &bytes)?,
            Err(error) => writeln!(text, "{error}")?,
        }
    }
    Ok(())
}

/// Writes bytes, and adds how that ended.
fn add_written<O: Sink>(text: &mut String, sink: &mut O, bytes: &[u8]) -> Result<(), AllocError> {
    match write_all_of(sink, bytes) {
        Ok(()) => text.push_str("copied\n"),
        Err(error) => writeln!(text, "{error}"),
    }
}

/// Adds what a sink holds.
fn add_held(text: &mut String, held: &[u8]) -> Result<(), AllocError> {
    let held_text = str::from_utf8(held).unwrap_or("");
    writeln!(text, "held {}\n{held_text}", held.len())
}

/// The most bytes that a call moves: the first number of these words, or 1.
fn piece_of(words: &str) -> usize
    ensures { 1 ≤ result }
{
    let word = words.split_whitespace().nth(1).unwrap_or("");
    match number_of(word) {
        0 => 1,
        piece => piece as usize,
    }
}

/// The calls that fail: the numbers after the first.
fn fails_of(alloc: Global, words: &str) -> Result<Vec<u32>, AllocError> {
    let mut fails = Vec::new(alloc);
    for word in words.split_whitespace().skip(2) {
        fails.push(number_of(word))?;
    }
    Ok(fails)
}
