//! Commands of which one read or one write fails.
use crate::calls::still;
use std::alloc::{AllocError, Global};
use tau_cli::{Status, Words, number};
use tau_io::{MemorySink, MemorySource, SteadySink, SteadySource};

/// The most reads and the most writes of a command that are tried.
const CALLS: u32 = 1_000;

/// The words of a command and its input.
#[derive(Clone, Copy)]
pub(crate) struct Tried<'a> {
    words: &'a Words,
    input: &'a [u8],
}

impl<'a> Tried<'a> {
    pub(crate) fn new(words: &'a Words, input: &'a [u8]) -> Tried<'a> {
        Tried { words, input }
    }
}

/// Adds a line for the reads and a line for the writes of a command: the number of the status where the first of these calls fails, where
/// the second one does, and so on, and at the end where none does. A read gives 7 bytes at most, and a write takes 16. Behind a number
/// stands `!` where the sink doesn't hold what it should: nothing after a read that failed, 16 bytes for each write before the one that
/// failed, and else the whole text.
pub(crate) fn add_failures(
    alloc: Global,
    text: &mut Vec<u8>,
    tried: Tried<'_>,
) -> Result<(), AllocError> {
    let whole = whole_of(alloc, tried)?;
    add_reads(alloc, text, tried, &whole)?;
    add_writes(alloc, text, tried, &whole)
}

/// The text that a command writes where nothing fails.
fn whole_of(alloc: Global, tried: Tried<'_>) -> Result<Vec<u8>, AllocError> {
    let mut source = SteadySource::new(Vec::from_slice(alloc, tried.input)?);
    let mut sink = SteadySink::new(alloc);
    let _ = still(alloc, tried.words, &mut source, &mut sink);
    Vec::from_slice(alloc, sink.bytes())
}

/// Adds the line for the reads.
fn add_reads(
    alloc: Global,
    text: &mut Vec<u8>,
    tried: Tried<'_>,
    whole: &[u8],
) -> Result<(), AllocError> {
    text.extend_from_slice(b"reads:")?;
    for call in 0..CALLS {
        if !add_read(alloc, text, tried, call, whole)? {
            break;
        }
    }
    text.push(b'\n')?;
    Ok(())
}

/// Adds the line for the writes.
fn add_writes(
    alloc: Global,
    text: &mut Vec<u8>,
    tried: Tried<'_>,
    whole: &[u8],
) -> Result<(), AllocError> {
    text.extend_from_slice(b"writes:")?;
    for call in 0..CALLS {
        if !add_write(alloc, text, tried, call, whole)? {
            break;
        }
    }
    text.push(b'\n')?;
    Ok(())
}

/// Adds what comes where this read fails, and tells whether the command made it.
fn add_read(
    alloc: Global,
    text: &mut Vec<u8>,
    tried: Tried<'_>,
    call: u32,
    whole: &[u8],
) -> Result<bool, AllocError> {
    let bytes = Vec::from_slice(alloc, tried.input)?;
    let mut source = MemorySource::new(bytes, 7, only(alloc, call)?);
    let mut sink = SteadySink::new(alloc);
    let status = still(alloc, tried.words, &mut source, &mut sink);
    let has_failed = status == Status::ReadFault;
    let count = if has_failed { 0 } else { whole.len() };
    add_end(alloc, text, status, is_front(sink.bytes(), whole, count))?;
    Ok(has_failed)
}

/// Adds what comes where this write fails, and tells whether the command made it.
fn add_write(
    alloc: Global,
    text: &mut Vec<u8>,
    tried: Tried<'_>,
    call: u32,
    whole: &[u8],
) -> Result<bool, AllocError> {
    let mut source = SteadySource::new(Vec::from_slice(alloc, tried.input)?);
    let mut sink = MemorySink::new(alloc, 16, only(alloc, call)?);
    let status = still(alloc, tried.words, &mut source, &mut sink);
    let has_failed = status == Status::WriteFault;
    let count = if has_failed {
        taken_before(call)
    } else {
        whole.len()
    };
    add_end(alloc, text, status, is_front(sink.bytes(), whole, count))?;
    Ok(has_failed)
}

/// How many bytes the writes before this one take.
fn taken_before(call: u32) -> usize {
    16usize.saturating_mul(call as usize)
}

/// Adds the status of `run` where the read behind the last byte that an input may have fails, with its line.
pub(crate) fn add_late_failure(
    alloc: Global,
    text: &mut Vec<u8>,
    words: &Words,
) -> Result<Status, AllocError> {
    let blanks = vec![in alloc; b' '; 16_777_217]?;
    // Reads 0 to 255 give 65,536 bytes each.
    let mut source = MemorySource::new(blanks, 65_536, only(alloc, 256)?);
    let mut sink = SteadySink::new(alloc);
    let status = still(alloc, words, &mut source, &mut sink);
    text.extend_from_slice(sink.bytes())?;
    Ok(status)
}

/// The list of this one number.
fn only(alloc: Global, number: u32) -> Result<Vec<u32>, AllocError> {
    let mut numbers = Vec::new(alloc);
    numbers.push(number)?;
    Ok(numbers)
}

/// Whether these are the first bytes of the text, so many of them.
fn is_front(bytes: &[u8], text: &[u8], count: usize) -> bool {
    bytes.len() == count && text.starts_with(bytes)
}

/// Adds the number of a status, and whether the sink doesn't hold what it should.
fn add_end(
    alloc: Global,
    text: &mut Vec<u8>,
    status: Status,
    is_right: bool,
) -> Result<(), AllocError> {
    text.push(b' ')?;
    text.extend_from_slice(number(&status).to_string(alloc)?.as_bytes())?;
    if !is_right {
        text.push(b'!')?;
    }
    Ok(())
}
