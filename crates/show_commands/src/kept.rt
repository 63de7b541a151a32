//! Commands with a disk in memory.
use crate::answers::add_status;
use crate::events::{CountingGate, NotingDisk};
use crate::words::words_of;
use std::alloc::{AllocError, Global};
use std::mem;
use tau_cli::{OpenGate, Status, number, tau_still};
use tau_io::{MemorySink, SteadySink, SteadySource};
use tau_journal::disk::MemoryDisk;

/// The most calls of a disk of which one fails in turn.
const CALLS: u32 = 1_000;

/// Adds what commands do one after another over one disk, which is empty at first. Between them stands ` | `. Three more
/// words are answered here: `byte AT VALUE` changes a byte of the disk, `cut COUNT` leaves so many bytes, and `lost` before a command
/// gives it a sink whose first write fails.
pub(crate) fn add_kept(
    alloc: Global,
    text: &mut Vec<u8>,
    line: &str,
    input: &[u8],
) -> Result<(), AllocError> {
    let mut disk = disk_of(alloc, &[])?;
    let added = add_all(alloc, text, line, input, &mut disk);
    drop(disk);
    added
}

/// Adds what the commands of a line do one after another with a disk.
fn add_all(
    alloc: Global,
    text: &mut Vec<u8>,
    line: &str,
    input: &[u8],
    disk: &mut MemoryDisk,
) -> Result<(), AllocError> {
    for command in line.split(" | ") {
        let (verb, rest) = command.split_once(" ").unwrap_or((command, ""));
        match verb {
            "byte" => {
                let changed = with_byte(alloc, &*disk, rest)?;
                drop(mem::replace(disk, changed));
            }
            "cut" => {
                let shorter = cut(alloc, &*disk, rest)?;
                drop(mem::replace(disk, shorter));
            }
            "lost" => {
                let fails = vec![in alloc; 0u32; 1]?;
                add_command(alloc, text, rest, input, disk, fails)?;
            }
            _ => add_command(alloc, text, command, input, disk, Vec::new(alloc))?,
        }
    }
    Ok(())
}

/// A disk of these bytes.
fn disk_of(alloc: Global, bytes: &[u8]) -> Result<MemoryDisk, AllocError> {
    let bytes = Vec::from_slice(alloc, bytes)?;
    Ok(MemoryDisk::new(alloc, bytes, Vec::new(alloc)))
}

/// A disk with one byte changed; `AT VALUE` says which.
fn with_byte(alloc: Global, disk: &MemoryDisk, words: &str) -> Result<MemoryDisk, AllocError> {
    let (at, value) = words.split_once(" ").unwrap_or((words, ""));
    let mut bytes = Vec::from_slice(alloc, disk.bytes())?;
    if let Some(byte) = bytes.get_mut(number_of(at)) {
        *byte = value.parse().unwrap_or(0);
    }
    Ok(MemoryDisk::new(alloc, bytes, Vec::new(alloc)))
}

/// A disk of the first bytes of another, as many as the word says.
fn cut(alloc: Global, disk: &MemoryDisk, word: &str) -> Result<MemoryDisk, AllocError> {
    let bytes = disk.bytes();
    let count = number_of(word).min(bytes.len());
    disk_of(alloc, &bytes[..count])
}

/// The number that a word spells, or 0.
fn number_of(word: &str) -> usize {
    word.parse().unwrap_or(0)
}

/// Adds what a command writes with this disk, its status, and how many bytes the disk has then. The sink fails at the calls of
/// these numbers.
fn add_command(
    alloc: Global,
    text: &mut Vec<u8>,
    words: &str,
    input: &[u8],
    disk: &mut MemoryDisk,
    fails: Vec<u32>,
) -> Result<(), AllocError> {
    let words = words_of(alloc, words)?;
    let mut source = SteadySource::new(Vec::from_slice(alloc, input)?);
    let mut sink = MemorySink::new(alloc, 65_536, fails);
    let status = tau_still(alloc, &words, &mut source, &mut sink, disk, &OpenGate);
    text.extend_from_slice(sink.bytes())?;
    add_status(alloc, text, status)?;
    let count = disk.bytes().len();
    text.extend_from_slice(format!(in alloc; "; {count} bytes on the disk\n")?.as_bytes())
}

/// Adds, for each call of the disk in turn that fails while a command is done, the number of the status, and behind `/` that of
/// `resume` over what the disk then has; and at the end those where none fails.
pub(crate) fn add_failing_disk(
    alloc: Global,
    text: &mut Vec<u8>,
    words: &str,
    input: &[u8],
) -> Result<(), AllocError> {
    text.extend_from_slice(b"calls of the disk:")?;
    for call in 0..CALLS {
        if !add_failing_call(alloc, text, words, input, call)? {
            break;
        }
    }
    text.push(b'\n')?;
    Ok(())
}

/// Adds both numbers where this call of the disk fails, and tells whether the command made it.
fn add_failing_call(
    alloc: Global,
    text: &mut Vec<u8>,
    words: &str,
    input: &[u8],
    call: u32,
) -> Result<bool, AllocError> {
    let mut disk = MemoryDisk::new(alloc, Vec::new(alloc), vec![in alloc; call; 1]?);
    let status = end_of(alloc, words, input, &mut disk);
    let found = disk_of(alloc, disk.bytes());
    drop(disk);
    let mut left = found?;
    let again = end_of(alloc, "resume", &[], &mut left);
    drop(left);
    let status = status?;
    let (first, second) = (number(&status), number(&again?));
    text.extend_from_slice(format!(in alloc; " {first}/{second}")?.as_bytes())?;
    Ok(status == Status::DiskFault)
}

/// How a command ends with this disk.
fn end_of(
    alloc: Global,
    words: &str,
    input: &[u8],
    disk: &mut MemoryDisk,
) -> Result<Status, AllocError> {
    let words = words_of(alloc, words)?;
    let mut source = SteadySource::new(Vec::from_slice(alloc, input)?);
    let mut sink = SteadySink::new(alloc);
    Ok(tau_still(alloc, &words, &mut source, &mut sink, disk, &OpenGate))
}

/// Adds the evaluations that began and the gates of records that were opened while a command was done, one after another.
pub(crate) fn add_events(
    alloc: Global,
    text: &mut Vec<u8>,
    words: &str,
    input: &[u8],
) -> Result<(), AllocError> {
    let words = words_of(alloc, words)?;
    let mut source = SteadySource::new(Vec::from_slice(alloc, input)?);
    let mut sink = SteadySink::new(alloc);
    let gate = CountingGate::new();
    let mut disk = NotingDisk::new(alloc, &gate);
    let status = tau_still(alloc, &words, &mut source, &mut sink, &mut disk, &gate);
    let noted = text.extend_from_slice(disk.events().as_bytes());
    drop(disk);
    noted?;
    add_status(alloc, text, status)
}
