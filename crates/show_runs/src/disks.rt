//! Disks in memory.
use crate::playing::look;
use std::alloc::{AllocError, Global};
use tau_journal::disk::MemoryDisk;

/// The number that a word spells; 0 where it spells none.
fn number_of(word: &str) -> u32 {
    word.parse().unwrap_or(0)
}

/// The byte that a word spells; 0 where it spells none.
fn byte_of(word: &str) -> u8 {
    word.parse().unwrap_or(0)
}

/// The word of a title at a place as a number; 0 where there is none.
fn number_at(title: &str, place: usize) -> u32 {
    number_of(title.split_whitespace().nth(place).unwrap_or(""))
}

/// The disk of the bytes that a title has from a word on; where it fails, the call that its first number names.
pub(crate) fn disk_of(
    alloc: Global,
    title: &str,
    from: usize,
    fails: bool,
) -> Result<MemoryDisk, AllocError> {
    let mut bytes = Vec::new(alloc);
    for word in title.split_whitespace().skip(from) {
        bytes.push(byte_of(word))?;
    }
    let mut failing = Vec::new(alloc);
    if fails {
        failing.push(number_at(title, 1))?;
    }
    Ok(MemoryDisk::new(alloc, bytes, failing))
}

/// The disk of as many zeros as a title says, 100,000,000 at most.
pub(crate) fn zeros_of(alloc: Global, title: &str) -> Result<MemoryDisk, AllocError> {
    let count = number_at(title, 1).min(100_000_000);
    let bytes = vec![in alloc; 0; count as usize]?;
    Ok(MemoryDisk::new(alloc, bytes, Vec::new(alloc)))
}

/// Adds what the call that a title names finds where each write among the first calls of a disk was stopped.
pub(crate) fn add_stops(
    alloc: Global,
    text: &mut String,
    title: &str,
    disk: &MemoryDisk,
) -> Result<(), AllocError> {
    let verb = title.split_whitespace().nth(1).unwrap_or("");
    for call in 0..number_at(title, 2) {
        if let Some(len) = disk.write_len(call) {
            add_stop(alloc, text, verb, disk, call, 0)?;
            if len > 1 {
                add_stop(alloc, text, verb, disk, call, 1)?;
            }
            add_stop(alloc, text, verb, disk, call, len)?;
        }
    }
    Ok(())
}

/// Adds what a call finds where a write was stopped behind so many bytes, of which it may have fewer.
fn add_stop(
    alloc: Global,
    text: &mut String,
    verb: &str,
    disk: &MemoryDisk,
    call: u32,
    kept: usize,
) -> Result<(), AllocError> {
    if let Some(len) = disk.write_len(call) {
        let kept = kept.min(len);
        write!(text, "call {call} stopped behind {kept}: ")?;
        let mut left = disk.stopped(call, kept)?;
        let looked = look(alloc, text, &mut left, verb, "");
        drop(left);
        looked?;
    }
    Ok(())
}
