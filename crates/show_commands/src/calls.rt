//! The two calls of `tau` with a disk that is empty.
use std::alloc::Global;
use std::sync::Wait;
use std::thread::Threads;
use tau_cli::{Gate, OpenGate, Status, Watch, Words, tau, tau_still};
use tau_io::{Sink, Source};
use tau_journal::disk::MemoryDisk;

/// Does what words ask for, on this thread alone.
pub(crate) fn still<I: Source, O: Sink>(
    alloc: Global,
    words: &Words,
    input: &mut I,
    output: &mut O,
) -> Status {
    let mut disk = MemoryDisk::new(alloc, Vec::new(alloc), Vec::new(alloc));
    tau_still(alloc, words, input, output, &mut disk, &OpenGate)
}

/// Does what words ask for, by the call that starts threads.
pub(crate) fn with_threads<R: Threads + Wait + Sync, I: Source, O: Sink>(
    rt: &R,
    alloc: Global,
    words: &Words,
    input: &mut I,
    output: &mut O,
) -> Status {
    with_gate(rt, alloc, words, input, output, &OpenGate)
}

/// Does what words ask for, by the call that starts threads, each evaluation between the calls of a gate.
pub(crate) fn with_gate<R: Threads + Wait + Sync, I: Source, O: Sink, G: Gate + Watch + Sync>(
    rt: &R,
    alloc: Global,
    words: &Words,
    input: &mut I,
    output: &mut O,
    gate: &G,
) -> Status {
    let mut disk = MemoryDisk::new(alloc, Vec::new(alloc), Vec::new(alloc));
    tau(rt, alloc, words, input, output, &mut disk, gate)
}
