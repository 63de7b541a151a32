// Reading a whole text from a source.
ghost use Rattle.std.specs.Prelude.{◌≡◌, ◌≢◌, ◌≤◌, ◌<◌, ◌+◌, ◌-◌, IfOk, IfSome, OnOk, OnErr, IsErrOf, vec_len, vec_capacity, take, drop, [], length};
ghost use Rattle.std.specs.Io.KnownBytes.{Consumes, Keeps, IsAtEnd};
ghost use Rattle.tau_io.specs.Faults.{HasRisen};
ghost use Rattle.tau_io.specs.Got.{GotFits, GotTakes, TakesAll, Took};

use crate::sources::{Got, Source};
use std::alloc::{AllocError, Global};
use thiserror::Error;

/// Why a text was not read whole (`docs/formats.md`, "Error types").
#[derive(Clone, Copy, Debug, PartialEq, Eq, Error)]
pub enum ReadError {
    /// A read failed.
    #[error("reading failed")]
    ReadFault,
    /// More bytes came than the limit.
    #[error("the input is too long")]
    TooLong,
    /// Memory ran out.
    #[error("out of memory")]
    NoMemory,
}

impl From<AllocError> for ReadError {
    ghost use Rattle.std.specs.Prelude.{◌≡◌};
    ghost use Rattle.tau_io.specs.declared.reading.ReadError.TheVariants.{NoMemory};

    ghost from_gives = { λ _ e. e ≡ NoMemory };

    fn from(_e: AllocError) -> ReadError {
        ReadError::NoMemory
    }
}

/// The room of the first read, in bytes. Each further room is twice as long.
const FIRST_ROOM: usize = 65536;

/// Reads all that the source has left, which is at most `limit` bytes.
///
/// Room for `limit` bytes is reserved before the first read, and `NoMemory` comes only there.
/// `ReadFault` comes where a read failed after at most `limit` bytes, and `TooLong` where one byte
/// more than `limit` came (`docs/rules.md`, "Sources and sinks").
pub fn read_all<I: Source>(
    alloc: Global,
    source: &mut I,
    limit: usize,
) -> Result<Vec<u8>, ReadError>
    ensures ok { IfOk result (λ bytes.
        TakesAll (I.left source.old) (I.left source.new) bytes.items) }
    ensures within { IfOk result (λ bytes. vec_len bytes ≤ limit) }

    ensures fault { IsErrOf result ReadError.ReadFault
        → HasRisen (I.faults source.old) (I.faults source.new) }
    ensures before_fault { IsErrOf result ReadError.ReadFault
        → Took (I.left source.old) (I.left source.new) (λ n. n ≤ limit) }

    ensures too_long { IsErrOf result ReadError.TooLong
        → Took (I.left source.old) (I.left source.new) (λ n. n ≡ limit + 1) }
    ensures longer { IsErrOf result ReadError.TooLong
        → IfSome (I.left source.old) (λ all. limit < length all) }

    ensures no_memory { IsErrOf result ReadError.NoMemory → source.new ≡ source.old }
    ensures never_falls { I.faults source.old ≤ I.faults source.new }
{
    let mut bytes = Vec::with_capacity(alloc, limit)?;
    let filled = fill(source, &mut bytes, limit)?;
    bytes.truncate(filled);
    Ok(bytes)
}

/// Reads until the source ends, into room that `bytes` has already. Returns how many bytes came.
fn fill<I: Source>(source: &mut I, bytes: &mut Vec<u8>, limit: usize) -> Result<usize, ReadError>
    requires empty { bytes.old.items ≡ [] }
    requires room { limit ≤ vec_capacity bytes.old }
    ensures within { IfOk result (λ n. (n ≤ limit) × (n ≤ vec_len bytes.new)) }
    ensures ok { IfOk result (λ n.
        Consumes (I.left source.old) (I.left source.new) (take n bytes.new.items)) }
    ensures end { OnOk result (IsAtEnd (I.left source.new)) }
    ensures fault { IsErrOf result ReadError.ReadFault
        → HasRisen (I.faults source.old) (I.faults source.new) }
    ensures before_fault { IsErrOf result ReadError.ReadFault
        → Took (I.left source.old) (I.left source.new) (λ n. n ≤ limit) }
    ensures too_long { IsErrOf result ReadError.TooLong
        → Took (I.left source.old) (I.left source.new) (λ n. n ≡ limit + 1) }
    ensures memory { result ≢ Err ReadError.NoMemory }
    ensures never_falls { I.faults source.old ≤ I.faults source.new }
{
    let mut filled = 0;
    while filled < limit {
        match read_piece(source, bytes, filled, limit) {
            Got::Bytes(count) => filled += count,
            Got::End => return Ok(filled),
            Got::Failed => return Err(ReadError::ReadFault),
        }
    }
    end_of(source)?;
    Ok(filled)
}

/// One read into `bytes` after the first `filled`, which stay. It makes room, but takes no memory.
fn read_piece<I: Source>(source: &mut I, bytes: &mut Vec<u8>, filled: usize, limit: usize) -> Got
    requires within { filled < limit }
    requires filled { filled ≤ vec_len bytes.old }
    requires length { vec_len bytes.old ≤ limit }
    requires room { limit ≤ vec_capacity bytes.old }
    ensures room { limit ≤ vec_capacity bytes.new }
    ensures length { vec_len bytes.new ≤ limit }
    ensures filled { filled ≤ vec_len bytes.new }
    ensures front { take filled bytes.new.items ≡ take filled bytes.old.items }
    ensures count { GotFits result (vec_len bytes.new - filled) }
    ensures bytes { GotTakes result (I.left source.old) (I.left source.new)
        (drop filled bytes.new.items) }
    ensures failed { result ≡ Got.Failed
        → HasRisen (I.faults source.old) (I.faults source.new) }
    ensures never_falls { I.faults source.old ≤ I.faults source.new }
{
    if filled == bytes.len() {
        let room = filled.saturating_mul(2).max(FIRST_ROOM).min(limit);
        lengthen(bytes, room);
    }
    read_after(source, bytes.as_mut_slice(), filled)
}

/// Makes `bytes` `room` long, by zeros. It needs no memory, since there is room.
fn lengthen(bytes: &mut Vec<u8>, room: usize)
    requires length { vec_len bytes.old ≤ room }
    requires room { room ≤ vec_capacity bytes.old }
    ensures room { vec_capacity bytes.old ≤ vec_capacity bytes.new }
    ensures length { vec_len bytes.new ≡ room }
    ensures front { take (vec_len bytes.old) bytes.new.items ≡ bytes.old.items }
{
    let _ = bytes.resize(room, 0);
}

/// One read into `into` after the first `filled` bytes, which stay.
fn read_after<I: Source>(source: &mut I, into: &mut [u8], filled: usize) -> Got
    requires { filled < length into.old }
    ensures front { take filled into.new ≡ take filled into.old }
    ensures count { GotFits result (length into.new - filled) }
    ensures bytes { GotTakes result (I.left source.old) (I.left source.new)
        (drop filled into.new) }
    ensures failed { result ≡ Got.Failed
        → HasRisen (I.faults source.old) (I.faults source.new) }
    ensures never_falls { I.faults source.old ≤ I.faults source.new }
{
    source.read(&mut into[filled..])
}

/// Reads one byte more, which tells an end from a text that is too long.
fn end_of<I: Source>(source: &mut I) -> Result<(), ReadError>
    ensures ok { OnOk result (Keeps (I.left source.old) (I.left source.new)) }
    ensures end { OnOk result (IsAtEnd (I.left source.new)) }
    ensures fault { IsErrOf result ReadError.ReadFault
        → HasRisen (I.faults source.old) (I.faults source.new) }
    ensures before_fault { IsErrOf result ReadError.ReadFault
        → Keeps (I.left source.old) (I.left source.new) }
    ensures too_long { IsErrOf result ReadError.TooLong
        → Took (I.left source.old) (I.left source.new) (λ n. n ≡ 1) }
    ensures memory { result ≢ Err ReadError.NoMemory }
    ensures never_falls { I.faults source.old ≤ I.faults source.new }
{
    let mut one = [0u8; 1];
    match source.read(&mut one) {
        Got::Bytes(_) => Err(ReadError::TooLong),
        Got::End => Ok(()),
        Got::Failed => Err(ReadError::ReadFault),
    }
}
