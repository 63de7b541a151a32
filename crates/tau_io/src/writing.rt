// Writing a whole text to a sink.
ghost use Rattle.std.specs.Prelude.{◌≡◌, ◌≤◌, OnOk, OnErr, IsErrOf};
ghost use Rattle.std.specs.Io.KnownBytes.{Appends};
ghost use Rattle.tau_io.specs.Faults.{HasRisen};
ghost use Rattle.tau_io.specs.Put.{AppendsFront};

use crate::sinks::{Put, Sink};
use thiserror::Error;

/// Why a text was not written whole (`docs/formats.md`, "Error types").
#[derive(Clone, Copy, Debug, PartialEq, Eq, Error)]
pub enum WriteError {
    /// A write failed.
    #[error("writing failed")]
    WriteFault,
    /// Memory ran out.
    #[error("out of memory")]
    NoMemory,
}

/// Writes `bytes` to the sink, by writes that are each offered the whole rest.
///
/// `WriteFault` comes where a write failed, and `NoMemory` where a write found no memory. The sink
/// then holds a front of `bytes` more than before (`docs/rules.md`, "Sources and sinks").
pub fn write_all_of<O: Sink>(sink: &mut O, bytes: &[u8]) -> Result<(), WriteError>
    ensures ok { OnOk result (Appends (O.held sink.old) (O.held sink.new) bytes.now) }
    ensures err { OnErr result (AppendsFront (O.held sink.old) (O.held sink.new) bytes.now) }

    ensures fault { IsErrOf result WriteError.WriteFault
        → HasRisen (O.faults sink.old) (O.faults sink.new) }
    ensures never_falls { O.faults sink.old ≤ O.faults sink.new }
{
    let mut done = 0;
    while done < bytes.len() {
        match sink.write(&bytes[done..]) {
            Put::Bytes(count) => done += count,
            Put::Failed => return Err(WriteError::WriteFault),
            Put::NoMemory => return Err(WriteError::NoMemory),
        }
    }
    Ok(())
}
