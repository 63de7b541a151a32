// Sources and sinks over the readers and writers of the standard library; standard input and output among them.
ghost use Rattle.std.specs.Prelude.{◌≡◌, ◌≢◌, ◌≤◌, ◌<◌, length};
ghost use Rattle.tau_io.specs.Adapters.{reader_of, read_faults, writer_of, write_faults};
ghost use Rattle.tau_io.specs.Faults.{HasRisen};
ghost use Rattle.tau_io.specs.Got.{GotFits, GotTakes, faults_after_read};
ghost use Rattle.tau_io.specs.Put.{PutFits, PutAppends, faults_after_write};

use crate::sinks::{Put, Sink};
use crate::sources::{Got, Source};
use std::io::{Read, Stdin, Stdout, Write};

/// A source over a reader. The bytes left are those that the reader has left, where it tells them.
///
/// Each error of a read is a fault, an interrupted read among them. Contracts see the reader and
/// the count of faults (`docs/rules.md`, "Sources and sinks").
#[derive(Debug, Drop)]
pub struct ReaderSource<R> {
    reader: R,
    faults: u64,
}

/// Standard input, which tells no bytes.
pub type StdSource = ReaderSource<Stdin>;

impl<R> ReaderSource<R> {
    /// A source over this reader, with no fault yet.
    pub fn new(reader: R) -> ReaderSource<R>
        ensures reader { reader_of result ≡ reader }
        ensures faults { read_faults result ≡ 0 }
    {
        ReaderSource { reader, faults: 0 }
    }
}

impl<R: Read> Source for ReaderSource<R> {
    ghost left = { λ s. R.remaining (reader_of s) };

    ghost faults = { read_faults };

    fn read(&mut self, into: &mut [u8]) -> Got
        requires { 0 < length into.old }
        ensures count { GotFits result (length into.new) }
        ensures bytes { GotTakes result (R.remaining (reader_of self.old))
            (R.remaining (reader_of self.new)) into.new }
        ensures failed { result ≡ Got.Failed → HasRisen (read_faults self.old) (read_faults self.new) }
        ensures never_falls { read_faults self.old ≤ read_faults self.new }

        // The count is raised at each error, and at nothing else.
        ensures counted { read_faults self.new ≡ faults_after_read (read_faults self.old) result }
    {
        match self.reader.read(into) {
            Ok(0) => Got::End,
            Ok(count) => Got::Bytes(count),
            Err(_) => {
                self.faults = self.faults.saturating_add(1);
                Got::Failed
            }
        }
    }
}

/// A sink over a writer. The bytes held are those that the writer holds, where it tells them.
///
/// It keeps no buffer: what a write took, the writer took. Each error of a write is a fault, and so
/// is a write of nothing. Contracts see the writer and the count of faults (`docs/rules.md`,
/// "Sources and sinks").
#[derive(Debug, Drop)]
pub struct WriterSink<W> {
    writer: W,
    faults: u64,
}

/// Standard output, which tells no bytes.
pub type StdSink = WriterSink<Stdout>;

impl<W> WriterSink<W> {
    /// A sink over this writer, with no fault yet.
    pub fn new(writer: W) -> WriterSink<W>
        ensures writer { writer_of result ≡ writer }
        ensures faults { write_faults result ≡ 0 }
    {
        WriterSink { writer, faults: 0 }
    }

    /// The writer.
    pub fn into_writer(self) -> W
        ensures { result ≡ writer_of self }
    {
        self.writer
    }
}

impl<W: Write> Sink for WriterSink<W> {
    ghost held = { λ s. W.contents (writer_of s) };

    ghost faults = { write_faults };

    fn write(&mut self, from: &[u8]) -> Put
        requires { 0 < length from.now }
        ensures count { PutFits result (length from.now) }
        ensures bytes { PutAppends result (W.contents (writer_of self.old))
            (W.contents (writer_of self.new)) from.now }
        ensures failed { result ≡ Put.Failed → HasRisen (write_faults self.old) (write_faults self.new) }
        ensures never_falls { write_faults self.old ≤ write_faults self.new }

        // The count is raised at each error and each write of nothing, and at nothing else.
        ensures counted { write_faults self.new ≡ faults_after_write (write_faults self.old) result }
        ensures no_memory_taken { result ≢ Put.NoMemory }
    {
        match self.writer.write(from) {
            Ok(0) | Err(_) => {
                self.faults = self.faults.saturating_add(1);
                Put::Failed
            }
            Ok(count) => Put::Bytes(count),
        }
    }
}
