// What a sink of bytes is.
ghost use Rattle.std.specs.Prelude.{◌≡◌, ℕ, ◌<◌, ◌≤◌, List, Option, length};
ghost use Rattle.tau_io.specs.Faults.{HasRisen};
ghost use Rattle.tau_io.specs.Put.{PutFits, PutAppends};

/// The answer of one write.
#[derive(Clone, Copy, Debug, PartialEq, Eq)]
pub enum Put {
    /// This many bytes were taken.
    Bytes(usize),
    /// The write failed, and no byte was taken.
    Failed,
    /// Memory ran out, and no byte was taken.
    NoMemory,
}

/// A sink of bytes (`docs/rules.md`, "Sources and sinks").
///
/// Contracts see the bytes that it holds, where it tells them, and its count of faults.
pub trait Sink {
    /// The bytes held, where the sink tells them.
    ghost held: { Self → Option (List ℕ) };

    /// The count of faults.
    ghost faults: { Self → ℕ };

    /// Appends bytes from the front of `from`.
    fn write(&mut self, from: &[u8]) -> Put
        requires { 0 < length from.now }
        ensures count { PutFits result (length from.now) }
        ensures bytes { PutAppends result (held self.old) (held self.new) from.now }
        ensures failed { result ≡ Put.Failed → HasRisen (faults self.old) (faults self.new) }
        ensures never_falls { faults self.old ≤ faults self.new };
}
