// What a source of bytes is.
ghost use Rattle.std.specs.Prelude.{◌≡◌, ℕ, ◌<◌, ◌≤◌, List, Option, length};
ghost use Rattle.tau_io.specs.Faults.{HasRisen};
ghost use Rattle.tau_io.specs.Got.{GotFits, GotTakes};

/// The answer of one read.
#[derive(Clone, Copy, Debug, PartialEq, Eq)]
pub enum Got {
    /// This many bytes came.
    Bytes(usize),
    /// Nothing is left.
    End,
    /// The read failed, and no byte came.
    Failed,
}

/// A source of bytes (`docs/rules.md`, "Sources and sinks").
///
/// Contracts see the bytes that it has left, where it tells them, and its count of faults.
pub trait Source {
    /// The bytes left, where the source tells them.
    ghost left: { Self → Option (List ℕ) };

    /// The count of faults.
    ghost faults: { Self → ℕ };

    /// Reads the next bytes into the front of `into`. Of the rest of `into` nothing is said.
    fn read(&mut self, into: &mut [u8]) -> Got
        requires { 0 < length into.old }
        ensures count { GotFits result (length into.new) }
        ensures bytes { GotTakes result (left self.old) (left self.new) into.new }
        ensures failed { result ≡ Got.Failed → HasRisen (faults self.old) (faults self.new) }
        ensures never_falls { faults self.old ≤ faults self.new };
}
