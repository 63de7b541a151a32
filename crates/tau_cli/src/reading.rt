//! The input of a command.
ghost use Rattle.std.specs.Prelude.{◌≡◌, ◌<◌, ◌≤◌, false, IfOk, IfSome, IsErr, IsErrOf, IsTrue, length, vec_len};
ghost use Rattle.tau_io.specs.Faults.{HasRisen};
ghost use Rattle.tau_output.specs.Faults.{input_limit, reads_input as reads};
ghost use Rattle.tau_cli.specs.Output.{AreLeft, IsTooLong};

use std::alloc::Global;
use tau_command::TextCommand;
use tau_io::{ReadError, Source, read_all};
use tau_output::{INPUT_LIMIT, reads_input};

/// The bytes that a source has left, at most 16 MiB.
pub(crate) fn read_input<I: Source>(alloc: Global, input: &mut I) -> Result<Vec<u8>, ReadError>
    ensures within { IfOk result (λ bytes. vec_len bytes ≤ input_limit) }
    ensures all { IfOk result (λ bytes. AreLeft (I.left input.old) bytes.items) }

    ensures fault { IsErrOf result ReadError.ReadFault
        → HasRisen (I.faults input.old) (I.faults input.new) }
    ensures too_long { IsErrOf result ReadError.TooLong → IsTooLong (I.left input.old) }
    ensures longer { IsErrOf result ReadError.TooLong
        → IfSome (I.left input.old) (λ all. input_limit < length all) }
{
    read_all(alloc, input, INPUT_LIMIT)
}

/// The bytes of a command's input; none where it reads none.
pub(crate) fn input_of<I: Source>(
    alloc: Global,
    command: &TextCommand,
    input: &mut I,
) -> Result<Vec<u8>, ReadError>
    ensures within { IfOk result (λ bytes. vec_len bytes ≤ input_limit) }
    ensures all { IfOk result (λ bytes. IsTrue (reads command.now)
        → AreLeft (I.left input.old) bytes.items) }

    ensures fault { IsErrOf result ReadError.ReadFault
        → HasRisen (I.faults input.old) (I.faults input.new) }
    ensures reads { IsErr result → IsTrue (reads command.now) }
    ensures too_long { IsErrOf result ReadError.TooLong → IsTooLong (I.left input.old) }
    ensures untouched { reads command.now ≡ false → input.new ≡ input.old }
{
    if reads_input(command) {
        read_input(alloc, input)
    } else {
        Ok(Vec::new(alloc))
    }
}
