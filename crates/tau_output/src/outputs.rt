//! What commands write.
ghost use Rattle.std.specs.Prelude.{◌≡◌, ◌⊎◌, ℕ, ◌≤◌, length, IfOk, IfErr, Ok, Err};
ghost use Rattle.tau_output.specs.Faults.{input_limit, reads_input as reads, IsInputFault};
ghost use Rattle.tau_output.specs.Refusals.{TellsFault, TellsLacking};
ghost use Rattle.tau_output.specs.declared.refusals.Wanted.{Wanted};
ghost use Rattle.tau_output.specs.Asking.{AsksInVain};
ghost use Rattle.tau_output.specs.Writing.{WritesSerially, HasLimit};
ghost use Rattle.tau_output.specs.Inner.Ends.{refused_by};

use crate::Refusal;
use crate::auditing::audit_run;
use crate::checking::check_run;
use crate::cutting::cut_run;
use crate::drawing::draw_run;
use crate::drilling::drill_program;
use crate::explaining::explain_run;
use crate::generating::generate_program;
use crate::migrating::migrate_run;
use crate::printing::print_program;
use crate::reporting::report_run;
use crate::running::write_serial_run;
use crate::storming::storm_program;
use std::alloc::{AllocError, Global};
use tau_command::TextCommand;
use tau_points::Point;
use tau_text::InputError;

/// How many bytes an input may have (docs/limits.md).
pub const INPUT_LIMIT: usize = 16_777_216;

/// How a command ends that writes its whole text (docs/formats.md, "Statuses").
#[derive(Clone, Copy, Debug, PartialEq, Eq)]
pub enum End {
    /// Nothing is left to say.
    Done,
    /// The run has as many steps as its limit and isn't complete.
    Stopped,
    /// The step at this place is the first that isn't legal.
    Bad {
        place: u32,
    },
    /// The trace isn't safe: the place of the first Checkpoint whose causal past holds a rolled-back point, the least such
    /// point, and the first place at which it was rolled back.
    Broken {
        checkpoint: u32,
        point: Point,
        fall: u32,
    },
    /// A claim is broken at an end of the storm.
    Claimed,
}

/// The text that a command writes, and how it ends then.
#[derive(Drop)]
pub struct Output {
    pub text: Vec<u8>,
    pub end: End,
}

/// Whether a command reads an input (docs/formats.md, "Command line").
pub fn reads_input(command: &TextCommand) -> bool
    ensures { result ≡ reads command.now }
{
    match command {
        TextCommand::Run { .. } => true,
        TextCommand::Check => true,
        TextCommand::Audit => true,
        TextCommand::Report => true,
        TextCommand::Print => true,
        TextCommand::Gen { .. } => false,
        TextCommand::Drill { .. } => false,
        TextCommand::Migrate => true,
        TextCommand::Why { .. } => true,
        TextCommand::Cut => true,
        TextCommand::Draw { .. } => true,
        TextCommand::Storm { .. } => true,
    }
}

/// What a command writes on one thread for the bytes of its input (docs/formats.md, "Command line"): `run` and `storm` with one worker,
/// however many they are told. The bytes are passed over where it reads none.
/// `Fault` comes exactly where the input has a fault, with the first one (docs/formats.md, "Input faults"), and `Lacking` exactly
/// where the input has none and the command asks in vain: `why` for a place at which no Hold, Drop or Fall stands, `draw` for one at
/// which no Checkpoint stands either that can't be kept, `storm` for a behaviour that the program hasn't or an outcome that there isn't.
pub fn output_of(alloc: Global, command: TextCommand, bytes: &[u8]) -> Result<Output, Refusal>
    requires bytes { length bytes.now ≤ input_limit }
    requires limit { HasLimit command }
    ensures output { IfOk result (λ o. WritesSerially command bytes.now o.end o.text.items) }

    ensures fault { IfErr result (TellsFault (IsInputFault command bytes.now)) }
    ensures faulty { (fault at : ℕ) → IsInputFault command bytes.now fault at
        → (result ≡ Err (Refusal.Fault fault at)) ⊎ (result ≡ Err Refusal.NoMemory) }

    ensures lacking { IfErr result (TellsLacking (AsksInVain command bytes.now)) }
    ensures in_vain { (wanted : Wanted) → AsksInVain command bytes.now wanted
        → (result ≡ Err (Refusal.Lacking wanted)) ⊎ (result ≡ Err Refusal.NoMemory) }
{
    match command {
        TextCommand::Run {
            jobs,
            seed,
            steps,
            ..
        } => refused_by(write_serial_run(alloc, bytes, jobs, seed, steps)),
        TextCommand::Check => refused_by(check_run(alloc, bytes)),
        TextCommand::Audit => refused_by(audit_run(alloc, bytes)),
        TextCommand::Report => refused_by(report_run(alloc, bytes)),
        TextCommand::Print => refused_by(print_program(alloc, bytes)),
        TextCommand::Gen { number } => Ok(generate_program(alloc, number)?),
        TextCommand::Drill { number } => Ok(drill_program(alloc, number)?),
        TextCommand::Migrate => refused_by(migrate_run(alloc, bytes)),
        TextCommand::Why { place } => explain_run(alloc, bytes, place),
        TextCommand::Cut => refused_by(cut_run(alloc, bytes)),
        TextCommand::Draw { from, to, ask } => draw_run(alloc, bytes, from, to, ask),
        TextCommand::Storm {
            numbers,
            question,
            ..
        } => storm_program(alloc, bytes, &numbers, &question),
    }
}

/// The output with a text behind which nothing is left to say. The error is want of memory.
pub(crate) fn done(text: Result<Vec<u8>, AllocError>) -> Result<Output, InputError>
    ensures text { IfOk result (λ o. (text ≡ Ok o.text) × (o.end ≡ End.Done)) }
    ensures err { IfErr result (λ e. e ≡ InputError.NoMemory) }
{
    Ok(Output {
        text: text?,
        end: End::Done,
    })
}

/// The same output. The error is want of memory.
pub(crate) fn or_no_memory(written: Result<Output, AllocError>) -> Result<Output, InputError>
    ensures output { IfOk result (λ o. written ≡ Ok o) }
    ensures err { IfErr result (λ e. e ≡ InputError.NoMemory) }
{
    Ok(written?)
}

/// The same output, or the refusal for the error.
pub(crate) fn refused_by(written: Result<Output, InputError>) -> Result<Output, Refusal>
    ensures { result ≡ refused_by written }
{
    Ok(written?)
}
