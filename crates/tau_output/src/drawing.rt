//! The command `draw`.
ghost use Rattle.std.specs.Prelude.{◌≡◌, ◌≤◌, length, IfOk, IfErr};
ghost use Rattle.tau_command.specs.declared.commands.TextCommand.TheVariants.{Draw};
ghost use Rattle.tau_text.specs.Faults.{IsRunFault};
ghost use Rattle.tau_output.specs.Faults.{input_limit};
ghost use Rattle.tau_output.specs.Refusals.{TellsFault, TellsLacking};
ghost use Rattle.tau_output.specs.Asking.{AsksInVain};
ghost use Rattle.tau_output.specs.Drawing.{DrawsAs};

use crate::{End, Output, Refusal, Wanted};
use std::alloc::Global;
use tau_picture::{Drawn, draw};
use tau_text::read_run_text;

/// The picture of the run of a run text, from a place up to another, with the cause of the step at a third, where it is given
/// (docs/formats.md, "Pictures").
pub(crate) fn draw_run(
    alloc: Global,
    bytes: &[u8],
    from: u32,
    to: u32,
    ask: Option<u64>,
) -> Result<Output, Refusal>
    requires { length bytes.now ≤ input_limit }
    ensures output { IfOk result (λ o. DrawsAs from to ask bytes.now o.text.items × (o.end ≡ End.Done)) }
    ensures fault { IfErr result (TellsFault (IsRunFault bytes.now)) }
    ensures lacking { IfErr result (TellsLacking (AsksInVain (Draw from to ask) bytes.now)) }
{
    let input = read_run_text(alloc, bytes)?;
    // Its contract says that the trace is well-formed.
    let _length = input.trace.len();
    match draw(alloc, &input.program, &input.trace, from, to, ask)? {
        Drawn::Picture(text) => Ok(Output {
            text,
            end: End::Done,
        }),
        Drawn::NotAsked => match ask {
            Some(place) => Err(Refusal::Lacking {
                wanted: Wanted::Step { place },
            }),
            None => unreachable!(),
        },
    }
}
