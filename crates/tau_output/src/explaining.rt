//! The command `why`.
ghost use Rattle.std.specs.Prelude.{◌≡◌, ◌≤◌, length, IfOk, IfErr};
ghost use Rattle.tau_command.specs.declared.commands.TextCommand.TheVariants.{Why as WhyCommand};
ghost use Rattle.tau_text.specs.Faults.{IsRunFault};
ghost use Rattle.tau_output.specs.Faults.{input_limit};
ghost use Rattle.tau_output.specs.Refusals.{TellsFault, TellsLacking};
ghost use Rattle.tau_output.specs.Asking.{AsksInVain};
ghost use Rattle.tau_output.specs.Explaining.{ExplainsAs};
ghost use Rattle.tau_output.specs.Inner.Ends.{is_not_asked};

use crate::{End, Output, Refusal, Wanted};
use std::alloc::Global;
use tau_explain::{Why, why, why_text};
use tau_text::read_run_text;

/// The shortest chain to a cause of the Hold, Drop or Fall at a place of the run of a run text, one point a line
/// (docs/formats.md, "Chains").
pub(crate) fn explain_run(alloc: Global, bytes: &[u8], place: u64) -> Result<Output, Refusal>
    requires { length bytes.now ≤ input_limit }
    ensures output { IfOk result (λ o. ExplainsAs place bytes.now o.text.items × (o.end ≡ End.Done)) }
    ensures fault { IfErr result (TellsFault (IsRunFault bytes.now)) }
    ensures lacking { IfErr result (TellsLacking (AsksInVain (WhyCommand place) bytes.now)) }
{
    let input = read_run_text(alloc, bytes)?;
    let answer = why(alloc, &input.trace, place)?;
    if is_not_asked(&answer) {
        return Err(Refusal::Lacking {
            wanted: Wanted::Step { place },
        });
    }
    Ok(Output {
        text: why_text(alloc, &input.trace, &answer)?,
        end: End::Done,
    })
}

/// Whether the answer is that no decision stands at the place.
fn is_not_asked(answer: &Why) -> bool
    ensures { result ≡ is_not_asked answer.now }
{
    matches!(answer, Why::NotAsked)
}
