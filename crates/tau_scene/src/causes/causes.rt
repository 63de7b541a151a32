//! The causes of steps.
ghost use Rattle.std.specs.Prelude.{◌≡◌, IfOk};
ghost use Rattle.tau_scene.specs.Causes.Causes.{IsCauseAt};
ghost use Rattle.tau_scene.specs.Causes.Inner.Cuts.{chain_for, IsChainAt};

use std::alloc::{AllocError, Global};
use tau_cut::{Cut, Marked};
use tau_explain::chains::Chain;
use tau_explain::{Why, why};
use tau_trace::Trace;

/// The chain of a mark, where it is Out and stands at a place.
fn chain_for(mark: &Marked, place: u32) -> Result<Option<Chain>, AllocError>
    ensures { IfOk result (λ c. c ≡ chain_for place mark.now) }
{
    match mark {
        Marked::In { .. } => Ok(None),
        Marked::Out { place: at, chain } => {
            if *at == place {
                return Ok(Some(chain.copy()?));
            }
            Ok(None)
        }
    }
}

/// The chain of the mark at a place, where it is Out.
fn chain_at(cut: &Cut, place: u32) -> Result<Option<Chain>, AllocError>
    ensures { IfOk result (IsChainAt cut.now place) }
{
    for mark in cut.items() {
        if let Some(chain) = chain_for(mark, place)? {
            return Ok(Some(chain));
        }
    }
    Ok(None)
}

/// The cause of the step at a place of a trace (docs/formats.md, "Pictures"): the chain of `why` for a Hold, a Drop or a Fall, and
/// that of a cut for a Checkpoint that the cut doesn't hold; `None` where there is none. The time is linear in the trace. The error
/// is want of memory.
pub fn cause_at(
    alloc: Global,
    trace: &Trace,
    cut: &Cut,
    place: u32,
) -> Result<Option<Chain>, AllocError>
    ensures { IfOk result (IsCauseAt trace.now.run cut.now place) }
{
    if let Why::Chain(chain) = why(alloc, trace, u64::from(place))? {
        return Ok(Some(chain));
    }
    chain_at(cut, place)
}
