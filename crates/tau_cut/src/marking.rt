//! The greatest consistent set of Checkpoints.
ghost use Rattle.std.specs.Prelude.{◌≡◌, ◌<◌, Some, None, length, set, slice_get, IfOk};
ghost use Rattle.tau_cut.specs.Cuts.{IsCut};
ghost use Rattle.tau_cut.specs.Inner.Marking.{mark_of, AreMarks};

use crate::cut::{Cut, Marked};
use crate::keeping::{checkpoints_in, unkept_points};
use std::alloc::{AllocError, Global};
use tau_explain::chains::Chain;
use tau_explain::links::shortest_chains;
use tau_past::Index;
use tau_points::PointSet;
use tau_trace::Trace;

/// The mark of the Checkpoint at a place: Out with the chain, if there is one.
fn mark_of(place: u32, chain: Option<Chain>) -> Marked
    ensures { result ≡ mark_of place chain }
{
    match chain {
        Some(chain) => Marked::Out { place, chain },
        None => Marked::In { place },
    }
}

/// Takes out the chain at an index, if there is one.
fn take_chain(chains: &mut Vec<Option<Chain>>, at: usize) -> Option<Chain>
    requires { at < length chains.old.items }
    ensures taken { slice_get chains.old.items at ≡ Some result }
    ensures left { chains.new.items ≡ set chains.old.items at None }
{
    chains[at].take()
}

/// The marks of the Checkpoints at places, by their chains, which are moved into the marks.
fn marks_of(
    alloc: Global,
    places: &[u32],
    chains: &mut Vec<Option<Chain>>,
) -> Result<Vec<Marked>, AllocError>
    requires { length chains.old.items ≡ length places.now }
    ensures { IfOk result (λ v. AreMarks places.now chains.old.items (length places.now) v.items chains.new.items) }
{
    let mut marks = Vec::new(alloc);
    for at in 0..places.len() {
        let chain = take_chain(chains, at);
        marks.push(mark_of(places[at], chain))?;
    }
    Ok(marks)
}

/// The greatest consistent set of Checkpoints of a trace (docs/definitions.md, "Consistent"): a mark for each Checkpoint, by place.
/// In where the set holds it; Out exactly where no consistent set does, with the first of the shortest chains from its point to a
/// point that can't be kept, and the least place of a step that makes each link. One search serves all Checkpoints: the time is
/// linear in the trace and in the length of the chains, but for the sorting of points. The error is want of memory.
pub fn greatest(alloc: Global, trace: &Trace) -> Result<Cut, AllocError>
    ensures { IfOk result (IsCut trace.now.run) }
{
    let index = Index::of(alloc, trace)?;
    let checkpoints = checkpoints_in(alloc, trace, &index)?;
    let kept = PointSet::from_slice(alloc, &checkpoints.points)?;
    let unkept = unkept_points(alloc, &index, &kept)?;
    let mut chains = shortest_chains(alloc, &index, &checkpoints.points, &unkept)?;
    let marks = marks_of(alloc, &checkpoints.places, &mut chains)?;
    Ok(Cut::from_vec(marks))
}
