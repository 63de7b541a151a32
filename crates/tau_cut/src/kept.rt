//! The places that a cut holds.
ghost use Rattle.std.specs.Prelude.{◌≡◌, ◌↔◌, ◌<◌, ℕ, Contains, IfOk, length};
ghost use Rattle.tau_trace.specs.Run.{len};
ghost use Rattle.tau_explain.specs.Links.Marks.{IsMarked};
ghost use Rattle.tau_cut.specs.declared.cut.Marked.TheVariants.{In};
ghost use Rattle.tau_cut.specs.Cuts.{places_in, IsCut};
ghost use Rattle.tau_cut.specs.Inner.Marking.{MarksIn};

use crate::{Cut, Marked};
use std::alloc::{AllocError, Global};
use tau_trace::Trace;

/// Marks the place of a mark that is In.
fn mark_in(mark: &Marked, marks: &mut Vec<bool>)
    requires { (k : ℕ) → mark.now ≡ In k → k < length marks.old.items }
    ensures { MarksIn mark.now marks.old.items marks.new.items }
{
    match mark {
        Marked::In { place } => marks[*place as usize] = true,
        Marked::Out { .. } => {}
    }
}

/// For each step whether a cut holds it. The error is want of memory.
pub fn kept_places(alloc: Global, trace: &Trace, cut: &Cut) -> Result<Vec<bool>, AllocError>
    requires { IsCut trace.now.run cut.now }
    ensures length { IfOk result (λ v. length v.items ≡ len trace.now.run) }
    ensures marked { IfOk result (λ v. (k : ℕ) → Contains (places_in cut.now) k ↔ IsMarked v.items k) }
{
    let mut marks = vec![in alloc; false; trace.len() as usize]?;
    for mark in cut.items() {
        mark_in(mark, &mut marks);
    }
    Ok(marks)
}
