//! Steps.
ghost use Rattle.std.specs.Prelude.{◌≡◌, ◌<◌, ◌∷◌, ◌++◌, [], Some, IfOk, OnOk};
ghost use Rattle.tau_trace.specs.Run.{len};
ghost use Rattle.tau_scene.specs.Words.Texts.{step_text, bare_text};

use crate::words::forms::printed;
use std::alloc::{AllocError, Global};
use tau_steps::form_of_step;
use tau_trace::Trace;

/// Adds the printed form of the step at a place (docs/formats.md, "Steps"), with no line feed behind it, in time for the step's
/// own size. The error is want of memory.
pub fn put_step(
    alloc: Global,
    out: &mut Vec<u8>,
    trace: &Trace,
    place: u32,
) -> Result<(), AllocError>
    requires { place < len trace.now.run }
    ensures { OnOk result (out.new.items ≡ out.old.items ++ step_text trace.now.run place) }
{
    let text = step_printed(alloc, trace, place)?;
    out.extend_from_slice(&text)
}

/// Adds the printed form of the step at a place without its outer brackets (docs/formats.md, "Pictures"), in time for the step's
/// own size. The error is want of memory.
pub fn put_bare(
    alloc: Global,
    out: &mut Vec<u8>,
    trace: &Trace,
    place: u32,
) -> Result<(), AllocError>
    requires { place < len trace.now.run }
    ensures { OnOk result (out.new.items ≡ out.old.items ++ bare_text trace.now.run place) }
{
    let text = step_printed(alloc, trace, place)?;
    out.extend_from_slice(&text[1..text.len() - 1])
}

/// The printed form of the step at a place: brackets, and what stands between them.
fn step_printed(alloc: Global, trace: &Trace, place: u32) -> Result<Vec<u8>, AllocError>
    requires { place < len trace.now.run }
    ensures text { IfOk result (λ v. v.items ≡ step_text trace.now.run place) }
    ensures brackets { IfOk result (λ v. v.items ≡ 40 ∷ (bare_text trace.now.run place ++ 41 ∷ [])) }
{
    let form = form_of_step(alloc, trace, place)?;
    printed(alloc, form)
}
