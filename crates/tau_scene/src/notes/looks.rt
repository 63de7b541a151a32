//! All that a picture shows.
ghost use Rattle.std.specs.Prelude.{◌≡◌, ◌≤◌, IfOk};
ghost use Rattle.tau_trace.specs.Run.{len};
ghost use Rattle.tau_script.specs.Openings.{program_opening};
ghost use Rattle.tau_layout.specs.Plans.{IsPlan};
ghost use Rattle.tau_cut.specs.Cuts.{IsCut};
ghost use Rattle.tau_scene.specs.Notes.Looks.{IsLooks};

use crate::causes::show;
use crate::looks::Looks;
use crate::notes::endings::endings_in;
use crate::notes::steps::step_looks;
use std::alloc::{AllocError, Global};
use tau_cut::Cut;
use tau_layout::Layout;
use tau_past::Index;
use tau_trace::Trace;
use tau_tree::Program;

/// What a picture shows of a run of a program (docs/formats.md, "Pictures"), for the greatest consistent set of Checkpoints: its states
/// and its steps with their looks, and what may be kept of its transactors. The time is linear in the trace, and in a run of at most
/// 4,000 steps in the trace for each drawn step that has a cause. The error is want of memory.
pub fn looks_of(
    alloc: Global,
    program: &Program,
    trace: &Trace,
    index: &Index,
    layout: &Layout,
    cut: &Cut,
) -> Result<Looks, AllocError>
    requires opening { trace.now.run.opening ≡ program_opening program.now }
    requires index { index.now ≡ trace.now.run }
    requires plan { IsPlan trace.now.run layout.now.window layout.now }
    requires window { layout.now.window.to ≤ len trace.now.run }
    requires cut { IsCut trace.now.run cut.now }
    ensures { IfOk result (IsLooks program.now trace.now.run layout.now cut.now) }
{
    let window = layout.window();
    let count = trace.len();
    prove!(window.to <= count);
    let shown = show(alloc, trace, index, layout, cut)?;
    let steps = step_looks(alloc, program, trace, cut, window, &shown.marks)?;
    let ends = endings_in(alloc, program, trace, layout, cut)?;
    Ok(Looks {
        states: shown.states,
        steps,
        ends,
    })
}
