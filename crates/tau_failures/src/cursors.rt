//! The cursor of the script.
ghost use Rattle.tau_trace.specs.Run.{len};
ghost use Rattle.tau_trace.specs.Known.{WellFormed};
ghost use Rattle.tau_script.specs.Cursors.{CursorAt, IsCurrent, IsDueAt};
ghost use Rattle.tau_legal.specs.Traces.{Fitting};
ghost use Rattle.tau_failures.specs.Dues.{due_step};

use crate::Due;
use crate::dues::due_of;
use tau_knowledge::Knowledge;
use tau_rules::System;
use tau_script::Cursor;

/// What the script makes due, by a cursor that passes over entries first.
pub(crate) fn due_by<'p, K: Knowledge + Drop>(
    system: &System<'p, K>,
    cursor: &mut Cursor,
) -> Option<Due>
    ensures current { IsCurrent system.now.program.script system.now.run (len system.now.run) cursor.old → CursorAt system.now.program.script system.now.run (len system.now.run) cursor.new }
    ensures due { IsDueAt system.now.program.script system.now.run (len system.now.run) cursor.new (due_step result) }
    ensures well_formed { WellFormed system.now.run }
    ensures fitting { Fitting system.now.program system.now.run }
{
    let step = tau_script::due(&system.program().script, cursor, system.trace());
    due_of(step)
}
