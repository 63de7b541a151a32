//! The due step.
ghost use Rattle.std.specs.Prelude.{◌≡◌, ◌<◌, ◌≤◌, ℕ, length, IfSome};
ghost use Rattle.tau_value.specs.declared.limits.TheConstants.{ENTRY_LIMIT};
ghost use Rattle.tau_trace.specs.declared.step.Step.TheVariants as steps;
ghost use Rattle.tau_trace.specs.Run.{len};
ghost use Rattle.tau_trace.specs.Known.{IsKnownAt};
ghost use Rattle.tau_script.specs.Cursors.{IsPassedOver, PassesTo, IsDueAt, IsCurrent, CursorAt};

use crate::Cursor;
use crate::entries::{due_as, is_passed_over};
use tau_trace::{Step, Trace};
use tau_tree::Script;

/// The step that the script makes due after the trace; `None` exactly where none is due (docs/rules.md, "Scripts"). The
/// cursor passes over entries that are ripe and not due, each once in a run. A cursor that was asked at each length of
/// the trace up to this one, and moved by `passed` after each due step, is the script's. A due step may be appended and
/// passed. It takes no memory.
pub fn due(script: &Script, cursor: &mut Cursor, trace: &Trace) -> Option<Step>
    requires { length script.now ≤ ENTRY_LIMIT }
    ensures passes { PassesTo script.now trace.now.run (len trace.now.run) cursor.old cursor.new }
    ensures due { IsDueAt script.now trace.now.run (len trace.now.run) cursor.new result }
    ensures known { IfSome result (IsKnownAt trace.now.run (len trace.now.run)) }
    ensures entry { IfSome result (λ s. cursor.new.entry < length script.now) }
    ensures who { IfSome result (λ s. (t : ℕ) → s ≡ steps.Fail t → t < u32.MAX) }
    ensures cursor { IsCurrent script.now trace.now.run (len trace.now.run) cursor.old
        → CursorAt script.now trace.now.run (len trace.now.run) cursor.new }
{
    pass_over(script, cursor, trace);
    due_at(script, *cursor, trace)
}

/// Passes over the entries that are ripe and not due.
fn pass_over(script: &Script, cursor: &mut Cursor, trace: &Trace)
    requires { length script.now ≤ ENTRY_LIMIT }
    ensures passes { PassesTo script.now trace.now.run (len trace.now.run) cursor.old cursor.new }
    ensures rests { ¬ IsPassedOver script.now trace.now.run (len trace.now.run) cursor.new }
{
    'entries: while is_passed_over(script, *cursor, trace) {
        *cursor = cursor.next();
    }
}

/// The step as which the entry at a cursor that passes over nothing is due.
fn due_at(script: &Script, cursor: Cursor, trace: &Trace) -> Option<Step>
    requires { ¬ IsPassedOver script.now trace.now.run (len trace.now.run) cursor }
    ensures due { IsDueAt script.now trace.now.run (len trace.now.run) cursor result }
    ensures entry { IfSome result (λ s. cursor.entry < length script.now) }
    ensures who { IfSome result (λ s. (t : ℕ) → s ≡ steps.Fail t → t < u32.MAX) }
{
    let entry = script.item(cursor.entry as usize)?;
    if trace.len() < entry.at {
        return None;
    }
    due_as(entry.failure, cursor.who, trace)
}
