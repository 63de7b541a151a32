//! Reviving a program.
ghost use Rattle.std.specs.Prelude.{◌≡◌, ◌+◌, ◌≤◌, ◌↔◌, ℕ, length, IsTrue, IsFalse, IfOk, IsErrOf, Err};
ghost use Rattle.tau_value.specs.declared.limits.TheConstants.{ENTRY_LIMIT};
ghost use Rattle.tau_tree.specs.Sound.{Sound};
ghost use Rattle.tau_trace.specs.Run.{len};
ghost use Rattle.tau_script.specs.Cursors.{CursorAt, MovedFrom};
ghost use Rattle.tau_script.specs.Scripts.{NoneDue};
ghost use Rattle.tau_legal.specs.Traces.{Legal};
ghost use Rattle.tau_revival.specs.Revival.{IsRevival, IsScriptFull, LeadsOn};

use crate::errors::ReviveError;
use crate::laws::{revival_keeps_due, revival_keeps_legality};
use crate::scripts::revived_script;
use std::alloc::{AllocError, Global};
use tau_script::laws::scripts_are_determined;
use tau_script::{Cursor, due, passed};
use tau_trace::Trace;
use tau_tree::{Program, Script};
use tau_value::ENTRY_LIMIT;

/// The program in which each node fails after the steps of the trace (docs/journal.md, "Going on"). The cursor is one that came along with
/// the trace, moved by `pass_due` before each step was appended, and it goes on in the revived script.
///
/// The new entries stand in the order of the nodes: behind the entry at the cursor where it is ripe, before it where it
/// isn't, and at the end where the cursor is past the last entry. ScriptFull comes exactly where the entries and the
/// nodes are more than 4,096 together; the cursor stays then. The time goes with the program and its script.
pub fn revive(
    alloc: Global,
    program: &Program,
    trace: &Trace,
    cursor: &mut Cursor,
) -> Result<Program, ReviveError>
    requires sound { Sound program.now }
    requires cursor { LeadsOn program.now.script trace.now.run cursor.old }
    ensures revival { IfOk result (IsRevival program.now trace.now.run) }
    ensures sound { IfOk result Sound }
    ensures legal { IfOk result (λ q. Legal program.now trace.now.run ↔ Legal q trace.now.run) }
    ensures cursor { IfOk result (λ q. LeadsOn q.script trace.now.run cursor.new) }
    ensures full { (n : ℕ) → IsErrOf result (ReviveError.ScriptFull n) → IsScriptFull program.now n }
    ensures fully { (n : ℕ) → IsScriptFull program.now n → result ≡ Err (ReviveError.ScriptFull n) }
    ensures stays { (n : ℕ) → IsErrOf result (ReviveError.ScriptFull n) → cursor.new ≡ cursor.old }
{
    check_room(program)?;
    Ok(revived_from(alloc, program, trace, cursor)?)
}

/// Whether the script has room for an entry more for each node.
fn check_room(program: &Program) -> Result<(), ReviveError>
    requires { Sound program.now }
    ensures room { IfOk result (λ _. length program.now.script + program.now.nodes ≤ ENTRY_LIMIT) }
    ensures full { (n : ℕ) → IsErrOf result (ReviveError.ScriptFull n) → IsScriptFull program.now n }
    ensures fully { (n : ℕ) → IsScriptFull program.now n → result ≡ Err (ReviveError.ScriptFull n) }
{
    let entries = program.script.len();
    if entries + program.nodes as usize > ENTRY_LIMIT as usize {
        return Err(ReviveError::ScriptFull {
            entries: entries as u64,
        });
    }
    Ok(())
}

/// The revived program, by a cursor that has come to the end of the trace.
fn revived_from(
    alloc: Global,
    program: &Program,
    trace: &Trace,
    cursor: &mut Cursor,
) -> Result<Program, AllocError>
    requires sound { Sound program.now }
    requires room { length program.now.script + program.now.nodes ≤ ENTRY_LIMIT }
    requires cursor { LeadsOn program.now.script trace.now.run cursor.old }
    ensures revival { IfOk result (IsRevival program.now trace.now.run) }
    ensures sound { IfOk result Sound }
    ensures legal { IfOk result (λ q. Legal program.now trace.now.run ↔ Legal q trace.now.run) }
    ensures cursor { IfOk result (λ q. LeadsOn q.script trace.now.run cursor.new) }
{
    revival_keeps_due();
    revival_keeps_legality();
    due(&program.script, cursor, trace);
    let script = revived_script(
        alloc,
        &program.script,
        program.nodes,
        trace.len(),
        cursor.entry,
    )?;
    with_script(program, script)
}

/// The program with another script.
fn with_script(program: &Program, script: Script) -> Result<Program, AllocError>
    ensures { IfOk result (λ q. q ≡ record program.now { script = script }) }
{
    Ok(Program {
        version: program.version,
        nodes: program.nodes,
        behaviours: program.behaviours.copy()?,
        starts: program.starts.copy()?,
        posts: program.posts.copy()?,
        script,
    })
}

/// Whether the script makes a step due after the steps so far. The cursor comes to their end, and past what is due there, before one more
/// step is appended (docs/rules.md, "Scripts").
pub fn pass_due(script: &Script, cursor: &mut Cursor, so_far: &Trace) -> bool
    requires { length script.now ≤ ENTRY_LIMIT }
    ensures moved { LeadsOn script.now so_far.now.run cursor.old
        → MovedFrom (CursorAt script.now so_far.now.run (len so_far.now.run)) script.now so_far.now.run (len so_far.now.run) cursor.new }
    ensures due { LeadsOn script.now so_far.now.run cursor.old → IsTrue result → ¬ NoneDue script.now so_far.now.run (len so_far.now.run) }
    ensures none { LeadsOn script.now so_far.now.run cursor.old → IsFalse result
        → NoneDue script.now so_far.now.run (len so_far.now.run) × CursorAt script.now so_far.now.run (len so_far.now.run) cursor.new }
{
    scripts_are_determined();
    match due(script, cursor, so_far) {
        Some(step) => {
            passed(script, cursor, &step);
            true
        }
        None => false,
    }
}
