//! The faults that can come at a place of a run.
ghost use Rattle.std.specs.Prelude.{◌≡◌, ◌+◌, ◌<◌, ◌≤◌, ◌↔◌, ℕ, [], All, length, IsTrue, IfOk, OnOk};
ghost use Rattle.tau_value.specs.declared.limits.TheConstants.{ENTRY_LIMIT};
ghost use Rattle.tau_trace.specs.declared.step.Step.{Step};
ghost use Rattle.tau_trace.specs.Run.{len, appended};
ghost use Rattle.tau_trace.specs.Known.{WellFormed};
ghost use Rattle.tau_trace.specs.Numbering.{InFlight};
ghost use Rattle.tau_trace.specs.Nodes.{LivesAt};
ghost use Rattle.tau_script.specs.Cursors.{CursorAt, MovedFrom};
ghost use Rattle.tau_revival.specs.Revival.{LeadsOn};
ghost use Rattle.tau_faults.specs.Inner.Here.{AreThoseBefore, AreEffective, AreFaultsHere, CanBePlaced};
ghost use Rattle.tau_faults.specs.Inner.Walking.{first_steps};

use crate::FaultCounts;
use std::alloc::{AllocError, Global};
use tau_revival::pass_due;
use tau_script::Cursor;
use tau_trace::Trace;
use tau_tree::{Failure, Program};

/// The faults that can come after the steps so far, in their order, where so many are left; none before place `from`. The cursor
/// comes to that place, and past what is due there. The error is want of memory.
pub(crate) fn come_to(
    alloc: Global,
    program: &Program,
    every: u32,
    left: FaultCounts,
    from: u32,
    cursor: &mut Cursor,
    so_far: &Trace,
) -> Result<Vec<Failure>, AllocError>
    requires room { length program.now.script < ENTRY_LIMIT }
    requires every { 1 ≤ every }
    ensures moved { OnOk result (LeadsOn program.now.script so_far.now.run cursor.old
        → MovedFrom (CursorAt program.now.script so_far.now.run (len so_far.now.run)) program.now.script so_far.now.run (len so_far.now.run) cursor.new) }
    ensures faults { IfOk result (λ v. LeadsOn program.now.script so_far.now.run cursor.old → from ≤ len so_far.now.run
        → AreFaultsHere every left program.now so_far.now.run (len so_far.now.run) cursor.new v.items) }
    ensures early { IfOk result (λ v. len so_far.now.run < from → v.items ≡ []) }
    ensures placed { IfOk result (λ v. All (CanBePlaced left program.now) v.items) }
{
    if pass_due(&program.script, cursor, so_far) {
        return Ok(Vec::new(alloc));
    }
    let place = so_far.len();
    if place < from || place % every != 0 {
        return Ok(Vec::new(alloc));
    }
    effective(alloc, program, left, so_far)
}

/// The faults that do something after the steps so far, in their order, where so many are left. The error is want of memory.
fn effective(
    alloc: Global,
    program: &Program,
    left: FaultCounts,
    so_far: &Trace,
) -> Result<Vec<Failure>, AllocError>
    ensures { IfOk result (λ v. AreEffective left program.now so_far.now.run v.items) }
{
    let mut faults = Vec::new(alloc);
    add_fails(&mut faults, program, left, so_far)?;
    add_losses(&mut faults, program, left, so_far)?;
    add_repeats(&mut faults, program, left, so_far)?;
    Ok(faults)
}

/// Adds the failures of nodes with a living transactor, if any are left.
fn add_fails(
    faults: &mut Vec<Failure>,
    program: &Program,
    left: FaultCounts,
    so_far: &Trace,
) -> Result<(), AllocError>
    ensures { OnOk result (AreThoseBefore left program.now so_far.now.run 0 0 faults.old.items → AreThoseBefore left program.now so_far.now.run 1 0 faults.new.items) }
{
    if left.fails == 0 {
        return Ok(());
    }
    for node in 0..program.nodes {
        if has_living(so_far, node) {
            faults.push(Failure::Fail { node })?;
        }
    }
    Ok(())
}

/// Adds the losses of messages in flight, if any are left.
fn add_losses(
    faults: &mut Vec<Failure>,
    program: &Program,
    left: FaultCounts,
    so_far: &Trace,
) -> Result<(), AllocError>
    ensures { OnOk result (AreThoseBefore left program.now so_far.now.run 1 0 faults.old.items → AreThoseBefore left program.now so_far.now.run 2 0 faults.new.items) }
{
    if left.losses == 0 {
        return Ok(());
    }
    for message in 0..so_far.sent() {
        if is_in_flight(so_far, message) {
            faults.push(Failure::Lose { message })?;
        }
    }
    Ok(())
}

/// Adds the repeats of messages in flight, if any are left, in version 2.
fn add_repeats(
    faults: &mut Vec<Failure>,
    program: &Program,
    left: FaultCounts,
    so_far: &Trace,
) -> Result<(), AllocError>
    ensures { OnOk result (AreThoseBefore left program.now so_far.now.run 2 0 faults.old.items → AreThoseBefore left program.now so_far.now.run 3 0 faults.new.items) }
{
    if left.repeats == 0 || program.version != 2 {
        return Ok(());
    }
    for message in 0..so_far.sent() {
        if is_in_flight(so_far, message) {
            faults.push(Failure::Repeat { message })?;
        }
    }
    Ok(())
}

/// Whether a transactor lives on a node.
fn has_living(so_far: &Trace, node: u32) -> bool
    ensures { IsTrue result ↔ ((t : ℕ) × LivesAt so_far.now.run node t (len so_far.now.run)) }
{
    so_far.next_living(node, 0).is_some()
}

/// Whether a message is in flight.
fn is_in_flight(so_far: &Trace, message: u32) -> bool
    ensures { IsTrue result ↔ InFlight so_far.now.run message (len so_far.now.run) }
{
    message < so_far.sent() && so_far.ended_by(message).is_none()
}

/// Adds the step at the place to which the steps so far have come. The error is want of memory.
pub(crate) fn go_on(so_far: &mut Trace, trace: &Trace, place: u32) -> Result<(), AllocError>
    requires so_far { so_far.old.run ≡ first_steps trace.now.run place }
    requires place { place < len trace.now.run }
    requires well_formed { WellFormed trace.now.run }
    ensures step { OnOk result ((s : Step) × (so_far.new.run ≡ appended so_far.old.run s)) }
    ensures more { OnOk result (so_far.new.run ≡ first_steps trace.now.run (place + 1)) }
{
    let Some(step) = trace.step(place) else {
        unreachable!()
    };
    so_far.reserve()?;
    so_far.push_spare(step.copy()?);
    Ok(())
}
