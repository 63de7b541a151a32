//! The index of a trace.
ghost use Rattle.std.specs.Prelude.{◌≡◌, ◌<◌, ◌+◌, ◌↔◌, ℕ, [], IsTrue, IfOk, OnOk};
ghost use Rattle.std.specs.List.{Contains};
ghost use Rattle.tau_trace.specs.Run.{len};
ghost use Rattle.tau_trace.specs.Numbering.{sent};
ghost use Rattle.tau_trace.specs.Turns.{HasOpenTurn};
ghost use Rattle.tau_legal.specs.Receivers.{HasReceiver};
ghost use Rattle.tau_queue.specs.OpenTurns.{IsOpenFrom, AreOpenTurns};
ghost use Rattle.tau_queue.specs.Flight.{AreInFlight};
ghost use Rattle.tau_queue.specs.Inner.Index.{IsIndexOf};
ghost use Rattle.tau_queue.specs.Inner.Scans.{AreLettersBelow, AreInTurnBelow, AreOpenBelow};

use crate::index::Index;
use crate::letters::letter_of;
use std::alloc::{AllocError, Global};
use tau_mailbox::Mailboxes;
use tau_trace::{Step, Trace};

/// The index of a trace, each message of which has a receiver, by one look at each message, transactor and place. The error is
/// want of memory.
pub(crate) fn index_of(alloc: Global, trace: &Trace) -> Result<Index, AllocError>
    requires { (m : ℕ) → m < sent trace.now.run (len trace.now.run) → HasReceiver trace.now.run m }
    ensures { IfOk result (IsIndexOf trace.now.run) }
{
    let mut index = Index::new(alloc, trace.opening().nodes);
    put_letters(&mut index.mailboxes, trace)?;
    open_turns(&mut index.mailboxes, trace)?;
    put_places(&mut index.turns, trace)?;
    Ok(index)
}

/// Puts the letters of the messages in flight in.
fn put_letters(mailboxes: &mut Mailboxes, trace: &Trace) -> Result<(), AllocError>
    requires received { (m : ℕ) → m < sent trace.now.run (len trace.now.run) → HasReceiver trace.now.run m }
    requires nodes { mailboxes.old.nodes ≡ trace.now.run.opening.nodes }
    requires none { mailboxes.old.letters ≡ [] }
    ensures nodes { mailboxes.new.nodes ≡ mailboxes.old.nodes }
    ensures letters { OnOk result (AreInFlight trace.now.run mailboxes.new.letters) }
    ensures busy { mailboxes.new.busy ≡ mailboxes.old.busy }
{
    let count = trace.sent();
    for message in 0..count {
        put_letter(mailboxes, trace, message)?;
    }
    Ok(())
}

/// Puts the letter of a message in, if it is in flight, behind those of the messages before it.
fn put_letter(mailboxes: &mut Mailboxes, trace: &Trace, message: u32) -> Result<(), AllocError>
    requires exists { message < sent trace.now.run (len trace.now.run) }
    requires received { HasReceiver trace.now.run message }
    requires nodes { mailboxes.old.nodes ≡ trace.now.run.opening.nodes }
    requires below { AreLettersBelow trace.now.run message mailboxes.old.letters }
    ensures nodes { mailboxes.new.nodes ≡ mailboxes.old.nodes }
    ensures letters { OnOk result (AreLettersBelow trace.now.run (message + 1) mailboxes.new.letters) }
    ensures busy { mailboxes.new.busy ≡ mailboxes.old.busy }
{
    // The trace is well formed, so each transactor has one node.
    let _len = trace.len();
    if trace.ended_by(message).is_some() {
        return Ok(());
    }
    mailboxes.arrive(letter_of(trace, message))
}

/// Opens the turns of the transactors that are in one.
fn open_turns(mailboxes: &mut Mailboxes, trace: &Trace) -> Result<(), AllocError>
    requires { mailboxes.old.busy ≡ [] }
    ensures nodes { mailboxes.new.nodes ≡ mailboxes.old.nodes }
    ensures letters { mailboxes.new.letters ≡ mailboxes.old.letters }
    ensures busy { OnOk result ((t : ℕ) → Contains mailboxes.new.busy t ↔ HasOpenTurn trace.now.run t (len trace.now.run)) }
{
    // The trace is well formed, so who is in a turn exists.
    let _len = trace.len();
    let count = trace.born();
    for who in 0..count {
        open_turn(mailboxes, trace, who)?;
    }
    Ok(())
}

/// Opens the turn of a transactor, if it is in one, after those of the transactors before it.
fn open_turn(mailboxes: &mut Mailboxes, trace: &Trace, who: u32) -> Result<(), AllocError>
    requires { AreInTurnBelow trace.now.run who mailboxes.old.busy }
    ensures nodes { mailboxes.new.nodes ≡ mailboxes.old.nodes }
    ensures letters { mailboxes.new.letters ≡ mailboxes.old.letters }
    ensures busy { OnOk result (AreInTurnBelow trace.now.run (who + 1) mailboxes.new.busy) }
{
    if trace.open_turn(who).is_none() {
        return Ok(());
    }
    mailboxes.reserve_open()?;
    mailboxes.open(who);
    Ok(())
}

/// Adds the places of the Takes of the open turns, in ascending order.
fn put_places(turns: &mut Vec<u32>, trace: &Trace) -> Result<(), AllocError>
    requires { turns.old.items ≡ [] }
    ensures { OnOk result (AreOpenTurns trace.now.run turns.new.items) }
{
    let count = trace.len();
    for place in 0..count {
        put_place(turns, trace, place)?;
    }
    Ok(())
}

/// Adds a place, if a turn is open from it, behind those before it.
fn put_place(turns: &mut Vec<u32>, trace: &Trace, place: u32) -> Result<(), AllocError>
    requires { AreOpenBelow trace.now.run place turns.old.items }
    ensures { OnOk result (AreOpenBelow trace.now.run (place + 1) turns.new.items) }
{
    if is_open_from(trace, place) {
        turns.push(place)?;
    }
    Ok(())
}

/// Whether the turn of the Take at a place is open.
fn is_open_from(trace: &Trace, place: u32) -> bool
    ensures { IsTrue result ↔ IsOpenFrom trace.now.run place }
{
    match trace.step(place) {
        Some(Step::Take { who, .. }) => trace.open_turn(*who) == Some(place),
        _ => false,
    }
}
