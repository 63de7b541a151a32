//! The forms of steps, by the words that begin them (docs/formats.md, "Steps").
ghost use Rattle.std.specs.Prelude.{map};
ghost use Rattle.tau_sexpr.specs.Form.{tree_of};
ghost use Rattle.tau_sexpr.specs.Tree.{inside};
ghost use Rattle.tau_steps.specs.Inner.Reading.{IsPlace, TellsRow, TellsStep};

use crate::errors::ItemError;
use crate::items::{self, Place, both};
use crate::kinds::{AloneKind, Kind, MessageKind, kind_of};
use std::alloc::Global;
use tau_sexpr::Form;
use tau_trace::Step;

/// The step that a form means at a place.
pub(crate) fn read_step(alloc: Global, form: &Form, place: Place<'_>) -> Result<Step, ItemError>
    requires { IsPlace place }
    ensures { TellsStep place.entry (tree_of form.now) result }
{
    let Form::List(items) = form else {
        return Err(ItemError::Shape);
    };
    let [first, rest @ ..] = items.items() else {
        return Err(ItemError::Shape);
    };
    match first {
        Form::Word(head) => {
            let kind = kind_of(head).in_version(place.opening.version);
            read_row(alloc, kind, rest, place)
        }
        Form::Text(_) | Form::List(_) => Err(ItemError::Shape),
    }
}

/// The step of a kind that the other items of a form mean.
fn read_row(alloc: Global, kind: Kind, items: &[Form], place: Place<'_>) -> Result<Step, ItemError>
    requires { IsPlace place }
    ensures { TellsRow place.entry kind (inside (map tree_of items.now)) result }
{
    match kind {
        Kind::OfMessage(kind) => of_message(kind, items, place),
        Kind::Alone(kind) => alone(kind, items, place),
        Kind::Set => set(alloc, items, place),
        Kind::Send => send(alloc, items, place),
        Kind::New => new(alloc, items, place),
        Kind::Ask => ask(items, place),
        Kind::Trap => trap(items, place),
        Kind::Lose => lose(items, place),
        Kind::Echo => echo(items, place),
        Kind::Repeat => repeat(items, place),
        Kind::Other => Err(ItemError::Shape),
    }
}

/// `(KIND WHO)`.
fn alone(kind: AloneKind, items: &[Form], place: Place<'_>) -> Result<Step, ItemError>
    requires { IsPlace place }
    ensures { TellsRow place.entry (Kind.Alone kind) (inside (map tree_of items.now)) result }
{
    let [who] = items else {
        return Err(ItemError::Shape);
    };
    let who = place.transactor(who)?;
    Ok(kind.step(who))
}

/// `(KIND WHO M)`.
fn of_message(kind: MessageKind, items: &[Form], place: Place<'_>) -> Result<Step, ItemError>
    requires { IsPlace place }
    ensures { TellsRow place.entry (Kind.OfMessage kind) (inside (map tree_of items.now)) result }
{
    let [who, message] = items else {
        return Err(ItemError::Shape);
    };
    let (who, message) = both(place.transactor(who), place.message(message))?;
    Ok(kind.step(who, message))
}

/// `(set WHO VALUE)`.
fn set(alloc: Global, items: &[Form], place: Place<'_>) -> Result<Step, ItemError>
    requires { IsPlace place }
    ensures { TellsRow place.entry Kind.Set (inside (map tree_of items.now)) result }
{
    let [who, value] = items else {
        return Err(ItemError::Shape);
    };
    let (who, value) = both(place.transactor(who), place.value(alloc, value))?;
    Ok(Step::Set { who, value })
}

/// `(send WHO N TO VALUE)`.
fn send(alloc: Global, items: &[Form], place: Place<'_>) -> Result<Step, ItemError>
    requires { IsPlace place }
    ensures { TellsRow place.entry Kind.Send (inside (map tree_of items.now)) result }
{
    let [who, number, to, value] = items else {
        return Err(ItemError::Shape);
    };
    let content = both(place.transactor(to), place.value(alloc, value));
    let made = both(items::next(number, place.messages), content);
    let (who, (_, (to, value))) = both(place.transactor(who), made)?;
    Ok(Step::Send { who, to, value })
}

/// `(new WHO N BEHAVIOUR NODE VALUE)`.
fn new(alloc: Global, items: &[Form], place: Place<'_>) -> Result<Step, ItemError>
    requires { IsPlace place }
    ensures { TellsRow place.entry Kind.New (inside (map tree_of items.now)) result }
{
    let [who, number, behaviour, node, state] = items else {
        return Err(ItemError::Shape);
    };
    let home = both(place.node(node), place.value(alloc, state));
    let content = both(place.behaviour(behaviour), home);
    let made = both(items::next(number, place.transactors), content);
    let (who, (_, (behaviour, (node, state)))) = both(place.transactor(who), made)?;
    Ok(Step::New {
        who,
        behaviour,
        node,
        state,
    })
}

/// `(ask WHO true)` or `(ask WHO false)`.
fn ask(items: &[Form], place: Place<'_>) -> Result<Step, ItemError>
    requires { IsPlace place }
    ensures { TellsRow place.entry Kind.Ask (inside (map tree_of items.now)) result }
{
    let [who, answer] = items else {
        return Err(ItemError::Shape);
    };
    let (who, answer) = both(place.transactor(who), items::truth(answer))?;
    Ok(Step::Ask { who, answer })
}

/// `(trap WHO CODE)`.
fn trap(items: &[Form], place: Place<'_>) -> Result<Step, ItemError>
    requires { IsPlace place }
    ensures { TellsRow place.entry Kind.Trap (inside (map tree_of items.now)) result }
{
    let [who, code] = items else {
        return Err(ItemError::Shape);
    };
    let (who, code) = both(place.transactor(who), items::code(code))?;
    Ok(Step::Trap { who, code })
}

/// `(lose M)`.
fn lose(items: &[Form], place: Place<'_>) -> Result<Step, ItemError>
    ensures { TellsRow place.entry Kind.Lose (inside (map tree_of items.now)) result }
{
    let [message] = items else {
        return Err(ItemError::Shape);
    };
    let message = place.message(message)?;
    Ok(Step::Lose { message })
}

/// `(echo WHO N M)`.
fn echo(items: &[Form], place: Place<'_>) -> Result<Step, ItemError>
    requires { IsPlace place }
    ensures { TellsRow place.entry Kind.Echo (inside (map tree_of items.now)) result }
{
    let [who, number, message] = items else {
        return Err(ItemError::Shape);
    };
    let made = both(items::next(number, place.messages), place.message(message));
    let (who, (_, message)) = both(place.transactor(who), made)?;
    Ok(Step::Echo { who, message })
}

/// `(repeat N M)`.
fn repeat(items: &[Form], place: Place<'_>) -> Result<Step, ItemError>
    ensures { TellsRow place.entry Kind.Repeat (inside (map tree_of items.now)) result }
{
    let [number, message] = items else {
        return Err(ItemError::Shape);
    };
    let told = both(items::next(number, place.messages), place.message(message))?;
    Ok(Step::Repeat { message: told.1 })
}
