//! Changes applied, in room that was made before.
ghost use Rattle.std.specs.Prelude.{◌≡◌, ◌≢◌, ◌+◌, ◌<◌, ◌≤◌, ◌^◌, ℕ, length, slice_get, Some, vec_len};
ghost use Rattle.std.specs.Option.{option_map};
ghost use Rattle.std.specs.Vec.{vec_capacity};
ghost use Rattle.tau_versions.specs.Logs.Told.{Told};
ghost use Rattle.tau_heard.specs.declared.own.Own.{Own};
ghost use Rattle.tau_heard.specs.Bounds.{AreRaised};
ghost use Rattle.tau_heard.specs.Changed.{HasLogRoom, IsLogAfter, HasRoomToHear, IsHeardAfter, IsOwnAfter, roots_after, touched_after, depended_after};
ghost use Rattle.tau_heard.specs.After.{HasActorRoom, IsActorAfter, HasRoom, IsAfter, with_last, without, one_if};

use crate::change::{ActorChange, BoxedNewborn, HearingChange, LogChange, Newborn, TurnChange};
use crate::hearing::Hearing;
use crate::letter::{Letter, Sender};
use crate::own::Own;
use tau_versions::logs::Log;
use tau_versions::numbers::Numbers;
use tau_versions::roots::Roots;

/// Makes numbers those of what was heard together with what the sender of a message had heard. It takes no memory.
pub(crate) fn raise_by(numbers: &mut Numbers, sender: &Sender)
    requires room { length sender.now.numbers.value.items ≤ numbers.old.room }
    requires sender { sender.now.who < numbers.old.room }
    ensures raised { AreRaised numbers.old.numbers sender.now.who sender.now.version sender.now.numbers.value.items numbers.new.numbers }
{
    numbers.raise(&sender.numbers);
    numbers.raise_one(sender.who, sender.version);
}

/// Changes a log. It takes no memory.
pub(crate) fn change_log(log: &mut Log, change: LogChange)
    requires { HasLogRoom change log.old }
    ensures { IsLogAfter change log.old log.new }
{
    match change {
        LogChange::Stays => {}
        LogChange::Moves(version) => log.push(version),
        LogChange::Takes(points, version) => log.take(&points, version),
        LogChange::Closes(incarnation, version) => log.close(incarnation, version),
    }
}

/// Changes a turn. It takes no memory.
pub(crate) fn change_turn(own: &mut Own, change: TurnChange)
    ensures numbers { own.new.numbers ≡ own.old.numbers }
    ensures roots { own.new.roots ≡ roots_after change own.old.roots }
    ensures touched { own.new.touched ≡ touched_after change own.old.touched }
    ensures depended { own.new.depended ≡ depended_after change own.old.depended }
{
    match change {
        TurnChange::Stays => {}
        TurnChange::Touches => own.touched = true,
        TurnChange::Depends => {
            own.touched = true;
            own.depended = true;
        }
        TurnChange::Begins(roots) => {
            own.roots = roots;
            own.touched = false;
            own.depended = false;
        }
        TurnChange::Ends => {
            own.roots = Roots::none();
            own.touched = false;
            own.depended = false;
        }
    }
}

/// Makes what a transactor has heard of that together with what a message had heard. It takes no memory.
fn hear(own: &mut Own, letters: &[Option<Letter>], hears: Option<u32>)
    requires { HasRoomToHear hears letters.now own.old.numbers }
    ensures numbers { IsHeardAfter hears letters.now own.old.numbers.numbers own.new.numbers.numbers }
    ensures roots { own.new.roots ≡ own.old.roots }
    ensures touched { own.new.touched ≡ own.old.touched }
    ensures depended { own.new.depended ≡ own.old.depended }
{
    let Some(message) = hears else {
        return;
    };
    let Some(Some(letter)) = letters.get(message as usize) else {
        return;
    };
    if let Some(sender) = &letter.sender {
        raise_by(&mut own.numbers, sender);
    }
}

/// Changes the log of the transactor that makes a step. It takes no memory.
pub(crate) fn change_log_of(logs: &mut Vec<Log>, who: u32, change: LogChange)
    requires exists { who < length logs.old.items }
    requires room { (log : Told) → slice_get logs.old.items who ≡ Some log → HasLogRoom change log }
    ensures log { (log : Told) → slice_get logs.old.items who ≡ Some log → (next : Told) × (slice_get logs.new.items who ≡ Some next) × IsLogAfter change log next }
    ensures others { (u : ℕ) → u ≢ who → slice_get logs.new.items u ≡ slice_get logs.old.items u }
    ensures length { length logs.new.items ≡ length logs.old.items }
    ensures capacity { vec_capacity logs.new ≡ vec_capacity logs.old }
{
    change_log(&mut logs[who as usize], change);
}

/// Changes what is kept of the transactor that makes a step. It takes no memory.
pub(crate) fn change_own_of(
    own: &mut Vec<Own>,
    letters: &[Option<Letter>],
    who: u32,
    hears: Option<u32>,
    turn: TurnChange,
)
    requires exists { who < length own.old.items }
    requires room { (x : Own) → slice_get own.old.items who ≡ Some x → HasRoomToHear hears letters.now x.numbers }
    ensures own { (x : Own) → slice_get own.old.items who ≡ Some x → (y : Own) × (slice_get own.new.items who ≡ Some y) × IsOwnAfter hears letters.now turn x y }
    ensures others { (t : ℕ) → t ≢ who → slice_get own.new.items t ≡ slice_get own.old.items t }
    ensures length { length own.new.items ≡ length own.old.items }
    ensures capacity { vec_capacity own.new ≡ vec_capacity own.old }
{
    change_own(&mut own[who as usize], letters, hears, turn);
}

/// Changes what a transactor has heard, and its turn. It takes no memory.
fn change_own(own: &mut Own, letters: &[Option<Letter>], hears: Option<u32>, turn: TurnChange)
    requires { HasRoomToHear hears letters.now own.old.numbers }
    ensures { IsOwnAfter hears letters.now turn own.old own.new }
{
    hear(own, letters, hears);
    change_turn(own, turn);
}

/// Changes the log of the transactor that makes a step, and what is kept of it. It takes no memory.
fn change_actor(
    logs: &mut Vec<Log>,
    own: &mut Vec<Own>,
    letters: &[Option<Letter>],
    actor: Option<ActorChange>,
)
    requires { HasActorRoom actor letters.now logs.old.items own.old.items }
    ensures after { IsActorAfter actor letters.now logs.old.items logs.new.items own.old.items own.new.items }
    ensures logs { (length logs.new.items ≡ length logs.old.items) × (vec_capacity logs.new ≡ vec_capacity logs.old) }
    ensures own { (length own.new.items ≡ length own.old.items) × (vec_capacity own.new ≡ vec_capacity own.old) }
{
    if let Some(actor) = actor {
        let ActorChange {
            who,
            hears,
            log,
            turn,
        } = actor;
        change_log_of(logs, who, log);
        change_own_of(own, letters, who, hears, turn);
    }
}

/// Adds what is kept of a transactor that a step makes, in the room that there is.
fn add_newborn(logs: &mut Vec<Log>, own: &mut Vec<Own>, newborn: Option<BoxedNewborn>)
    requires logs { vec_len logs.old < vec_capacity logs.old }
    requires own { vec_len own.old < vec_capacity own.old }
    ensures logs { logs.new.items ≡ with_last (option_map (λ b. b.log) newborn) logs.old.items }
    ensures own { own.new.items ≡ with_last (option_map (λ b. b.own) newborn) own.old.items }
{
    if let Some(newborn) = newborn {
        let Newborn {
            log,
            own: newborn_own,
        } = newborn.into_newborn();
        logs.push_reserved(log);
        own.push_reserved(newborn_own);
    }
}

/// Takes out what is kept of a message.
fn take_letter(letters: &mut Vec<Option<Letter>>, message: Option<u32>)
    ensures capacity { vec_capacity letters.new ≡ vec_capacity letters.old }
    ensures items { letters.new.items ≡ without message letters.old.items }
{
    if let Some(message) = message {
        if (message as usize) < letters.len() {
            letters[message as usize] = None;
        }
    }
}

/// Adds what is kept of a message, in the room that there is.
fn add_letter(letters: &mut Vec<Option<Letter>>, letter: Option<Letter>)
    requires { vec_len letters.old < vec_capacity letters.old }
    ensures { letters.new.items ≡ with_last (option_map Some letter) letters.old.items }
{
    if let Some(letter) = letter {
        letters.push_reserved(Some(letter));
    }
}

/// One more falling step, or not.
fn count_fall(falls: u32, fallen: bool) -> u32
    requires { falls + 1 < 2 ^ 32 }
    ensures { result ≡ falls + one_if fallen }
{
    if fallen { falls + 1 } else { falls }
}

impl Hearing {
    /// Applies a change, in the room that there is, without memory.
    pub fn change(&mut self, change: HearingChange)
        requires { HasRoom self.old change }
        ensures { IsAfter self.old change self.new }
    {
        let HearingChange {
            actor,
            newborn,
            gone,
            letter,
            falls,
        } = change;
        change_actor(&mut self.logs, &mut self.own, &self.letters, actor);
        add_newborn(&mut self.logs, &mut self.own, newborn);
        take_letter(&mut self.letters, gone);
        add_letter(&mut self.letters, letter);
        self.falls = count_fall(self.falls, falls);
    }
}
