//! Room for a step, and numbers that are shared by it.
ghost use Rattle.std.specs.Prelude.{◌≡◌, ◌≢◌, ◌<◌, ◌≤◌, ◌+◌, ◌-◌, ℕ, length, slice_get, Some, IfOk, OnOk, vec_len};
ghost use Rattle.std.specs.Vec.{vec_capacity};
ghost use Rattle.tau_versions.specs.Logs.Told.{Told};
ghost use Rattle.tau_heard.specs.declared.own.Own.{Own};
ghost use Rattle.tau_heard.specs.Changed.{HasRoomToHear};
ghost use Rattle.tau_heard.specs.Kept.{IsSameLog, IsSameOwn, HasLogSpare, AreEnough};

use crate::letter::Letter;
use crate::own::Own;
use std::alloc::AllocError;
use std::sync::Arc;
use tau_versions::logs::Log;

/// Makes room in the log of a transactor for a version, for these many takes and for a closed interval. The error is want
/// of memory.
pub(crate) fn make_log_room(logs: &mut Vec<Log>, who: u32, takes: usize) -> Result<(), AllocError>
    requires exists { who < length logs.old.items }
    ensures log { (log : Told) → slice_get logs.old.items who ≡ Some log
        → (next : Told) × (slice_get logs.new.items who ≡ Some next) × IsSameLog log next × OnOk result (HasLogSpare takes next) }
    ensures others { (u : ℕ) → u ≢ who → slice_get logs.new.items u ≡ slice_get logs.old.items u }
    ensures length { length logs.new.items ≡ length logs.old.items }
    ensures room { (vec_len logs.new ≡ vec_len logs.old) × (vec_capacity logs.new ≡ vec_capacity logs.old) }
{
    logs[who as usize].reserve(takes)
}

/// Makes the numbers of a transactor its own, with room for what a message in flight has heard. The error is want of memory.
fn make_own_room(
    own: &mut Vec<Own>,
    letters: &[Option<Letter>],
    who: u32,
    message: u32,
) -> Result<(), AllocError>
    requires exists { who < length own.old.items }
    ensures own { (x : Own) → slice_get own.old.items who ≡ Some x
        → (y : Own) × (slice_get own.new.items who ≡ Some y) × IsSameOwn x y × OnOk result (HasRoomToHear (Some message) letters.now y.numbers) }
    ensures others { (t : ℕ) → t ≢ who → slice_get own.new.items t ≡ slice_get own.old.items t }
    ensures length { length own.new.items ≡ length own.old.items }
    ensures room { (vec_len own.new ≡ vec_len own.old) × (vec_capacity own.new ≡ vec_capacity own.old) }
{
    make_hearing_room(&mut own[who as usize], letters, message)
}

/// The same where the step hears of no message, or of one.
pub(crate) fn make_message_room(
    own: &mut Vec<Own>,
    letters: &[Option<Letter>],
    who: u32,
    message: Option<u32>,
) -> Result<(), AllocError>
    requires exists { who < length own.old.items }
    ensures own { (x : Own) → slice_get own.old.items who ≡ Some x
        → (y : Own) × (slice_get own.new.items who ≡ Some y) × IsSameOwn x y × OnOk result (HasRoomToHear message letters.now y.numbers) }
    ensures others { (t : ℕ) → t ≢ who → slice_get own.new.items t ≡ slice_get own.old.items t }
    ensures length { length own.new.items ≡ length own.old.items }
    ensures room { (vec_len own.new ≡ vec_len own.old) × (vec_capacity own.new ≡ vec_capacity own.old) }
{
    match message {
        Some(message) => make_own_room(own, letters, who, message),
        None => Ok(()),
    }
}

/// The same of what is kept of one transactor.
fn make_hearing_room(
    own: &mut Own,
    letters: &[Option<Letter>],
    message: u32,
) -> Result<(), AllocError>
    ensures same { IsSameOwn own.old own.new }
    ensures ok { OnOk result (HasRoomToHear (Some message) letters.now own.new.numbers) }
{
    let count = needed(letters, message);
    own.numbers.own(count)
}

/// How many numbers a transactor must have room for so that it can hear of a message.
fn needed(letters: &[Option<Letter>], message: u32) -> usize
    ensures { AreEnough letters.now message result }
{
    let Some(Some(letter)) = letters.get(message as usize) else {
        return 0;
    };
    match &letter.sender {
        Some(sender) => sender.numbers.len().max(sender.who as usize + 1),
        None => 0,
    }
}

/// Makes the numbers of a transactor shared, and gives another owner of them. They aren't copied. The error is want of memory.
pub(crate) fn share_numbers_of(own: &mut Vec<Own>, who: u32) -> Result<Arc<Vec<u32>>, AllocError>
    requires exists { who < length own.old.items }
    ensures own { (x : Own) → slice_get own.old.items who ≡ Some x → (y : Own) × (slice_get own.new.items who ≡ Some y) × IsSameOwn x y }
    ensures others { (t : ℕ) → t ≢ who → slice_get own.new.items t ≡ slice_get own.old.items t }
    ensures length { length own.new.items ≡ length own.old.items }
    ensures room { (vec_len own.new ≡ vec_len own.old) × (vec_capacity own.new ≡ vec_capacity own.old) }
    ensures ok { IfOk result (λ a. (y : Own) → slice_get own.new.items who ≡ Some y → a.value.items ≡ y.numbers.numbers) }
{
    share_own(&mut own[who as usize])
}

/// The same of what is kept of one transactor.
fn share_own(own: &mut Own) -> Result<Arc<Vec<u32>>, AllocError>
    ensures same { IsSameOwn own.old own.new }
    ensures ok { IfOk result (λ a. a.value.items ≡ own.new.numbers.numbers) }
{
    own.numbers.share()
}
