// The letters of each receiver.
ghost use Rattle.std.specs.Prelude.{◌≡◌, ◌<◌, ◌≤◌, vec_len, OnOk};
ghost use Rattle.std.specs.List.{HoldsAt};
ghost use Rattle.tau_mailbox.specs.Letters.{WithRoom, AllBelow};
ghost use Rattle.tau_mailbox.specs.Parts.{ChangesAt, Gains, Loses, Widens};

use crate::letter::Letter;
use crate::order::Order;
use std::alloc::{AllocError, Global};

/// Makes room for one more letter of a receiver.
pub(crate) fn reserve_at(parts: &mut Vec<Order>, alloc: Global, who: u32) -> Result<(), AllocError>
    ensures kept { Widens parts.old.items parts.new.items }
    ensures len { OnOk result (who < vec_len parts.new) }
    ensures ok { OnOk result (HoldsAt (λ p. 1 ≤ p.room) parts.new.items who) }
{
    let place = who as usize;
    grow(parts, alloc, place + 1)?;
    parts[place].reserve()
}

/// Adds empty parts until there are as many as given.
fn grow(parts: &mut Vec<Order>, alloc: Global, count: usize) -> Result<(), AllocError>
    ensures kept { Widens parts.old.items parts.new.items }
    ensures len { OnOk result (count ≤ vec_len parts.new) }
{
    for _place in parts.len()..count {
        parts.push(Order::new(alloc))?;
    }
    Ok(())
}

/// Puts a letter at the end of its receiver's letters.
pub(crate) fn push_at(parts: &mut Vec<Order>, letter: Letter)
    requires who { letter.who < vec_len parts.old }
    requires room { HoldsAt (λ p. 1 ≤ p.room) parts.old.items letter.who }
    requires last { HoldsAt (λ p. AllBelow letter.message p.letters) parts.old.items letter.who }
    ensures { ChangesAt letter.who (Gains letter) parts.old.items parts.new.items }
{
    parts[letter.who as usize].push_spare(letter);
}

/// Takes a letter out of its receiver's letters.
pub(crate) fn take_at(parts: &mut Vec<Order>, letter: Letter)
    requires { letter.who < vec_len parts.old }
    ensures { ChangesAt letter.who (Loses letter.message) parts.old.items parts.new.items }
{
    let _ = parts[letter.who as usize].take_out(letter.message);
}
