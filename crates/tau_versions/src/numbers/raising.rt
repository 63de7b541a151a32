// Numbers of a list raised in place.
ghost use Rattle.std.specs.Prelude.{◌≡◌, ◌≢◌, ◌+◌, ◌<◌, ◌≤◌, ℕ, max, length, get_or, IfOk};
ghost use Rattle.std.specs.Vec.{vec_capacity};

use std::alloc::{AllocError, Global};

/// A copy with room for `count` numbers.
pub(crate) fn copied(items: &[u32], alloc: Global, count: usize) -> Result<Vec<u32>, AllocError>
    ensures items { IfOk result (λ v. v.items ≡ items.now) }
    ensures room { IfOk result (λ v. count ≤ vec_capacity v) }
{
    let mut own = Vec::with_capacity(alloc, count.max(items.len()))?;
    own.extend_from_slice(items)?;
    Ok(own)
}

/// Makes each number the greater of itself and the other list's.
pub(crate) fn raise_all(own: &mut Vec<u32>, others: &[u32])
    requires room { length others.now ≤ vec_capacity own.old }
    ensures numbers { (u : ℕ) → get_or own.new.items u 0 ≡ max (get_or own.old.items u 0) (get_or others.now u 0) }
    ensures length { length own.new.items ≡ max (length own.old.items) (length others.now) }
    ensures room { vec_capacity own.new ≡ vec_capacity own.old }
{
    for (who, number) in others.iter().enumerate() {
        raise_one(own, who, *number);
    }
}

/// Makes the number at a place the greater of itself and another; zeros fill the list up to there.
pub(crate) fn raise_far(own: &mut Vec<u32>, who: usize, number: u32)
    requires room { who < vec_capacity own.old }
    ensures number { get_or own.new.items who 0 ≡ max (get_or own.old.items who 0) number }
    ensures others { (u : ℕ) → u ≢ who → get_or own.new.items u 0 ≡ get_or own.old.items u 0 }
    ensures length { length own.new.items ≡ max (length own.old.items) (who + 1) }
    ensures room { vec_capacity own.new ≡ vec_capacity own.old }
{
    for place in own.len()..who {
        own.push_reserved(0);
    }
    raise_one(own, who, number)
}

/// Makes the number at a place, which is at most the list's end, the greater of itself and another.
fn raise_one(own: &mut Vec<u32>, who: usize, number: u32)
    requires room { who < vec_capacity own.old }
    requires within { who ≤ length own.old.items }
    ensures number { get_or own.new.items who 0 ≡ max (get_or own.old.items who 0) number }
    ensures others { (u : ℕ) → u ≢ who → get_or own.new.items u 0 ≡ get_or own.old.items u 0 }
    ensures length { length own.new.items ≡ max (length own.old.items) (who + 1) }
    ensures room { vec_capacity own.new ≡ vec_capacity own.old }
{
    if who < own.len() {
        own[who] = own[who].max(number);
    } else {
        own.push_reserved(number);
    }
}
