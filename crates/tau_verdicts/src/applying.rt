//! Changes applied, in room that was made before.
ghost use Rattle.std.specs.Prelude.{◌≡◌, ◌≢◌, ◌<◌, ℕ, [], false, length, slice_get};
ghost use Rattle.tau_heard.specs.After.{HasRoom, IsAfter};
ghost use Rattle.tau_verdicts.specs.Doomed.{flag_of, takers_of, cleared};

use crate::change::MarkedChange;
use crate::marked::MarkedHearing;
use tau_points::Point;

impl MarkedHearing {
    /// Applies a change, in the room that there is, without memory. The next point of a transactor that leaves its point isn't doomed
    /// and has no takers, and it isn't known to be free there.
    pub fn change(&mut self, change: MarkedChange)
        requires { HasRoom self.old.hearing change.change }
        ensures hearing { IsAfter self.old.hearing change.change self.new.hearing }
        ensures doomed { (u : ℕ) → flag_of self.new.doomed.items u ≡ cleared change.leaves false (flag_of self.old.doomed.items) u }
        ensures free { (u : ℕ) → flag_of self.new.free.items u ≡ cleared change.leaves false (flag_of self.old.free.items) u }
        ensures takers { (u : ℕ) → takers_of self.new.takers.items u ≡ cleared change.leaves [] (takers_of self.old.takers.items) u }
    {
        let MarkedChange { change, leaves } = change;
        self.hearing.change(change);
        lower(&mut self.doomed, leaves);
        clear(&mut self.takers, leaves);
        lower(&mut self.free, leaves);
    }
}

/// Lowers the flag of this transactor, if there is one.
fn lower(flags: &mut Vec<bool>, who: Option<u32>)
    ensures { (u : ℕ) → flag_of flags.new.items u ≡ cleared who false (flag_of flags.old.items) u }
{
    if let Some(who) = who {
        if (who as usize) < flags.len() {
            flags[who as usize] = false;
        }
    }
}

/// The present point of this transactor, if there is one, has no takers.
fn clear(takers: &mut Vec<Vec<Point>>, who: Option<u32>)
    ensures { (u : ℕ) → takers_of takers.new.items u ≡ cleared who [] (takers_of takers.old.items) u }
{
    if let Some(who) = who {
        if (who as usize) < takers.len() {
            clear_at(takers, who);
        }
    }
}

/// The present point of this transactor has no takers.
fn clear_at(takers: &mut Vec<Vec<Point>>, who: u32)
    requires { who < length takers.old.items }
    ensures here { takers_of takers.new.items who ≡ [] }
    ensures others { (u : ℕ) → u ≢ who → slice_get takers.new.items u ≡ slice_get takers.old.items u }
{
    takers[who as usize].clear();
}
