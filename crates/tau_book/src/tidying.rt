//! What a hand has to choose from.
ghost use Rattle.std.specs.Prelude.{◌≡◌, ◌<◌, ◌≤◌, ◌++◌, length};
ghost use Rattle.std.specs.Option.{option_to_list};
ghost use Rattle.std.specs.Vec.{vec_capacity};
ghost use Rattle.tau_book.specs.declared.limits.TheConstants.{JOB_LIMIT};
ghost use Rattle.tau_book.specs.Books.{AreOfDifferentTurns};
ghost use Rattle.tau_book.specs.Offers.{jobs_with, store_without, earliest, without};

use crate::Hand;
use crate::jobs::{count_open, keep_open, take_earliest};
use tau_eval::Job;

/// How many jobs the hand has once jobs of turns that aren't open are given up and it has taken up a returned job.
pub(crate) fn count_jobs(turns: &[u32], hand: &Hand<'_>, store: &[Job<'_>]) -> usize
    ensures count { result ≡ length (jobs_with turns.now hand.now store.now) }
    ensures within { result ≤ hand.now.size }
    ensures few { hand.now.size ≤ JOB_LIMIT }
{
    let own = hand.count_open(turns);
    if own < hand.size() && count_open(turns, store) > 0 {
        own + 1
    } else {
        own
    }
}

/// Gives up the jobs of turns that aren't open; the hand then takes up the returned job of the earliest turn, where it has room.
pub(crate) fn tidy<'p>(turns: &[u32], hand: &mut Hand<'p>, store: &mut Vec<Job<'p>>)
    requires { AreOfDifferentTurns store.old.items }
    ensures hand { hand.new ≡ record hand.old { jobs = jobs_with turns.now hand.old store.old.items } }
    ensures store { store.new.items ≡ store_without turns.now hand.old store.old.items }
    ensures differ { AreOfDifferentTurns store.new.items }
    ensures capacity { vec_capacity store.new ≡ vec_capacity store.old }
{
    keep_open(turns, store);
    hand.keep_open(turns);
    if hand.room() > 0 {
        take_up(hand, store);
    }
}

/// The hand, which has room, takes up the returned job of the earliest turn, if there is one.
fn take_up<'p>(hand: &mut Hand<'p>, store: &mut Vec<Job<'p>>)
    requires differ { AreOfDifferentTurns store.old.items }
    requires room { length hand.old.jobs < hand.old.size }
    ensures hand { hand.new ≡ record hand.old { jobs = hand.old.jobs ++ option_to_list (earliest store.old.items) } }
    ensures store { store.new.items ≡ without (earliest store.old.items) store.old.items }
    ensures capacity { vec_capacity store.new ≡ vec_capacity store.old }
{
    if let Some(job) = take_earliest(store) {
        hand.keep(job);
    }
}
