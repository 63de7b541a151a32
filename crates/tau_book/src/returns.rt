//! Jobs that come back to the book.
ghost use Rattle.std.specs.Prelude.{◌≡◌, ◌<◌, ◌≤◌, ◌==◌, [], IsTrue, length, fold};
ghost use Rattle.std.specs.List.{list_any};
ghost use Rattle.std.specs.Vec.{vec_capacity};
ghost use Rattle.tau_book.specs.Hands.{is_of};
ghost use Rattle.tau_book.specs.Books.{AreOfDifferentTurns};
ghost use Rattle.tau_book.specs.Offers.{stored};
ghost use Rattle.tau_book.specs.Inner.Returns.{AreOfTurns};

use tau_eval::Job;

/// Puts jobs of open turns to the returned jobs, one after another, but for those of a turn of which there is one. There is room for
/// one of each open turn.
pub(crate) fn give_all<'p>(turns: &[u32], jobs: &mut Vec<Job<'p>>, store: &mut Vec<Job<'p>>)
    requires room { length turns.now ≤ vec_capacity store.old }
    requires differ { AreOfDifferentTurns store.old.items }
    requires open { AreOfTurns turns.now store.old.items }
    requires given { AreOfTurns turns.now jobs.old.items }
    ensures jobs { jobs.new.items ≡ [] }
    ensures jobs_capacity { vec_capacity jobs.new ≡ vec_capacity jobs.old }
    ensures store { store.new.items ≡ fold stored store.old.items jobs.old.items }
    ensures differ { AreOfDifferentTurns store.new.items }
    ensures capacity { vec_capacity store.new ≡ vec_capacity store.old }
{
    'jobs: while !jobs.is_empty() {
        let job = jobs.remove(0);
        give_one(turns, job, store);
    }
}

/// Puts a job of an open turn to the returned jobs, but for one of a turn of which there is one.
fn give_one<'p>(turns: &[u32], job: Job<'p>, store: &mut Vec<Job<'p>>)
    requires room { length turns.now ≤ vec_capacity store.old }
    requires differ { AreOfDifferentTurns store.old.items }
    requires open { AreOfTurns turns.now store.old.items }
    requires given { IsTrue (list_any (λ p. p == job.place) turns.now) }
    ensures store { store.new.items ≡ stored store.old.items job.entry }
    ensures differ { AreOfDifferentTurns store.new.items }
    ensures open { AreOfTurns turns.now store.new.items }
    ensures capacity { vec_capacity store.new ≡ vec_capacity store.old }
{
    if !has_of(store, job.turn()) {
        store.push_reserved(job);
    }
}

/// Whether one of the jobs is of this turn.
pub(crate) fn has_of(jobs: &[Job<'_>], turn: u32) -> bool
    ensures { result ≡ list_any (is_of turn) jobs.now }
{
    jobs.iter().any(|job| job.turn() == turn)
}
