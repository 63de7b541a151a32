//! Lists of jobs.
ghost use Rattle.std.specs.Prelude.{◌≡◌, ◌+◌, ◌<◌, ◌==◌, ℕ, Some, take, length, slice_get, slice_index_or, count_by};
ghost use Rattle.std.specs.List.{list_any};
ghost use Rattle.std.specs.Vec.{vec_capacity};
ghost use Rattle.tau_eval.specs.Turn.{TurnSoFar};
ghost use Rattle.tau_book.specs.Hands.{is_earlier, is_of};
ghost use Rattle.tau_book.specs.Books.{AreOfDifferentTurns};
ghost use Rattle.tau_book.specs.Offers.{open_jobs, earliest, without};
ghost use Rattle.tau_book.specs.Inner.Jobs.{IsEarliestFrom};

use tau_eval::Job;

/// Whether a turn is one of these.
pub(crate) fn is_among(turns: &[u32], turn: u32) -> bool
    ensures { result ≡ list_any (λ p. p == turn) turns.now }
{
    turns.contains(&turn)
}

/// Gives up the jobs whose turn isn't one of these.
pub(crate) fn keep_open(turns: &[u32], jobs: &mut Vec<Job<'_>>)
    ensures jobs { jobs.new.items ≡ open_jobs turns.now jobs.old.items }
    ensures capacity { vec_capacity jobs.new ≡ vec_capacity jobs.old }
{
    jobs.retain(|job| is_among(turns, job.turn()));
}

/// How many of the jobs are of one of these turns.
pub(crate) fn count_open(turns: &[u32], jobs: &[Job<'_>]) -> usize
    ensures { result ≡ length (open_jobs turns.now jobs.now) }
{
    jobs.iter()
        .filter(|job| is_among(turns, job.turn()))
        .count()
}

/// Takes out the job of the earliest turn, of jobs of different turns.
pub(crate) fn take_earliest<'p>(jobs: &mut Vec<Job<'p>>) -> Option<Job<'p>>
    requires { AreOfDifferentTurns jobs.old.items }
    ensures job { result ≡ earliest jobs.old.items }
    ensures others { jobs.new.items ≡ without (earliest jobs.old.items) jobs.old.items }
    ensures capacity { vec_capacity jobs.new ≡ vec_capacity jobs.old }
{
    let place = place_of_earliest(jobs)?;
    Some(jobs.remove(place))
}

/// Where the first job of the earliest turn is.
fn place_of_earliest(jobs: &[Job<'_>]) -> Option<usize>
    ensures { IsEarliestFrom jobs.now 0 result }
{
    let mut best = None;
    let mut from = jobs.len();
    'jobs: while from > 0 {
        from -= 1;
        best = Some(earlier(jobs, from, best));
    }
    best
}

/// Of a place and that of the earliest turn behind it, the one of the earlier turn.
fn earlier(jobs: &[Job<'_>], place: usize, best: Option<usize>) -> usize
    requires within { place < length jobs.now }
    requires best { IsEarliestFrom jobs.now (place + 1) best }
    ensures { IsEarliestFrom jobs.now place (Some result) }
{
    match best {
        Some(best) => {
            if jobs[best].turn() < jobs[place].turn() {
                best
            } else {
                place
            }
        }
        None => place,
    }
}

/// Where the job is that has this number by ascending turn, of which there are more.
pub(crate) fn place_of_number(jobs: &[Job<'_>], number: usize) -> usize
    requires { number < length jobs.now }
    ensures within { result < length jobs.now }
    ensures number { (d : TurnSoFar) → number ≡ count_by (is_earlier (slice_index_or jobs.now result d).place) jobs.now + count_by (is_of (slice_index_or jobs.now result d).place) (take result jobs.now) }
{
    let count = jobs.len();
    for k in 0..count {
        if number_of(jobs, k) == number {
            return k;
        }
    }
    unreachable!()
}

/// How many jobs stand before the one at a place by ascending turn: those of earlier turns, and those of its turn before it.
fn number_of(jobs: &[Job<'_>], k: usize) -> usize
    requires { k < length jobs.now }
    ensures { (d : TurnSoFar) → result ≡ count_by (is_earlier (slice_index_or jobs.now k d).place) jobs.now + count_by (is_of (slice_index_or jobs.now k d).place) (take k jobs.now) }
{
    let turn = jobs[k].turn();
    count_earlier(jobs, turn) + count_of(&jobs[..k], turn)
}

/// How many jobs are of an earlier turn.
fn count_earlier(jobs: &[Job<'_>], turn: u32) -> usize
    ensures { result ≡ count_by (is_earlier turn) jobs.now }
{
    jobs.iter().filter(|job| job.turn() < turn).count()
}

/// How many jobs are of this turn.
fn count_of(jobs: &[Job<'_>], turn: u32) -> usize
    ensures { result ≡ count_by (is_of turn) jobs.now }
{
    jobs.iter().filter(|job| job.turn() == turn).count()
}
