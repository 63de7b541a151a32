//! The choice of a worker, where the run goes on and no step of the script is due.
ghost use Rattle.std.specs.Prelude.{◌≡◌, ◌<◌, ◌≤◌, ◌+◌, ◌%◌, ℕ, suc, [], nat_lt, if◌then◌else◌, IfOk, OnOk, OnErr, length};
ghost use Rattle.std.specs.Vec.{vec_capacity};
ghost use Rattle.tau_trace.specs.Run.{len};
ghost use Rattle.tau_legal.specs.Traces.{Complete};
ghost use Rattle.tau_book.specs.Books.{booked};
ghost use Rattle.tau_book.specs.Offers.{jobs_with, options, number_drawn, generator_after};
ghost use Rattle.tau_book.specs.Nexts.{IsNext, IsIdle, IsHandedOut, IsReceived};
ghost use Rattle.tau_book.specs.Places.{LeavesRoom};
ghost use Rattle.tau_book.specs.Inner.Choosing.{CanChoose, IsChosen};

use crate::tidying::{count_jobs, tidy};
use crate::{Hand, Next};
use rand_pcg::Pcg32;
use std::alloc::AllocError;
use tau_eval::Job;
use tau_knowledge::Knowledge;
use tau_queue::Scripted;

/// Chooses what the hand does next (docs/rules.md, "Choice of a worker"). The error is want of memory, and nothing is different then.
pub(crate) fn choose<'p, K: Knowledge + Drop>(
    scripted: &mut Scripted<'p, K>,
    store: &mut Vec<Job<'p>>,
    hand: &mut Hand<'p>,
) -> Result<Next<'p>, AllocError>
    requires can { CanChoose scripted.old store.old.items (vec_capacity store.old) }
    requires incomplete { ¬ Complete scripted.old.system.program scripted.old.system.run }
    ensures ok { (limit : ℕ) → len scripted.old.system.run < limit
        → IfOk result (IsNext (booked scripted.old limit store.old.items) (booked scripted.new limit store.new.items) hand.old hand.new) }
    ensures room { IfOk result (LeavesRoom hand.new) }
    ensures one { len scripted.new.system.run ≤ suc (len scripted.old.system.run) }
    ensures chosen { IsChosen scripted.new store.new.items (vec_capacity store.new) hand.old hand.new }
    ensures err { OnErr result ((scripted.new ≡ scripted.old) × (store.new.items ≡ store.old.items) × (hand.new ≡ hand.old)) }
{
    let jobs = count_jobs(scripted.turns(), hand, store);
    let messages = count_messages(scripted, hand, jobs);
    if jobs == 0 && messages == 0 {
        let out = idle(scripted, store, hand);
        return Ok(Next::Idle { out });
    }
    let (word, generator) = hand.next_word()?;
    let number = number_of(word, jobs, messages);
    if number < jobs {
        let job = hand_out(scripted, store, hand, number, generator);
        Ok(Next::Work(job))
    } else {
        receive(scripted, store, hand, number - jobs, generator)?;
        Ok(Next::Stepped)
    }
}

/// How many messages a hand with so many jobs can choose.
fn count_messages<'p, K: Knowledge + Drop>(
    scripted: &Scripted<'p, K>,
    hand: &Hand<'p>,
    jobs: usize,
) -> usize
    ensures count { result ≡ (if nat_lt jobs hand.now.size then length scripted.now.messages else 0) }
    ensures none { jobs ≡ 0 → result ≡ 0 → scripted.now.messages ≡ [] }
{
    if jobs < hand.size() {
        scripted.deliverable()
    } else {
        0
    }
}

/// The number that a word chooses of so many jobs and messages.
fn number_of(word: u32, jobs: usize, messages: usize) -> usize
    requires { 1 ≤ jobs + messages }
    ensures number { result ≡ word % (jobs + messages) }
    ensures below { result < jobs + messages }
{
    word as usize % jobs.saturating_add(messages)
}

/// There is nothing to choose from. Gives up the jobs of turns that aren't open, and tells how many are.
fn idle<'p, K: Knowledge + Drop>(
    scripted: &Scripted<'p, K>,
    store: &mut Vec<Job<'p>>,
    hand: &mut Hand<'p>,
) -> u32
    requires can { CanChoose scripted.now store.old.items (vec_capacity store.old) }
    requires incomplete { ¬ Complete scripted.now.system.program scripted.now.system.run }
    requires no_job { jobs_with scripted.now.turns hand.old store.old.items ≡ [] }
    requires no_message { scripted.now.messages ≡ [] }
    ensures idle { (limit : ℕ) → len scripted.now.system.run < limit
        → IsIdle (booked scripted.now limit store.old.items) (booked scripted.now limit store.new.items) hand.old hand.new result }
    ensures chosen { IsChosen scripted.now store.new.items (vec_capacity store.new) hand.old hand.new }
{
    tidy(scripted.turns(), hand, store);
    scripted.open_turns()
}

/// Hands out the job with a number that a word chose, and has the generator after the word.
fn hand_out<'p, K: Knowledge + Drop>(
    scripted: &Scripted<'p, K>,
    store: &mut Vec<Job<'p>>,
    hand: &mut Hand<'p>,
    number: usize,
    generator: Pcg32,
) -> Job<'p>
    requires can { CanChoose scripted.now store.old.items (vec_capacity store.old) }
    requires number { number < length (jobs_with scripted.now.turns hand.old store.old.items) }
    requires within { length (jobs_with scripted.now.turns hand.old store.old.items) ≤ hand.old.size }
    requires drawn { number ≡ number_drawn hand.old.generator (options hand.old.size (jobs_with scripted.now.turns hand.old store.old.items) scripted.now.messages) }
    requires generator { generator ≡ generator_after hand.old.generator }
    ensures job { (limit : ℕ) → len scripted.now.system.run < limit
        → IsHandedOut (booked scripted.now limit store.old.items) (booked scripted.now limit store.new.items) hand.old hand.new result }
    ensures room { length hand.new.jobs < hand.new.size }
    ensures chosen { IsChosen scripted.now store.new.items (vec_capacity store.new) hand.old hand.new }
{
    tidy(scripted.turns(), hand, store);
    hand.hand_out(number, generator)
}

/// Delivers the message with a number, where a word chose it, and has the generator after the word.
fn receive<'p, K: Knowledge + Drop>(
    scripted: &mut Scripted<'p, K>,
    store: &mut Vec<Job<'p>>,
    hand: &mut Hand<'p>,
    number: usize,
    generator: Pcg32,
) -> Result<(), AllocError>
    requires can { CanChoose scripted.old store.old.items (vec_capacity store.old) }
    requires number { number < length scripted.old.messages }
    requires room { length (jobs_with scripted.old.turns hand.old store.old.items) < hand.old.size }
    requires drawn { number_drawn hand.old.generator (options hand.old.size (jobs_with scripted.old.turns hand.old store.old.items) scripted.old.messages) ≡ length (jobs_with scripted.old.turns hand.old store.old.items) + number }
    requires generator { generator ≡ generator_after hand.old.generator }
    ensures ok { (limit : ℕ) → len scripted.old.system.run < limit
        → OnOk result (IsReceived (booked scripted.old limit store.old.items) (booked scripted.new limit store.new.items) hand.old hand.new) }
    ensures one { len scripted.new.system.run ≤ suc (len scripted.old.system.run) }
    ensures chosen { IsChosen scripted.new store.new.items (vec_capacity store.new) hand.old hand.new }
    ensures err { OnErr result ((scripted.new ≡ scripted.old) × (store.new.items ≡ store.old.items) × (hand.new ≡ hand.old)) }
{
    let turns = scripted.open_turns() as usize;
    // A place for a job of the turn that begins, before the first change.
    store.reserve(turns + 1)?;
    let delivered = scripted.deliver(number)?;
    tidy(&scripted.turns()[..turns], hand, store);
    hand.take_in(generator, delivered);
    Ok(())
}
