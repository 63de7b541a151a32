//! A book under a lock.
ghost use Rattle.std.specs.Prelude.{◌≡◌, ◌<◌, [], IfOk, IfErr, OnErr, length};
ghost use Rattle.tau_book.specs.Places.{IsNotIdle, LeavesRoom, ComesBack};
ghost use Rattle.tau_book.specs.Lefts.{IsLeftOf};

use std::alloc::AllocError;
use std::sync::{Condvar, Mutex, MutexGuard, Wait};
use tau_book::{Book, Hand, Next, StepPlace, Told};
use tau_eval::Pending;
use tau_knowledge::Knowledge;

/// A book under a lock, on which several workers stand (docs/rules.md, "Workers"). A lock's value is known by its type alone: of a
/// book that is taken out of the lock what holds of each book is known, and not which one it is.
#[derive(Drop)]
pub struct LockedBook<'p, K: Knowledge + Drop + Send> {
    desk: Desk<'p, K>,
}

impl<'p, K: Knowledge + Drop + Send> LockedBook<'p, K> {
    /// Puts a book under a lock.
    pub fn new(book: Book<'p, K>) -> LockedBook<'p, K> {
        LockedBook {
            desk: Desk::new(book),
        }
    }

    /// Takes the book out of the lock.
    pub fn into_book(self) -> Book<'p, K> {
        self.desk.into_book()
    }
}

/// The lock, and what is told where the book changes.
#[derive(Drop)]
struct Desk<'p, K: Knowledge + Drop> {
    shared: Mutex<Shared<'p, K>>,
    changed: Condvar,
}

/// What lies under the lock.
#[derive(Drop)]
struct Shared<'p, K: Knowledge + Drop> {
    book: Book<'p, K>,
    // How many workers wait for a change of the book.
    waiting: u32,
    // Whether one of them was woken and hasn't asked again yet.
    is_waking: bool,
}

impl<'p, K: Knowledge + Drop> Desk<'p, K> {
    /// Puts a book under a lock.
    fn new(book: Book<'p, K>) -> Desk<'p, K> {
        Desk {
            shared: Mutex::new(Shared {
                book,
                waiting: 0,
                is_waking: false,
            }),
            changed: Condvar::new(),
        }
    }

    /// Takes the book out of the lock.
    fn into_book(self) -> Book<'p, K> {
        let Desk {
            shared,
            changed: _changed,
        } = self;
        shared.into_inner().book
    }

    /// `next` of the book. Where the book is `Idle`, the worker waits for a change of it and asks again. With Work it wakes another only
    /// where the book offers more. What `act` or a step of `next` has made to do is left to who made it: it asks at once again, and wakes
    /// another at Work or at an end, or it gives its jobs back and wakes another then. So no worker sleeps while there is something for it.
    fn next<R: Wait>(&self, rt: &R, hand: &mut Hand<'p>) -> Result<Next<'p>, AllocError>
        ensures never_idle { IfOk result IsNotIdle }
        ensures room { IfOk result (LeavesRoom hand.new) }
        ensures hand_on_err { OnErr result (IsLeftOf (λ _. Unit {0}) hand.old hand.new) }
        ensures size { hand.new.size ≡ hand.old.size }
    {
        let mut shared = self.shared.lock(rt);
        for _ in rt.forever() {
            match shared.book.next(hand)? {
                Next::Idle { .. } => shared = self.wait(rt, shared),
                Next::Complete => {
                    self.changed.notify_all();
                    return Ok(Next::Complete);
                }
                Next::Stopped => {
                    self.changed.notify_all();
                    return Ok(Next::Stopped);
                }
                Next::Work(job) => {
                    if shared.book.offers_more() {
                        self.wake(&mut shared);
                    }
                    return Ok(Next::Work(job));
                }
                Next::Stepped => return Ok(Next::Stepped),
            }
        }
        unreachable!()
    }

    /// `act` of the book.
    fn act<R: Wait>(
        &self,
        rt: &R,
        hand: &mut Hand<'p>,
        pending: Pending<'p>,
    ) -> Result<Told<'p>, (Pending<'p>, AllocError)>
        requires room { length hand.old.jobs < hand.old.size }
        ensures later { IfOk result (ComesBack hand.old hand.new pending.entry) }
        ensures pending_on_err { IfErr result (λ e. e.0 ≡ pending.entry) }
        ensures hand_on_err { OnErr result (hand.new ≡ hand.old) }
        ensures size { hand.new.size ≡ hand.old.size }
    {
        let mut shared = self.shared.lock(rt);
        shared.book.act(hand, pending, false)
    }

    /// `give_back` of the book.
    fn give_back<R: Wait>(&self, rt: &R, hand: &mut Hand<'p>)
        ensures empty { hand.new.jobs ≡ [] }
        ensures size { hand.new.size ≡ hand.old.size }
    {
        let mut shared = self.shared.lock(rt);
        shared.book.give_back(hand);
        self.wake(&mut shared);
    }

    /// Waits for a change of the book. The lock is free only inside the wait, so that no change falls between the look at the book and
    /// the wait.
    fn wait<'b, R: Wait>(
        &self,
        rt: &R,
        mut shared: MutexGuard<'b, Shared<'p, K>>,
    ) -> MutexGuard<'b, Shared<'p, K>> {
        shared.waiting = shared.waiting.saturating_add(1);
        let mut shared = self.changed.wait(rt, shared);
        shared.waiting = shared.waiting.saturating_sub(1);
        shared.is_waking = false;
        shared
    }

    /// Wakes a worker that waits, unless one was woken that hasn't asked again yet: that one looks at the book after this change too,
    /// and where it is handed work and more is left, it wakes another.
    fn wake(&self, shared: &mut Shared<'p, K>) {
        if shared.waiting > 0 && !shared.is_waking {
            shared.is_waking = true;
            self.changed.notify_one();
        }
    }
}

impl<'p, K: Knowledge + Drop + Send> StepPlace<'p> for &LockedBook<'p, K> {
    ghost use Rattle.std.specs.Prelude.{Bool, false, None};

    ghost Key = { Unit {0} };

    ghost key = { λ _. tt };

    ghost tells_end = { false };

    ghost end = { λ _. None };

    // Of a book under a lock nobody sees the trace, so of the jobs that are given up nothing is told.
    ghost sees_over = { λ _ _ _. Unit {0} };

    // And each job that is brought is compared with its record.
    ghost vouches = { λ _ _. Unit {0} };

    fn next<R: Wait>(&mut self, rt: &R, hand: &mut Hand<'p>) -> Result<Next<'p>, AllocError> {
        self.desk.next(rt, hand)
    }

    fn act<R: Wait>(
        &mut self,
        rt: &R,
        hand: &mut Hand<'p>,
        pending: Pending<'p>,
    ) -> Result<Told<'p>, (Pending<'p>, AllocError)> {
        self.desk.act(rt, hand, pending)
    }

    fn give_back<R: Wait>(&mut self, rt: &R, hand: &mut Hand<'p>) {
        self.desk.give_back(rt, hand);
    }
}
