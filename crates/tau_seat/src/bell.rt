//! Where seats wait: for a turn, and, where they found nothing to do, for a change of the book.
use std::sync::{Condvar, Mutex, MutexGuard, Wait};
use tau_eval::Pending;

/// How many evaluations the average goes over.
const WINDOW: u32 = 16;

/// From how many parts on an evaluation is long: what they take is then more than what it takes to wake a thread.
const LONG: u32 = 500;

/// A lock in front of the tickets, and what wakes seats that wait for a change of the book (docs/rules.md, "Seats"). No clause rests on it:
/// the tickets keep turns apart. It spares that each turn goes to a thread that sleeps.
#[derive(Drop)]
pub struct Bell {
    idlers: Mutex<Idlers>,
    changed: Condvar,
}

/// What lies under the lock.
#[derive(Drop)]
pub struct Idlers {
    // How many seats wait for a change.
    waiting: u32,
    // Whether one of them was woken and hasn't asked again yet.
    is_waking: bool,
    // How many seats evaluate a job that they were handed; fewer where one gave its jobs back.
    evaluating: u32,
    // How many parts an evaluation took on the average, times WINDOW.
    parts: u32,
}

impl Idlers {
    /// Nobody waits, and evaluations are taken to be long.
    fn new() -> Idlers {
        Idlers {
            waiting: 0,
            is_waking: false,
            evaluating: 0,
            parts: 2 * WINDOW * LONG,
        }
    }

    /// Notes that a seat was handed a job.
    pub fn note_handed(&mut self) {
        self.evaluating = self.evaluating.saturating_add(1);
    }

    /// Notes that a seat brings the effect of a job.
    pub fn note_brought(&mut self, pending: &Pending<'_>) {
        self.note_given_back();
        let replies = u32::try_from(pending.replies_len()).unwrap_or(u32::MAX);
        let parts = pending.evaluated() / replies.saturating_add(1);
        self.parts = (self.parts - self.parts / WINDOW).saturating_add(parts);
    }

    /// Notes that a seat evaluates no more.
    pub fn note_given_back(&mut self) {
        self.evaluating = self.evaluating.saturating_sub(1);
    }

    /// Whether evaluations are long.
    pub fn are_long(&self) -> bool {
        self.parts / WINDOW >= LONG
    }
}

impl Bell {
    pub fn new() -> Bell {
        Bell {
            idlers: Mutex::new(Idlers::new()),
            changed: Condvar::new(),
        }
    }

    /// Waits until no other seat has the lock. A seat has it from before it draws a ticket until it has given up its turn.
    pub fn enter<R: Wait>(&self, rt: &R) -> MutexGuard<'_, Idlers> {
        self.idlers.lock(rt)
    }

    /// Waits as `enter` does. A seat without jobs then also waits until it is woken where evaluations are short and another seat evaluates: that
    /// one comes back soon, and the time of threads that take turns would be more than that of the evaluations.
    pub fn enter_to_ask<R: Wait>(&self, rt: &R, has_jobs: bool) -> MutexGuard<'_, Idlers> {
        let idlers = self.enter(rt);
        if has_jobs || idlers.evaluating == 0 || idlers.are_long() {
            return idlers;
        }
        self.wait(rt, idlers)
    }

    /// Waits for a change of the book. The lock is free only inside the wait, so that no change falls between the question and the wait.
    pub fn wait<'b, R: Wait>(
        &self,
        rt: &R,
        mut idlers: MutexGuard<'b, Idlers>,
    ) -> MutexGuard<'b, Idlers> {
        idlers.waiting = idlers.waiting.saturating_add(1);
        let mut idlers = self.changed.wait(rt, idlers);
        idlers.waiting = idlers.waiting.saturating_sub(1);
        idlers.is_waking = false;
        idlers
    }

    /// Wakes a seat that waits for a change, unless one was woken that hasn't asked again yet: that one asks after this change too, and
    /// where it is handed work and more is left, it wakes another.
    pub fn ring(&self, idlers: &mut Idlers) {
        if idlers.waiting > 0 && !idlers.is_waking {
            idlers.is_waking = true;
            self.changed.notify_one();
        }
    }

    /// Wakes all seats that wait for a change.
    pub fn ring_all(&self) {
        self.changed.notify_all();
    }
}
