//! Places on a book under a lock, each with so many answers.

use std::alloc::AllocError;
use std::sync::Wait;
use tau_book::{Hand, Next, StepPlace, Told};
use tau_eval::Pending;
use tau_verdicts::MarkedHearing;
use tau_workers::LockedBook;

/// A place on a book under a lock that has so many answers left, and then tells want of memory.
#[derive(Drop)]
pub struct LimitedPlace<'b, 'p> {
    pub locked: &'b LockedBook<'p, MarkedHearing>,
    pub answers: u64,
}

impl<'b, 'p> StepPlace<'p> for LimitedPlace<'b, 'p> {
    ghost use Rattle.std.specs.Prelude.{Bool, false, None};

    ghost Key = { Unit {0} };

    ghost key = { λ _. tt };

    ghost tells_end = { false };

    ghost end = { λ _. None };

    ghost sees_over = { λ _ _ _. Unit {0} };

    ghost vouches = { λ _ _. Unit {0} };

    fn next<R: Wait>(&mut self, rt: &R, hand: &mut Hand<'p>) -> Result<Next<'p>, AllocError> {
        if self.answers == 0 {
            return Err(AllocError);
        }
        self.answers -= 1;
        let mut place = self.locked;
        place.next(rt, hand)
    }

    fn act<R: Wait>(
        &mut self,
        rt: &R,
        hand: &mut Hand<'p>,
        pending: Pending<'p>,
    ) -> Result<Told<'p>, (Pending<'p>, AllocError)> {
        let mut place = self.locked;
        place.act(rt, hand, pending)
    }

    fn give_back<R: Wait>(&mut self, rt: &R, hand: &mut Hand<'p>) {
        let mut place = self.locked;
        place.give_back(rt, hand);
    }
}
