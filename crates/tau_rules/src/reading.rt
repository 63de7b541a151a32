//! What is read of a system.
ghost use Rattle.tau_rules.specs.Answers.{IsStanding};

use crate::{Standing, System};
use tau_knowledge::Knowledge;

impl<'p, K: Knowledge + Drop> System<'p, K> {
    /// What a transactor is doing; `None` exactly where it doesn't exist (docs/rules.md, "Steps").
    pub fn standing(&self, who: u32) -> Option<Standing>
        ensures { IsStanding self.now.run who result }
    {
        if who >= self.trace.born() {
            return None;
        }
        if let Some(place) = self.trace.end_of(who) {
            return Some(Standing::Ended { place });
        }
        match self.trace.open_turn(who) {
            Some(turn) => Some(Standing::Busy { turn }),
            None => Some(Standing::Idle),
        }
    }
}
