//! The walk of a search from transactor to transactor.
ghost use Rattle.std.specs.Prelude.{◌≡◌, ◌↔◌, ◌<◌, length, IsTrue, Contains, IfOk, OnOk};
ghost use Rattle.std.specs.Bool.{OnTrue, OnFalse};
ghost use Rattle.tau_past.specs.Pasts.{Is};
ghost use Rattle.tau_versions.specs.Search.Searching.{fate_of, Finds, FoundNone};
ghost use Rattle.tau_versions.specs.Search.Walks.{Meets, Comes, HasWanted};
ghost use Rattle.tau_versions.specs.Search.Wanting.{test_of};

use crate::logs::Log;
use crate::search::heard::{HeardVersions, fate_of, takes_of};
use crate::search::seen::{Wanted, goes_on};
use std::alloc::AllocError;
use tau_points::Point;

/// Which transactors a search has met, and those of them from which it has yet to go on.
#[derive(Drop)]
pub(crate) struct Walk {
    pub(crate) met: Vec<bool>,
    pub(crate) left: Vec<u32>,
}

impl Walk {
    /// Meets a transactor, if it wasn't met before.
    fn meet(&mut self, who: u32) -> Result<(), AllocError>
        requires { who < length self.old.met.items }
        ensures { OnOk result (Meets who self.old.met.items self.new.met.items self.old.left.items self.new.left.items) }
    {
        let place = who as usize;
        if !self.met[place] {
            self.met[place] = true;
            self.left.push(who)?;
        }
        Ok(())
    }

    /// Comes to a point: true where it is wanted; else its transactor is met if the search goes on from it.
    fn come_to<V: HeardVersions>(
        &mut self,
        logs: &[Log],
        heard: &V,
        wanted: Wanted,
        point: &Point,
    ) -> Result<bool, AllocError>
        requires { length self.old.met.items ≡ length logs.now }
        ensures wanted { IfOk result (λ b. OnTrue b (IsTrue (test_of wanted (fate_of logs.now (V.numbers heard.now) point.now)))) }
        ensures passed { IfOk result (λ b. OnFalse b (Comes (test_of wanted) logs.now (V.numbers heard.now) (Is point.now) self.old.met.items self.new.met.items self.old.left.items self.new.left.items)) }
    {
        let fate = fate_of(logs, heard, point);
        if wanted.is(fate) {
            return Ok(true);
        }
        if goes_on(fate) {
            self.meet(point.who)?;
        }
        Ok(false)
    }

    /// Comes to each of these points, up to the first that is wanted: true where there is one.
    fn come_to_all<V: HeardVersions>(
        &mut self,
        logs: &[Log],
        heard: &V,
        wanted: Wanted,
        points: &[Point],
    ) -> Result<bool, AllocError>
        requires { length self.old.met.items ≡ length logs.now }
        ensures wanted { IfOk result (λ b. OnTrue b (HasWanted (test_of wanted) logs.now (V.numbers heard.now) (Contains points.now))) }
        ensures passed { IfOk result (λ b. OnFalse b (Comes (test_of wanted) logs.now (V.numbers heard.now) (Contains points.now) self.old.met.items self.new.met.items self.old.left.items self.new.left.items)) }
    {
        for point in points {
            if self.come_to(logs, heard, wanted, point)? {
                return Ok(true);
            }
        }
        Ok(false)
    }

    /// Whether the search from these points comes to one that is wanted. What was met before isn't met again.
    pub(crate) fn finds<V: HeardVersions>(
        &mut self,
        logs: &[Log],
        heard: &V,
        wanted: Wanted,
        from: &[Point],
    ) -> Result<bool, AllocError>
        requires { FoundNone (test_of wanted) logs.now (V.numbers heard.now) self.old.met.items }
        ensures found { IfOk result (λ b. IsTrue b ↔ Finds (test_of wanted) logs.now (V.numbers heard.now) (Contains from.now)) }
        ensures passed { IfOk result (λ b. OnFalse b (FoundNone (test_of wanted) logs.now (V.numbers heard.now) self.new.met.items)) }
    {
        self.left.clear();
        if self.come_to_all(logs, heard, wanted, from)? {
            return Ok(true);
        }
        'walk: while let Some(who) = self.left.pop() {
            let takes = takes_of(logs, heard, who);
            if self.come_to_all(logs, heard, wanted, takes)? {
                return Ok(true);
            }
        }
        Ok(false)
    }
}
