ghost use Rattle.std.specs.Prelude.{◌≡◌, ◌+◌, ◌-◌, ◌<◌, ◌≤◌, ◌^◌, ◌↔◌, slice_get, IsTrue, IfOk, OnOk, OnErr};
ghost use Rattle.tau_history.specs.Timeline.{Timeline, moved, stabilize, close, fall, opening, newborn, numbers};
ghost use Rattle.tau_history.specs.Timeline as timeline;
ghost use Rattle.tau_history.specs.Order.{Precedes, AreComparable, IsBefore, ranks_before};
ghost use Rattle.tau_history.specs.Fates.{fate};
ghost use Rattle.tau_history.specs.Stored.{Stored};
ghost use Rattle.tau_history.specs.Closed.{IsFront};

use crate::closed::ClosedNumbers;
use crate::fate::Fate;
use std::alloc::{AllocError, Global};
use std::marker::Model;

/// A history of a transactor: its mode, stable or volatile, and its incarnation numbers, one for each
/// interval (`docs/rules.md`, "Histories"). Histories share their closed numbers: a copy, a fall and a close
/// cost the same at every length.
#[derive(Drop)]
pub struct History {
    stable: bool,
    closed: ClosedNumbers,
    last: u32,
}

impl Model for History {
    ghost use Rattle.std.specs.Prelude.{◌<◌, ◌^◌, length};
    ghost use Rattle.tau_history.specs.Stored.{Stored};

    ghost Value = { Stored };

    ghost view = { λ h. record { history = record { stable = h.stable; closed = h.closed.numbers; last = h.last }; spare = h.closed.spare } };

    ghost invariant = { λ h. length h.closed.numbers < 2 ^ 32 };
}

impl History {
    /// The history with which a start transactor opens: volatile, with the numbers 0 and 0.
    pub fn opening(alloc: Global) -> Result<History, AllocError>
        ensures { IfOk result (λ h. h.history ≡ opening) }
    {
        let mut closed = ClosedNumbers::new(alloc);
        closed.push_spare(0);
        Ok(History {
            stable: false,
            closed,
            last: 0,
        })
    }

    /// The history with which a created transactor opens: volatile, with the number 0.
    pub fn newborn(alloc: Global) -> Result<History, AllocError>
        ensures { IfOk result (λ h. h.history ≡ newborn) }
    {
        Ok(History {
            stable: false,
            closed: ClosedNumbers::new(alloc),
            last: 0,
        })
    }

    /// Makes the history stable (`docs/rules.md`, "Histories").
    pub fn stabilize(&mut self)
        ensures history { self.new.history ≡ moved stabilize self.old.history }
        ensures spare { self.old.spare ≤ self.new.spare }
    {
        self.stable = true;
    }

    /// Falls: the present interval goes on under the next incarnation number, volatile.
    pub fn fall(&mut self)
        requires { self.old.history.last < 2 ^ 32 - 1 }
        ensures history { self.new.history ≡ moved fall self.old.history }
        ensures spare { self.old.spare ≤ self.new.spare }
    {
        self.stable = false;
        self.last += 1;
    }

    /// Closes the present interval of a stable history: the next one opens with the number 0, volatile.
    pub fn close(&mut self) -> Result<(), AllocError>
        requires stable { IsTrue self.old.history.stable }
        requires fits { timeline.interval self.old.history < 2 ^ 32 - 1 }
        ensures ok { OnOk result (self.new.history ≡ moved close self.old.history) }
        ensures ok_spare { OnOk result (self.old.spare ≤ self.new.spare + 1) }
        ensures err { OnErr result (self.new.history ≡ self.old.history) }
        ensures err_spare { OnErr result (self.old.spare ≤ self.new.spare) }
    {
        self.reserve()?;
        self.close_spare();
        Ok(())
    }

    /// Makes room, so that one interval can be closed without memory.
    pub fn reserve(&mut self) -> Result<(), AllocError>
        ensures history { self.new.history ≡ self.old.history }
        ensures ok { OnOk result (1 ≤ self.new.spare) }
        ensures spare { self.old.spare ≤ self.new.spare }
    {
        self.closed.reserve()
    }

    /// Closes the present interval as `close` does, in the room that there is, without memory.
    pub fn close_spare(&mut self)
        requires stable { IsTrue self.old.history.stable }
        requires fits { timeline.interval self.old.history < 2 ^ 32 - 1 }
        requires spare { 1 ≤ self.old.spare }
        ensures history { self.new.history ≡ moved close self.old.history }
        ensures spare { self.old.spare ≤ self.new.spare + 1 }
    {
        self.closed.push_spare(self.last);
        self.stable = false;
        self.last = 0;
    }

    /// Whether `later` is reached from this history by moves, none included (`docs/rules.md`, "Histories").
    /// It takes time linear in the closed intervals of this one.
    pub fn precedes(&self, later: &History) -> bool
        ensures { IsTrue result ↔ Precedes self.now.history later.now.history }
    {
        if !self.may_precede(later) {
            return false;
        }
        self.closed.continues_in(&later.closed)
    }

    /// Whether `other` is strictly later than this history, where one of the two precedes the other. Interval,
    /// incarnation and mode tell it, in constant time.
    pub fn is_before(&self, other: &History) -> bool
        requires { AreComparable self.now.history other.now.history }
        ensures before { IsTrue result ↔ IsBefore self.now.history other.now.history }
        ensures rank { result ≡ ranks_before self.now.history other.now.history }
    {
        if self.interval() != other.interval() {
            return self.interval() < other.interval();
        }
        if self.last != other.last {
            return self.last < other.last;
        }
        !self.stable && other.stable
    }

    /// The present interval, counted from 0.
    pub fn interval(&self) -> u32
        ensures { result ≡ timeline.interval self.now.history }
    {
        self.closed.len()
    }

    /// The number of the present incarnation.
    pub fn incarnation(&self) -> u32
        ensures { result ≡ self.now.history.last }
    {
        self.last
    }

    /// Whether the history is stable; otherwise it is volatile.
    pub fn is_stable(&self) -> bool
        ensures { result ≡ self.now.history.stable }
    {
        self.stable
    }

    /// The incarnation number of an interval: that at which it was closed, or the present one. `None` past the
    /// present interval. It takes time logarithmic in the closed intervals.
    pub fn number_at(&self, interval: u32) -> Option<u32>
        ensures { result ≡ slice_get (numbers self.now.history) interval }
    {
        let own = self.interval();
        if interval < own {
            return Some(self.closed.at(interval));
        }
        if interval == own {
            return Some(self.last);
        }
        None
    }

    /// The fate of the point of this history's transactor at an interval and an incarnation number
    /// (`docs/rules.md`, "Fates").
    pub fn fate(&self, interval: u32, incarnation: u32) -> Fate
        ensures { result ≡ fate self.now.history interval incarnation }
    {
        match self.number_at(interval) {
            None => Fate::Ahead,
            Some(number) if incarnation < number => Fate::Fallen,
            Some(number) if number < incarnation => Fate::Ahead,
            Some(_) if interval != self.interval() => Fate::Closed,
            Some(_) if self.stable => Fate::Stable,
            Some(_) => Fate::Open,
        }
    }

    /// An equal history.
    pub fn copy(&self) -> Result<History, AllocError>
        ensures { IfOk result (λ h. h.history ≡ self.now.history) }
    {
        let closed = self.closed.copy()?;
        Ok(History {
            stable: self.stable,
            closed,
            last: self.last,
        })
    }

    /// Whether the two histories are equal, in time linear in their closed intervals.
    pub fn same(&self, other: &History) -> bool
        ensures { IsTrue result ↔ (self.now.history ≡ other.now.history) }
    {
        if self.stable != other.stable
            || self.last != other.last
            || self.interval() != other.interval()
        {
            return false;
        }
        self.closed.continues_in(&other.closed)
    }

    /// All that precedence asks, but that the closed numbers of this history are a front of the later's.
    fn may_precede(&self, later: &History) -> bool
        ensures shorter { IsTrue result → timeline.interval self.now.history ≤ timeline.interval later.now.history }
        ensures needed { Precedes self.now.history later.now.history → IsTrue result }
        ensures suffices { IsTrue result → IsFront self.now.history.closed later.now.history.closed
            → Precedes self.now.history later.now.history }
    {
        let own = self.interval();
        let others = later.interval();
        if others < own {
            return false;
        }
        if own < others {
            return self.last <= later.closed.at(own);
        }
        if self.last != later.last {
            return self.last < later.last;
        }
        !self.stable || later.stable
    }
}
