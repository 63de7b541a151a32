//! The log of a transactor.
ghost use Rattle.std.specs.Prelude.{◌≡◌, ◌+◌, ◌-◌, ◌<◌, ◌≤◌, ◌^◌, ℕ, suc, [], ◌∷◌, ◌++◌, length, take, drop, slice_get, Some, false, IfOk, OnOk, OnErr};
ghost use Rattle.std.specs.Vec.{vec_capacity};
ghost use Rattle.tau_history.specs.Timeline.{Timeline, numbers};
ghost use Rattle.tau_history.specs.Closed.{IsFront};
ghost use Rattle.tau_history.specs.Fates.{fate};
ghost use Rattle.tau_trace.specs.Run.{Run, ActsAt, starts};
ghost use Rattle.tau_trace.specs.Histories.{history};
ghost use Rattle.tau_versions.specs.Logs.Versions.{IsVersionOf, IsLatest};
ghost use Rattle.tau_versions.specs.Logs.Told.{Told, TellsHistories};
ghost use Rattle.tau_versions.specs.Logs.Reading.{number_by, fate_by, fate_told, takes_told};

use crate::logs::version::Version;
use std::alloc::{AllocError, Global};
use std::marker::Model;
use tau_history::Fate;
use tau_points::Point;

/// The versions of a transactor, in the order of the places from which on they hold; what its points take; and the
/// incarnations with which its earlier intervals were closed.
#[derive(Drop)]
pub struct Log {
    versions: Vec<Version>,
    takes: Vec<Point>,
    closed: Vec<u32>,
}

impl Model for Log {
    ghost use Rattle.std.specs.Prelude.{◌-◌, vec_len};
    ghost use Rattle.std.specs.Vec.{vec_capacity};
    ghost use Rattle.tau_versions.specs.Logs.Told.{Told};

    ghost Value = { Told };

    ghost view = { λ l. record {
      versions = l.versions.items;
      takes = l.takes.items;
      closed = l.closed.items;
      spare_versions = vec_capacity l.versions - vec_len l.versions;
      spare_takes = vec_capacity l.takes - vec_len l.takes;
      spare_closed = vec_capacity l.closed - vec_len l.closed;
    } };
}

impl Log {
    /// The log of a start transactor.
    pub fn opening(alloc: Global) -> Result<Log, AllocError>
        ensures versions { IfOk result (λ l. l.versions ≡ record { interval = 1; incarnation = 0; stable = false; first = 0; last = 0; from = 0 } ∷ []) }
        ensures takes { IfOk result (λ l. l.takes ≡ []) }
        ensures tells { IfOk result (λ l. (T : Run) (u : ℕ) → u < starts T → TellsHistories T u 0 l) }
    {
        let first = Version {
            interval: 1,
            incarnation: 0,
            stable: false,
            first: 0,
            last: 0,
            from: 0,
        };
        let log = Log::with_version(alloc, first, &[], &[0])?;
        Ok(log)
    }

    /// The log of a transactor that was created by the step before place `n`, with what its first point takes.
    pub fn newborn(alloc: Global, takes: &[Point]) -> Result<Log, AllocError>
        requires few { length takes.now < 2 ^ 32 }
        ensures versions { IfOk result (λ l. l.versions ≡ record { interval = 0; incarnation = 0; stable = false; first = 0; last = length takes.now; from = 0 } ∷ []) }
        ensures takes { IfOk result (λ l. l.takes ≡ takes.now) }
        ensures tells { IfOk result (λ l. (T : Run) (u n : ℕ) → starts T ≤ u → ((j : ℕ) → j < n → ¬ ActsAt T u j) → TellsHistories T u n l) }
    {
        let first = Version {
            interval: 0,
            incarnation: 0,
            stable: false,
            first: 0,
            last: takes.len() as u32,
            from: 0,
        };
        let log = Log::with_version(alloc, first, takes, &[])?;
        Ok(log)
    }

    /// A log with one version.
    fn with_version(
        alloc: Global,
        version: Version,
        takes: &[Point],
        closed: &[u32],
    ) -> Result<Log, AllocError>
        ensures versions { IfOk result (λ l. l.versions ≡ version ∷ []) }
        ensures takes { IfOk result (λ l. l.takes ≡ takes.now) }
        ensures closed { IfOk result (λ l. l.closed ≡ closed.now) }
    {
        let mut versions = Vec::new(alloc);
        versions.push(version)?;
        Ok(Log {
            versions,
            takes: Vec::from_slice(alloc, takes)?,
            closed: Vec::from_slice(alloc, closed)?,
        })
    }

    /// How many versions there are.
    pub fn len(&self) -> usize
        ensures { result ≡ length self.now.versions }
    {
        self.versions.len()
    }

    /// How many takes there are.
    pub fn takes_len(&self) -> usize
        ensures { result ≡ length self.now.takes }
    {
        self.takes.len()
    }

    /// A version by its number.
    pub fn version(&self, number: usize) -> Option<Version>
        ensures { result ≡ slice_get self.now.versions number }
    {
        self.versions.get(number).copied()
    }

    /// The fate of a point of this transactor by a version heard of; Ahead where there is none with this number.
    pub fn fate(&self, number: usize, interval: u32, incarnation: u32) -> Fate
        ensures told { result ≡ fate_told self.now number interval incarnation }
        ensures right { (T : Run) (u n a : ℕ) (v : Version) → TellsHistories T u n self.now → a ≤ n → IsLatest self.now.versions a number v
            → result ≡ fate (history T u a) interval incarnation }
    {
        match self.version(number) {
            Some(version) => fate_in(&version, &self.closed, interval, incarnation),
            None => Fate::Ahead,
        }
    }

    /// What the point of a version has taken; nothing where there is none with this number.
    pub fn taken(&self, number: usize) -> &[Point]
        ensures { result.now ≡ takes_told self.now number }
    {
        match self.version(number) {
            Some(version) => range_of(&self.takes, version.first, version.last),
            None => &[],
        }
    }

    /// Makes room for a version, for these many takes, and for a closed interval.
    pub fn reserve(&mut self, takes: usize) -> Result<(), AllocError>
        ensures lists { (self.new.versions ≡ self.old.versions) × (self.new.takes ≡ self.old.takes) × (self.new.closed ≡ self.old.closed) }
        ensures ok { OnOk result ((1 ≤ self.new.spare_versions) × (takes ≤ self.new.spare_takes) × (1 ≤ self.new.spare_closed)) }
    {
        self.versions.reserve(1)?;
        self.takes.reserve(takes)?;
        self.closed.reserve(1)
    }

    /// Adds a version at the same interval. It takes no memory.
    pub fn push(&mut self, version: Version)
        requires spare { 1 ≤ self.old.spare_versions }
        ensures versions { self.new.versions ≡ self.old.versions ++ version ∷ [] }
        ensures takes { self.new.takes ≡ self.old.takes }
        ensures tells { (T : Run) (u n : ℕ) → version.from ≡ suc n → IsVersionOf version (history T u (suc n)) → (history T u (suc n)).closed ≡ (history T u n).closed
            → TellsHistories T u n self.old → TellsHistories T u (suc n) self.new }
    {
        self.versions.push_reserved(version);
    }

    /// Adds takes, and a version at the same point. It takes no memory.
    pub fn take(&mut self, points: &[Point], version: Version)
        requires spare { 1 ≤ self.old.spare_versions }
        requires spare_takes { length points.now ≤ self.old.spare_takes }
        ensures versions { self.new.versions ≡ self.old.versions ++ version ∷ [] }
        ensures takes { self.new.takes ≡ self.old.takes ++ points.now }
        ensures tells { (T : Run) (u n : ℕ) → version.from ≡ suc n → IsVersionOf version (history T u (suc n)) → (history T u (suc n)).closed ≡ (history T u n).closed
            → TellsHistories T u n self.old → TellsHistories T u (suc n) self.new }
    {
        put_all(&mut self.takes, points);
        self.versions.push_reserved(version);
    }

    /// Closes the interval with an incarnation, and adds the first version at the next one. It takes no memory.
    pub fn close(&mut self, incarnation: u32, version: Version)
        requires spare { 1 ≤ self.old.spare_versions }
        requires spare_closed { 1 ≤ self.old.spare_closed }
        ensures versions { self.new.versions ≡ self.old.versions ++ version ∷ [] }
        ensures takes { self.new.takes ≡ self.old.takes }
        ensures tells { (T : Run) (u n : ℕ) → version.from ≡ suc n → IsVersionOf version (history T u (suc n)) → (history T u (suc n)).closed ≡ (history T u n).closed ++ incarnation ∷ []
            → TellsHistories T u n self.old → TellsHistories T u (suc n) self.new }
    {
        self.closed.push_reserved(incarnation);
        self.versions.push_reserved(version);
    }
}

/// The incarnation number of an interval by a version: that at which it was closed, or the present one.
fn number_in(version: &Version, closed: &[u32], interval: u32) -> Option<u32>
    ensures told { result ≡ number_by version.now closed.now interval }
    ensures right { (h : Timeline) → IsVersionOf version.now h → IsFront h.closed closed.now → result ≡ slice_get (numbers h) interval }
{
    if interval < version.interval {
        return closed.get(interval as usize).copied();
    }
    if interval == version.interval {
        return Some(version.incarnation);
    }
    None
}

/// The fate of a point by a version and by the closed incarnations.
fn fate_in(version: &Version, closed: &[u32], interval: u32, incarnation: u32) -> Fate
    ensures told { result ≡ fate_by version.now closed.now interval incarnation }
    ensures right { (h : Timeline) → IsVersionOf version.now h → IsFront h.closed closed.now → result ≡ fate h interval incarnation }
{
    match number_in(version, closed, interval) {
        None => Fate::Ahead,
        Some(number) if incarnation < number => Fate::Fallen,
        Some(number) if number < incarnation => Fate::Ahead,
        Some(_) if interval != version.interval => Fate::Closed,
        Some(_) if version.stable => Fate::Stable,
        Some(_) => Fate::Open,
    }
}

/// The points from one position on and before another, as far as they are there.
fn range_of(takes: &[Point], first: u32, last: u32) -> &[Point]
    ensures { result.now ≡ take (last - first) (drop first takes.now) }
{
    let end = (last as usize).min(takes.len());
    let start = (first as usize).min(end);
    &takes[start..end]
}

/// Appends points, for which there is room.
fn put_all(takes: &mut Vec<Point>, points: &[Point])
    requires room { length takes.old.items + length points.now ≤ vec_capacity takes.old }
    ensures { takes.new.items ≡ takes.old.items ++ points.now }
{
    match takes.extend_from_slice(points) {
        Ok(()) => {}
        Err(_) => unreachable!(),
    }
}
