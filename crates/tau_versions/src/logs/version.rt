//! What the steps of a transactor before a place make of it.
ghost use Rattle.std.specs.Prelude.{◌≡◌, ◌+◌, ◌-◌, ◌<◌, ◌^◌, false};
ghost use Rattle.tau_history.specs.Timeline.{Timeline, moved, stabilize, close, fall};
ghost use Rattle.tau_versions.specs.Logs.Versions.{IsVersionOf};

/// A transactor's point and mode, the range of its log's takes that this point has taken so far, and the place from
/// which on this holds.
#[derive(Clone, Copy)]
pub struct Version {
    pub interval: u32,
    pub incarnation: u32,
    pub stable: bool,
    pub first: u32,
    pub last: u32,
    pub from: u32,
}

impl Version {
    /// The version at a point without takes, volatile.
    pub fn volatile(interval: u32, incarnation: u32, from: u32) -> Version
        ensures { result ≡ record { interval = interval; incarnation = incarnation; stable = false; first = 0; last = 0; from = from } }
    {
        Version {
            interval,
            incarnation,
            stable: false,
            first: 0,
            last: 0,
            from,
        }
    }

    /// The version after a Stabilize: it keeps point and takes.
    pub fn stabilized(self, from: u32) -> Version
        ensures tells { (h : Timeline) → IsVersionOf self h → IsVersionOf result (moved stabilize h) }
        ensures from { result.from ≡ from }
        ensures takes { (result.first ≡ self.first) × (result.last ≡ self.last) }
    {
        Version {
            stable: true,
            from,
            ..self
        }
    }

    /// The version whose point has taken what stands in this range.
    pub fn taking(self, first: u32, last: u32, from: u32) -> Version
        ensures tells { (h : Timeline) → IsVersionOf self h → IsVersionOf result h }
        ensures from { result.from ≡ from }
        ensures takes { (result.first ≡ first) × (result.last ≡ last) }
    {
        Version {
            first,
            last,
            from,
            ..self
        }
    }

    /// The version after a falling step: the next incarnation, without takes.
    pub fn fallen(self, from: u32) -> Version
        requires fits { self.incarnation < 2 ^ 32 - 1 }
        ensures tells { (h : Timeline) → IsVersionOf self h → IsVersionOf result (moved fall h) }
        ensures from { result.from ≡ from }
        ensures takes { (result.first ≡ 0) × (result.last ≡ 0) }
    {
        Version::volatile(self.interval, self.incarnation + 1, from)
    }

    /// The version after a Checkpoint: the next interval, without takes.
    pub fn closed(self, from: u32) -> Version
        requires fits { self.interval < 2 ^ 32 - 1 }
        ensures tells { (h : Timeline) → IsVersionOf self h → IsVersionOf result (moved close h) }
        ensures from { result.from ≡ from }
        ensures takes { (result.first ≡ 0) × (result.last ≡ 0) }
    {
        Version::volatile(self.interval + 1, 0, from)
    }
}
