//! How a storm is made.

/// How many faults of each kind (docs/rules.md, "Storm").
#[derive(Clone, Copy, Debug, PartialEq, Eq)]
pub struct FaultCounts {
    /// Failures of nodes.
    pub fails: u32,
    /// Losses of messages.
    pub losses: u32,
    /// Repeats of messages; none is repeated in version 1.
    pub repeats: u32,
}

/// How the runs of a storm are made, and which faults come (docs/rules.md, "Storm").
#[derive(Clone, Copy, Debug, PartialEq, Eq)]
pub struct Setting {
    /// How many jobs the worker of a serial run has room for: 1 to 16.
    pub jobs: u32,
    /// The most steps of a run.
    pub steps: u32,
    /// Faults come at places that are multiples of this one, which is 1 or more.
    pub every: u32,
    /// The most faults of each kind, beside those of the script: at most 16.
    pub faults: FaultCounts,
}
