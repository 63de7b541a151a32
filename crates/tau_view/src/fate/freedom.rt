use tau_points::Point;

/// Whether a transactor is free (`docs/rules.md`, "Free").
#[derive(Clone, Copy, Debug, PartialEq, Eq)]
pub enum Freedom {
    /// Each point of the known past of its own point is firm.
    Free,
    /// This point of it isn't.
    Bound { point: Point },
}
