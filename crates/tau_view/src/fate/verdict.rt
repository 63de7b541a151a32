use tau_points::Point;

/// What becomes of a message at its receipt (`docs/rules.md`, "Verdict").
#[derive(Clone, Copy, Debug, PartialEq, Eq)]
pub enum Verdict {
    /// The receiver takes it.
    Take,
    /// The message is discarded: the known past of its roots holds this Fallen point.
    Drop { point: Point },
    /// The receiver falls: the known past of its own point holds this Fallen point.
    Fall { point: Point },
}
