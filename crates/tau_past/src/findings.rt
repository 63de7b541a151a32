//! What an audit finds.
use tau_points::Point;

/// What an audit finds (docs/definitions.md, "Safe"): the trace is safe; or the first Checkpoint whose past holds a
/// rolled-back point, the least such point, and the first place at which that point was rolled back.
#[derive(Clone, Copy, Debug, PartialEq, Eq)]
pub enum Audit {
    Safe,
    Broken {
        checkpoint: u32,
        point: Point,
        fall: u32,
    },
}

/// A Checkpoint whose past holds a rolled-back point: its place, and the point at which it was made.
#[derive(Clone, Copy)]
pub(crate) struct Breach {
    pub(crate) place: u32,
    pub(crate) point: Point,
}
