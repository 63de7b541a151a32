//! The point at which a step is made, and whether the step falls.
ghost use Rattle.std.specs.Prelude.{◌≡◌, ◌<◌, length, slice_get, Some, ℕ};
ghost use Rattle.tau_history.specs.Stored.{Stored};
ghost use Rattle.tau_trace.specs.Histories.{is_fall, move_of};
ghost use Rattle.tau_past.specs.TableSteps.{point_of, taker};

use tau_history::History;
use tau_points::Point;
use tau_trace::Step;

/// The point at which a step was made, and whether it is a falling step (docs/rules.md, "Steps").
#[derive(Clone, Copy)]
pub struct Made {
    pub point: Point,
    pub falls: bool,
}

/// The point of a transactor by its history.
pub(crate) fn point_of(who: u32, history: &History) -> Point
    ensures { result ≡ point_of who history.now.history }
{
    Point {
        who,
        interval: history.interval(),
        incarnation: history.incarnation(),
    }
}

/// Whether the step is a falling step, made in this mode.
pub(crate) fn falls(step: &Step, stable: bool) -> bool
    ensures { result ≡ is_fall (move_of stable step.now) }
{
    match step {
        Step::Fall { .. } | Step::Rollback { .. } => true,
        Step::Trap { .. } | Step::Fail { .. } => !stable,
        _ => false,
    }
}

/// The point that takes what the step carries: that of a Set, or the first one of the transactor that a New makes.
pub(crate) fn taker(step: &Step, own: Point, born: u32) -> Option<Point>
    ensures { result ≡ taker step.now own born }
{
    match step {
        Step::Set { .. } => Some(own),
        Step::New { .. } => Some(Point {
            who: born,
            interval: 0,
            incarnation: 0,
        }),
        _ => None,
    }
}
