//! Links as a search backwards goes through them.
ghost use Rattle.std.specs.Prelude.{OnOk};
ghost use Rattle.tau_points.specs.declared.point.Point.{Point};
ghost use Rattle.tau_explain.specs.Chains.Inner.Incoming.{PushesIncoming};

use std::alloc::AllocError;
use tau_points::Point;

/// Links as a search backwards goes through them. An implementation gives `leads`, the links, and `passed`, the points
/// that it doesn't push again.
pub trait Incoming {
    ghost leads: { Self → Point → Point → Type 0 };

    ghost passed: { Self → Point → Type 0 };

    ghost is_ready: { Self → Type 0 };

    /// Pushes the points that lead to the point and weren't pushed before, in any order, each maybe several times.
    fn push_incoming(&mut self, point: &Point, into: &mut Vec<Point>) -> Result<(), AllocError>
        requires { is_ready self.old }
        ensures ready { OnOk result (is_ready self.new) }
        ensures pushed { OnOk result (PushesIncoming (leads self.old) (leads self.new) (passed self.old) (passed self.new) point.now into.old.items into.new.items) };
}
