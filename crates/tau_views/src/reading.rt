//! Views by their numbers.
ghost use Rattle.std.specs.Prelude.{◌≡◌, ◌<◌, Some, option_and_then, slice_get};
ghost use Rattle.std.specs.Option.{option_map};
ghost use Rattle.tau_trace.specs.Run.{len};
ghost use Rattle.tau_trace.specs.Numbering.{born, InFlight};
ghost use Rattle.tau_trace.specs.Histories as histories;
ghost use Rattle.tau_trace.specs.Points.{point_at};
ghost use Rattle.tau_views.specs.Kept.{AreViews, held_of, letters_of};

use crate::views::Views;
use tau_history::History;
use tau_points::Point;
use tau_trace::Trace;
use tau_view::View;

impl<V: View + Drop> Views<V> {
    /// The view of a transactor; `None` where it doesn't exist.
    pub fn view_of(&self, who: u32) -> Option<&V>
        ensures { option_map (λ v. V.held v.now) result ≡ slice_get (held_of V.held self.now.own.items) who }
    {
        self.own.get(who as usize)
    }

    /// The view of a message; `None` where it doesn't exist or isn't in flight.
    pub fn message_view(&self, message: u32) -> Option<&V>
        ensures { option_map (λ v. V.held v.now) result ≡ option_and_then (λ o. o) (slice_get (letters_of V.held self.now.letters.items) message) }
    {
        match self.letters.get(message as usize) {
            Some(Some(view)) => Some(view),
            _ => None,
        }
    }

    /// The view of a transactor that exists.
    pub(crate) fn own_view(&self, trace: &Trace, who: u32) -> &V
        requires views { AreViews V.drops_edge V.drops_root trace.now.run (held_of V.held self.now.own.items) (letters_of V.held self.now.letters.items) }
        requires exists { who < born trace.now.run (len trace.now.run) }
        ensures { slice_get (held_of V.held self.now.own.items) who ≡ Some (V.held result.now) }
    {
        match self.view_of(who) {
            Some(view) => view,
            None => unreachable!(),
        }
    }

    /// The view of a message in flight.
    pub(crate) fn letter_view(&self, trace: &Trace, message: u32) -> &V
        requires views { AreViews V.drops_edge V.drops_root trace.now.run (held_of V.held self.now.own.items) (letters_of V.held self.now.letters.items) }
        requires in_flight { InFlight trace.now.run message (len trace.now.run) }
        ensures { slice_get (letters_of V.held self.now.letters.items) message ≡ Some (Some (V.held result.now)) }
    {
        match self.message_view(message) {
            Some(view) => view,
            None => unreachable!(),
        }
    }

    /// The history of a transactor that exists.
    pub(crate) fn own_history(&self, trace: &Trace, who: u32) -> &History
        requires views { AreViews V.drops_edge V.drops_root trace.now.run (held_of V.held self.now.own.items) (letters_of V.held self.now.letters.items) }
        requires exists { who < born trace.now.run (len trace.now.run) }
        ensures { result.now.history ≡ histories.history trace.now.run who (len trace.now.run) }
    {
        // Its contract says that the trace is well-formed.
        let _steps = trace.len();
        match self.own_view(trace, who).history_of(who) {
            Some(history) => history,
            None => unreachable!(),
        }
    }

    /// The point of a transactor that exists.
    pub(crate) fn own_point(&self, trace: &Trace, who: u32) -> Point
        requires views { AreViews V.drops_edge V.drops_root trace.now.run (held_of V.held self.now.own.items) (letters_of V.held self.now.letters.items) }
        requires exists { who < born trace.now.run (len trace.now.run) }
        ensures { result ≡ point_at trace.now.run who (len trace.now.run) }
    {
        let history = self.own_history(trace, who);
        Point {
            who,
            interval: history.interval(),
            incarnation: history.incarnation(),
        }
    }
}
