//! The senders of messages, and the side from which a message comes.
ghost use Rattle.std.specs.Prelude.{◌≡◌, ◌↔◌, IsTrue};
ghost use Rattle.tau_trace.specs.Known.{WellFormed};
ghost use Rattle.tau_layout.specs.Plans.{IsPlan};
ghost use Rattle.tau_layout.specs.Paths.Senders.{met_by, IsOriginOf, StandsRight, ComesFromRight};
ghost use Rattle.tau_layout.specs.Paths.Inner.Ranks.{HasOneRank};

use crate::Layout;
use tau_trace::{Step, Trace};

/// The origin of a message (docs/definitions.md, "Origin"): the place of the Send or the Echo, and its transactor.
#[derive(Clone, Copy)]
pub struct Origin {
    pub place: u32,
    pub who: u32,
}

/// The message that a step receives or loses: that of a Take, Drop, Fall, Void, Echo, Heed or Lose.
pub fn met(step: &Step) -> Option<u32>
    ensures { result ≡ met_by step.now }
{
    match step {
        Step::Take { message, .. }
        | Step::Drop { message, .. }
        | Step::Fall { message, .. }
        | Step::Void { message, .. }
        | Step::Echo { message, .. }
        | Step::Heed { message, .. }
        | Step::Lose { message } => Some(*message),
        _ => None,
    }
}

/// The origin of a message; `None` for a post and its copies.
pub(crate) fn origin_of(trace: &Trace, message: u32) -> Option<Origin>
    ensures { IsOriginOf trace.now.run message result }
{
    let place = trace.origin(message)?;
    let who = trace.sender(message)?;
    Some(Origin { place, who })
}

/// Whether the lane of one transactor has at least the rank of that of another.
fn stands_right(layout: &Layout, who: u32, other: u32) -> bool
    requires one { HasOneRank layout.now }
    ensures { IsTrue result ↔ StandsRight layout.now who other }
{
    let Some(rank) = layout.rank(who) else {
        return false;
    };
    let Some(least) = layout.rank(other) else {
        return false;
    };
    least <= rank
}

/// Whether the line of a message to a transactor comes from the right (docs/formats.md, "Pictures").
pub fn comes_from_right(trace: &Trace, layout: &Layout, message: u32, who: u32) -> bool
    requires plan { IsPlan trace.now.run layout.now.window layout.now }
    requires well_formed { WellFormed trace.now.run }
    ensures { IsTrue result ↔ ComesFromRight trace.now.run layout.now message who }
{
    let Some(origin) = origin_of(trace, message) else {
        return false;
    };
    if layout.window().has(origin.place) {
        return stands_right(layout, origin.who, who);
    }
    false
}
