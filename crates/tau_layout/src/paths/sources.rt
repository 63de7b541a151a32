//! Where the lines of messages begin.
ghost use Rattle.tau_trace.specs.Known.{WellFormed};
ghost use Rattle.tau_layout.specs.Plans.{IsPlan};
ghost use Rattle.tau_layout.specs.Paths.Spots.{IsSource};
ghost use Rattle.tau_layout.specs.Paths.Near.{IsNearSource};

use crate::Layout;
use crate::paths::senders::{Origin, comes_from_right, origin_of};
use crate::paths::spots::{Spot, spot_at};
use tau_trace::Trace;

/// The sender of a message that is drawn: the origin of the message with its spot, whether the line of the message comes from the right,
/// and whether the sender is the receiver itself.
#[derive(Clone, Copy)]
pub struct Sender {
    pub origin: Origin,
    pub spot: Spot,
    pub right: bool,
    pub own: bool,
}

/// Where the line of a message begins: a post has no origin; the origin of another message may be drawn or not.
#[derive(Clone, Copy)]
pub enum Source {
    Post,
    Earlier(Origin),
    Drawn(Sender),
}

/// Where the line of a message to a transactor begins (docs/formats.md, "Pictures").
pub fn source_of(trace: &Trace, layout: &Layout, message: u32, who: u32) -> Source
    requires plan { IsPlan trace.now.run layout.now.window layout.now }
    requires well_formed { WellFormed trace.now.run }
    ensures source { IsSource trace.now.run layout.now message who result }
    ensures near { IsNearSource result }
{
    let Some(origin) = origin_of(trace, message) else {
        return Source::Post;
    };
    if !layout.window().has(origin.place) {
        return Source::Earlier(origin);
    }
    Source::Drawn(Sender {
        origin,
        spot: spot_at(trace, layout, origin.place),
        right: comes_from_right(trace, layout, message, who),
        own: origin.who == who,
    })
}
