//! The chain of the step that was asked for.
ghost use Rattle.std.specs.Prelude.{◌≡◌, ◌↔◌, ◌<◌, ◌^◌, Some, IfSome, IsTrue, OnOk};
ghost use Rattle.tau_svg.specs.Markup.Lines.{with_line, with_pieces};
ghost use Rattle.tau_svg.specs.Shapes.Each.{EachItem, Writes};
ghost use Rattle.tau_layout.specs.Plans.{IsPlan};
ghost use Rattle.tau_layout.specs.Paths.Near.{IsNear, IsNearX};
ghost use Rattle.tau_layout.specs.Paths.Inner.Ranks.{HasOneRank};
ghost use Rattle.tau_drawing.specs.States.Names as names;
ghost use Rattle.tau_picture.specs.Chains as chains;
ghost use Rattle.tau_picture.specs.Chains.{FrameLines, LinkLines, AreLinkLines, RingLines, AreChainLines};
ghost use Rattle.tau_picture.specs.Inner.Showing.{IsStateOf, IsPlaced, IsMakerOf};

use std::alloc::AllocError;
use tau_drawing::states::{state_foot, state_top};
use tau_explain::chains::{Chain, Chained};
use tau_layout::paths::{Spot, lane_middle, spot_at};
use tau_layout::{Layout, lane_at};
use tau_points::Point;
use tau_scene::looks::{Looks, Seen};
use tau_scene::timelines::State;
use tau_svg::markup::{begin, close, end, name, plain, put_number, put_word, quote, text};
use tau_svg::shapes::{put_pair, rect, rounded};
use tau_trace::Trace;

/// A state that is seen, and the middle of its lane.
#[derive(Clone, Copy)]
struct Placed {
    state: State,
    x: u64,
}

/// The states that are seen of the lane with so many lanes before it.
fn seen_at(looks: &Looks, rank: usize) -> &[Seen]
    ensures { result.now ≡ names.seen_at looks.now rank }
{
    match looks.states.get(rank) {
        Some(seen) => seen,
        None => &[],
    }
}

/// Whether a state is that of a point.
fn is_of(seen: &Seen, point: Point) -> bool
    ensures { IsTrue result ↔ (seen.now.state.point ≡ point) }
{
    seen.state.point == point
}

/// The state of a point among the states of a lane.
fn state_in(states: &[Seen], point: Point) -> Option<State>
    ensures { IsStateOf states.now point result }
{
    for seen in states {
        if is_of(seen, point) {
            return Some(seen.state);
        }
    }
    None
}

/// The state of a point, with the middle of its lane, where it is seen.
fn shown(layout: &Layout, looks: &Looks, point: Point) -> Option<Placed>
    requires { HasOneRank layout.now }
    ensures placed { IsPlaced layout.now looks.now point result }
    ensures near { IfSome result (λ p. IsNearX p.x) }
{
    let Some(rank) = layout.rank(point.who) else {
        return None;
    };
    let Some(x) = lane_middle(layout, point.who) else {
        return None;
    };
    let Some(state) = state_in(seen_at(looks, rank), point) else {
        return None;
    };
    Some(Placed { state, x })
}

/// Adds the frame round a state.
fn put_frame_of(out: &mut Vec<u8>, layout: &Layout, placed: Placed) -> Result<(), AllocError>
    requires { IsNearX placed.x }
    ensures { OnOk result (out.new.items ≡ with_line out.old.items (chains.frame_line layout.now placed.state placed.x)) }
{
    let top = state_top(layout, placed.state);
    let height = state_foot(layout, placed.state).saturating_sub(top);
    rect(out, b"why", placed.x - 9, top - 3, 18, height + 6)?;
    rounded(out, 6)
}

/// Adds the frame round the state of a point of a chain, if that is seen.
fn put_frame(
    out: &mut Vec<u8>,
    layout: &Layout,
    looks: &Looks,
    chained: Chained,
) -> Result<(), AllocError>
    requires { HasOneRank layout.now }
    ensures { OnOk result (Writes (FrameLines layout.now looks.now chained) out.old.items out.new.items) }
{
    let Some(placed) = shown(layout, looks, chained.point) else {
        return Ok(());
    };
    put_frame_of(out, layout, placed)?;
    Ok(())
}

/// Adds the frames of a chain.
fn put_frames(
    out: &mut Vec<u8>,
    layout: &Layout,
    looks: &Looks,
    chain: &Chain,
) -> Result<(), AllocError>
    requires { HasOneRank layout.now }
    ensures { OnOk result (Writes (EachItem (FrameLines layout.now looks.now) chain.now) out.old.items out.new.items) }
{
    for chained in chain.items() {
        put_frame(out, layout, looks, *chained)?;
    }
    Ok(())
}

/// Adds the way of a curve.
fn put_way(out: &mut Vec<u8>, x: u64, y: u64, to_x: u64, to_y: u64) -> Result<(), AllocError>
    requires from { x < 2 ^ 62 }
    requires to { to_x < 2 ^ 62 }
    ensures { OnOk result (out.new.items ≡ with_pieces out.old.items (chains.curve_way x y to_x to_y)) }
{
    let middle = (x + to_x) / 2;
    put_pair(out, b"M", x, y)?;
    put_pair(out, b"C", middle, y)?;
    put_pair(out, b" ", middle, to_y)?;
    put_pair(out, b" ", to_x, to_y)
}

/// Adds a curve.
fn put_curve(out: &mut Vec<u8>, x: u64, y: u64, to_x: u64, to_y: u64) -> Result<(), AllocError>
    requires from { x < 2 ^ 62 }
    requires to { to_x < 2 ^ 62 }
    ensures { OnOk result (out.new.items ≡ with_line out.old.items (chains.curve x y to_x to_y)) }
{
    begin(out, b"path")?;
    put_word(out, b"class", b"why link")?;
    name(out, b"d")?;
    put_way(out, x, y, to_x, to_y)?;
    quote(out)?;
    end(out)
}

/// Adds the curve of a link from the spot of a step to a lane.
fn put_link_line(out: &mut Vec<u8>, spot: Spot, to_x: u64, to_y: u64) -> Result<(), AllocError>
    requires from { IsNear spot }
    requires to { IsNearX to_x }
    ensures { OnOk result (out.new.items ≡ with_line out.old.items (chains.link_line spot.x spot.y to_x to_y)) }
{
    if spot.x < to_x {
        put_curve(out, spot.x + 10, spot.y, to_x - 12, to_y)
    } else {
        put_curve(out, spot.x - 10, spot.y, to_x + 12, to_y)
    }
}

/// The lesser of a place and the place of the end of a state, if it ends.
fn no_later(place: u32, end: Option<u32>) -> u32
    ensures { result ≡ chains.no_later place end }
{
    match end {
        Some(end) => place.min(end),
        None => place,
    }
}

/// Whether a transactor, if there is one, is this one.
fn is_who(lane: Option<u32>, who: u32) -> bool
    ensures { IsTrue result ↔ (lane ≡ Some who) }
{
    lane == Some(who)
}

/// The place of the step that makes the link to a point of a chain, where it is drawn in another lane than the point's.
fn drawn_maker(trace: &Trace, layout: &Layout, chained: Chained) -> Option<u32>
    ensures { IsMakerOf trace.now.run layout.now chained result }
{
    let Some(place) = chained.by else {
        return None;
    };
    if !layout.window().has(place) {
        return None;
    }
    if is_who(lane_at(trace, place), chained.point.who) {
        return None;
    }
    Some(place)
}

/// Adds the curve of the link to a point of a chain, if it is drawn.
fn put_link(
    out: &mut Vec<u8>,
    trace: &Trace,
    layout: &Layout,
    looks: &Looks,
    chained: Chained,
) -> Result<(), AllocError>
    requires plan { IsPlan trace.now.run layout.now.window layout.now }
    requires ranks { HasOneRank layout.now }
    ensures { OnOk result (Writes (LinkLines trace.now.run layout.now looks.now chained) out.old.items out.new.items) }
{
    let Some(place) = drawn_maker(trace, layout, chained) else {
        return Ok(());
    };
    let Some(placed) = shown(layout, looks, chained.point) else {
        return Ok(());
    };
    let to_y = layout.y(no_later(place, placed.state.end));
    put_link_line(out, spot_at(trace, layout, place), placed.x, to_y)?;
    Ok(())
}

/// Adds the links of a chain.
fn put_links(
    out: &mut Vec<u8>,
    trace: &Trace,
    layout: &Layout,
    looks: &Looks,
    chain: &Chain,
) -> Result<(), AllocError>
    requires plan { IsPlan trace.now.run layout.now.window layout.now }
    requires ranks { HasOneRank layout.now }
    ensures { OnOk result (Writes (EachItem (LinkLines trace.now.run layout.now looks.now) chain.now) out.old.items out.new.items) }
{
    for chained in chain.items() {
        put_link(out, trace, layout, looks, *chained)?;
    }
    Ok(())
}

/// Adds the colour of the heads of links in the dark.
fn put_head(out: &mut Vec<u8>) -> Result<(), AllocError>
    ensures { OnOk result (out.new.items ≡ with_line out.old.items chains.head_line) }
{
    begin(out, b"style")?;
    put_word(out, b"type", b"text/css")?;
    text(out)?;
    plain(
        out,
        b"@media (prefers-color-scheme:dark){#tau-to-why path{fill:#f06ac4}}",
    )?;
    close(out, b"style")
}

/// Adds the links of a chain, and where one is drawn the colour of their heads.
fn put_headed(
    out: &mut Vec<u8>,
    trace: &Trace,
    layout: &Layout,
    looks: &Looks,
    chain: &Chain,
) -> Result<(), AllocError>
    requires plan { IsPlan trace.now.run layout.now.window layout.now }
    requires ranks { HasOneRank layout.now }
    ensures { OnOk result (Writes (AreLinkLines trace.now.run layout.now looks.now chain.now) out.old.items out.new.items) }
{
    let before = out.len();
    put_links(out, trace, layout, looks, chain)?;
    if out.len() <= before {
        return Ok(());
    }
    put_head(out)?;
    Ok(())
}

/// Adds a ring round a spot.
fn put_circle(out: &mut Vec<u8>, spot: Spot) -> Result<(), AllocError>
    ensures { OnOk result (out.new.items ≡ with_line out.old.items (chains.ring_line spot)) }
{
    begin(out, b"circle")?;
    put_word(out, b"class", b"why")?;
    put_number(out, b"cx", spot.x)?;
    put_number(out, b"cy", spot.y)?;
    put_number(out, b"r", 12)?;
    end(out)
}

/// Adds the ring round the step at a place, if it is drawn.
fn put_ring(out: &mut Vec<u8>, trace: &Trace, layout: &Layout, place: u32) -> Result<(), AllocError>
    requires { IsPlan trace.now.run layout.now.window layout.now }
    ensures { OnOk result (Writes (RingLines trace.now.run layout.now place) out.old.items out.new.items) }
{
    if !layout.window().has(place) {
        return Ok(());
    }
    put_circle(out, spot_at(trace, layout, place))?;
    Ok(())
}

/// Adds the frames and the links of the chain of the step at a place, and the ring round that (docs/formats.md, "Pictures"). The error
/// is want of memory.
pub(crate) fn put_chain(
    out: &mut Vec<u8>,
    trace: &Trace,
    layout: &Layout,
    looks: &Looks,
    place: u32,
    chain: &Chain,
) -> Result<(), AllocError>
    requires plan { IsPlan trace.now.run layout.now.window layout.now }
    requires ranks { HasOneRank layout.now }
    ensures { OnOk result (Writes (AreChainLines trace.now.run layout.now looks.now place chain.now) out.old.items out.new.items) }
{
    put_frames(out, layout, looks, chain)?;
    put_headed(out, trace, layout, looks, chain)?;
    put_ring(out, trace, layout, place)?;
    Ok(())
}
