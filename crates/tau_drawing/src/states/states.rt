//! The states of lanes.
ghost use Rattle.std.specs.Prelude.{◌≡◌, ◌<◌, ◌≤◌, ◌+◌, ◌^◌, ◌&&◌, ℕ, Some, nat_le, OnOk, IfOk};
ghost use Rattle.tau_svg.specs.Markup.Lines.{with_line, with_lines};
ghost use Rattle.tau_trace.specs.Known.{WellFormed};
ghost use Rattle.tau_svg.specs.Shapes.Each.{EachItem, Writes};
ghost use Rattle.tau_layout.specs.Plans.{IsPlan, grid};
ghost use Rattle.tau_scene.specs.Words.Texts as texts;
ghost use Rattle.tau_drawing.specs.States.Names as names_specs;
ghost use Rattle.tau_drawing.specs.States.StateLines as specs;
ghost use Rattle.tau_drawing.specs.States.StateLines.{IsStateAt, AreStateLines};

use crate::states::crossings::{is_crossed, is_crowded, point_end};
use crate::states::kinds::{seen_at, state_class, state_words};
use std::alloc::{AllocError, Global};
use tau_layout::Layout;
use tau_scene::looks::{Looks, Seen};
use tau_scene::timelines::State;
use tau_scene::words::put_state_title;
use tau_svg::markup::{close, end, number, plain, put_number, said, title, title_close};
use tau_svg::shapes::{rect, rect_of, text_at};
use tau_trace::Trace;
use tau_value::Names;

/// Where the box of a state begins (docs/formats.md, "Pictures").
pub fn state_top(layout: &Layout, state: State) -> u64
    ensures top { result ≡ specs.state_top layout.now state }
    ensures least { 112 ≤ result }
    ensures most { result ≤ (grid layout.now).foot + 1 }
{
    let grid = layout.grid();
    if state.begin <= layout.window().from {
        return grid.top - 12;
    }
    layout.y(state.begin) - grid.row / 2 + 1
}

/// Where the box of a state with this end ends.
fn end_foot(layout: &Layout, end: Option<u32>) -> u64
    ensures foot { result ≡ specs.end_foot layout.now end }
    ensures least { 124 ≤ result }
    ensures most { result ≤ (grid layout.now).foot + 8 }
{
    let grid = layout.grid();
    match end {
        Some(place) if place < layout.window().to => layout.y(place) + grid.row / 2 - 1,
        _ => grid.foot,
    }
}

/// Where the box of a state ends (docs/formats.md, "Pictures"): not above where it begins, where the state doesn't end before it
/// begins.
pub fn state_foot(layout: &Layout, state: State) -> u64
    ensures foot { result ≡ specs.state_foot layout.now state }
    ensures least { 124 ≤ result }
    ensures most { result ≤ (grid layout.now).foot + 8 }
    ensures ordered { ((k : ℕ) → state.end ≡ Some k → state.begin ≤ k) → specs.state_top layout.now state ≤ result }
{
    end_foot(layout, state.end)
}

/// The title of a state.
fn title_of(alloc: Global, names: &Names, seen: Seen) -> Result<Vec<u8>, AllocError>
    ensures { IfOk result (λ v. v.items ≡ texts.state_title names.now seen.state.point seen.state.begin seen.state.end (names_specs.state_words seen.look)) }
{
    let state = seen.state;
    let words = state_words(seen.look);
    let mut text = Vec::new(alloc);
    put_state_title(&mut text, names, state.point, state.begin, state.end, words)?;
    Ok(text)
}

/// Writes the box of a state.
fn put_box(
    alloc: Global,
    out: &mut Vec<u8>,
    names: &Names,
    layout: &Layout,
    x: u64,
    seen: Seen,
) -> Result<(), AllocError>
    requires { 386 ≤ x }
    ensures { OnOk result (out.new.items ≡ with_line out.old.items (specs.box_line layout.now names.now x seen)) }
{
    let top = state_top(layout, seen.state);
    let height = state_foot(layout, seen.state).saturating_sub(top);
    let text = title_of(alloc, names, seen)?;
    rect(out, state_class(seen.look), x - 5, top, 10, height)?;
    put_number(out, b"rx", 3)?;
    title(out)?;
    said(out, &text)?;
    title_close(out, b"rect")
}

/// How high the interval and the incarnation of a state stand.
fn point_y(layout: &Layout, state: State, crowded: bool) -> u64
    ensures { result ≡ specs.point_y layout.now state crowded }
{
    let grid = layout.grid();
    let top = state_top(layout, state);
    if crowded {
        top + 2
    } else {
        top + grid.row / 2 - 3
    }
}

/// How far beside the lane they begin.
fn point_off(crossed: bool) -> u64
    ensures off { result ≡ specs.point_off crossed }
    ensures most { result ≤ 45 }
{
    if crossed { 45 } else { 11 }
}

/// Whether there is room for them.
fn has_room(layout: &Layout, state: State, off: u64) -> bool
    requires { off ≤ 45 }
    ensures { result ≡ ((grid layout.now).is_wide && nat_le (specs.point_end state off) 72) }
{
    layout.grid().is_wide && point_end(state, off) <= 72
}

/// Writes the interval and the incarnation of a state, where there is room for them.
fn put_point(
    out: &mut Vec<u8>,
    layout: &Layout,
    x: u64,
    state: State,
    crowded: bool,
    crossed: bool,
) -> Result<(), AllocError>
    requires { x < 2 ^ 50 }
    ensures { OnOk result (out.new.items ≡ with_lines out.old.items (specs.point_lines layout.now x state crowded crossed)) }
{
    let off = point_off(crossed);
    if !has_room(layout, state, off) {
        return Ok(());
    }
    text_at(out, b"pt", x + off, point_y(layout, state, crowded))?;
    number(out, u64::from(state.point.interval))?;
    plain(out, b" ")?;
    number(out, u64::from(state.point.incarnation))?;
    close(out, b"text")
}

/// Where the part begins in which a state is stable, from its Stabilize at a place on.
fn stable_top(layout: &Layout, state: State, place: u32) -> u64
    ensures { result ≡ specs.stable_top layout.now state place }
{
    if place < layout.window().from {
        return state_top(layout, state);
    }
    layout.y(place)
}

/// Writes the part in which a state is stable, where its Stabilize stands before the end of the window.
fn put_stable(out: &mut Vec<u8>, layout: &Layout, x: u64, seen: Seen) -> Result<(), AllocError>
    requires { 386 ≤ x }
    ensures { OnOk result (out.new.items ≡ with_lines out.old.items (specs.stable_from layout.now x seen seen.state.stable)) }
{
    let Some(place) = seen.state.stable else {
        return Ok(());
    };
    if layout.window().to <= place {
        return Ok(());
    }
    let top = stable_top(layout, seen.state, place);
    let height = state_foot(layout, seen.state).saturating_sub(top);
    rect_of(out, state_class(seen.look), b"-s", x - 2, top, 4, height)?;
    end(out)
}

/// Writes the lines of a state in the lane with this middle.
fn put_lines(
    alloc: Global,
    out: &mut Vec<u8>,
    names: &Names,
    layout: &Layout,
    x: u64,
    seen: Seen,
    crowded: bool,
    crossed: bool,
) -> Result<(), AllocError>
    requires left { 386 ≤ x }
    requires right { x < 2 ^ 50 }
    ensures { OnOk result (out.new.items ≡ with_lines out.old.items (specs.state_lines layout.now names.now x seen crowded crossed)) }
{
    put_box(alloc, out, names, layout, x, seen)?;
    put_point(out, layout, x, seen.state, crowded, crossed)?;
    put_stable(out, layout, x, seen)
}

/// Writes a state in the lane with this middle.
fn put_state(
    alloc: Global,
    out: &mut Vec<u8>,
    trace: &Trace,
    layout: &Layout,
    x: u64,
    seen: Seen,
) -> Result<(), AllocError>
    requires plan { IsPlan trace.now.run layout.now.window layout.now }
    requires well_formed { WellFormed trace.now.run }
    requires left { 386 ≤ x }
    requires right { x < 2 ^ 50 }
    ensures { OnOk result (Writes (IsStateAt trace.now.run layout.now x seen) out.old.items out.new.items) }
{
    let names = &trace.opening().names;
    let crowded = is_crowded(trace, layout, seen.state);
    let crossed = is_crossed(trace, layout, seen.state);
    put_lines(alloc, out, names, layout, x, seen, crowded, crossed)?;
    Ok(())
}

/// Writes states in the lane with this middle.
fn put_all(
    alloc: Global,
    out: &mut Vec<u8>,
    trace: &Trace,
    layout: &Layout,
    x: u64,
    all: &[Seen],
) -> Result<(), AllocError>
    requires plan { IsPlan trace.now.run layout.now.window layout.now }
    requires well_formed { WellFormed trace.now.run }
    requires left { 386 ≤ x }
    requires right { x < 2 ^ 50 }
    ensures { OnOk result (Writes (EachItem (IsStateAt trace.now.run layout.now x) all.now) out.old.items out.new.items) }
{
    for seen in all {
        put_state(alloc, out, trace, layout, x, *seen)?;
    }
    Ok(())
}

/// Writes for each lane, by rank, the states that are seen of its transactor, by time: a box, its interval and its incarnation where
/// the lanes are wide, and the part in which it is stable (docs/formats.md, "Pictures"). The error is want of memory.
pub fn put_states(
    alloc: Global,
    out: &mut Vec<u8>,
    trace: &Trace,
    layout: &Layout,
    looks: &Looks,
) -> Result<(), AllocError>
    requires plan { IsPlan trace.now.run layout.now.window layout.now }
    requires well_formed { WellFormed trace.now.run }
    ensures { OnOk result (Writes (AreStateLines trace.now.run layout.now looks.now) out.old.items out.new.items) }
{
    let columns = layout.columns();
    for (rank, column) in columns.iter().enumerate() {
        put_all(alloc, out, trace, layout, column.x, seen_at(looks, rank))?;
    }
    Ok(())
}
