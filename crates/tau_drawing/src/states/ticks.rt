//! The ticks of the strip.
ghost use Rattle.std.specs.Prelude.{◌≡◌, ◌<◌, ◌≤◌, OnOk, IfOk, length};
ghost use Rattle.std.specs.Option.{option_map};
ghost use Rattle.tau_svg.specs.Markup.Lines.{with_line, with_lines};
ghost use Rattle.tau_trace.specs.Run.{len};
ghost use Rattle.tau_svg.specs.Shapes.Each.{EachPlace, Writes};
ghost use Rattle.tau_scene.specs.Words.Texts.{step_text};
ghost use Rattle.tau_drawing.specs.States.StripLines as specs;
ghost use Rattle.tau_drawing.specs.States.StripLines.{IsRankAt, IsTick};

use crate::states::kinds::tick_class;
use std::alloc::{AllocError, Global};
use tau_layout::{Layout, lane_at};
use tau_scene::looks::Looks;
use tau_scene::words::put_step;
use tau_svg::markup::{cut, number, plain, said, title, title_close};
use tau_svg::shapes::rect;
use tau_trace::Trace;

/// How many lanes stand before the one in which the step at a place stands; `None` where it stands in none.
fn rank_at(trace: &Trace, layout: &Layout, place: u32) -> Option<usize>
    ensures { IsRankAt trace.now.run layout.now place result }
{
    match lane_at(trace, place) {
        Some(who) => layout.rank(who),
        None => None,
    }
}

/// The class of the tick of a drawn step; `None` where it has none.
fn class_at(layout: &Layout, looks: &Looks, place: u32) -> Option<&'static [u8]>
    requires { layout.now.window.from ≤ place }
    ensures { option_map (λ s. s.now) result ≡ specs.class_at layout.now looks.now place }
{
    match looks.steps.get((place - layout.window().from) as usize) {
        Some(look) => tick_class(look.mark),
        None => None,
    }
}

/// The printed form of the step at a place, cut.
fn step_cut(alloc: Global, trace: &Trace, place: u32) -> Result<Vec<u8>, AllocError>
    requires { place < len trace.now.run }
    ensures { IfOk result (λ v. v.items ≡ specs.cut_step trace.now.run place) }
{
    let mut text = Vec::new(alloc);
    put_step(alloc, &mut text, trace, place)?;
    cut(&mut text, 400)?;
    Ok(text)
}

/// Writes a tick with its step.
fn put_tick_line(
    alloc: Global,
    out: &mut Vec<u8>,
    trace: &Trace,
    layout: &Layout,
    place: u32,
    rank: usize,
    class: &[u8],
) -> Result<(), AllocError>
    requires place { place < len trace.now.run }
    requires window { layout.now.window.from < layout.now.window.to }
    requires rank { rank ≤ 64 }
    ensures { OnOk result (out.new.items ≡ with_line out.old.items (specs.tick_line trace.now.run layout.now place rank class.now)) }
{
    let text = step_cut(alloc, trace, place)?;
    let y = 79 + 8 * rank as u64;
    rect(out, class, layout.strip(place), y, 3, 7)?;
    title(out)?;
    number(out, u64::from(place))?;
    plain(out, b" ")?;
    said(out, &text)?;
    title_close(out, b"rect")
}

/// Writes the tick of a drawn step, if it has one.
fn put_tick(
    alloc: Global,
    out: &mut Vec<u8>,
    trace: &Trace,
    layout: &Layout,
    looks: &Looks,
    place: u32,
) -> Result<(), AllocError>
    requires from { layout.now.window.from ≤ place }
    requires to { place < layout.now.window.to }
    requires few { length layout.now.lanes ≤ 64 }
    ensures { OnOk result (Writes (IsTick trace.now.run layout.now looks.now place) out.old.items out.new.items) }
{
    let Some(rank) = rank_at(trace, layout, place) else {
        return Ok(());
    };
    let Some(class) = class_at(layout, looks, place) else {
        return Ok(());
    };
    put_tick_line(alloc, out, trace, layout, place, rank, class)?;
    Ok(())
}

/// Writes the tick of each drawn step, by place.
pub(crate) fn put_ticks(
    alloc: Global,
    out: &mut Vec<u8>,
    trace: &Trace,
    layout: &Layout,
    looks: &Looks,
) -> Result<(), AllocError>
    requires { length layout.now.lanes ≤ 64 }
    ensures { OnOk result (Writes (EachPlace (IsTick trace.now.run layout.now looks.now) layout.now.window.from layout.now.window.to) out.old.items out.new.items) }
{
    let window = layout.window();
    for place in window.from..window.to {
        put_tick(alloc, out, trace, layout, looks, place)?;
    }
    Ok(())
}
