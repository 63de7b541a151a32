//! The strip: the whole window in a small picture.
ghost use Rattle.std.specs.Prelude.{◌≡◌, ◌<◌, ◌≤◌, OnOk, IfOk, length};
ghost use Rattle.std.specs.List.{flat_map};
ghost use Rattle.tau_svg.specs.Markup.Texts as cuts;
ghost use Rattle.tau_svg.specs.Markup.Lines.{with_line, with_lines};
ghost use Rattle.tau_svg.specs.Shapes.Each.{EachPlace, Writes};
ghost use Rattle.tau_scene.specs.Words.Texts.{who_text};
ghost use Rattle.tau_drawing.specs.States.StripLines as specs;
ghost use Rattle.tau_drawing.specs.States.StripLines.{IsStrip, IsStripLane, AreStripLines};

use crate::states::kinds::{seen_at, state_class};
use crate::states::ticks::put_ticks;
use std::alloc::{AllocError, Global};
use tau_layout::Layout;
use tau_scene::looks::{Looks, Seen};
use tau_scene::words::put_who;
use tau_svg::markup::{close, cut_inside, end, number, said};
use tau_svg::shapes::{rect, rect_of, rounded, text_at};
use tau_trace::Trace;
use tau_value::Names;

/// Writes the frame of the strip.
fn put_frame(out: &mut Vec<u8>, layout: &Layout) -> Result<(), AllocError>
    requires { length layout.now.lanes ≤ 64 }
    ensures { OnOk result (out.new.items ≡ with_line out.old.items (specs.frame_line layout.now)) }
{
    let width = layout.grid().width - 74;
    let height = 8 * layout.columns().len() as u64 + 5;
    rect(out, b"node", 52, 76, width, height)?;
    rounded(out, 2)
}

/// The name of a transactor, cut in the middle where it is longer.
fn label_of(alloc: Global, names: &Names, who: u32) -> Result<Vec<u8>, AllocError>
    ensures { IfOk result (λ v. v.items ≡ cuts.cut_inside (who_text names.now who) 9) }
{
    let mut name = Vec::new(alloc);
    put_who(&mut name, names, who)?;
    cut_inside(alloc, &name, 9)
}

/// Writes the name of a lane beside the strip.
fn put_label(
    alloc: Global,
    out: &mut Vec<u8>,
    names: &Names,
    rank: usize,
    who: u32,
) -> Result<(), AllocError>
    requires { rank ≤ 64 }
    ensures { OnOk result (out.new.items ≡ with_line out.old.items (specs.label_line rank (who_text names.now who))) }
{
    let label = label_of(alloc, names, who)?;
    text_at(out, b"tiny", 48, 85 + 8 * rank as u64)?;
    said(out, &label)?;
    close(out, b"text")
}

/// Where a state ends in the strip.
fn strip_end(layout: &Layout, end: Option<u32>) -> u64
    requires window { layout.now.window.from < layout.now.window.to }
    ensures { result ≡ specs.strip_end layout.now end }
{
    let window = layout.window();
    match end {
        Some(place) if place < window.to => layout.strip(place + 1),
        _ => layout.strip(window.to),
    }
}

/// Writes a state in the strip.
fn put_span(out: &mut Vec<u8>, layout: &Layout, rank: usize, seen: Seen) -> Result<(), AllocError>
    requires window { layout.now.window.from < layout.now.window.to }
    requires rank { rank ≤ 64 }
    ensures { OnOk result (out.new.items ≡ with_line out.old.items (specs.span_line layout.now rank seen)) }
{
    let begin = layout.strip(seen.state.begin);
    let width = strip_end(layout, seen.state.end).saturating_sub(begin);
    rect_of(
        out,
        state_class(seen.look),
        b" flat",
        begin,
        80 + 8 * rank as u64,
        width,
        5,
    )?;
    end(out)
}

/// Writes the part in which a state is stable in the strip, where its Stabilize stands before the end of the window.
fn put_stable(out: &mut Vec<u8>, layout: &Layout, rank: usize, seen: Seen) -> Result<(), AllocError>
    requires window { layout.now.window.from < layout.now.window.to }
    requires rank { rank ≤ 64 }
    ensures { OnOk result (out.new.items ≡ with_lines out.old.items (specs.stable_span layout.now rank seen seen.state.stable)) }
{
    let Some(place) = seen.state.stable else {
        return Ok(());
    };
    if layout.window().to <= place {
        return Ok(());
    }
    let begin = layout.strip(place);
    let width = strip_end(layout, seen.state.end).saturating_sub(begin);
    rect_of(
        out,
        state_class(seen.look),
        b"-s",
        begin,
        81 + 8 * rank as u64,
        width,
        3,
    )?;
    end(out)
}

/// Writes a state in the strip, and the part in which it is stable.
fn put_seen(out: &mut Vec<u8>, layout: &Layout, rank: usize, seen: Seen) -> Result<(), AllocError>
    requires window { layout.now.window.from < layout.now.window.to }
    requires rank { rank ≤ 64 }
    ensures { OnOk result (out.new.items ≡ with_lines out.old.items (specs.span_lines layout.now rank seen)) }
{
    put_span(out, layout, rank, seen)?;
    put_stable(out, layout, rank, seen)
}

/// Writes states in the strip.
fn put_spans(
    out: &mut Vec<u8>,
    layout: &Layout,
    rank: usize,
    all: &[Seen],
) -> Result<(), AllocError>
    requires window { layout.now.window.from < layout.now.window.to }
    requires rank { rank ≤ 64 }
    ensures { OnOk result (out.new.items ≡ with_lines out.old.items (flat_map (specs.span_lines layout.now rank) all.now)) }
{
    for seen in all {
        put_seen(out, layout, rank, *seen)?;
    }
    Ok(())
}

/// Writes the name and the states of each lane.
fn put_lanes(
    alloc: Global,
    out: &mut Vec<u8>,
    names: &Names,
    layout: &Layout,
    looks: &Looks,
) -> Result<(), AllocError>
    requires window { layout.now.window.from < layout.now.window.to }
    requires few { length layout.now.lanes ≤ 64 }
    ensures { OnOk result (Writes (EachPlace (IsStripLane names.now layout.now looks.now) 0 (length layout.now.lanes)) out.old.items out.new.items) }
{
    let columns = layout.columns();
    for (rank, column) in columns.iter().enumerate() {
        put_label(alloc, out, names, rank, column.who)?;
        put_spans(out, layout, rank, seen_at(looks, rank))?;
    }
    Ok(())
}

/// Writes the first and the last place of the window.
fn put_places(out: &mut Vec<u8>, layout: &Layout) -> Result<(), AllocError>
    requires window { layout.now.window.from < layout.now.window.to }
    requires few { length layout.now.lanes ≤ 64 }
    ensures { OnOk result (out.new.items ≡ with_lines out.old.items (specs.place_lines layout.now)) }
{
    let window = layout.window();
    let y = 90 + 8 * layout.columns().len() as u64;
    text_at(out, b"minor", 54, y)?;
    number(out, u64::from(window.from))?;
    close(out, b"text")?;
    text_at(out, b"num", layout.grid().width - 24, y)?;
    number(out, u64::from(window.to - 1))?;
    close(out, b"text")
}

/// Writes the strip.
fn put_whole(
    alloc: Global,
    out: &mut Vec<u8>,
    trace: &Trace,
    layout: &Layout,
    looks: &Looks,
) -> Result<(), AllocError>
    requires window { layout.now.window.from < layout.now.window.to }
    requires few { length layout.now.lanes ≤ 64 }
    ensures { OnOk result (Writes (IsStrip trace.now.run layout.now looks.now) out.old.items out.new.items) }
{
    put_frame(out, layout)?;
    put_lanes(alloc, out, &trace.opening().names, layout, looks)?;
    put_ticks(alloc, out, trace, layout, looks)?;
    put_places(out, layout)?;
    Ok(())
}

/// Writes the strip, which stands above the rows where there are more than 100 rows and at most 64 lanes (docs/formats.md,
/// "Pictures"): its frame, the name and the states of each lane, a tick for each drawn Checkpoint, Hold and falling step, and the
/// first and the last drawn place. The error is want of memory.
pub fn put_strip(
    alloc: Global,
    out: &mut Vec<u8>,
    trace: &Trace,
    layout: &Layout,
    looks: &Looks,
) -> Result<(), AllocError>
    ensures { OnOk result (Writes (AreStripLines trace.now.run layout.now looks.now) out.old.items out.new.items) }
{
    if layout.grid().over == 0 {
        return Ok(());
    }
    put_whole(alloc, out, trace, layout, looks)?;
    Ok(())
}
