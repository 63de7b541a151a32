//! Marks.
ghost use Rattle.std.specs.Prelude.{◌≡◌, ◌<◌, ◌≤◌, ◌++◌, length, IfOk, OnOk};
ghost use Rattle.tau_svg.specs.Markup.Texts as texts;
ghost use Rattle.tau_scene.specs.Words.Texts.{step_text};
ghost use Rattle.tau_svg.specs.Markup.Lines.{with_line, with_attributes};
ghost use Rattle.tau_svg.specs.Shapes.Each.{Writes};
ghost use Rattle.tau_svg.specs.Shapes.Windows.{count, IsDrawn};
ghost use Rattle.tau_trace.specs.Run.{len};
ghost use Rattle.tau_layout.specs.Plans.{IsPlan};
ghost use Rattle.tau_drawing.specs.Marks.Marks as specs;
ghost use Rattle.tau_drawing.specs.Marks.Marks.{IsMark, AreMarks};

use crate::marks::looks::look_at;
use std::alloc::{AllocError, Global};
use tau_layout::Layout;
use tau_layout::paths::{Spot, spot_at};
use tau_scene::looks::{Looks, MarkLook, StepLook};
use tau_scene::words::put_step;
use tau_svg::markup::{begin, cut, number, plain, put_word, said, title, title_close};
use tau_svg::shapes::symbol_at;
use tau_trace::Trace;

/// The symbol of a mark.
fn symbol_word(mark: MarkLook) -> &'static [u8]
    ensures { result.now ≡ specs.symbol_word mark }
{
    match mark {
        MarkLook::Take => b"take",
        MarkLook::Drop => b"drop",
        MarkLook::Void => b"void",
        MarkLook::Fall => b"fall",
        MarkLook::Get => b"get",
        MarkLook::Ask => b"ask",
        MarkLook::Set => b"set",
        MarkLook::Skip => b"skip",
        MarkLook::Stay => b"stay",
        MarkLook::Send => b"send",
        MarkLook::New => b"new",
        MarkLook::Stabilize => b"stabilize",
        MarkLook::Done => b"done",
        MarkLook::Hold => b"hold",
        MarkLook::Rollback => b"rollback",
        MarkLook::Trap => b"trap",
        MarkLook::TrapStable => b"trap-stable",
        MarkLook::Fail => b"fail",
        MarkLook::FailStable => b"fail-stable",
        MarkLook::Lose => b"lose",
        MarkLook::Kept => b"kept",
        MarkLook::Unkept => b"unkept",
        MarkLook::Broken => b"broken",
    }
}

/// The class of an undone step.
fn put_undone(out: &mut Vec<u8>, undone: bool) -> Result<(), AllocError>
    ensures { OnOk result (out.new.items ≡ with_attributes out.old.items (specs.undone_class undone)) }
{
    if undone {
        put_word(out, b"class", b"undone")?;
    }
    Ok(())
}

/// The step at a place and its note, of which at most 400 bytes stand.
fn step_said(
    alloc: Global,
    trace: &Trace,
    place: u32,
    look: &StepLook,
) -> Result<Vec<u8>, AllocError>
    requires { place < len trace.now.run }
    ensures { IfOk result (λ v. v.items ≡ texts.cut (step_text trace.now.run place ++ look.now.note.items) 400) }
{
    let mut text = Vec::new(alloc);
    put_step(alloc, &mut text, trace, place)?;
    text.extend_from_slice(&look.note)?;
    cut(&mut text, 400)?;
    Ok(text)
}

/// A mark at a spot.
fn put_line(
    alloc: Global,
    out: &mut Vec<u8>,
    trace: &Trace,
    place: u32,
    look: &StepLook,
    at: Spot,
) -> Result<(), AllocError>
    requires { place < len trace.now.run }
    ensures { OnOk result (out.new.items ≡ with_line out.old.items (specs.mark_line trace.now.run place look.now at)) }
{
    begin(out, b"use")?;
    put_undone(out, look.undone)?;
    symbol_at(out, b"#tau-", symbol_word(look.mark), at.x, at.y)?;
    title(out)?;
    number(out, u64::from(place))?;
    plain(out, b" ")?;
    said(out, &step_said(alloc, trace, place, look)?)?;
    title_close(out, b"use")
}

/// The mark of the step at a place.
fn put_mark(
    alloc: Global,
    out: &mut Vec<u8>,
    trace: &Trace,
    layout: &Layout,
    looks: &[StepLook],
    place: u32,
) -> Result<(), AllocError>
    requires plan { IsPlan trace.now.run layout.now.window layout.now }
    requires looks { length looks.now ≡ count layout.now.window }
    requires drawn { IsDrawn layout.now.window place }
    requires place { place < len trace.now.run }
    ensures { OnOk result (Writes (IsMark trace.now.run layout.now looks.now place) out.old.items out.new.items) }
{
    let Some(look) = look_at(looks, layout.window(), place) else {
        unreachable!()
    };
    let at = spot_at(trace, layout, place);
    put_line(alloc, out, trace, place, look, at)?;
    Ok(())
}

/// The marks, one for each step that is drawn, with their looks by place (docs/formats.md, "Pictures"). The error is want of memory.
pub fn put_marks(
    alloc: Global,
    out: &mut Vec<u8>,
    trace: &Trace,
    layout: &Layout,
    looks: &Looks,
) -> Result<(), AllocError>
    requires plan { IsPlan trace.now.run layout.now.window layout.now }
    requires window { layout.now.window.to ≤ len trace.now.run }
    requires looks { length looks.now.steps.items ≡ count layout.now.window }
    ensures { OnOk result (Writes (AreMarks trace.now.run layout.now looks.now.steps.items) out.old.items out.new.items) }
{
    let window = layout.window();
    for place in window.from..window.to {
        put_mark(alloc, out, trace, layout, &looks.steps, place)?;
    }
    Ok(())
}
