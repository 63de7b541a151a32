//! Pictures of runs.
ghost use Rattle.std.specs.Prelude.{◌≡◌, ◌≤◌, Some, length, IfOk, OnOk};
ghost use Rattle.tau_svg.specs.Markup.Lines.{with_lines};
ghost use Rattle.tau_svg.specs.Shapes.Each.{Writes};
ghost use Rattle.tau_tree.specs.Sound.{Sound};
ghost use Rattle.tau_script.specs.Openings.{program_opening};
ghost use Rattle.tau_svg.specs.Shapes.Windows.{count};
ghost use Rattle.tau_trace.specs.Run.{len};
ghost use Rattle.tau_trace.specs.Known.{WellFormed};
ghost use Rattle.tau_report.specs.Report.{counts_in as counts_of_run};
ghost use Rattle.tau_layout.specs.Plans.{IsPlan};
ghost use Rattle.tau_picture.specs.Pictures.{IsDrawn, begin_lines, said_lines, AreCauseLines};
ghost use Rattle.tau_picture.specs.Inner.Asked.{IsWithin, place_asked, cause_asked};
ghost use Rattle.tau_picture.specs.Inner.Drawing.{top_lines, AreMiddle, AreRest};

use crate::asking::{Asked, asked_of};
use crate::chain::put_chain;
use crate::heading::put_heading;
use crate::said::put_said;
use std::alloc::{AllocError, Global};
use tau_cut::{Cut, greatest};
use tau_drawing::lanes::{put_lanes, put_names, put_nodes};
use tau_drawing::marks::{put_marks, put_rows};
use tau_drawing::messages::put_messages;
use tau_drawing::states::{put_ends, put_states, put_strip};
use tau_explain::chains::Chain;
use tau_layout::paths::put_guides;
use tau_layout::{Layout, layout_of};
use tau_past::Index;
use tau_report::{Counts, counts_in};
use tau_scene::looks::Looks;
use tau_scene::notes::looks_of;
use tau_svg::shapes::{put_begin, put_legend, put_paper, put_style, put_symbols, put_title};
use tau_trace::Trace;
use tau_tree::Program;

/// What `draw` answers: the text of a picture, or that the cause of the step that was asked for may not be asked.
#[derive(Drop)]
pub enum Drawn {
    Picture(Vec<u8>),
    NotAsked,
}

/// Adds the lines that begin a picture.
fn put_begin_lines(out: &mut Vec<u8>, trace: &Trace, layout: &Layout) -> Result<(), AllocError>
    ensures lines { OnOk result (out.new.items ≡ with_lines out.old.items (begin_lines trace.now.run layout.now)) }
    ensures well_formed { OnOk result (WellFormed trace.now.run) }
{
    let grid = layout.grid();
    put_begin(out, grid.width, grid.height)?;
    put_title(out, trace.len())?;
    put_style(out)?;
    put_symbols(out)?;
    put_paper(out, grid.width, grid.height)?;
    Ok(())
}

/// Adds what is said of the step that was asked for, if one was.
fn put_asked(
    alloc: Global,
    out: &mut Vec<u8>,
    trace: &Trace,
    asked: &Asked,
) -> Result<(), AllocError>
    requires { IsWithin trace.now.run asked.now }
    ensures { OnOk result (out.new.items ≡ with_lines out.old.items (said_lines trace.now.run (place_asked asked.now) (cause_asked asked.now))) }
{
    match asked {
        Asked::Step { place, cause } => put_said(alloc, out, trace, *place, cause),
        Asked::Nothing => Ok(()),
    }
}

/// Adds the lines of the chain of the step at a place, if it has one.
fn put_cause(
    out: &mut Vec<u8>,
    trace: &Trace,
    layout: &Layout,
    looks: &Looks,
    place: u32,
    cause: &Option<Chain>,
) -> Result<(), AllocError>
    requires well_formed { WellFormed trace.now.run }
    requires plan { IsPlan trace.now.run layout.now.window layout.now }
    ensures { OnOk result (Writes (AreCauseLines trace.now.run layout.now looks.now (Some place) cause.now) out.old.items out.new.items) }
{
    match cause {
        Some(chain) => put_chain(out, trace, layout, looks, place, chain),
        None => Ok(()),
    }
}

/// Adds the lines of the chain of the step that was asked for, if it has one.
fn put_asked_chain(
    out: &mut Vec<u8>,
    trace: &Trace,
    layout: &Layout,
    looks: &Looks,
    asked: &Asked,
) -> Result<(), AllocError>
    requires well_formed { WellFormed trace.now.run }
    requires plan { IsPlan trace.now.run layout.now.window layout.now }
    ensures { OnOk result (Writes (AreCauseLines trace.now.run layout.now looks.now (place_asked asked.now) (cause_asked asked.now)) out.old.items out.new.items) }
{
    match asked {
        Asked::Step { place, cause } => put_cause(out, trace, layout, looks, *place, cause),
        Asked::Nothing => Ok(()),
    }
}

/// Adds the lines above the rows: what begins the picture, the heading, and what is said of the step that was asked for.
fn put_top(
    alloc: Global,
    out: &mut Vec<u8>,
    trace: &Trace,
    counts: Counts,
    layout: &Layout,
    cut: &Cut,
    asked: &Asked,
) -> Result<(), AllocError>
    requires counts { counts ≡ counts_of_run trace.now.run }
    requires asked { IsWithin trace.now.run asked.now }
    ensures lines { OnOk result (out.new.items ≡ with_lines out.old.items (top_lines trace.now.run layout.now cut.now asked.now)) }
    ensures well_formed { OnOk result (WellFormed trace.now.run) }
{
    put_begin_lines(out, trace, layout)?;
    put_heading(out, trace, layout.window(), cut, counts)?;
    put_asked(alloc, out, trace, asked)?;
    Ok(())
}

/// Adds the strip, the lanes, the states, the messages, the marks, and the names of lanes between the rows.
fn put_middle(
    alloc: Global,
    out: &mut Vec<u8>,
    program: &Program,
    trace: &Trace,
    index: &Index,
    layout: &Layout,
    looks: &Looks,
) -> Result<(), AllocError>
    requires opening { trace.now.run.opening ≡ program_opening program.now }
    requires index { index.now ≡ trace.now.run }
    requires well_formed { WellFormed trace.now.run }
    requires plan { IsPlan trace.now.run layout.now.window layout.now }
    requires window { layout.now.window.to ≤ len trace.now.run }
    requires looks { length looks.now.steps.items ≡ count layout.now.window }
    ensures { OnOk result (Writes (AreMiddle program.now trace.now.run layout.now looks.now) out.old.items out.new.items) }
{
    put_strip(alloc, out, trace, layout, looks)?;
    put_nodes(out, trace, layout)?;
    put_lanes(alloc, out, trace, index, layout)?;
    put_guides(out, trace, layout)?;
    put_states(alloc, out, trace, layout, looks)?;
    put_messages(alloc, out, program, trace, layout)?;
    put_marks(alloc, out, trace, layout, looks)?;
    put_names(alloc, out, trace, layout)?;
    Ok(())
}

/// Adds the chain of the step that was asked for, the rows, what may be kept, and the legend.
fn put_rest(
    alloc: Global,
    out: &mut Vec<u8>,
    trace: &Trace,
    layout: &Layout,
    looks: &Looks,
    asked: &Asked,
) -> Result<(), AllocError>
    requires well_formed { WellFormed trace.now.run }
    requires plan { IsPlan trace.now.run layout.now.window layout.now }
    requires window { layout.now.window.to ≤ len trace.now.run }
    requires looks { length looks.now.steps.items ≡ count layout.now.window }
    ensures { OnOk result (Writes (AreRest trace.now.run layout.now looks.now asked.now) out.old.items out.new.items) }
{
    put_asked_chain(out, trace, layout, looks, asked)?;
    put_rows(alloc, out, trace, layout, looks)?;
    put_ends(alloc, out, trace, layout, looks)?;
    put_legend(out, layout.grid().key)?;
    Ok(())
}

/// The picture of a run of a program, for the places from one up to another, which isn't drawn itself (docs/formats.md, "Pictures"). Where
/// a place is asked for, the picture tells the cause of the step there; `NotAsked` exactly where that is neither a Hold, a Drop or
/// a Fall nor a Checkpoint that can't be kept. At most 2,000 steps are drawn. The error is want of memory.
pub fn draw(
    alloc: Global,
    program: &Program,
    trace: &Trace,
    from: u32,
    to: u32,
    ask: Option<u64>,
) -> Result<Drawn, AllocError>
    requires opening { trace.now.run.opening ≡ program_opening program.now }
    requires sound { Sound program.now }
    ensures { IfOk result (IsDrawn program.now trace.now.run from to ask) }
{
    let cut = greatest(alloc, trace)?;
    let Some(asked) = asked_of(alloc, trace, &cut, ask)? else {
        return Ok(Drawn::NotAsked);
    };
    let index = Index::of(alloc, trace)?;
    let layout = layout_of(alloc, trace, from, to)?;
    let looks = looks_of(alloc, program, trace, &index, &layout, &cut)?;
    let counts = counts_in(alloc, program, trace)?;
    let mut out = Vec::new(alloc);
    put_top(alloc, &mut out, trace, counts, &layout, &cut, &asked)?;
    put_middle(alloc, &mut out, program, trace, &index, &layout, &looks)?;
    put_rest(alloc, &mut out, trace, &layout, &looks, &asked)?;
    Ok(Drawn::Picture(out))
}
