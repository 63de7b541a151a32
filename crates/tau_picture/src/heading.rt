//! The heading of a picture.
ghost use Rattle.std.specs.Prelude.{◌≡◌, ◌≤◌, ◌<◌, length, OnOk};
ghost use Rattle.tau_svg.specs.Markup.Lines.{with_pieces, with_line, with_lines};
ghost use Rattle.tau_svg.specs.Shapes.Shapes as shapes;
ghost use Rattle.tau_report.specs.Report.{counts_in};
ghost use Rattle.tau_cut.specs.Cuts.{places_in};
ghost use Rattle.tau_picture.specs.Headings as headings;
ghost use Rattle.tau_picture.specs.Headings.{heading_lines, size_line};
ghost use Rattle.tau_picture.specs.Inner.Counting.{one_in, counts_text};

use std::alloc::AllocError;
use tau_cut::{Cut, Marked};
use tau_report::Counts;
use tau_svg::markup::{close, number, plain};
use tau_svg::shapes::{Window, text_at};
use tau_trace::Trace;

/// Whether all places of a run with so many steps are drawn.
fn is_whole(steps: u32, window: Window) -> bool
    ensures { result ≡ headings.is_whole steps window }
{
    window.from == 0 && window.to == steps
}

/// Adds the first and the last place that are drawn.
fn put_span(out: &mut Vec<u8>, window: Window) -> Result<(), AllocError>
    requires { window.from < window.to }
    ensures { OnOk result (out.new.items ≡ with_pieces out.old.items (headings.span_pieces window)) }
{
    plain(out, b", drawn from ")?;
    number(out, u64::from(window.from))?;
    plain(out, b" to ")?;
    number(out, u64::from(window.to - 1))
}

/// Adds which places are drawn.
fn put_part(out: &mut Vec<u8>, window: Window) -> Result<(), AllocError>
    ensures { OnOk result (out.new.items ≡ with_pieces out.old.items (headings.part_pieces window)) }
{
    if window.from < window.to {
        return put_span(out, window);
    }
    plain(out, b", none drawn")
}

/// Adds which places are drawn, if not all are.
fn put_drawn(out: &mut Vec<u8>, steps: u32, window: Window) -> Result<(), AllocError>
    ensures { OnOk result (out.new.items ≡ with_pieces out.old.items (headings.drawn_pieces steps window)) }
{
    if is_whole(steps, window) {
        return Ok(());
    }
    put_part(out, window)
}

/// Adds how many steps, transactors and nodes a run has.
fn put_sizes(out: &mut Vec<u8>, steps: u32, transactors: u32, nodes: u32) -> Result<(), AllocError>
    ensures { OnOk result (out.new.items ≡ with_pieces out.old.items (headings.size_pieces steps transactors nodes)) }
{
    plain(out, b"Steps ")?;
    number(out, u64::from(steps))?;
    plain(out, b", transactors ")?;
    number(out, u64::from(transactors))?;
    plain(out, b", nodes ")?;
    number(out, u64::from(nodes))
}

/// Adds the line of the sizes of a run.
fn put_size_line(out: &mut Vec<u8>, trace: &Trace, window: Window) -> Result<(), AllocError>
    ensures { OnOk result (out.new.items ≡ with_line out.old.items (size_line trace.now.run window)) }
{
    text_at(out, b"h", 16, 30)?;
    put_sizes(out, trace.len(), trace.born(), trace.opening().nodes)?;
    put_drawn(out, trace.len(), window)?;
    close(out, b"text")
}

/// 1 where a mark is In, and else 0.
fn one_in(marked: &Marked) -> usize
    ensures count { result ≡ one_in marked.now }
    ensures most { result ≤ 1 }
{
    match marked {
        Marked::In { .. } => 1,
        Marked::Out { .. } => 0,
    }
}

/// How many marks are In.
fn kept_in(cut: &Cut) -> usize
    ensures { result ≡ length (places_in cut.now) }
{
    let mut kept = 0;
    for marked in cut.items() {
        kept += one_in(marked);
    }
    kept
}

/// Adds that notes tell no causes, where a run has more than 4,000 steps.
fn put_left_out(out: &mut Vec<u8>, steps: u32) -> Result<(), AllocError>
    ensures { OnOk result (out.new.items ≡ with_pieces out.old.items (headings.left_out_pieces steps)) }
{
    if 4000 < steps {
        return plain(out, b", notes without causes");
    }
    Ok(())
}

/// Adds the counts of a run.
fn put_numbers(out: &mut Vec<u8>, counts: Counts, kept: usize) -> Result<(), AllocError>
    ensures { OnOk result (out.new.items ≡ with_pieces out.old.items (headings.counts_pieces counts.checkpoints kept counts.holds counts.drops counts.falls counts.losses)) }
{
    plain(out, b"checkpoints ")?;
    number(out, u64::from(counts.checkpoints))?;
    plain(out, b", may be kept ")?;
    number(out, kept as u64)?;
    plain(out, b", holds ")?;
    number(out, u64::from(counts.holds))?;
    plain(out, b", drops ")?;
    number(out, u64::from(counts.drops))?;
    plain(out, b", falls ")?;
    number(out, u64::from(counts.falls))?;
    plain(out, b", losses ")?;
    number(out, u64::from(counts.losses))
}

/// Adds the line of the counts.
fn put_counts(out: &mut Vec<u8>, counts: Counts, kept: usize, steps: u32) -> Result<(), AllocError>
    ensures { OnOk result (out.new.items ≡ with_line out.old.items (counts_text counts kept steps)) }
{
    text_at(out, b"row", 16, 50)?;
    put_numbers(out, counts, kept)?;
    put_left_out(out, steps)?;
    close(out, b"text")
}

/// Adds the heading of a picture: the sizes of the run, the places that are drawn, and the counts (docs/formats.md, "Pictures").
/// The error is want of memory.
pub(crate) fn put_heading(
    out: &mut Vec<u8>,
    trace: &Trace,
    window: Window,
    cut: &Cut,
    counts: Counts,
) -> Result<(), AllocError>
    requires { counts ≡ counts_in trace.now.run }
    ensures { OnOk result (out.new.items ≡ with_lines out.old.items (heading_lines trace.now.run window cut.now)) }
{
    put_size_line(out, trace, window)?;
    put_counts(out, counts, kept_in(cut), trace.len())
}
