//! What may be kept of transactors if all else is lost.
ghost use Rattle.std.specs.Prelude.{◌≡◌, ◌<◌, Option, Some, None, IfOk, length, slice_get, option_copied};
ghost use Rattle.tau_trace.specs.Run.{len};
ghost use Rattle.tau_trace.specs.Known.{WellFormed};
ghost use Rattle.tau_tree.specs.declared.starts.Start.{Start};
ghost use Rattle.tau_layout.specs.Plans.{IsPlan};
ghost use Rattle.tau_layout.specs.Inner.Laying.{lanes_of};
ghost use Rattle.tau_cut.specs.Cuts.{IsCut};
ghost use Rattle.tau_scene.specs.Notes.Looks.{AreEndings};
ghost use Rattle.tau_scene.specs.Notes.Inner.Keeping.{IsEndingOf, AreEndingsOf};

use crate::looks::{EndLook, Ending};
use crate::notes::keeping::{Kept, kept_of_lanes};
use crate::words::{put_kept, put_nothing, put_opened};
use std::alloc::{AllocError, Global};
use tau_cut::{Cut, kept_places};
use tau_layout::{Column, Layout};
use tau_trace::Trace;
use tau_tree::{Program, Start, Starts};
use tau_value::Names;

/// What a Checkpoint saved may be kept.
fn kept_ending(alloc: Global, names: &Names, kept: &Kept) -> Result<Ending, AllocError>
    ensures { IfOk result (λ e. (start : Option Start) → IsEndingOf names.now (Some kept.now) start e) }
{
    let mut text = Vec::new(alloc);
    put_kept(alloc, &mut text, names, &kept.value, kept.place)?;
    Ok(Ending {
        look: EndLook::Kept,
        text,
    })
}

/// The opening state of a start may be kept, and nothing of another transactor.
fn first_ending(alloc: Global, names: &Names, start: Option<&Start>) -> Result<Ending, AllocError>
    ensures { IfOk result (IsEndingOf names.now None (option_copied start.entry)) }
{
    let mut text = Vec::new(alloc);
    match start {
        Some(start) => {
            put_opened(alloc, &mut text, names, &start.state)?;
            Ok(Ending {
                look: EndLook::First,
                text,
            })
        }
        None => {
            put_nothing(&mut text)?;
            Ok(Ending {
                look: EndLook::None,
                text,
            })
        }
    }
}

/// What may be kept of a transactor.
fn ending(
    alloc: Global,
    names: &Names,
    starts: &Starts,
    who: u32,
    kept: &Option<Kept>,
) -> Result<Ending, AllocError>
    ensures { IfOk result (IsEndingOf names.now kept.now (slice_get starts.now who)) }
{
    match kept {
        Some(kept) => kept_ending(alloc, names, kept),
        None => first_ending(alloc, names, starts.item(who as usize)),
    }
}

/// What may be kept of the transactors of columns.
fn endings_of(
    alloc: Global,
    names: &Names,
    starts: &Starts,
    columns: &[Column],
    kept: &[Option<Kept>],
) -> Result<Vec<Ending>, AllocError>
    requires { length kept.now ≡ length columns.now }
    ensures { IfOk result (λ v. AreEndingsOf names.now starts.now (lanes_of columns.now) kept.now (length columns.now) v.items) }
{
    let mut endings = Vec::with_capacity(alloc, columns.len())?;
    for (rank, column) in columns.iter().enumerate() {
        endings.push(ending(alloc, names, starts, column.who, &kept[rank])?)?;
    }
    Ok(endings)
}

/// For each lane, by rank, what may be kept of its transactor with the Checkpoints that a cut holds.
pub(crate) fn endings_in(
    alloc: Global,
    program: &Program,
    trace: &Trace,
    layout: &Layout,
    cut: &Cut,
) -> Result<Vec<Ending>, AllocError>
    requires well_formed { WellFormed trace.now.run }
    requires starts { length trace.now.run.opening.names ≡ length program.now.starts }
    requires plan { IsPlan trace.now.run layout.now.window layout.now }
    requires cut { IsCut trace.now.run cut.now }
    ensures { IfOk result (λ v. AreEndings program.now trace.now.run layout.now.lanes cut.now v.items) }
{
    let marks = kept_places(alloc, trace, cut)?;
    let kept = kept_of_lanes(alloc, &program.starts, trace, layout, &marks)?;
    endings_of(
        alloc,
        &trace.opening().names,
        &program.starts,
        layout.columns(),
        &kept,
    )
}
