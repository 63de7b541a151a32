//! Looks.
ghost use Rattle.std.specs.Prelude.{◌≡◌};
ghost use Rattle.tau_scene.specs.Looks.Kinds as kinds_specs;

use tau_trace::Step;

/// The look of a state (docs/formats.md, "Pictures").
#[derive(Clone, Copy)]
pub enum StateLook {
    Fallen,
    Kept,
    Broken,
    Unkept,
    Doomed,
    Open,
}

/// The look of a step's row (docs/formats.md, "Pictures").
#[derive(Clone, Copy)]
pub enum RowLook {
    Good,
    Warn,
    Bad,
    Gone,
    Minor,
    Row,
}

/// The look of a step's mark, its symbol (docs/formats.md, "Pictures").
#[derive(Clone, Copy)]
pub enum MarkLook {
    Take,
    Drop,
    Void,
    Fall,
    Get,
    Ask,
    Set,
    Skip,
    Stay,
    Send,
    New,
    Stabilize,
    Done,
    Hold,
    Rollback,
    Trap,
    TrapStable,
    Fail,
    FailStable,
    Lose,
    Kept,
    Unkept,
    Broken,
}

impl MarkLook {
    /// The look of the mark of a step (docs/formats.md, "Pictures"), by whether it falls, and for a Checkpoint by that of its state.
    pub fn of(step: &Step, falls: bool, saved: MarkLook) -> MarkLook
        ensures { result ≡ kinds_specs.mark_look step.now falls saved }
    {
        match step {
            Step::Take { .. } | Step::Heed { .. } => MarkLook::Take,
            Step::Drop { .. } => MarkLook::Drop,
            Step::Void { .. } | Step::Echo { .. } => MarkLook::Void,
            Step::Fall { .. } => MarkLook::Fall,
            Step::Get { .. } => MarkLook::Get,
            Step::Ask { .. } => MarkLook::Ask,
            Step::Set { .. } => MarkLook::Set,
            Step::Skip { .. } => MarkLook::Skip,
            Step::Stay { .. } => MarkLook::Stay,
            Step::Send { .. } | Step::Repeat { .. } => MarkLook::Send,
            Step::New { .. } => MarkLook::New,
            Step::Stabilize { .. } => MarkLook::Stabilize,
            Step::Done { .. } => MarkLook::Done,
            Step::Hold { .. } => MarkLook::Hold,
            Step::Rollback { .. } => MarkLook::Rollback,
            Step::Trap { .. } => trap_mark(falls),
            Step::Fail { .. } => fail_mark(falls),
            Step::Lose { .. } => MarkLook::Lose,
            Step::Checkpoint { .. } => saved,
        }
    }
}

/// The look of the mark of a Trap.
fn trap_mark(falls: bool) -> MarkLook
    ensures { result ≡ kinds_specs.trap_mark falls }
{
    if falls {
        MarkLook::Trap
    } else {
        MarkLook::TrapStable
    }
}

/// The look of the mark of a Fail.
fn fail_mark(falls: bool) -> MarkLook
    ensures { result ≡ kinds_specs.fail_mark falls }
{
    if falls {
        MarkLook::Fail
    } else {
        MarkLook::FailStable
    }
}

impl RowLook {
    /// The look of the row of a step (docs/formats.md, "Pictures"), by its mark, whether it falls, and whether it is undone.
    pub fn of(step: &Step, mark: MarkLook, falls: bool, undone: bool) -> RowLook
        ensures { result ≡ kinds_specs.row_look step.now mark falls undone }
    {
        match step {
            Step::Checkpoint { .. } => saved_row(mark),
            Step::Hold { .. } => RowLook::Warn,
            Step::Drop { .. }
            | Step::Void { .. }
            | Step::Lose { .. }
            | Step::Fall { .. }
            | Step::Rollback { .. } => RowLook::Bad,
            Step::Trap { .. } | Step::Fail { .. } => failing_row(falls),
            Step::Set { .. } => set_row(undone),
            Step::Take { .. } | Step::Send { .. } | Step::New { .. } | Step::Stabilize { .. } =>
                plain_row(undone),
            Step::Done { .. }
            | Step::Get { .. }
            | Step::Ask { .. }
            | Step::Skip { .. }
            | Step::Stay { .. }
            | Step::Echo { .. }
            | Step::Heed { .. }
            | Step::Repeat { .. } => RowLook::Minor,
        }
    }
}

/// The look of the row of a Checkpoint.
fn saved_row(mark: MarkLook) -> RowLook
    ensures { result ≡ kinds_specs.saved_row mark }
{
    match mark {
        MarkLook::Kept => RowLook::Good,
        MarkLook::Unkept => RowLook::Warn,
        _ => RowLook::Bad,
    }
}

/// The look of the row of a Trap or a Fail.
fn failing_row(falls: bool) -> RowLook
    ensures { result ≡ kinds_specs.failing_row falls }
{
    if falls { RowLook::Bad } else { RowLook::Minor }
}

/// The look of the row of a Set.
fn set_row(undone: bool) -> RowLook
    ensures { result ≡ kinds_specs.set_row undone }
{
    if undone { RowLook::Gone } else { RowLook::Row }
}

/// The look of the row of a Take, a Send, a New or a Stabilize.
fn plain_row(undone: bool) -> RowLook
    ensures { result ≡ kinds_specs.plain_row undone }
{
    if undone { RowLook::Minor } else { RowLook::Row }
}

/// What may be kept of a transactor: what a Checkpoint saved, its opening state, or nothing (docs/formats.md, "Pictures").
#[derive(Clone, Copy)]
pub enum EndLook {
    Kept,
    First,
    None,
}
