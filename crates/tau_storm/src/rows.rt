//! The rows of a table.
ghost use Rattle.std.specs.Prelude.{◌≡◌, ◌<◌, IfOk, OnOk};
ghost use Rattle.indexmap.specs.IndexMap.{index_map_len};
ghost use Rattle.tau_storm.specs.Inner.Counting as counting;
ghost use Rattle.tau_storm.specs.Inner.Counting.{first_row, row_with, AddsAt, AddsRow};

use crate::totals::added;
use indexmap::IndexMap;
use std::alloc::AllocError;
use tau_tree::Script;

/// What is counted and kept of the ends with the same lines.
#[derive(Drop)]
pub(crate) struct Row {
    /// How many ends have the lines.
    pub(crate) runs: u64,
    /// The seed of the simplest of them.
    pub(crate) seed: u64,
    /// How many faults it has.
    pub(crate) faults: u32,
    /// How many steps it has.
    pub(crate) steps: u32,
    /// The script of its program.
    pub(crate) script: Script,
}

impl Row {
    /// The row of one end.
    fn first(seed: u64, faults: u32, steps: u32, script: &Script) -> Result<Row, AllocError>
        ensures { IfOk result (λ r. r ≡ first_row seed faults steps script.now) }
    {
        Ok(Row {
            runs: 1,
            seed,
            faults,
            steps,
            script: script.copy()?,
        })
    }

    /// Whether an end with so many faults and steps is simpler than the one that is kept.
    fn is_behind(&self, faults: u32, steps: u32) -> bool
        ensures { result ≡ counting.is_simpler faults steps self.now }
    {
        faults < self.faults || faults == self.faults && steps < self.steps
    }

    /// Adds the ends of another row that came behind. The simpler end is kept, of equals the earlier one. Where the count doesn't fit
    /// 64 bits, the error is that of want of memory.
    fn add(&mut self, later: Row) -> Result<(), AllocError>
        ensures { OnOk result (self.new ≡ row_with self.old later) }
    {
        let runs = added(self.runs, later.runs)?;
        if self.is_behind(later.faults, later.steps) {
            *self = later;
        }
        self.runs = runs;
        Ok(())
    }
}

/// The rows of a table, by the bytes of their lines.
pub(crate) type Rows = IndexMap<Vec<u8>, Row>;

/// Adds a row to the one at a place.
fn add_at(rows: &mut Rows, place: usize, later: Row) -> Result<(), AllocError>
    requires { place < index_map_len rows.old }
    ensures { OnOk result (AddsAt place later rows.old.entries rows.new.entries) }
{
    let (_, row) = rows.pair_mut(place);
    row.add(later)
}

/// Adds a row to the one with the same lines, or behind the others where none has them.
pub(crate) fn add(rows: &mut Rows, lines: Vec<u8>, row: Row) -> Result<(), AllocError>
    ensures { OnOk result (AddsRow lines.items row rows.old.entries rows.new.entries) }
{
    match rows.get_index_of(lines.as_slice()) {
        Some(place) => add_at(rows, place, row),
        None => {
            rows.insert(lines, row)?;
            Ok(())
        }
    }
}

/// Notes an end with these lines.
pub(crate) fn note(
    rows: &mut Rows,
    lines: Vec<u8>,
    seed: u64,
    faults: u32,
    steps: u32,
    script: &Script,
) -> Result<(), AllocError>
    ensures { OnOk result (AddsRow lines.items (first_row seed faults steps script.now) rows.old.entries rows.new.entries) }
{
    add(rows, lines, Row::first(seed, faults, steps, script)?)
}
