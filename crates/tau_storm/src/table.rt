//! The table of outcomes.
ghost use Rattle.std.specs.Prelude.{◌≡◌, ◌++◌, [], List, IfOk, OnOk};
ghost use Rattle.tau_faults.specs.Ends.{End};
ghost use Rattle.tau_storm.specs.Order.{AreOrdered};
ghost use Rattle.tau_storm.specs.Outcomes.{AreOutcomes, AreTotals};
ghost use Rattle.tau_storm.specs.Tables.{IsTable};

use crate::lines::lines_of;
use crate::order::sort;
use crate::outcomes::Outcomes;
use crate::rows::{Rows, note};
use crate::storms::Told;
use crate::told::{add_told, told};
use crate::totals::Totals;
use crate::watching::Find;
use indexmap::IndexMap;
use std::alloc::{AllocError, Global};
use std::marker::Model;
use tau_faults::{Ran, Visit};
use tau_tree::Program;

/// The outcomes of the ends that it was shown, each found by its lines, and their totals (docs/definitions.md, "Storm").
/// Memory grows with the outcomes, not with the ends.
#[derive(Drop)]
pub struct Table {
    rows: Rows,
    totals: Totals,
    alloc: Global,
}

impl Model for Table {
    ghost use Rattle.tau_storm.specs.Tables.{Tally};
    ghost use Rattle.tau_storm.specs.Inner.Counting.{outcomes_of};

    ghost Value = { Tally };

    ghost view = { λ t. record { outcomes = outcomes_of t.rows.entries; totals = t.totals } };
}

impl Table {
    /// The table of no ends. It takes no memory.
    pub fn new(alloc: Global) -> Table
        ensures { IsTable [] result }
    {
        Table {
            rows: IndexMap::new(alloc),
            totals: Totals::none(),
            alloc,
        }
    }

    /// The totals of the ends.
    pub fn totals(&self) -> Totals
        ensures { result ≡ self.now.totals }
    {
        self.totals
    }

    /// Adds what is told of ends that came behind: counts add, and of each outcome the simpler end is kept, of equals the earlier one.
    /// The error is want of memory, or of numbers: a count that doesn't fit 64 bits.
    pub fn append(&mut self, later: Told) -> Result<(), AllocError>
        ensures { OnOk result ((ends more : List End) → IsTable ends self.old → AreOutcomes more later.outcomes → AreTotals more later.totals
            → IsTable (ends ++ more) self.new) }
    {
        self.totals = self.totals.with(later.totals)?;
        add_told(&mut self.rows, later.outcomes)
    }

    /// The outcomes of the ends, in order (docs/formats.md, "Storm"). The error is want of memory.
    pub fn into_outcomes(self, alloc: Global) -> Result<Outcomes, AllocError>
        ensures { IfOk result (λ o. (ends : List End) → IsTable ends self → AreOrdered ends o) }
    {
        let mut outcomes = told(alloc, self.rows)?;
        sort(&mut outcomes)?;
        Ok(Outcomes::from_vec(outcomes))
    }
}

impl Find for Table {
    fn found(&self) -> usize {
        self.rows.len()
    }
}

impl Visit for Table {
    ghost use Rattle.std.specs.Prelude.{◌++◌, ◌∷◌, [], List};
    ghost use Rattle.tau_faults.specs.Ends.{End};
    ghost use Rattle.tau_storm.specs.Tables.{IsTable};

    ghost visits = { λ old e new. (ends : List End) → IsTable ends old → IsTable (ends ++ e ∷ []) new };

    /// Notes the lines by which the end's run ends. The end is kept where it is simpler than those before it that have the same
    /// lines.
    fn visit(
        &mut self,
        program: &Program,
        seed: u64,
        faults: u32,
        ran: &Ran,
    ) -> Result<(), AllocError> {
        let lines = lines_of(self.alloc, program, ran)?;
        let steps = ran.trace.len();
        self.totals = self.totals.after(ran.is_complete, steps)?;
        note(
            &mut self.rows,
            lines.into_vec(),
            seed,
            faults,
            steps,
            &program.script,
        )
    }
}
