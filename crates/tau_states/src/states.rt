//! Tables of states.
ghost use Rattle.std.specs.Prelude.{◌≡◌, ℕ, ◌<◌, ◌≤◌, List, length, map, slice_get, IsTrue, IsFalse, IfOk, OnOk, OnErr, option_copied};
ghost use Rattle.tau_value.specs.declared.shared.Value.{Value};
ghost use Rattle.tau_trace.specs.declared.opening.Opening.{Opening};
ghost use Rattle.tau_trace.specs.Run.{Run, len};
ghost use Rattle.tau_trace.specs.Numbering.{born};
ghost use Rattle.tau_trace.specs.Histories.{history};
ghost use Rattle.tau_states.specs.Opening.{opening_states};
ghost use Rattle.tau_trace.specs.Steps.{actor};
ghost use Rattle.tau_states.specs.Effects.{changed, started, noted_of, records_after};
ghost use Rattle.tau_states.specs.Table.{Holds, Advances, opened_run};
ghost use Rattle.tau_states.specs.Answers.{IsStateAfter, IsSavedAfter, IsIntervalAfter};

use crate::change::Change;
use crate::state_record::StateRecord;
use std::alloc::{AllocError, Global};
use std::marker::Model;
use tau_trace::Step;
use tau_tree::{Start, Starts};
use tau_value::Value;

/// What each transactor has after a run: a record for each, by number (docs/definitions.md, "State and saved state").
/// A step is noted in constant time. Contracts see the records, and whether one more fits without memory; a table is
/// told by the runs that it holds.
#[derive(Drop)]
pub struct States {
    items: Vec<StateRecord>,
}

impl Model for States {
    ghost use Rattle.std.specs.Prelude.{nat_lt, vec_len};
    ghost use Rattle.std.specs.Vec.{vec_capacity};
    ghost use Rattle.tau_states.specs.Table.{Table};
    ghost use Rattle.std.specs.Coded.{codes};
    ghost use Rattle.tau_value.specs.Val.{val_code};

    ghost Value = { Table };

    ghost coded = { Prim.hlevel (codes, val_code) };

    ghost view = { λ s. record { records = s.items.items; ready = nat_lt (vec_len s.items) (vec_capacity s.items) } };
}

impl States {
    /// The states before the first step. The error is want of memory.
    pub fn open(alloc: Global, starts: &Starts) -> Result<States, AllocError>
        ensures { IfOk result (λ s. (o : Opening) → length o.names ≡ length starts.now
            → Holds (opened_run o) (opening_states starts.now) s.records) }
    {
        Ok(States {
            items: started_records(alloc, starts.items())?,
        })
    }

    /// Makes room, so that one change can be applied without memory.
    pub fn reserve(&mut self) -> Result<(), AllocError>
        ensures records { self.new.records ≡ self.old.records }
        ensures ok { OnOk result (IsTrue self.new.ready) }
        ensures ready { IsTrue self.old.ready → IsTrue self.new.ready }
    {
        self.items.reserve(1)
    }

    /// What a step changes, with all memory that it takes. The error is want of memory.
    pub fn prepare(&self, step: &Step) -> Result<Change, AllocError>
        ensures { IfOk result (λ c. Advances step.now self.now.records (changed c self.now.records)) }
    {
        self.change_of(step)
    }

    /// The change that leads to the records after the step.
    fn change_of(&self, step: &Step) -> Result<Change, AllocError>
        ensures { IfOk result (λ c. changed c self.now.records ≡ records_after step.now self.now.records) }
    {
        match step {
            Step::New { state, .. } => Ok(Change::New {
                state: state.copy()?,
                base: state.copy()?,
            }),
            _ => self.own_change(step),
        }
    }

    /// The change of the record of the transactor that makes the step.
    fn own_change(&self, step: &Step) -> Result<Change, AllocError>
        ensures { IfOk result (λ c. changed c self.now.records ≡ noted_of step.now self.now.records (actor step.now)) }
    {
        let Some(who) = step.actor() else {
            return Ok(Change::Nothing);
        };
        match self.record_of(who) {
            Some(record) => Ok(Change::Own {
                who,
                effect: record.effect_of(step)?,
            }),
            None => Ok(Change::Nothing),
        }
    }

    /// Applies a change, in the room that there is, without memory.
    pub fn apply(&mut self, change: Change)
        requires { IsTrue self.old.ready }
        ensures { self.new.records ≡ changed change self.old.records }
    {
        match change {
            Change::Nothing => {}
            Change::Own { who, effect } => {
                if (who as usize) < self.items.len() {
                    self.items[who as usize].take(effect);
                }
            }
            Change::New { state, base } => {
                self.items.push_reserved(StateRecord::created(state, base));
            }
        }
    }

    /// Notes the next step of the run. Without memory the table stays as it was.
    pub fn note(&mut self, step: &Step) -> Result<(), AllocError>
        ensures ok { OnOk result (Advances step.now self.old.records self.new.records) }
        ensures err { OnErr result (self.new.records ≡ self.old.records) }
    {
        let change = self.prepare(step)?;
        self.reserve()?;
        self.apply(change);
        Ok(())
    }

    /// The state of a transactor; `None` where it doesn't exist or has ended.
    pub fn state_of(&self, who: u32) -> Option<&Value>
        ensures { (T : Run) (opening : List Value) → Holds T opening self.now.records
            → IsStateAfter T opening who (option_copied result) }
    {
        let record = self.record_of(who)?;
        if record.ended {
            return None;
        }
        Some(&record.state)
    }

    /// What a transactor saved with the interval before its own; `None` where it doesn't exist or is at interval 0.
    pub fn saved_of(&self, who: u32) -> Option<&Value>
        ensures { (T : Run) (opening : List Value) → Holds T opening self.now.records
            → IsSavedAfter T opening who (option_copied result) }
    {
        let record = self.record_of(who)?;
        if record.interval == 0 {
            return None;
        }
        Some(&record.base)
    }

    /// The interval of a transactor; `None` where it doesn't exist.
    pub fn interval_of(&self, who: u32) -> Option<u32>
        ensures { (T : Run) (opening : List Value) → Holds T opening self.now.records → IsIntervalAfter T who result }
    {
        Some(self.record_of(who)?.interval)
    }

    /// Whether a transactor is stable; false where it doesn't exist.
    pub fn is_stable(&self, who: u32) -> bool
        ensures stable { (T : Run) (opening : List Value) → Holds T opening self.now.records
            → who < born T (len T) → result ≡ (history T who (len T)).stable }
        ensures absent { (T : Run) (opening : List Value) → Holds T opening self.now.records
            → born T (len T) ≤ who → IsFalse result }
    {
        match self.record_of(who) {
            Some(record) => record.stable,
            None => false,
        }
    }

    /// The record of a transactor; `None` where it doesn't exist.
    pub fn record_of(&self, who: u32) -> Option<&StateRecord>
        ensures { option_copied result ≡ slice_get self.now.records who }
    {
        self.items.get(who as usize)
    }

    /// The records of all transactors, by number.
    pub fn records(&self) -> &[StateRecord]
        ensures { result.now ≡ self.now.records }
    {
        &self.items
    }
}

/// The records of start transactors before the first step.
fn started_records(alloc: Global, starts: &[Start]) -> Result<Vec<StateRecord>, AllocError>
    ensures { IfOk result (λ v. v.items ≡ map (λ s. started s.state) starts.now) }
{
    let mut records = Vec::with_capacity(alloc, starts.len())?;
    for start in starts {
        records.push(StateRecord::start(&start.state)?)?;
    }
    Ok(records)
}
