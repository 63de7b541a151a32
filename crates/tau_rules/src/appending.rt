//! One step more.
ghost use Rattle.std.specs.Prelude.{◌≡◌, ◌<◌, IfOk, OnOk, OnErr, vec_len};
ghost use Rattle.std.specs.Vec.{vec_capacity};
ghost use Rattle.tau_trace.specs.Run.{len};
ghost use Rattle.tau_trace.specs.Known.{MayFollow};
ghost use Rattle.tau_legal.specs.Fits.{Fits as FitsAt};
ghost use Rattle.tau_rules.specs.Records.{Changes, sent_value, with_sent, with_newborn};
ghost use Rattle.tau_rules.specs.System.{with_step};

use crate::System;
use crate::records::{Record, RecordChange, change_record, newborn_of};
use std::alloc::AllocError;
use tau_knowledge::Knowledge;
use tau_trace::Step;
use tau_value::Value;

impl<'p, K: Knowledge + Drop> System<'p, K> {
    /// Appends a step, with what it changes in the record of the transactor that makes it. All memory is taken before the
    /// first change.
    pub(crate) fn append(&mut self, step: Step, change: RecordChange) -> Result<(), AllocError>
        requires known { MayFollow self.old.run step }
        requires fits { FitsAt self.old.program self.old.run (len self.old.run) step }
        requires change { Changes self.old.program self.old.run step change }
        ensures ok { OnOk result (self.new ≡ with_step self.old step) }
        ensures err { OnErr result (self.new ≡ self.old) }
    {
        let states = self.states.prepare(&step)?;
        let heard = self.known.prepare(self.alloc, &self.trace, &step)?;
        let sent = sent_copy(&self.values, &step)?;
        let newborn = newborn_of(self.alloc, &step);
        self.trace.reserve()?;
        self.states.reserve()?;
        self.values.reserve(1)?;
        self.records.reserve(1)?;
        change_record(self.alloc, &mut self.records, step.actor(), change)?;
        keep_newborn(&mut self.records, newborn);
        self.trace.push_spare(step);
        self.states.apply(states);
        self.known.apply(heard);
        keep_sent(&mut self.values, sent);
        Ok(())
    }
}

/// Adds the record of a transactor that the step makes, in the room that there is.
fn keep_newborn(records: &mut Vec<Record>, newborn: Option<Record>)
    requires { vec_len records.old < vec_capacity records.old }
    ensures { records.new.items ≡ with_newborn records.old.items newborn }
{
    if let Some(record) = newborn {
        records.push_reserved(record);
    }
}

/// Adds the value of the message that a step makes, in the room that there is.
fn keep_sent(values: &mut Vec<Value>, sent: Option<Value>)
    requires { vec_len values.old < vec_capacity values.old }
    ensures { values.new.items ≡ with_sent values.old.items sent }
{
    if let Some(value) = sent {
        values.push_reserved(value);
    }
}

/// The value of the message that a step makes, where these are the values so far. The error is want of memory.
fn sent_copy(values: &Vec<Value>, step: &Step) -> Result<Option<Value>, AllocError>
    ensures { IfOk result (λ v. v ≡ sent_value values.now.items step.now) }
{
    match step {
        Step::Send { value, .. } => Ok(Some(value.copy()?)),
        Step::Echo { .. } => Ok(Some(Value::Unit)),
        Step::Repeat { message } => match values.get(*message as usize) {
            Some(value) => Ok(Some(value.copy()?)),
            None => Ok(None),
        },
        _ => Ok(None),
    }
}
