//! The system: a run of a program, to which steps are appended.
ghost use Rattle.std.specs.Prelude.{◌≡◌, [], IfOk, option_copied};
ghost use Rattle.tau_tree.specs.Sound.{Sound};
ghost use Rattle.tau_trace.specs.Run.{len};
ghost use Rattle.tau_trace.specs.Known.{WellFormed, IsSound};
ghost use Rattle.tau_script.specs.Openings.{program_opening};
ghost use Rattle.tau_states.specs.Opening.{opening_states};
ghost use Rattle.tau_states.specs.Answers.{IsStateAfter, IsSavedAfter};
ghost use Rattle.tau_states.specs.Table.{opened_run};
ghost use Rattle.tau_legal.specs.Traces.{Fitting};
ghost use Rattle.tau_rules.specs.Records.{HasStarts, HasPosts};

use crate::records::Record;
use std::alloc::{AllocError, Global};
use std::marker::Model;
use tau_knowledge::Knowledge;
use tau_script::opening_of;
use tau_states::States;
use tau_trace::Trace;
use tau_tree::{Post, Program, Start};
use tau_value::Value;

/// A run of a program, to which one step at a time is appended (docs/rules.md, "Steps"). What is known of it is kept beside
/// it: the states, what was heard, each transactor's turn, and the values of the messages. Contracts see its program and its run.
#[derive(Drop)]
pub struct System<'p, K: Knowledge + Drop> {
    pub(crate) program: &'p Program,
    pub(crate) trace: Trace,
    pub(crate) states: States,
    pub(crate) known: K,
    pub(crate) records: Vec<Record>,
    pub(crate) values: Vec<Value>,
    pub(crate) alloc: Global,
}

impl<'p, K: Knowledge + Drop> Model for System<'p, K> {
    ghost use Rattle.std.specs.Coded.{codes};
    ghost use Rattle.tau_value.specs.Val.{val_code};
    ghost use Rattle.tau_tree.specs.Code.{code_code};
    ghost use Rattle.tau_rules.specs.System.{Core, IsSystem};

    ghost Value = { Core };

    ghost coded = { Prim.hlevel (codes, val_code, code_code) };

    ghost view = { λ s. record { program = s.program.now; run = s.trace.run } };

    ghost invariant = { λ s. IsSystem s.program.now s.trace.run s.states.records s.records.items s.values.items
        × K.knows s.known s.trace.run };
}

impl<'p, K: Knowledge + Drop> System<'p, K> {
    /// The system of a program before its first step. The error is want of memory.
    pub fn open(alloc: Global, program: &'p Program) -> Result<System<'p, K>, AllocError>
        requires { Sound program.now }
        ensures program { IfOk result (λ s. s.program ≡ program.entry.now) }
        ensures run { IfOk result (λ s. s.run ≡ record { opening = program_opening program.entry.now; steps = [] }) }
    {
        let values = posted_values(alloc, program.posts.items())?;
        let records = opening_records(alloc, program.starts.items())?;
        let known = K::open(alloc, program.starts.len(), program.posts.len())?;
        let states = States::open(alloc, &program.starts)?;
        let trace = opening_trace(alloc, program)?;
        Ok(System {
            program,
            trace,
            states,
            known,
            records,
            values,
            alloc,
        })
    }

    /// The run so far.
    pub fn trace(&self) -> &Trace
        ensures run { result.now.run ≡ self.now.run }
        ensures well_formed { WellFormed result.now.run }
        ensures fitting { Fitting self.now.program result.now.run }
    {
        let _length = self.trace.len();
        &self.trace
    }

    /// The run, given up by the system.
    pub fn into_trace(self) -> Trace
        ensures run { result.run ≡ self.entry.run }
        ensures well_formed { WellFormed result.run }
        ensures fitting { Fitting self.entry.program result.run }
    {
        let _length = self.trace.len();
        self.trace
    }

    /// The program.
    pub fn program(&self) -> &'p Program
        ensures program { result.now ≡ self.now.program }
        ensures sound { Sound result.now }
    {
        self.program
    }

    /// What is known of the run, in the form in which the system keeps it.
    pub fn known(&self) -> &K
        ensures knows { K.knows result.now self.now.run }
        ensures well_formed { WellFormed self.now.run }
    {
        &self.known
    }

    /// The state of a transactor; `None` exactly where it doesn't exist or has ended (docs/definitions.md, "State and
    /// saved state").
    pub fn state_of(&self, who: u32) -> Option<&Value>
        ensures { IsStateAfter self.now.run (opening_states self.now.program.starts) who (option_copied result) }
    {
        self.states.state_of(who)
    }

    /// What a transactor saved with the interval before its own; `None` exactly where it doesn't exist or is at interval 0.
    pub fn saved_of(&self, who: u32) -> Option<&Value>
        ensures { IsSavedAfter self.now.run (opening_states self.now.program.starts) who (option_copied result) }
    {
        self.states.saved_of(who)
    }
}

/// The trace of a program before its first step.
fn opening_trace(alloc: Global, program: &Program) -> Result<Trace, AllocError>
    requires { Sound program.now }
    ensures run { IfOk result (λ t. t.run ≡ opened_run (program_opening program.now)) }
    ensures sound { IfOk result (λ _. IsSound (program_opening program.now)) }
{
    let opening = opening_of(alloc, program)?;
    Trace::begin(alloc, opening)
}

/// The records of the starts before the first step.
fn opening_records(alloc: Global, starts: &[Start]) -> Result<Vec<Record>, AllocError>
    ensures { IfOk result (λ v. HasStarts starts.now v.items) }
{
    let mut records = Vec::with_capacity(alloc, starts.len())?;
    for start in starts {
        records.push(Record::idle(alloc, start.behaviour))?;
    }
    Ok(records)
}

/// The values of the posts.
fn posted_values(alloc: Global, posts: &[Post]) -> Result<Vec<Value>, AllocError>
    ensures { IfOk result (λ v. HasPosts posts.now v.items) }
{
    let mut values = Vec::with_capacity(alloc, posts.len())?;
    for post in posts {
        values.push(post.value.copy()?)?;
    }
    Ok(values)
}
