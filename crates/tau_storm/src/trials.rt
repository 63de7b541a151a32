//! Trials of a claim.
ghost use Rattle.std.specs.Prelude.{◌≡◌, ◌++◌, [], ℕ, List, IfOk, OnOk};
ghost use Rattle.tau_faults.specs.Ends.{End};
ghost use Rattle.tau_storm.specs.Inner.Claiming.{IsTrial, TellsTrial};

use crate::Table;
use crate::claims::holds;
use crate::storms::{Told, told_of};
use crate::watching::Find;
use std::alloc::{AllocError, Global};
use tau_faults::{Ran, Visit};
use tau_tree::Program;

/// A behaviour that is tried as a claim at each end that is shown: the table of all of them, and that of those at which it is broken.
#[derive(Drop)]
pub(crate) struct Trial {
    alloc: Global,
    behaviour: u32,
    pub(crate) all: Table,
    pub(crate) broken: Table,
}

/// What is told of the ends that a trial was shown, and of those at which the claim is broken.
#[derive(Drop)]
pub(crate) struct TrialTold {
    pub(crate) all: Told,
    pub(crate) broken: Told,
}

impl Trial {
    /// The trial of the behaviour with this number, before an end was shown.
    pub(crate) fn new(alloc: Global, behaviour: u32) -> Trial
        ensures { IsTrial behaviour [] result }
    {
        Trial {
            alloc,
            behaviour,
            all: Table::new(alloc),
            broken: Table::new(alloc),
        }
    }

    /// What is told of the ends. The error is want of memory.
    pub(crate) fn told(self, alloc: Global) -> Result<TrialTold, AllocError>
        ensures { IfOk result (λ t. (behaviour : ℕ) (ends : List End) → IsTrial behaviour ends self → TellsTrial behaviour ends t) }
    {
        let all = told_of(alloc, self.all)?;
        let broken = told_of(alloc, self.broken)?;
        Ok(TrialTold { all, broken })
    }

    /// Adds what a trial of the same behaviour told of ends that came behind. The error is want of memory, or of numbers.
    pub(crate) fn append(&mut self, later: TrialTold) -> Result<(), AllocError>
        ensures { OnOk result ((behaviour : ℕ) (ends more : List End) → IsTrial behaviour ends self.old → TellsTrial behaviour more later
            → IsTrial behaviour (ends ++ more) self.new) }
    {
        self.all.append(later.all)?;
        self.broken.append(later.broken)
    }
}

impl Find for Trial {
    fn found(&self) -> usize {
        self.all.found()
    }
}

impl Visit for Trial {
    ghost use Rattle.std.specs.Prelude.{◌++◌, ◌∷◌, [], ℕ, List};
    ghost use Rattle.tau_faults.specs.Ends.{End};
    ghost use Rattle.tau_storm.specs.Inner.Claiming.{IsTrial};

    ghost visits = { λ old e new. (behaviour : ℕ) (ends : List End) → IsTrial behaviour ends old → IsTrial behaviour (ends ++ e ∷ []) new };

    /// Notes the end in the table of all, and where the claim is broken at it, in that of those.
    fn visit(
        &mut self,
        program: &Program,
        seed: u64,
        faults: u32,
        ran: &Ran,
    ) -> Result<(), AllocError> {
        self.all.visit(program, seed, faults, ran)?;
        if holds(self.alloc, self.behaviour, program, &ran.trace)? {
            return Ok(());
        }
        self.broken.visit(program, seed, faults, ran)
    }
}
