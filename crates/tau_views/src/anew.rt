//! The views of a run, made anew.
ghost use Rattle.std.specs.Prelude.{◌≡◌, [], IfOk, OnOk};
ghost use Rattle.tau_tree.specs.Sound.{Sound};
ghost use Rattle.tau_trace.specs.Run.{appended};
ghost use Rattle.tau_trace.specs.Known.{MayFollow};
ghost use Rattle.tau_script.specs.Openings.{program_opening};
ghost use Rattle.tau_knowledge.specs.Knowing.{IsReady};
ghost use Rattle.tau_views.specs.Kept.{AreViews, held_of, letters_of};

use crate::views::Views;
use std::alloc::{AllocError, Global};
use tau_knowledge::Knowledge;
use tau_rules::System;
use tau_script::opening_of;
use tau_trace::{Step, Trace};
use tau_tree::Program;
use tau_view::View;

/// The views of what a system's transactors and its messages in flight have heard, without what this type of view drops
/// (docs/definitions.md, "View of what was heard"), whatever the form in which the system keeps what was heard. They are made step
/// by step, over a copy of the run. The error is want of memory.
pub fn views_of<K: Knowledge + Drop, V: View + Drop>(
    alloc: Global,
    system: &System<'_, K>,
) -> Result<Views<V>, AllocError>
    ensures { IfOk result (λ v. AreViews V.drops_edge V.drops_root system.now.run (held_of V.held v.own.items) (letters_of V.held v.letters.items)) }
{
    let trace = system.trace();
    let mut front: Front<V> = Front::open(alloc, system.program())?;
    for place in 0..trace.len() {
        match trace.step(place) {
            Some(step) => front.note(alloc, step)?,
            None => unreachable!(),
        }
    }
    Ok(front.views)
}

/// The first steps of a run, and their views.
#[derive(Drop)]
struct Front<V: View + Drop> {
    trace: Trace,
    views: Views<V>,
}

impl<V: View + Drop> Front<V> {
    /// No step of a run of the program.
    fn open(alloc: Global, program: &Program) -> Result<Front<V>, AllocError>
        requires { Sound program.now }
        ensures run { IfOk result (λ f. f.trace.run ≡ record { opening = program_opening program.now; steps = [] }) }
        ensures views { IfOk result (λ f. AreViews V.drops_edge V.drops_root f.trace.run (held_of V.held f.views.own.items) (letters_of V.held f.views.letters.items)) }
    {
        let trace = Trace::begin(alloc, opening_of(alloc, program)?)?;
        Ok(Front {
            trace,
            views: Views::open(alloc, program.starts.len(), program.posts.len())?,
        })
    }

    /// The next step of the run.
    fn note(&mut self, alloc: Global, step: &Step) -> Result<(), AllocError>
        requires views { AreViews V.drops_edge V.drops_root self.old.trace.run (held_of V.held self.old.views.own.items) (letters_of V.held self.old.views.letters.items) }
        requires follows { MayFollow self.old.trace.run step.now }
        requires ready { IsReady self.old.trace.run step.now }
        ensures run { OnOk result (self.new.trace.run ≡ appended self.old.trace.run step.now) }
        ensures views { OnOk result (AreViews V.drops_edge V.drops_root self.new.trace.run (held_of V.held self.new.views.own.items) (letters_of V.held self.new.views.letters.items)) }
    {
        let copy = step.copy()?;
        let change = self.views.prepare(alloc, &self.trace, step)?;
        self.trace.reserve()?;
        self.trace.push_spare(copy);
        self.views.apply(change);
        Ok(())
    }
}
