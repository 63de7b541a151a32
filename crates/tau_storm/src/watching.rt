//! What is told of a storm while its runs are made.

use std::alloc::AllocError;
use tau_book::OpenGate;
use tau_faults::{Ran, Visit};
use tau_tree::Program;

/// What is told of a storm while its runs are made, by each worker on its own thread. No clause says what it does with it, and nothing
/// that is told of the storm at the end depends on it. All calls return.
pub trait Watch {
    /// The storm begins; it is over so many seeds. Who asks for the storm tells so.
    fn begin(&self, seeds: u32);

    /// A worker has made a run, and has found so many outcomes by now.
    fn run_made(&self, outcomes: usize);

    /// A worker has made all runs of a seed.
    fn seed_done(&self);

    /// The storm has ended, which who asked for it tells too.
    fn end(&self);
}

/// The open gate passes over what it is told.
impl Watch for OpenGate {
    fn begin(&self, _seeds: u32) {}

    fn run_made(&self, _outcomes: usize) {}

    fn seed_done(&self) {}

    fn end(&self) {}
}

/// What finds outcomes.
pub(crate) trait Find {
    /// How many outcomes it has found.
    fn found(&self) -> usize;
}

/// A visitor, and what is told of each of its visits.
#[derive(Drop)]
pub(crate) struct Watched<'w, V, W> {
    pub(crate) visitor: V,
    pub(crate) watch: &'w W,
}

impl<'w, V: Visit + Find, W: Watch> Visit for Watched<'w, V, W> {
    ghost visits = { λ old e new. V.visits old.visitor e new.visitor };

    fn visit(
        &mut self,
        program: &Program,
        seed: u64,
        faults: u32,
        ran: &Ran,
    ) -> Result<(), AllocError> {
        self.visitor.visit(program, seed, faults, ran)?;
        self.watch.run_made(self.visitor.found());
        Ok(())
    }
}
