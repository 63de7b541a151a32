//! What is shown the ends of a storm.
ghost use Rattle.std.specs.Prelude.{◌≡◌, ℕ, length, OnOk};
ghost use Rattle.tau_tree.specs.Sound.{Sound};
ghost use Rattle.tau_legal.specs.Ends.{EndsAt};
ghost use Rattle.tau_faults.specs.Ends.{End};

use std::alloc::AllocError;
use tau_book::Ran;
use tau_tree::Program;

/// What is shown each end of a storm (docs/definitions.md, "Storm").
pub trait Visit {
    // What a visit of an end makes of the visitor.
    ghost visits: { Self → End → Self → Type 0 };

    /// Takes an end: the program with `faults` faults in its script, and what the serial run with this seed made of it. The error is
    /// want of memory.
    fn visit(
        &mut self,
        program: &Program,
        seed: u64,
        faults: u32,
        ran: &Ran,
    ) -> Result<(), AllocError>
        requires sound { Sound program.now }
        requires ends { (limit : ℕ) × EndsAt limit program.now ran.now.trace.run ran.now.is_complete }
        ensures { OnOk result ((e : End) → e.program ≡ program.now → e.seed ≡ seed → length e.faults ≡ faults → e.run ≡ ran.now.trace.run
            → visits self.old e self.new) };
}
