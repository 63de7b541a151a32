//! The volatile source.
ghost use Rattle.tau_trace.specs.declared.step.Step.TheVariants as steps;
ghost use Rattle.tau_past.specs.Safety.{Safe};
ghost use Rattle.tau_legal.specs.Fits.{Fits};
ghost use Rattle.tau_legal.specs.VolatileSource.{volatile_source, held_run, saved_run, DependsOnSource};

/// At place 8 a Hold of the sink fits and no Checkpoint does, since the sink's state depends on the source's, which is
/// volatile (docs/definitions.md, "Free", "Fitting and legal steps").
pub fn volatile_source_is_held()
    ensures hold { Fits volatile_source held_run 8 (steps.Hold 1) }
    ensures no_checkpoint { ¬ Fits volatile_source held_run 8 (steps.Checkpoint 1) }
    ensures cause { DependsOnSource held_run }
{}

/// With a Checkpoint in place of the Hold the run isn't legal. It is safe all the same, since nothing falls
/// (docs/definitions.md, "Safe").
pub fn unearned_checkpoint_may_be_safe()
    ensures illegal { ¬ Fits volatile_source saved_run 8 (steps.Checkpoint 1) }
    ensures safe { Safe saved_run }
{}
