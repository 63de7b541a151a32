//! The source that rolls back.
ghost use Rattle.tau_trace.specs.declared.step.Step.TheVariants as steps;
ghost use Rattle.tau_legal.specs.Fits.{Fits};
ghost use Rattle.tau_legal.specs.RolledBackSource.{rolled_back_source, dropping_run};

/// At place 11 a Fall of the sink fits, since its state depends on the one that was rolled back. At place 12 a Drop of the second
/// message fits, since what it carries was rolled back, and nothing on which the sink still depends
/// (docs/definitions.md, "Verdict", "Fitting and legal steps").
pub fn rolled_back_source_is_dropped()
    ensures fall { Fits rolled_back_source dropping_run 11 (steps.Fall 1 4) }
    ensures drop { Fits rolled_back_source dropping_run 12 (steps.Drop 1 3) }
{}
