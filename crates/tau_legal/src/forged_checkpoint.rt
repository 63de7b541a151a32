//! The forged checkpoint.
ghost use Rattle.tau_past.specs.Safety.{Safe};
ghost use Rattle.tau_past.specs.Audits.{IsBroken};
ghost use Rattle.tau_legal.specs.VolatileSource.{source_point};
ghost use Rattle.tau_legal.specs.ForgedCheckpoint.{forged_run};

/// The run isn't safe: the first Checkpoint that breaks its safety stands at place 8. The past of its point holds the
/// source's point, the least that is rolled back there, by the step at place 10 (docs/definitions.md, "Safe").
pub fn forged_checkpoint_is_unsafe()
    ensures broken { IsBroken forged_run 8 source_point 10 }
    ensures is_unsafe { ¬ Safe forged_run }
{}
