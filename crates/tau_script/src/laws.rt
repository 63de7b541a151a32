//! Laws of scripts, each the contract of a function that does nothing.
ghost use Rattle.tau_script.specs.Laws.{ScriptsAreDetermined, ScriptsAreLocal, CursorsGoOn, DueStepsHaveObjects, CompleteRunsHaveNoFailures};

/// At each place of each run there is exactly one cursor, and exactly one step is due or none is (docs/rules.md, "Scripts").
pub fn scripts_are_determined()
    ensures { ScriptsAreDetermined }
{}

/// The cursor and the due step of a place read the opening and the steps before it alone.
pub fn scripts_are_local()
    ensures { ScriptsAreLocal }
{}

/// After one more step the cursor comes to where the due step, if one was, moves it (docs/rules.md, "Scripts").
pub fn cursors_go_on()
    ensures { CursorsGoOn }
{}

/// A due Fail is that of a transactor that exists and has not ended, and a due Lose or Repeat that of a
/// message in flight (docs/rules.md, "Scripts").
pub fn due_steps_have_objects()
    ensures { DueStepsHaveObjects }
{}

/// At a complete run the script allows no Fail, no Lose and no Repeat (docs/rules.md, "Complete").
pub fn complete_runs_have_no_failures()
    ensures { CompleteRunsHaveNoFailures }
{}
