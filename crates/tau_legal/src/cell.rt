//! The cell.
ghost use Rattle.tau_past.specs.Decisions.{Free};
ghost use Rattle.tau_past.specs.States.{SavedWith};
ghost use Rattle.tau_states.specs.Opening.{opening_states};
ghost use Rattle.tau_legal.specs.Traces.{Legal, Complete};
ghost use Rattle.tau_legal.specs.Cell.{adding_cell, cell_run, fifteen};

/// The run is legal and complete. At place 4 the cell is free, so its Checkpoint is legal, and it saves 15 with interval 1
/// (docs/definitions.md, "Free", "Complete", "State and saved state").
pub fn cell_is_saved()
    ensures legal { Legal adding_cell cell_run }
    ensures complete { Complete adding_cell cell_run }
    ensures free { Free cell_run 0 4 }
    ensures saved { SavedWith cell_run (opening_states adding_cell.starts) 0 1 fifteen }
{}
