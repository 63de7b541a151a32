//! Laws of states, each the contract of a function that does nothing.
ghost use Rattle.tau_states.specs.Laws.{StatesAreUnique, SavedStatesAreUnique, StatesAreInBounds};

/// A transactor has at most one state at a point (docs/definitions.md, "State and saved state").
pub fn states_are_unique()
    ensures { StatesAreUnique }
{}

/// With an interval a transactor saved at most one value (docs/definitions.md, "State and saved state").
pub fn saved_states_are_unique()
    ensures { SavedStatesAreUnique }
{}

/// States and saved states are in bounds, where the opening states are (docs/limits.md).
pub fn states_are_in_bounds()
    ensures { StatesAreInBounds }
{}
