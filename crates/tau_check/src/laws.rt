//! Laws of the check, each the contract of a function that does nothing.
ghost use Rattle.tau_check.specs.Families.{OneStepOfAFamilyFits};

/// Of the receipts of a message, and of the steps of a transactor's open turn, one fits at most (docs/definitions.md,
/// "Fitting and legal steps").
pub fn one_step_of_a_family_fits()
    ensures { OneStepOfAFamilyFits }
{}
