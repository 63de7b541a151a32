//! Laws of effects and values, each the contract of a function that does nothing.
ghost use Rattle.tau_eval.specs.Known.{EffectsAreKnown};
ghost use Rattle.tau_eval.specs.Same.{SameValuesAreEqual};

/// Where the names and texts of a body are in order, and the own number, the message and the replies are known, the next
/// effect names only what exists, its values are in bounds, and a trap has one of the codes (docs/language.md, "Traps").
pub fn effects_are_known()
    ensures { EffectsAreKnown }
{}

/// The test of `=` is true exactly of equal values (docs/language.md, "Expressions").
pub fn same_values_are_equal()
    ensures { SameValuesAreEqual }
{}
