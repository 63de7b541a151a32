//! Laws of decisions on every type of view, each the contract of a function that does nothing.
ghost use Rattle.tau_view.specs.Trim.{trim};
ghost use Rattle.tau_view.specs.Fate.DecisionKinds.{VerdictKindIgnoresTrim, FreedomKindIgnoresTrim, VerdictPointStays, FreedomPointStays};

use crate::View;

/// On settled facts, what a type of view drops changes neither the kind of a verdict nor that of freedom. For a verdict
/// each history of the message's view precedes the history of the same transactor in the receiver's merged facts.
pub fn kinds_ignore_trim<V: View>()
    ensures verdict { VerdictKindIgnoresTrim (trim V.drops_edge V.drops_root) }
    ensures freedom { FreedomKindIgnoresTrim (trim V.drops_edge V.drops_root) }
{}

/// Whatever the facts, the point that a verdict names on what a type of view keeps is Fallen in the known past by the whole
/// facts too, and the point that isn't firm on it isn't firm there.
pub fn named_points_stay<V: View>()
    ensures verdict { VerdictPointStays (trim V.drops_edge V.drops_root) }
    ensures freedom { FreedomPointStays (trim V.drops_edge V.drops_root) }
{}
