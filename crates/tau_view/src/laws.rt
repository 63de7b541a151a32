//! Laws of every type of view, each the contract of a function that does nothing.
ghost use Rattle.tau_view.specs.Trim.{trim};
ghost use Rattle.tau_view.specs.Laws.{NoteIgnoresTrim, TouchIgnoresTrim, DependIgnoresTrim, MergeIgnoresTrim, TakingRootsIgnoresTrim, ClearingRootsIgnoresTrim, FallenIgnoresTrim, NotFirmIgnoresTrim, SettledUnderTrim};
ghost use Rattle.tau_view.specs.Stays.{FallenPointsStay, NotFirmPointsStay};

use crate::view::View;

/// Under a call's own condition, what the rules give, trimmed, is the same whether the views that the call is given
/// were trimmed before or not.
pub fn calls_ignore_trim<V: View>()
    ensures note { NoteIgnoresTrim (trim V.drops_edge V.drops_root) }
    ensures touch { TouchIgnoresTrim (trim V.drops_edge V.drops_root) }
    ensures depend { DependIgnoresTrim (trim V.drops_edge V.drops_root) }
    ensures merge { MergeIgnoresTrim (trim V.drops_edge V.drops_root) }
    ensures take_roots { TakingRootsIgnoresTrim (trim V.drops_edge V.drops_root) }
    ensures clear_roots { ClearingRootsIgnoresTrim (trim V.drops_edge V.drops_root) }
{}

/// On settled facts, trimming the edges and taking Closed points out of a set of points changes neither whether its
/// known past has a Fallen point nor whether it has one that isn't firm.
pub fn decisions_ignore_trim<V: View>()
    ensures fallen { FallenIgnoresTrim (trim V.drops_edge V.drops_root) }
    ensures not_firm { NotFirmIgnoresTrim (trim V.drops_edge V.drops_root) }
{}

/// Whatever the facts, a Fallen point of the known past that trimmed facts have is one of that of the facts, and so is a point
/// that isn't firm.
pub fn points_stay<V: View>()
    ensures fallen { FallenPointsStay (trim V.drops_edge V.drops_root) }
    ensures not_firm { NotFirmPointsStay (trim V.drops_edge V.drops_root) }
{}

/// Settled facts stay settled when they are trimmed.
pub fn settled_under_trim<V: View>()
    ensures { SettledUnderTrim (trim V.drops_edge V.drops_root) }
{}
