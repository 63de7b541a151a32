//! Laws of what a search tells, each the contract of a function that does nothing.
ghost use Rattle.tau_versions.specs.Search.Laws.{ListedNumbersTell, NumbersTogether, OwnSearchTellsFalls, RootSearchTellsDrops, OwnSearchTellsFreedom, SearchesJoin};

use tau_past::AnyPlaces;

/// A version of one transactor and a list with a number for each other one tell what was heard, where each number does
/// (docs/definitions.md, "Bound").
pub fn listed_numbers_tell<H: AnyPlaces>()
    ensures { ListedNumbersTell H.holds }
{}

/// What a transactor and a message have heard together is, of each transactor, the later version (docs/definitions.md,
/// "Bound").
pub fn numbers_together()
    ensures { NumbersTogether }
{}

/// The search from the own point decides whether a message makes its receiver fall (docs/definitions.md, "Verdict").
pub fn own_search_tells_falls()
    ensures { OwnSearchTellsFalls }
{}

/// The search from the roots of a message decides whether it is dropped (docs/definitions.md, "Verdict").
pub fn root_search_tells_drops()
    ensures { RootSearchTellsDrops }
{}

/// The search from the own point decides whether a transactor is free (docs/definitions.md, "Free").
pub fn own_search_tells_freedom()
    ensures { OwnSearchTellsFreedom }
{}

/// A search from two lists together finds what the searches from each of them find.
pub fn searches_join()
    ensures { SearchesJoin }
{}
