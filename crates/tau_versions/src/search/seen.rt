//! What a search makes of a fate.
ghost use Rattle.std.specs.Prelude.{◌≡◌};
ghost use Rattle.tau_versions.specs.Search.Wanting.{test_of};
ghost use Rattle.tau_versions.specs.Search.Searching.{goes_on};

use tau_history::Fate;

/// What a search looks for.
#[derive(Clone, Copy)]
pub(crate) enum Wanted {
    /// A fallen point.
    AnyFallen,
    /// A point that is neither Stable nor Closed.
    AnyNotFirm,
}

impl Wanted {
    /// Whether the search looks for points of this fate.
    pub(crate) fn is(self, fate: Fate) -> bool
        ensures { result ≡ test_of self fate }
    {
        match self {
            Wanted::AnyFallen => matches!(fate, Fate::Fallen),
            Wanted::AnyNotFirm => !matches!(fate, Fate::Stable | Fate::Closed),
        }
    }
}

/// Whether a search goes on from a point of this fate to what the point has taken.
pub fn goes_on(fate: Fate) -> bool
    ensures { result ≡ goes_on fate }
{
    matches!(fate, Fate::Open | Fate::Stable)
}
