//! The places that are drawn.
ghost use Rattle.std.specs.Prelude.{◌≡◌, ◌↔◌, ◌≤◌, IsTrue};
ghost use Rattle.tau_svg.specs.Shapes.Windows as windows;
ghost use Rattle.tau_svg.specs.Shapes.Windows.{window_of, IsDrawn};

/// The places that are drawn, from one up to another, which isn't drawn itself.
#[derive(Clone, Copy)]
pub struct Window {
    pub from: u32,
    pub to: u32,
}

/// The window of a run with so many steps, for the places that were asked for: at most 2,000 steps (docs/formats.md,
/// "Pictures").
pub fn window_of(len: u32, from: u32, to: u32) -> Window
    ensures window { result ≡ window_of len from to }
    ensures ordered { result.from ≤ result.to }
    ensures few { windows.count result ≤ 2000 }
{
    let first = from.min(len);
    let most = first.saturating_add(2000).min(len);
    Window {
        from: first,
        to: to.max(first).min(most),
    }
}

impl Window {
    /// Whether a place is drawn.
    pub fn has(self, place: u32) -> bool
        ensures { IsTrue result ↔ IsDrawn self place }
    {
        self.from <= place && place < self.to
    }

    /// How many places are drawn.
    pub fn count(self) -> u32
        requires { self.from ≤ self.to }
        ensures { result ≡ windows.count self }
    {
        self.to - self.from
    }

    /// The row of a place: how many drawn places stand before it.
    pub fn row(self, place: u32) -> u32
        requires { self.from ≤ self.to }
        ensures row { result ≡ windows.row_of self place }
        ensures within { result ≤ windows.count self }
    {
        place.max(self.from).min(self.to) - self.from
    }
}
