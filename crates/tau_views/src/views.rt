//! The views of a run, and a change of them.
ghost use Rattle.std.specs.Prelude.{◌≡◌, None, Some};

use tau_view::View;

/// A view of each transactor of a run, and of each of its messages in flight, by their numbers. What they hold is what
/// was heard, without what their type of view drops.
#[derive(Drop)]
pub struct Views<V: View + Drop> {
    pub own: Vec<V>,
    pub letters: Vec<Option<V>>,
}

/// What a step changes in the views, with all memory that it takes.
#[derive(Drop)]
pub struct ViewChange<V: View + Drop> {
    /// The view of the transactor with this number.
    pub own: Option<(u32, V)>,
    /// The view of a transactor that the step makes.
    pub newborn: Option<V>,
    /// The view of a message that the step makes.
    pub letter: Option<V>,
    /// The message that the step takes out of flight.
    pub gone: Option<u32>,
}

impl<V: View + Drop> ViewChange<V> {
    /// A change of one transactor's view, and of a message that is out of flight then, if there is one.
    pub(crate) fn own(who: u32, view: V, gone: Option<u32>) -> ViewChange<V>
        ensures { result ≡ record { own = Some (who, view); newborn = None; letter = None; gone = gone } }
    {
        ViewChange {
            own: Some((who, view)),
            newborn: None,
            letter: None,
            gone,
        }
    }
}
