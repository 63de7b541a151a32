ghost use Rattle.std.specs.Prelude.{◌≡◌, IfOk};

use std::alloc::AllocError;
use tau_history::History;

/// The history of one transactor.
#[derive(Drop)]
pub(crate) struct Entry {
    pub(crate) who: u32,
    pub(crate) history: History,
}

impl Entry {
    /// The same entry; the history is shared with the original.
    pub(crate) fn copy(&self) -> Result<Entry, AllocError>
        ensures who { IfOk result (λ e. e.who ≡ self.now.who) }
        ensures history { IfOk result (λ e. e.history.history ≡ self.now.history.history) }
    {
        let history = self.history.copy()?;
        Ok(Entry {
            who: self.who,
            history,
        })
    }
}
