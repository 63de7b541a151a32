//! What can be wrong with the records of a journal behind the first.
ghost use Rattle.std.specs.Prelude.{◌≡◌};
ghost use Rattle.tau_run_journal.specs.Reading.{error_of};

use tau_journal::JournalError;

/// Why a record can't stand behind those before it (docs/journal.md, "Faults").
#[derive(Clone, Copy, Debug, PartialEq, Eq)]
pub enum RecordFault {
    /// The record with this number, counted from 0, is neither the text of a step that may stand there nor says that the run
    /// went on.
    Item { record: u64 },
    /// The record says that the run went on, and the program, whose script has so many entries, has no room to be revived.
    ScriptFull { entries: u64 },
}

impl RecordFault {
    /// The fault by its number and place (docs/journal.md, "Faults").
    pub fn error(self) -> JournalError
        ensures { result ≡ error_of self }
    {
        match self {
            RecordFault::Item { record } => JournalError::Fault {
                fault: 4,
                at: record,
            },
            RecordFault::ScriptFull { entries } => JournalError::Fault {
                fault: 6,
                at: entries,
            },
        }
    }
}
