//! Laws of records, each the contract of a function that does nothing.
ghost use Rattle.tau_journal.specs.Laws.{RecordsAreUnique, RecordsAreWhole, DamageIsUnique};

/// A file has one list of records at most.
pub fn records_are_unique()
    ensures { RecordsAreUnique }
{}

/// No file has records and is damaged.
pub fn records_are_whole()
    ensures { RecordsAreWhole }
{}

/// A file is damaged at one place at most.
pub fn damage_is_unique()
    ensures { DamageIsUnique }
{}
