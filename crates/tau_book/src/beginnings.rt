//! Laws of a hand with which a run begins or goes on, each the contract of a function that does nothing.
ghost use Rattle.tau_book.specs.Beginnings.{OpenedIsAtWork, OpenedHasAllJobs, AdoptedIsAtWork, AdoptedHasAllJobs};

/// An empty hand over a book without steps, as `Hand::new` and `Book::open` make them, is at work with its seed behind the run without
/// steps (docs/definitions.md, "Run after a run").
pub fn opened_is_at_work()
    ensures { OpenedIsAtWork }
{}

/// And it has all jobs (docs/rules.md, "Workers").
pub fn opened_has_all_jobs()
    ensures { OpenedHasAllJobs }
{}

/// An empty hand, as `Hand::new` makes it, is at work with its seed behind the run of a book that had no returned jobs and has adopted, as
/// `Book::adopt` does (docs/definitions.md, "Run after a run").
pub fn adopted_is_at_work()
    ensures { AdoptedIsAtWork }
{}

/// An empty hand has all jobs over a book that had none and has adopted, as `Book::adopt` does (docs/rules.md, "Workers").
pub fn adopted_has_all_jobs()
    ensures { AdoptedHasAllJobs }
{}
